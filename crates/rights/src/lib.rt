// The seventeen rights of 002 as one table, and the tests on rights numbers.
// A rights number is a sum of worths: right b is worth 2^b. Every call answers on every number;
// what is no right is worth 0, is had by nobody and may be granted by no machine.
#![tactic(auto)]

ghost use Rattle.std.specs.Prelude.{◌≡◌};
ghost use Rattle.rights.specs.Rights.{worth_of, machine_grants, is_rights, has_right, has_rights, bars_machine};

pub const READ: u32 = 0;

pub const WRITE: u32 = 1;

pub const EXECUTE: u32 = 2;

pub const DELETE: u32 = 3;

pub const DELEGATE: u32 = 4;

pub const NETWORK_EGRESS: u32 = 5;

pub const NETWORK_INGRESS: u32 = 6;

pub const FILE_SYSTEM: u32 = 7;

pub const PROCESS_SPAWN: u32 = 8;

pub const MEMORY_WRITE: u32 = 9;

pub const CREDENTIAL_READ: u32 = 10;

pub const CREDENTIAL_WRITE: u32 = 11;

pub const AUDIT_READ: u32 = 12;

pub const AUDIT_WRITE: u32 = 13;

pub const POLICY_READ: u32 = 14;

pub const REGISTRY_MODIFY: u32 = 15;

pub const POLICY_MODIFY: u32 = 16;

// What a right is worth in a rights number, and whether a machine may grant it.
#[derive(Clone, Copy)]
pub struct Right {
    pub worth: u32,
    pub machine: bool,
}

// How many rights there are.
pub const COUNT: usize = 17;

// The greatest rights number: all seventeen rights.
pub const RIGHTS_LIMIT: u32 = 131071;

// The rights in 002's order: the place of a right is its number.
pub const RIGHTS: [Right; COUNT] = [
    Right {
        worth: 1,
        machine: true,
    },
    Right {
        worth: 2,
        machine: true,
    },
    Right {
        worth: 4,
        machine: true,
    },
    Right {
        worth: 8,
        machine: true,
    },
    Right {
        worth: 16,
        machine: true,
    },
    Right {
        worth: 32,
        machine: true,
    },
    Right {
        worth: 64,
        machine: true,
    },
    Right {
        worth: 128,
        machine: true,
    },
    Right {
        worth: 256,
        machine: true,
    },
    Right {
        worth: 512,
        machine: true,
    },
    Right {
        worth: 1024,
        machine: true,
    },
    Right {
        worth: 2048,
        machine: true,
    },
    Right {
        worth: 4096,
        machine: true,
    },
    Right {
        worth: 8192,
        machine: false, // AUDIT_WRITE
    },
    Right {
        worth: 16384,
        machine: true,
    },
    Right {
        worth: 32768,
        machine: false, // REGISTRY_MODIFY
    },
    Right {
        worth: 65536,
        machine: false, // POLICY_MODIFY
    },
];

// What right `b` is worth in a rights number.
pub fn worth(b: u32) -> u32
    ensures { result ≡ worth_of b }
{
    let i = b as usize;
    if i < COUNT { RIGHTS[i].worth } else { 0 }
}

// Whether a machine may grant right `b`.
pub fn machine_grants(b: u32) -> bool
    ensures { result ≡ machine_grants b }
{
    let i = b as usize;
    if i < COUNT { RIGHTS[i].machine } else { false }
}

// Whether `n` is a rights number.
pub fn in_range(n: u32) -> bool
    ensures { result ≡ is_rights n }
{
    let last = worth(POLICY_MODIFY);
    if n == 0 {
        return false;
    }
    n < 2 * last
}

// Whether the rights number `n` has right `b`.
pub fn has(n: u32, b: u32) -> bool
    ensures { result ≡ has_right n b }
{
    if b <= POLICY_MODIFY {
        (n >> b) % 2 == 1
    } else {
        false
    }
}

// Whether the rights number `n` has every right of `m`.
pub fn has_all(n: u32, m: u32) -> bool
    ensures { result ≡ has_rights n m }
{
    let last = worth(POLICY_MODIFY);
    let asked = m & (2 * last - 1);
    asked & n == asked
}

// Whether the rights number `n` has a right that a machine may not grant. What it may not grant is read off the table, as one rights
// number: the sum of the worths of the rows that say so.
pub fn bars_machine(n: u32) -> bool
    ensures { result ≡ bars_machine n }
{
    let mut kept: u32 = 0;
    for right in &RIGHTS {
        if !right.machine {
            kept += right.worth;
        }
    }
    n & kept != 0
}
