// Why an actor may make a use or may not, and who may: definitions and theorems.
// Here are the types; in specs/ the definitions that the calls are proved to equal.
#![tactic(auto)]

use refusals::Refusal;
use register::Register;

// Who may make a use, by their ids in register order; zeros past the count, and all zeros where the call is refused.
#[derive(Clone, Copy)]
pub struct Holders {
    pub outcome: Result<(), Refusal>,
    pub ids: [u32; Register::ACTORS],
    pub count: usize,
}

// The reason of an actor for a use: its kind; of the claim told the ids of its chain, from it up to its root, with their number, the grantor of
// its root and, where it is not live, the first on its chain that is not current. It crosses to C as it is.
#[repr(C)]
#[derive(Clone, Copy)]
pub struct Told {
    pub kind: u32,
    pub count: u32,
    pub chain: [u32; Told::CHAIN],
    pub keeper: u32,
    pub ended: u32,
}

impl Told {
    // The claims of a chain in a sound register, at most: 16 hops and one.
    pub const CHAIN: usize = 17;

    // The kinds of a reason, the first that holds; 0 was not asked.
    pub const UNASKED: u32 = 0;

    pub const RELIES: u32 = 1;

    pub const PUBLIC: u32 = 2;

    pub const NOT_LIVE: u32 = 3;

    pub const LACKS: u32 = 4;

    pub const UNHELD: u32 = 5;
}

// Why an actor may make a use or may not: its reason and, of a machine with an owner, his number and his reason. Refused: zeros.
#[derive(Clone, Copy)]
pub struct UseTold {
    pub outcome: Result<(), Refusal>,
    pub actor: Told,
    pub owner: u32,
    pub owners: Told,
}
