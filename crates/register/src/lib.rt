// The register by value: its three lists, chains, hop counts, liveness.
// Each list is an array with a count, of which only what stands below the count is looked at. Every
// number has a type that can say one out of range, and kinds are numbers: what is out of range
// makes a register unsound, and is never cut down to something else. The structs cross to C as they
// are, and have no bytes between or behind their fields.
#![tactic(auto)]

ghost use Rattle.std.specs.Prelude.{◌≡◌};
ghost use Rattle.register.specs.Register.{no_claim, empty_register};
ghost use Rattle.register.specs.Chain.{current};
ghost use Rattle.register.specs.Limits.{is_id};

// The greatest id, and the greatest number of an owner, parent, keeper, grantor, holder or claimed resource.
pub const ID_LIMIT: u32 = 65535;

// The greatest weight.
pub const WEIGHT_LIMIT: u32 = 1000;

// The greatest number of hands that a claim may still pass through.
pub const LEFT_LIMIT: u32 = 16;

// Moments and expiries are below this.
pub const MOMENT_END: u64 = 4294967296;

// The last moment, and the last expiry.
pub const LAST_MOMENT: u64 = MOMENT_END - 1;

// The least and the greatest byte of a path.
pub const PATH_BYTE_LEAST: u8 = 33;

pub const PATH_BYTE_GREATEST: u8 = 126;

#[repr(C)]
#[derive(Clone, Copy)]
pub struct Actor {
    pub id: u32,
    pub kind: u32,
    pub owner: u32,
}

impl Actor {
    pub const HUMAN: u32 = 1;

    pub const MACHINE: u32 = 2;
}

#[repr(C)]
#[derive(Clone, Copy)]
pub struct Resource {
    pub id: u32,
    pub public: u32,
    pub keeper: u32,
    pub len: u32,
    pub path: [u8; Register::PATH],
}

#[repr(C)]
#[derive(Clone, Copy)]
pub struct Claim {
    pub id: u32,
    pub parent: u32,
    pub grantor: u32,
    pub holder: u32,
    pub resource: u32,
    pub rights: u32,
    pub weight: u32,
    pub left: u32,
    pub expiry: u64,
}

#[repr(C)]
#[derive(Clone, Copy)]
pub struct Actors {
    pub list: [Actor; Register::ACTORS],
    pub count: usize,
}

#[repr(C)]
#[derive(Clone, Copy)]
pub struct Resources {
    pub list: [Resource; Register::RESOURCES],
    pub count: usize,
}

#[repr(C)]
#[derive(Clone, Copy)]
pub struct Claims {
    pub list: [Claim; Register::CLAIMS],
    pub count: usize,
}

#[repr(C)]
#[derive(Clone, Copy)]
pub struct Register {
    pub actors: Actors,
    pub resources: Resources,
    pub claims: Claims,
    pub version: u64,
}

impl Register {
    // The versions of a register. Claims of the second tell how many more hands they may pass through; in the first that is 16 less
    // the hop count, and what they hold there is ignored.
    pub const VERSION_ONE: u64 = 1;

    pub const VERSION_TWO: u64 = 2;

    pub const ACTORS: usize = 64;

    pub const RESOURCES: usize = 64;

    pub const CLAIMS: usize = 256;

    pub const HOPS: usize = 16;

    pub const PATH: usize = 64;

    // The register of version 1 without actors, resources and claims: every place holds zeros.
    pub fn empty() -> Register
        ensures { result ≡ empty_register }
    {
        let actor = Actor {
            id: 0,
            kind: 0,
            owner: 0,
        };
        let resource = Resource {
            id: 0,
            public: 0,
            keeper: 0,
            len: 0,
            path: [0; Register::PATH],
        };
        let claim = Claim::none();
        let actor_list = [actor; Register::ACTORS];
        let resource_list = [resource; Register::RESOURCES];
        let claim_list = [claim; Register::CLAIMS];
        let actors = Actors {
            list: actor_list,
            count: 0,
        };
        let resources = Resources {
            list: resource_list,
            count: 0,
        };
        let claims = Claims {
            list: claim_list,
            count: 0,
        };
        Register {
            actors,
            resources,
            claims,
            version: Register::VERSION_ONE,
        }
    }
}

impl Claim {
    // What stands at a place that no claim was put into: all zeros.
    pub fn none() -> Claim
        ensures { result ≡ no_claim }
    {
        Claim {
            id: 0,
            parent: 0,
            grantor: 0,
            holder: 0,
            resource: 0,
            rights: 0,
            weight: 0,
            left: 0,
            expiry: 0,
        }
    }

    // Whether the claim by itself is current at the moment: its weight is above 0 and it has not expired.
    pub fn is_current(self, moment: u64) -> bool
        ensures { result ≡ current moment self }
    {
        if self.weight == 0 {
            return false;
        }
        if self.expiry == 0 {
            return true;
        }
        moment < self.expiry
    }
}

// Whether a number is an id, 1 to 65,535.
pub fn is_id(n: u32) -> bool
    ensures { result ≡ is_id n }
{
    if n == 0 {
        return false;
    }
    n <= ID_LIMIT
}
