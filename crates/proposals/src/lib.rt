// Whose signature is missing: the proposals of a planner and their check: definitions and theorems.
// Here are the willing signers, a proposal, what the planner and the check answer, and test 2 of both calls. In specs/ are the
// definitions that the two calls are proved to equal, and what is proved of them.
#![tactic(auto)]

ghost use Rattle.std.specs.Prelude.{◌≡◌};
ghost use Rattle.proposals.specs.Proposals.{asks_fit};

use actions::Usage;
use refusals::Refusal;
use register::Claim;

// Up to eight actor numbers; entries past the count are ignored.
#[repr(C)]
#[derive(Clone, Copy)]
pub struct Signers {
    pub list: [u32; Signers::MOST],
    pub count: usize,
}

impl Signers {
    pub const MOST: usize = 8;
}

// Kind 1 proposes no grant, kind 2 a grant of the claim. The kind is as wide as the claim's widest number, so that no byte lies between the two.
#[repr(C)]
#[derive(Clone, Copy)]
pub struct Proposal {
    pub kind: u64,
    pub claim: Claim,
}

impl Proposal {
    pub const NO_GRANT: u64 = 1;

    pub const GRANT: u64 = 2;
}

// The answer of the planner. Refused: kind 0 with a claim of zeros.
#[derive(Clone, Copy)]
pub struct Proposed {
    pub outcome: Result<(), Refusal>,
    pub proposal: Proposal,
}

// The answer of the check.
#[derive(Clone, Copy)]
pub enum Checked {
    // 1: the proposal passes.
    Passes,
    // 2: it does not.
    Fails,
    // 3: a test of the call stopped it.
    Stopped(Refusal),
}

// Test 2 of both calls: whether there are at most eight signers, and the use's numbers and the moment are in range.
pub fn asks_fit(u: Usage, moment: u64, s: Signers) -> bool
    ensures { result ≡ asks_fit u moment s }
{
    if Signers::MOST < s.count {
        return false;
    }
    if register::ID_LIMIT < u.resource {
        return false;
    }
    if rights::POLICY_MODIFY < u.right {
        return false;
    }
    moment < register::MOMENT_END
}
