// How many more hands a claim may pass through: told in version 2, otherwise counted from its hops.
ghost use Rattle.std.specs.Prelude.{◌≡◌};
ghost use Rattle.register.specs.Register.{with_left};
ghost use Rattle.claim_judging.specs.Over.{hands_at};

use register::{Claim, Register};

// How many more hands a claim of so many hops may pass through: in version 2 what it tells, otherwise 16 less its hops.
fn hands_left(version: u64, hops: usize, c: Claim) -> u32
    ensures { result ≡ hands_at version hops c }
{
    if version == Register::VERSION_TWO {
        return c.left;
    }
    if Register::HOPS <= hops {
        return 0;
    }
    (Register::HOPS - hops) as u32
}

// A claim of so many hops as a register holds it: it tells how many more hands it may pass through.
pub fn stored(version: u64, hops: usize, c: Claim) -> Claim
    ensures { result ≡ with_left (hands_at version hops c) c }
{
    Claim {
        left: hands_left(version, hops, c),
        ..c
    }
}
