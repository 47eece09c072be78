// A claim by itself: its numbers in range, the actors and the resource that it names standing, a root granted by the keeper (a), and
// what a machine may grant (c).
ghost use Rattle.std.specs.Prelude.{◌≡◌, []};
ghost use Rattle.soundness_rules.specs.Sound.{claim_fits, names_stand, root_kept};
ghost use Rattle.claim_judging.specs.Alone.{world_by, named_at};

use register::{Actor, Claim, Register};

// Whether a claim's numbers are in range in a version.
pub fn claim_fits(version: u64, c: Claim) -> bool
    ensures { result ≡ claim_fits version c }
{
    register::is_id(c.id)
        & (c.parent <= register::ID_LIMIT)
        & register::is_id(c.grantor)
        & register::is_id(c.holder)
        & register::is_id(c.resource)
        & rights::in_range(c.rights)
        & (c.weight <= register::WEIGHT_LIMIT)
        & ((version != Register::VERSION_TWO) | (c.left <= register::LEFT_LIMIT))
        & (c.expiry < register::MOMENT_END)
}

// Whether every actor and resource that a claim names stands, among the first `n` actors and the first `m` resources.
pub fn names_stand<'a>(names: &'a [u32], n: usize, reports: &'a [u32], m: usize, c: Claim) -> bool
    ensures { result ≡ names_stand (world_by 0 names.now [] [] n reports.now [] m) c }
{
    columns::is_among(names, n, c.grantor)
        & columns::is_among(names, n, c.holder)
        & columns::is_among(reports, m, c.resource)
}

// (a): a root's grantor is its resource's keeper.
pub fn root_kept<'a>(reports: &'a [u32], keepers: &'a [u32], m: usize, c: Claim) -> bool
    ensures { result ≡ root_kept (world_by 0 [] [] [] 0 reports.now keepers.now m) c }
{
    if c.parent != 0 {
        return true;
    }
    columns::is_beside(reports, keepers, m, c.resource, c.grantor)
}

// Whether a claim whose numbers are in range is as it should be by itself, by what was looked up of it: the places of its grantor and its
// holder among the actors and of its resource among the resources, the limit of the claims for nowhere; the grantor's kind and owner, and the
// resource's keeper.
// (c): a machine grantor has an owner, and none of the claim's rights is kept from machines.
pub fn stands_named(
    c: Claim,
    grantor: usize,
    holder: usize,
    report: usize,
    kind: u32,
    owner: u32,
    keeper: u32,
) -> bool
    ensures { result ≡ named_at c (record { grantor = grantor; holder = holder; report = report; kind = kind; owner = owner; keeper = keeper }) }
{
    (grantor < Register::CLAIMS)
        & (holder < Register::CLAIMS)
        & (report < Register::CLAIMS)
        & ((c.parent != 0) | (c.grantor == keeper))
        & ((Actor::MACHINE != kind) | ((0 != owner) & !rights::bars_machine(c.rights)))
}
