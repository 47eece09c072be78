// The grant: tests 1 to 8 and, with a parent, 9 to 16.
// Beside the outcome stands the claim as the register holds it. The register is examined once; the
// chain above the claim is walked by the places of the parents that were found.
#![tactic(auto)]

ghost use Rattle.std.specs.Prelude.{◌≡◌, ◌∷◌, suc, min, ltb, length, get_or};
ghost use Rattle.lists.specs.Lists.{every};
ghost use Rattle.register.specs.Limits.{hop_limit};
ghost use Rattle.register.specs.Chain.{current};
ghost use Rattle.claim_judging.specs.Alone.{world_by};
ghost use Rattle.claim_judging.specs.Over.{hands_at};
ghost use Rattle.columns.specs.Columns.{places_up};
ghost use Rattle.columns.specs.Sheet.{claim_at};
ghost use Rattle.lookup.specs.Walks.{up_from};
ghost use Rattle.refusals.specs.Refusals.{outcome_of};
ghost use Rattle.granting.specs.Drawn.{told_tests, drawn_tests, chain_tests, outcome_then, first_tests, parent_asked};
ghost use Rattle.granting.specs.Settled.{settled_as, grant_outcome};

use columns::{ActorColumns, ResourceColumns};
use refusals::Refusal;
use register::{Actor, Claim, Register};

// The outcome of a grant, and the claim: accepted, as the register holds it; refused, as it came.
#[derive(Clone, Copy)]
pub struct GrantOutcome {
    pub claim: Claim,
    pub outcome: Result<(), Refusal>,
}

// Tests 3 to 8, over the columns of the first `h` actors and the first `m` resources: `stands` says whether a claim has the id already, and `n` how
// many claims there are.
pub fn world_outcome(
    actors: &ActorColumns,
    h: usize,
    resources: &ResourceColumns,
    m: usize,
    stands: bool,
    n: usize,
    c: Claim,
) -> Result<(), Refusal>
    ensures { result ≡ outcome_of (told_tests (world_by 0 actors.now.names actors.now.kinds actors.now.owners h resources.now.reports resources.now.keepers m) stands n c) }
{
    if !claim_judging::names_stand(&actors.names, h, &resources.reports, m, c) {
        return Err(Refusal::Absent);
    }
    if stands {
        return Err(Refusal::Stands);
    }
    if Register::CLAIMS <= n {
        return Err(Refusal::Full);
    }
    if !claim_judging::root_kept(&resources.reports, &resources.keepers, m, c) {
        return Err(Refusal::NotKeeper);
    }
    if !columns::is_beside(&actors.names, &actors.kinds, h, c.grantor, Actor::MACHINE) {
        return Ok(());
    }
    if columns::is_beside(&actors.names, &actors.owners, h, c.grantor, 0) {
        return Err(Refusal::Ownerless);
    }
    if rights::bars_machine(c.rights) {
        return Err(Refusal::NotByMachine);
    }
    Ok(())
}

// Tests 10 to 14, of the parent and the claim: `lives` says whether the parent is live, which the chain above it decides.
pub fn drawn_outcome(p: Claim, c: Claim, lives: bool) -> Result<(), Refusal>
    ensures { result ≡ outcome_of (drawn_tests lives p c) }
{
    if p.holder != c.grantor {
        return Err(Refusal::NotHeld);
    }
    if p.resource != c.resource {
        return Err(Refusal::NotHeld);
    }
    if !lives {
        return Err(Refusal::NotLive);
    }
    if !rights::has(p.rights, rights::DELEGATE) {
        return Err(Refusal::NoDelegate);
    }
    if !rights::has_all(p.rights, c.rights) {
        return Err(Refusal::RightLacking);
    }
    if p.weight < c.weight {
        return Err(Refusal::WeightAbove);
    }
    Ok(())
}

// Whether the claim at the place `from` of a sheet and every claim above it are current at the moment. `ups` has for each place that of the
// parent.
fn current_up<'a>(sheet: &'a [u32], ups: &'a [u16], from: usize, moment: u64) -> bool
    ensures { result ≡ every (λ j. current moment (claim_at sheet.now j)) (from ∷ places_up ups.now from) }
{
    let mut member = from;
    let mut up = columns::place_above(ups, from);
    while up < member {
        let c = columns::claim_at(sheet, member);
        if !c.is_current(moment) {
            return false;
        }
        member = up;
        up = columns::place_above(ups, member);
    }
    let root = columns::claim_at(sheet, member);
    root.is_current(moment)
}

// How many claims stand above the one at the place `from`. `ups` has for each place that of the parent.
fn steps_up(ups: &[u16], from: usize) -> usize
    ensures { result ≡ length (places_up ups.now from) }
{
    let mut member = from;
    let mut up = columns::place_above(ups, from);
    let mut steps: usize = 0;
    while up < member {
        member = up;
        up = columns::place_above(ups, member);
        steps += 1;
    }
    steps
}

// How many claims stand above one whose parent stands at the place, counted up to one more than the limit of the hops.
fn hops_under(ups: &[u16], place: Option<usize>) -> usize
    ensures { result ≡ min (length (up_from ups.now place)) (suc hop_limit) }
{
    match place {
        None => 0,
        Some(at) => steps_up(ups, at).min(Register::HOPS) + 1,
    }
}

// Tests 15 and 16, of the chain from the parent `p` up, which stands at the place `at`, and the claim `c`. `ups` has for each place that of
// the parent.
pub fn chain_outcome<'a>(
    version: u64,
    ups: &'a [u16],
    grantors: &'a [u32],
    holders: &'a [u32],
    at: usize,
    p: Claim,
    c: Claim,
) -> Result<(), Refusal>
    ensures { result ≡ outcome_of (chain_tests (λ j. get_or grantors.now j 0) (λ j. get_or holders.now j 0) (ltb (hands_at version (suc (length (places_up ups.now at))) c) (hands_at version (length (places_up ups.now at)) p)) (at ∷ places_up ups.now at) c.holder) }
{
    let steps = steps_up(ups, at);
    if !claim_judging::fewer_left(version, steps, p, c) {
        return Err(Refusal::TooManyHops);
    }
    if claim_judging::circles_up(ups, grantors, holders, at, steps, c.holder) {
        return Err(Refusal::Circle);
    }
    Ok(())
}

// The outcome of tests of which the first part and the next are told.
pub fn then(first: Result<(), Refusal>, next: Result<(), Refusal>) -> Result<(), Refusal>
    ensures { result ≡ outcome_then first next }
{
    first.and(next)
}

// Tests 9 to 16, over the claims of a sheet and the places of their parents, where the claim's parent stands at the place; a root passes.
fn parent_outcome<'a>(
    version: u64,
    sheet: &'a [u32],
    ups: &'a [u16],
    place: Option<usize>,
    c: Claim,
    moment: u64,
) -> Result<(), Refusal>
    ensures { result ≡ outcome_of (parent_asked version sheet.now ups.now place c moment) }
{
    if c.parent == 0 {
        return Ok(());
    }
    match place {
        None => Err(Refusal::NoParent),
        Some(at) => {
            let p = columns::claim_at(sheet, at);
            let lives = current_up(sheet, ups, at, moment);
            let drawn = drawn_outcome(p, c, lives);
            let grantors = columns::column(sheet, columns::GRANTORS);
            let holders = columns::column(sheet, columns::HOLDERS);
            let chained = chain_outcome(version, ups, grantors, holders, at, p, c);
            then(drawn, chained)
        }
    }
}

// Tests 1 and 2: `whole` says whether the register is sound.
fn first_outcome(whole: bool, version: u64, c: Claim, moment: u64) -> Result<(), Refusal>
    ensures { result ≡ outcome_of (first_tests whole version c moment) }
{
    if !whole {
        return Err(Refusal::Unsound);
    }
    if !claim_judging::claim_fits(version, c) {
        return Err(Refusal::Range);
    }
    if register::MOMENT_END <= moment {
        return Err(Refusal::Range);
    }
    Ok(())
}

// The claim of a grant with this outcome, beside it: accepted, it tells the hands that it has left with so many hops.
fn settled(outcome: Result<(), Refusal>, version: u64, hops: usize, c: Claim) -> GrantOutcome
    ensures { result ≡ settled_as outcome version hops c }
{
    let claim = match outcome {
        Ok(()) => claim_judging::stored(version, hops, c),
        Err(_) => c,
    };
    GrantOutcome { claim, outcome }
}

// The outcome of a grant of a claim at a moment, and the claim as the register then holds it.
pub fn grant_outcome(r: Register, c: Claim, moment: u64) -> GrantOutcome
    ensures { result ≡ grant_outcome r c moment }
{
    let a = r.actors;
    let o = r.resources;
    let k = r.claims;
    let mut sheet = [0u32; columns::SHEET];
    let found = soundness::examine(&mut sheet, r.version, a, o, k);
    let ids = columns::column(&sheet, columns::IDS);
    let stands = columns::is_among(ids, k.count, c.id);
    let place = columns::latest_place(ids, k.count, c.parent);
    let first = first_outcome(found.sound, r.version, c, moment);
    let world = world_outcome(
        &found.actors,
        a.count,
        &found.resources,
        o.count,
        stands,
        k.count,
        c,
    );
    let parent = parent_outcome(r.version, &sheet, &found.ups, place, c, moment);
    let hops = hops_under(&found.ups, place);
    settled(then(first, then(world, parent)), r.version, hops, c)
}
