// Whose signature is missing: the planner.
// After the tests 1, 2 and 3 the gate is asked for the one use; where that is permitted no grant is
// needed. Otherwise a machine's owner must be permitted the use itself, there must be room for a
// claim, and the used path must have no `..`. Then the claims under which a claim of the actor may
// be drawn are marked in one pass, whoever signs, and the signers are asked in their order: the
// keeper signs a root, any other below his first marked claim. No grant is tried.
#![tactic(auto)]

ghost use Rattle.std.specs.Prelude.{◌≡◌, false, ◌≤◌, length, take, Ok};
ghost use Rattle.register.specs.Limits.{claim_limit};
ghost use Rattle.register.specs.Register.{path_of};
ghost use Rattle.paths.specs.Containment.{contained};
ghost use Rattle.columns.specs.Sheet.{sheet_limit, claims_in};
ghost use Rattle.refusals.specs.Refusals.{outcome_of};
ghost use Rattle.actions.specs.Actions.{one_use, is_permitted};
ghost use Rattle.soundness.specs.Opened.{Opened};
ghost use Rattle.proposals.specs.Proposals.{signers_of, ask_tests, permits, least_free, no_grant, a_grant, proposes, unproposed, proposed_first, proposed};
ghost use Rattle.proposals.specs.Marks.{clear, by_marks};
ghost use Rattle.proposing.specs.Planned.{tests_on, Ready, clean_at, owner_allows, hands_taken, room_of_root, room_under, rooms_of, marked_by, marks_by, place_first, first_marked, ids_used, signed_as, may_sign_by, signing_by, signed_through, first_claim, drawn_by};

use actions::{Decision, Usage};
use columns::ActorColumns;
use gate::Counts;
use proposals::{Proposal, Proposed, Signers};
use refusals::Refusal;
use register::{Actor, Claim, Register, Resource, Resources};
use soundness::Findings;

// What is asked: whose use it is, which, and when.
#[derive(Clone, Copy)]
struct Ask {
    actor: u32,
    usage: Usage,
    moment: u64,
}

// How many numbers are looked at for a free id: one more than there may be claims, and 0.
const TRIED: usize = 257;

// ---- the tests

// Tests 1, 2 and 3, by what was found out for each.
fn asked(sound: bool, inside: bool, known: bool) -> Result<(), Refusal>
    ensures { result ≡ outcome_of (tests_on sound inside known) }
{
    if !sound {
        return Err(Refusal::Unsound);
    }
    if !inside {
        return Err(Refusal::Range);
    }
    if !known {
        return Err(Refusal::Absent);
    }
    Ok(())
}

// A refusal, beside which stands neither kind of proposal.
fn refused(why: Refusal) -> Proposed
    ensures { result ≡ unproposed why }
{
    Proposed {
        outcome: Err(why),
        proposal: Proposal {
            kind: 0,
            claim: Claim::none(),
        },
    }
}

// No grant is needed.
fn no_grant() -> Proposed
    ensures { result ≡ proposes no_grant }
{
    Proposed {
        outcome: Ok(()),
        proposal: Proposal {
            kind: Proposal::NO_GRANT,
            claim: Claim::none(),
        },
    }
}

// Whether a decision is the permission.
fn is_permitted(d: Decision) -> bool
    ensures { result ≡ is_permitted d }
{
    matches!(d, Decision::Permitted)
}

// ---- what must hold whoever signs

// Whether a resource's path contains itself, as every path without `..` does.
fn contains_itself(o: Resource) -> bool
    ensures { result ≡ contained (path_of o) (path_of o) }
{
    let len = (o.len as usize).min(Register::PATH);
    let path = &o.path[..len];
    match paths::contains(path, path) {
        None => false,
        Some(_) => true,
    }
}

// Whether a resource stands at a place, with a path that contains itself.
fn is_clean(k: Resources, spot: usize) -> bool
    ensures { result ≡ clean_at k spot }
{
    spot < k.count.min(Register::RESOURCES) && contains_itself(k.list[spot])
}

// Whether the actor is no machine, or one with an owner who is permitted the use.
fn owner_allows(actors: ActorColumns, n: usize, x: u32, owner: u32, permitted: bool) -> bool
    ensures { result ≡ owner_allows actors n x owner permitted }
{
    if !columns::is_beside(&actors.names, &actors.kinds, n, x, Actor::MACHINE) {
        return true;
    }
    if owner == 0 {
        return false;
    }
    permitted
}

// Whether the gate permits the one use of an actor.
fn gate_permits(
    r: Register,
    sheet: &[u32],
    found: Findings,
    x: u32,
    usage: Usage,
    moment: u64,
) -> bool
    requires { Opened r sheet.now found }
    ensures { result ≡ permits r (one_use x usage moment) }
{
    let verdict = gate::gate_by(r, sheet, found, actions::one_use(x, usage, moment));
    let decided = verdict.decision;
    is_permitted(decided)
}

// Whether anything may be signed at all: there is room for a claim, the used path has no `..`, and the owner of a machine is permitted the use.
fn is_clear(r: Register, sheet: &[u32], found: Findings, ask: Ask) -> bool
    requires { Ready r sheet.now found ask.actor ask.usage ask.moment }
    ensures { result ≡ clear r ask.actor ask.usage ask.moment }
{
    if Register::CLAIMS <= r.claims.count {
        return false;
    }
    let k = r.resources;
    let spot = coverage::spot(&found.resources.reports, k.count, ask.usage.resource);
    if !is_clean(k, spot) {
        return false;
    }
    let n = r.actors.count;
    let owner = gate::owner_of(&found.actors.names, &found.actors.owners, n, ask.actor);
    let permitted = gate_permits(r, sheet, found, owner, ask.usage, ask.moment);
    owner_allows(found.actors, n, ask.actor, owner, permitted)
}

// ---- the marks

// The room of a root: none where `x` holds or granted it.
fn room_of_root(grantor: u32, holder: u32, x: u32) -> u32
    ensures { result ≡ room_of_root x grantor holder }
{
    if (holder == x) | (grantor == x) {
        0
    } else {
        register::LEFT_LIMIT
    }
}

// The room of a claim under one whose room is `higher`: a step down takes `step` of it.
fn room_under(step: u32, holder: u32, x: u32, higher: u32) -> u32
    ensures { result ≡ room_under step x holder higher }
{
    if holder == x {
        return 0;
    }
    if higher < step {
        return 0;
    }
    higher - step
}

// The rooms of the first `n` claims for `x`, by their columns and the places of their parents; 0 past them. A parent's room is found before its
// child's.
fn rooms<'a>(
    step: u32,
    ups: &'a [u16],
    grantors: &'a [u32],
    holders: &'a [u32],
    n: usize,
    x: u32,
) -> [u32; Register::CLAIMS]
    requires { (n ≤ claim_limit) × (length ups.now ≡ claim_limit) × (length grantors.now ≡ claim_limit) × (length holders.now ≡ claim_limit) }
    ensures { result ≡ rooms_of step x ups.now grantors.now holders.now n }
{
    let mut found = [0u32; Register::CLAIMS];
    for i in 0..n {
        let up = ups[i] as usize;
        if up < i {
            found[i] = room_under(step, holders[i], x, found[up]);
        } else {
            found[i] = room_of_root(grantors[i], holders[i], x);
        }
    }
    found
}

// Whether a claim of the actor may be drawn under `c`, whoever signs: on the resource, live, with DELEGATE and the right, with hands left, and no circle.
fn is_marked(version: u64, usage: Usage, moment: u64, c: Claim, end: u64, room: u32) -> bool
    ensures { result ≡ marked_by version usage moment c end room }
{
    (c.resource == usage.resource)
        & (moment < end)
        & rights::has(c.rights, rights::DELEGATE)
        & rights::has(c.rights, usage.right)
        & (0 < room)
        & ((version != Register::VERSION_TWO) | (0 < c.left))
}

// The marks of the first `n` claims of a sheet, by their ends and their rooms.
fn marks<'a>(
    version: u64,
    usage: Usage,
    moment: u64,
    sheet: &'a [u32],
    ends: &'a [u64],
    rooms: &'a [u32],
    n: usize,
) -> [bool; Register::CLAIMS]
    requires { (n ≤ claim_limit) × (length ends.now ≡ claim_limit) × (length rooms.now ≡ claim_limit) }
    ensures { result ≡ marks_by version usage moment sheet.now ends.now rooms.now n }
{
    let mut found = [false; Register::CLAIMS];
    for i in 0..n {
        let c = columns::claim_at(sheet, i);
        found[i] = is_marked(version, usage, moment, c, ends[i], rooms[i]);
    }
    found
}

// The first place among the first `n` at which `g` holds a marked claim.
fn first_marked<'a>(holders: &'a [u32], marks: &'a [bool], n: usize, g: u32) -> Option<usize>
    requires { (n ≤ claim_limit) × (length holders.now ≡ claim_limit) × (length marks.now ≡ claim_limit) }
    ensures { result ≡ place_first (first_marked holders.now marks.now n g) }
{
    for i in 0..n {
        if (holders[i] == g) & marks[i] {
            return Some(i);
        }
    }
    None
}

// ---- the least free id

// Which of the numbers that are tried are among the first `n` ids.
fn used_ids(ids: &[u32], n: usize) -> [bool; TRIED]
    requires { n ≤ length ids.now }
    ensures { result ≡ ids_used (take n ids.now) }
{
    let mut used = [false; TRIED];
    for id in &ids[..n] {
        let at = *id as usize;
        if at < TRIED {
            used[at] = true;
        }
    }
    used
}

// The least number from 1 on that is no id of the first `n` claims of a sheet.
fn least_free(sheet: &[u32], n: usize) -> u32
    requires { (n ≤ claim_limit) × (length sheet.now ≡ sheet_limit) }
    ensures { result ≡ least_free (take n (claims_in sheet.now)) }
{
    let used = used_ids(columns::column(sheet, columns::IDS), n);
    for id in 1..=n {
        if !used[id] {
            return id as u32;
        }
    }
    (n + 1) as u32
}

// ---- the signers

// The claim that `g` signs below a parent, 0 for none, with a weight.
fn signed_as(blank: Claim, g: u32, parent: u32, weight: u32) -> Claim
    ensures { result ≡ signed_as blank g parent weight }
{
    Claim {
        parent,
        grantor: g,
        weight,
        ..blank
    }
}

// Whether `g` is barred by neither 7 nor 8 from granting the rights, by the columns of the first `h` actors.
fn may_sign(actors: ActorColumns, h: usize, rights: u32, g: u32) -> bool
    ensures { result ≡ may_sign_by actors h rights g }
{
    if !columns::is_beside(&actors.names, &actors.kinds, h, g, Actor::MACHINE) {
        return true;
    }
    if columns::is_beside(&actors.names, &actors.owners, h, g, 0) {
        return false;
    }
    !rights::bars_machine(rights)
}

// A claim is to be granted.
fn granted(c: Claim) -> Proposed
    ensures { result ≡ proposes (a_grant c) }
{
    Proposed {
        outcome: Ok(()),
        proposal: Proposal {
            kind: Proposal::GRANT,
            claim: c,
        },
    }
}

// What `g` would sign: the keeper a root, another below his first marked claim; None where that is nothing.
fn signed_by<'a>(
    counts: Counts,
    found: Findings,
    sheet: &'a [u32],
    marks: &'a [bool],
    blank: Claim,
    g: u32,
) -> Option<Claim>
    requires { (counts.claims ≤ claim_limit) × (length sheet.now ≡ sheet_limit) × (length marks.now ≡ claim_limit) }
    ensures { result ≡ first_claim (signing_by counts found sheet.now marks.now blank g) }
{
    let kept = columns::is_beside(
        &found.resources.reports,
        &found.resources.keepers,
        counts.resources,
        blank.resource,
        g,
    );
    if kept {
        return Some(signed_as(blank, g, 0, register::WEIGHT_LIMIT));
    }
    if !may_sign(found.actors, counts.actors, blank.rights, g) {
        return None;
    }
    let holders = columns::column(sheet, columns::HOLDERS);
    let place = first_marked(holders, marks, counts.claims, g);
    match place {
        None => None,
        Some(j) => {
            let p = columns::claim_at(sheet, j);
            Some(signed_as(blank, g, p.id, p.weight))
        }
    }
}

// What the first signer signs who would sign anything, or 26.
fn sign<'a>(
    counts: Counts,
    found: Findings,
    sheet: &'a [u32],
    marks: &'a [bool],
    blank: Claim,
    s: Signers,
) -> Proposed
    requires { (counts.claims ≤ claim_limit) × (length sheet.now ≡ sheet_limit) × (length marks.now ≡ claim_limit) }
    ensures { result ≡ proposed_first (signed_through (signing_by counts found sheet.now marks.now blank) (signers_of s)) }
{
    let top = s.count.min(Signers::MOST);
    for g in &s.list[..top] {
        if let Some(claim) = signed_by(counts, found, sheet, marks, blank, *g) {
            return granted(claim);
        }
    }
    refused(Refusal::NoProposal)
}

// The hands that a step down takes of what is left: one, or none where each claim tells what is left.
fn hands_taken(version: u64) -> u32
    ensures { result ≡ hands_taken version }
{
    if version == Register::VERSION_TWO {
        0
    } else {
        1
    }
}

// What the signers sign, where something may be signed at all.
fn draw(
    version: u64,
    counts: Counts,
    found: Findings,
    sheet: &[u32],
    ask: Ask,
    signers: Signers,
) -> Proposed
    requires { (counts.claims ≤ claim_limit) × (length sheet.now ≡ sheet_limit) }
    ensures { result ≡ proposed_first (drawn_by version counts found sheet.now ask.actor ask.usage ask.moment (signers_of signers)) }
{
    let n = counts.claims;
    let grantors = columns::column(sheet, columns::GRANTORS);
    let holders = columns::column(sheet, columns::HOLDERS);
    let ends = gate::claim_ends(sheet, &found.ups, n);
    let step = hands_taken(version);
    let left = rooms(step, &found.ups, grantors, holders, n, ask.actor);
    let marked = marks(version, ask.usage, ask.moment, sheet, &ends, &left, n);
    let blank = Claim {
        id: least_free(sheet, n),
        holder: ask.actor,
        resource: ask.usage.resource,
        rights: rights::worth(ask.usage.right),
        ..Claim::none()
    };
    sign(counts, found, sheet, &marked, blank, signers)
}

// ---- the planner

// The planner past the tests.
fn propose_by(r: Register, sheet: &[u32], found: Findings, ask: Ask, signers: Signers) -> Proposed
    requires { (Ready r sheet.now found ask.actor ask.usage ask.moment) × (outcome_of (ask_tests r ask.actor ask.usage ask.moment signers) ≡ (Ok tt)) }
    ensures { result ≡ by_marks r ask.actor ask.usage ask.moment signers }
{
    if gate_permits(r, sheet, found, ask.actor, ask.usage, ask.moment) {
        return no_grant();
    }
    if !is_clear(r, sheet, found, ask) {
        return refused(Refusal::NoProposal);
    }
    let counts = Counts {
        actors: r.actors.count,
        resources: r.resources.count,
        claims: r.claims.count,
    };
    draw(r.version, counts, found, sheet, ask, signers)
}

// The planner.
pub fn propose(r: Register, actor: u32, usage: Usage, moment: u64, signers: Signers) -> Proposed
    ensures { result ≡ proposed r actor usage moment signers }
{
    let mut sheet = [0u32; columns::SHEET];
    let found = soundness::examine(&mut sheet, r.version, r.actors, r.resources, r.claims);
    let inside = proposals::asks_fit(usage, moment, signers);
    let known = columns::is_among(&found.actors.names, r.actors.count, actor);
    let outcome = asked(found.sound, inside, known);
    match outcome {
        Err(why) => refused(why),
        Ok(()) => {
            let ask = Ask {
                actor,
                usage,
                moment,
            };
            propose_by(r, &sheet, found, ask, signers)
        }
    }
}
