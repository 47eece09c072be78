// Why an actor may make a use or may not, and who may, found by the columns of the register.
// The register is examined once, and what is looked at of it is lent, as to the actions of a plan.
// Who may: one walk over the claims finds the holders of those that cover the use, and each actor,
// with the owner of a machine, is looked up among them.
// Why: of the claims that an actor holds the nearest is looked for, among the live ones, then among all, then for any right.
#![tactic(auto)]

ghost use Rattle.std.specs.Prelude.{◌≡◌, false, [], map, length, take, get_or, Ok, Err};
ghost use Rattle.lists.specs.Lists.{filter};
ghost use Rattle.paths.specs.Containment.{contained};
ghost use Rattle.register.specs.Limits.{claim_limit};
ghost use Rattle.register.specs.Register.{actors_of, path_of};
ghost use Rattle.columns.specs.Sheet.{column_of, holder_column, rights_column};
ghost use Rattle.reasons.specs.Holders.{ask_fits, holders_of, who_held};
ghost use Rattle.reasons.specs.Reasons.{telling_none};
ghost use Rattle.reasons.specs.Uses.{told_of, use_told_of, refused_for, why_use};
ghost use Rattle.reason_finding.specs.Covering.{containers_of, coverer_of, coverers_of, may_by};
ghost use Rattle.reason_finding.specs.Finding.{held_place, chain_told, ended_by, lacking_by, missing_by, reason_by, owner_for, use_by};

use actions::Usage;
use gate::Counts;
use reasons::{Holders, Told, UseTold};
use refusals::Refusal;
use register::{Actor, Actors, Register, Resource, Resources};
use soundness::Findings;

// The rights number of every right.
const EVERY_RIGHT: u32 = rights::RIGHTS_LIMIT;

// Whether the numbers of a use and the moment are in range.
fn ask_fits(usage: Usage, moment: u64) -> bool
    ensures { result ≡ ask_fits usage moment }
{
    if register::ID_LIMIT < usage.resource {
        return false;
    }
    if rights::POLICY_MODIFY < usage.right {
        return false;
    }
    moment < register::MOMENT_END
}

// The answer of a call that is refused: nobody.
fn nobody(why: Refusal) -> Holders
    ensures { result ≡ holders_of (Err why) [] }
{
    Holders {
        outcome: Err(why),
        ids: [0; Register::ACTORS],
        count: 0,
    }
}

// Whether the path of one resource contains that of another.
fn is_within(outer: Resource, inner: Resource) -> bool
    ensures { result ≡ contained (path_of outer) (path_of inner) }
{
    let long = (outer.len as usize).min(Register::PATH);
    let wide = (inner.len as usize).min(Register::PATH);
    match paths::contains(&outer.path[..long], &inner.path[..wide]) {
        Some(_) => true,
        None => false,
    }
}

// Of each resource whether its path contains that of the one at a place: judged once, however many claims are to it. Of none where none stands there.
fn containers(o: Resources, spot: usize) -> [bool; Register::RESOURCES]
    ensures { result ≡ containers_of o spot }
{
    let mut marks = [false; Register::RESOURCES];
    let top = o.count.min(Register::RESOURCES);
    if top <= spot {
        return marks;
    }
    let inner = o.list[spot];
    for i in 0..top {
        let outer = o.list[i];
        marks[i] = is_within(outer, inner);
    }
    marks
}

// Whether a place is marked; none is past the end.
fn is_marked(marks: &[bool], at: usize) -> bool
    ensures { result ≡ get_or marks.now at false }
{
    at < marks.len() && marks[at]
}

// The holder of a claim that covers a use: its resource is marked, it has not ended, and it has the right. 0 of any other.
fn coverer(holder: u32, end: u64, held: u32, marked: bool, right: u32, moment: u64) -> u32
    ensures { result ≡ coverer_of holder end held marked right moment }
{
    if !marked {
        return 0;
    }
    if end <= moment {
        return 0;
    }
    if rights::has(held, right) { holder } else { 0 }
}

// The holders of those of the first `n` claims that cover a use, each at the claim's place; 0 at any other.
fn coverers<'a>(
    sheet: &'a [u32],
    ends: &'a [u64],
    spots: &'a [u16],
    marks: &'a [bool],
    n: usize,
    right: u32,
    moment: u64,
) -> [u32; Register::CLAIMS]
    requires { (length ends.now ≡ claim_limit) × (length spots.now ≡ claim_limit) }
    ensures { result ≡ coverers_of (column_of holder_column sheet.now) (column_of rights_column sheet.now) ends.now spots.now marks.now n right moment }
{
    let holders = columns::column(sheet, columns::HOLDERS);
    let rights = columns::column(sheet, columns::RIGHTS);
    let top = n.min(Register::CLAIMS);
    let mut found = [0u32; Register::CLAIMS];
    for i in 0..top {
        let holder = columns::number_at(holders, i);
        let held = columns::number_at(rights, i);
        let marked = is_marked(marks, spots[i] as usize);
        found[i] = coverer(holder, ends[i], held, marked, right, moment);
    }
    found
}

// Whether an actor may make a use that is open to all or that these cover: it covers it and, where it is a machine, has an owner who does too.
fn may(freely: bool, coverers: &[u32], n: usize, a: Actor) -> bool
    ensures { result ≡ may_by freely (take n coverers.now) a }
{
    let covers = freely | columns::is_among(coverers, n, a.id);
    if a.kind != Actor::MACHINE {
        return covers;
    }
    if a.owner == 0 {
        return false;
    }
    covers & (freely | columns::is_among(coverers, n, a.owner))
}

// Of the actors those who may.
fn permitted(actors: Actors, freely: bool, coverers: &[u32], n: usize) -> Holders
    ensures { result ≡ holders_of (Ok tt) (map (λ a. a.id) (filter (may_by freely (take n coverers.now)) (actors_of actors))) }
{
    let top = actors.count.min(Register::ACTORS);
    let mut ids = [0u32; Register::ACTORS];
    let mut count: usize = 0;
    for a in &actors.list[..top] {
        if may(freely, coverers, n, *a) {
            ids[count] = a.id;
            count += 1;
        }
    }
    Holders {
        outcome: Ok(()),
        ids,
        count,
    }
}

// Who may make a use at a moment.
pub fn who(r: Register, usage: Usage, moment: u64) -> Holders
    ensures { result ≡ who_held r usage moment }
{
    let mut sheet = [0u32; columns::SHEET];
    let found = soundness::examine(&mut sheet, r.version, r.actors, r.resources, r.claims);
    if !found.sound {
        return nobody(Refusal::Unsound);
    }
    if !ask_fits(usage, moment) {
        return nobody(Refusal::Range);
    }
    let spot = coverage::spot(&found.resources.reports, r.resources.count, usage.resource);
    let marks = containers(r.resources, spot);
    let ends = gate::claim_ends(&sheet, &found.ups, r.claims.count);
    let holders = coverers(
        &sheet,
        &ends,
        &found.spots,
        &marks,
        r.claims.count,
        usage.right,
        moment,
    );
    let public = columns::number_at(&found.resources.publics, spot);
    let freely = (usage.right == rights::READ) & (public == 1);
    permitted(r.actors, freely, &holders, r.claims.count)
}

// What is asked for a reason: whose, for which right on the resource at which place, 64 for none, and when.
#[derive(Clone, Copy)]
struct Ask {
    actor: u32,
    right: u32,
    spot: usize,
    moment: u64,
}

// A reason without a claim.
fn no_claim(kind: u32) -> Told
    ensures { result ≡ told_of (telling_none kind) }
{
    Told {
        kind,
        count: 0,
        chain: [0; Told::CHAIN],
        keeper: 0,
        ended: 0,
    }
}

// The reason with the claim at a place of the sheet: the walk up its chain, by the places of the parents.
fn told<'a>(kind: u32, sheet: &'a [u32], ups: &'a [u16], from: usize) -> Told
    ensures { result ≡ chain_told kind sheet.now ups.now from 0 }
{
    let first = columns::claim_at(sheet, from);
    let mut chain = [0u32; Told::CHAIN];
    chain[0] = first.id;
    let mut keeper = first.grantor;
    let mut at = from;
    let mut up = columns::place_above(ups, from);
    let mut count: u32 = 1;
    while (up < at) & ((count as usize) < Told::CHAIN) {
        let claim = columns::claim_at(sheet, up);
        chain[count as usize] = claim.id;
        keeper = claim.grantor;
        count += 1;
        at = up;
        up = columns::place_above(ups, at);
    }
    Told {
        kind,
        count,
        chain,
        keeper,
        ended: 0,
    }
}

// The first on the chain of the claim at a place that is not current, 0 where all of it is.
fn ended<'a>(sheet: &'a [u32], ups: &'a [u16], from: usize, moment: u64) -> u32
    ensures { result ≡ ended_by sheet.now ups.now moment from }
{
    let mut at = from;
    for _step in 0..Told::CHAIN {
        let claim = columns::claim_at(sheet, at);
        if !claim.is_current(moment) {
            return claim.id;
        }
        let up = columns::place_above(ups, at);
        if at <= up {
            return 0;
        }
        at = up;
    }
    0
}

// What is lent of a register that was examined: how many stand in it, what was found of it, where the path of each resource lies and how long it is, the
// end of each claim, and the sheet of the claims.
#[derive(Clone, Copy)]
struct Lent<'a> {
    counts: Counts,
    found: &'a Findings,
    bytes: &'a [u8],
    lens: &'a [usize],
    ends: &'a [u64],
    sheet: &'a [u32],
}

impl<'a> Lent<'a> {
    // The nearest claim with the right that the actor holds and that has not ended, by these ends and these rights.
    fn nearest(self, ends: &'a [u64], rights: &'a [u32], ask: Ask) -> Option<usize>
        ensures { result ≡ held_place (column_of holder_column self.entry.sheet.now) ends.now rights.now self.entry.found.now.spots self.entry.bytes.now self.entry.lens.now self.entry.counts.claims ask }
    {
        let holders = columns::column(self.sheet, columns::HOLDERS);
        let held = coverage::gather(holders, ends, self.counts.claims, ask.actor, ask.moment);
        coverage::nearest_covering(
            &held.places,
            held.count,
            rights,
            &self.found.spots,
            self.bytes,
            self.lens,
            ask.right,
            ask.spot,
        )
    }

    // The reason where no claim that the actor holds has the right: the nearest that it holds, whatever its rights, or none.
    fn lacking(self, ask: Ask) -> Told
        ensures { result ≡ lacking_by self.entry.counts.claims self.entry.found.now self.entry.lens.now self.entry.sheet.now self.entry.bytes.now ask }
    {
        let always = [register::MOMENT_END; Register::CLAIMS];
        let whole = [EVERY_RIGHT; Register::CLAIMS];
        match self.nearest(&always, &whole, ask) {
            Some(j) => told(Told::LACKS, self.sheet, &self.found.ups, j),
            None => no_claim(Told::UNHELD),
        }
    }

    // The reason where the actor does not cover the use: the nearest claim held that has the right, which is not live, or else what it lacks.
    fn missing(self, ask: Ask) -> Told
        ensures { result ≡ missing_by self.entry.counts.claims self.entry.found.now self.entry.lens.now self.entry.sheet.now self.entry.bytes.now ask }
    {
        let rights = columns::column(self.sheet, columns::RIGHTS);
        let always = [register::MOMENT_END; Register::CLAIMS];
        match self.nearest(&always, rights, ask) {
            Some(j) => {
                let ended = ended(self.sheet, &self.found.ups, j, ask.moment);
                Told {
                    ended,
                    ..told(Told::NOT_LIVE, self.sheet, &self.found.ups, j)
                }
            }
            None => self.lacking(ask),
        }
    }

    // The reason of an actor: the claim relied on, or a public READ, or what is missing.
    fn reason(self, ask: Ask) -> Told
        ensures { result ≡ reason_by self.entry.counts.claims self.entry.found.now self.entry.lens.now self.entry.ends.now self.entry.sheet.now self.entry.bytes.now ask }
    {
        let rights = columns::column(self.sheet, columns::RIGHTS);
        match self.nearest(self.ends, rights, ask) {
            Some(j) => told(Told::RELIES, self.sheet, &self.found.ups, j),
            None => {
                let public = columns::number_at(&self.found.resources.publics, ask.spot);
                if (ask.right == rights::READ) & (public == 1) {
                    return no_claim(Told::PUBLIC);
                }
                self.missing(ask)
            }
        }
    }

    // The owner of the machine numbered `x`; 0 where it has none, or is no machine.
    fn machine_owner(self, x: u32) -> u32
        ensures { result ≡ owner_for self.entry.found.now self.entry.counts.actors x }
    {
        let n = self.counts.actors;
        let a = &self.found.actors;
        if columns::is_beside(&a.names, &a.kinds, n, x, Actor::MACHINE) {
            return gate::owner_of(&a.names, &a.owners, n, x);
        }
        0
    }

    // The reason of an actor and, of a machine with an owner, his.
    fn both(self, ask: Ask) -> UseTold
        ensures { result ≡ use_by self.entry.counts self.entry.found.now self.entry.lens.now self.entry.ends.now self.entry.sheet.now self.entry.bytes.now ask }
    {
        let actor = self.reason(ask);
        let owner = self.machine_owner(ask.actor);
        if owner == 0 {
            return UseTold {
                outcome: Ok(()),
                actor,
                owner: 0,
                owners: no_claim(Told::UNASKED),
            };
        }
        let theirs = Ask {
            actor: owner,
            ..ask
        };
        let owners = self.reason(theirs);
        UseTold {
            outcome: Ok(()),
            actor,
            owner,
            owners,
        }
    }
}

// The answer of a call that is refused: nothing was asked.
fn unasked(why: Refusal) -> UseTold
    ensures { result ≡ use_told_of (refused_for why) }
{
    let none = no_claim(Told::UNASKED);
    UseTold {
        outcome: Err(why),
        actor: none,
        owner: 0,
        owners: none,
    }
}

// Why an actor may make a use at a moment or may not.
pub fn why_use(r: Register, actor: u32, usage: Usage, moment: u64) -> UseTold
    ensures { result ≡ use_told_of (why_use r actor usage moment) }
{
    let mut sheet = [0u32; columns::SHEET];
    let found = soundness::examine(&mut sheet, r.version, r.actors, r.resources, r.claims);
    if !found.sound {
        return unasked(Refusal::Unsound);
    }
    let mut bytes = [0u8; coverage::BYTES];
    let lens = coverage::lay(&mut bytes, r.resources);
    let counts = Counts {
        actors: r.actors.count,
        resources: r.resources.count,
        claims: r.claims.count,
    };
    let ends = gate::claim_ends(&sheet, &found.ups, counts.claims);
    let action = actions::one_use(actor, usage, moment);
    let outcome = gate::action_outcome(&found.actors.names, counts.actors, action);
    match outcome {
        Err(why) => unasked(why),
        Ok(()) => {
            let spot = coverage::spot(&found.resources.reports, counts.resources, usage.resource);
            let ask = Ask {
                actor,
                right: usage.right,
                spot,
                moment,
            };
            let lent = Lent {
                counts,
                found: &found,
                bytes: &bytes,
                lens: &lens,
                ends: &ends,
                sheet: &sheet,
            };
            lent.both(ask)
        }
    }
}
