// The gate for one action: tests 1, 2 and 3, then every violation and a hop count for each use.
// The claims are put into a sheet and the paths laid one after the other, once, and both are lent,
// with the lengths of the paths and the ends of the claims; what else is looked at of the register
// are the columns that were found of it. A claim is live over its whole chain; its end says until
// when, and is found once for the register (`claim_ends`), so no chain is walked for an action. The
// claims that can cover are gathered once for an action, for the actor and for the owner of a
// machine.
#![tactic(auto)]

ghost use Rattle.std.specs.Prelude.{◌≡◌};
ghost use Rattle.columns.specs.Columns.{latest_place};
ghost use Rattle.refusals.specs.Refusals.{outcome_of};
ghost use Rattle.gate_rules.specs.Gate.{gated};
ghost use Rattle.uses.specs.Sights.{owner_at};
ghost use Rattle.gate.specs.Judged.{sheet_ends, lent_from, owner_asked, relied_by, lent_tests, lent_judged, verdict_by, AsGated};

use actions::{Action, Verdict};
use refusals::Refusal;
use register::{Actor, Register};
use soundness::Findings;
use uses::{Uses, UsesJudged};

// How many actors, resources and claims a register has.
#[derive(Clone, Copy)]
pub struct Counts {
    pub actors: usize,
    pub resources: usize,
    pub claims: usize,
}

// The end of each of the first `n` claims of a sheet, the first moment at which it or a claim that it is drawn from is not live any more, by the
// places of the parents.
pub fn claim_ends<'a>(sheet: &'a [u32], ups: &'a [u16], n: usize) -> [u64; Register::CLAIMS]
    ensures { result ≡ sheet_ends sheet.now ups.now n }
{
    let weights = columns::column(sheet, columns::WEIGHTS);
    let expiries = columns::column(sheet, columns::EXPIRIES);
    coverage::ends(weights, expiries, ups, n)
}

// The owner's number of the actor numbered `x` among the first `n`, 0 for none.
pub fn owner_of<'a>(names: &'a [u32], owners: &'a [u32], n: usize, x: u32) -> u32
    ensures { result ≡ owner_at owners.now (latest_place names.now n x) }
{
    let place = columns::latest_place(names, n, x);
    match place {
        Some(j) => columns::number_at(owners, j),
        None => 0,
    }
}

// A holder whose claims are asked for: the number, how many claims are looked through, and the moment.
#[derive(Clone, Copy)]
struct Holder {
    number: u32,
    claims: usize,
    moment: u64,
}

// The owner of a machine as a holder. No claims are looked through where there is no owner to ask.
fn owner_asked(owned: bool, owner: u32, n: usize, moment: u64) -> Holder
    ensures { result ≡ owner_asked owned owner n moment }
{
    let claims = if owned { n } else { 0 };
    Holder {
        number: owner,
        claims,
        moment,
    }
}

// What is lent to judge actions by: the counts of a register and what was found of it, the lengths of the paths, the ends of the claims, the sheet of
// the claims and the bytes of the paths.
#[derive(Clone, Copy)]
pub struct LentRegister<'a> {
    pub counts: Counts,
    pub found: &'a Findings,
    pub lens: &'a [usize],
    pub ends: &'a [u64],
    pub sheet: &'a [u32],
    pub bytes: &'a [u8],
}

impl LentRegister<'_> {
    // The claim that a holder relies on for each use, by the sheet of the claims and their ends: those that can cover are gathered once.
    fn relied(self, who: Holder, uses: Uses) -> [u16; Action::USES]
        ensures { result ≡ relied_by who self.entry.sheet.now self.entry.ends.now self.entry.found.now.spots self.entry.bytes.now self.entry.lens.now uses }
    {
        let holders = columns::column(self.sheet, columns::HOLDERS);
        let rights = columns::column(self.sheet, columns::RIGHTS);
        let held = coverage::gather(holders, self.ends, who.claims, who.number, who.moment);
        uses::relied_on(
            &held.places,
            held.count,
            rights,
            &self.found.spots,
            self.bytes,
            self.lens,
            uses,
        )
    }

    // An action judged by what is lent: its violations in 01's order and the hop count of each use. By what is lent of a sound register, and where
    // the action is in range, these are the gate's (`lent_natural` and `judged_natural` of specs/Laws); the tests are the caller's.
    pub fn judge(self, a: Action) -> UsesJudged
        ensures { result ≡ lent_judged (lent_from self.entry) a }
    {
        let found = self.found;
        let counts = self.counts;
        let machine = columns::is_beside(
            &found.actors.names,
            &found.actors.kinds,
            counts.actors,
            a.actor,
            Actor::MACHINE,
        );
        let owner = owner_of(
            &found.actors.names,
            &found.actors.owners,
            counts.actors,
            a.actor,
        );
        let owned = machine & (owner != 0);
        let vs = violations::first_violations(a, machine, owner);
        let uses = uses::uses_of(&found.resources.reports, counts.resources, a);
        let actor = Holder {
            number: a.actor,
            claims: counts.claims,
            moment: a.now,
        };
        let relied = self.relied(actor, uses);
        let asked = owner_asked(owned, owner, counts.claims, a.now);
        let covered = self.relied(asked, uses);
        let hops = uses::hop_counts(&found.ups, &relied, uses.count);
        let violations = uses::put_faults(
            vs,
            &relied,
            &covered,
            owned,
            &found.resources.publics,
            uses,
        );
        UsesJudged { violations, hops }
    }
}

// Tests 2 and 3, of the action, over the ids of the first `n` actors.
pub fn action_outcome(names: &[u32], n: usize, a: Action) -> Result<(), Refusal>
    ensures { result ≡ outcome_of (lent_tests names.now n a) }
{
    if !actions::action_fits(a) {
        return Err(Refusal::Range);
    }
    if !columns::is_among(names, n, a.actor) {
        return Err(Refusal::Absent);
    }
    Ok(())
}

// The gate by a sheet of the register's claims and what was found of the register, which is refused with 1 where that says that it is not sound.
pub fn gate_by(r: Register, sheet: &[u32], found: Findings, a: Action) -> Verdict
    ensures told { result ≡ verdict_by r sheet.now found a }
    ensures gated { AsGated r sheet.now found a result }
{
    if !found.sound {
        return violations::stopped(Refusal::Unsound);
    }
    let o = r.resources;
    let mut bytes = [0u8; coverage::BYTES];
    let lens = coverage::lay(&mut bytes, o);
    let counts = Counts {
        actors: r.actors.count,
        resources: r.resources.count,
        claims: r.claims.count,
    };
    let ends = claim_ends(sheet, &found.ups, counts.claims);
    let outcome = action_outcome(&found.actors.names, counts.actors, a);
    match outcome {
        Err(why) => violations::stopped(why),
        Ok(()) => {
            let lent = LentRegister {
                counts,
                found: &found,
                lens: &lens,
                ends: &ends,
                sheet,
                bytes: &bytes,
            };
            let judged = lent.judge(a);
            violations::decided(judged.violations, judged.hops)
        }
    }
}

// The gate.
pub fn gate(r: Register, a: Action) -> Verdict
    ensures { result ≡ gated r a }
{
    let actors = r.actors;
    let o = r.resources;
    let k = r.claims;
    let mut sheet = [0u32; columns::SHEET];
    let found = soundness::examine(&mut sheet, r.version, actors, o, k);
    gate_by(r, &sheet, found, a)
}
