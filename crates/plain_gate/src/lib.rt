// The plain gate: one walk through the claims fills a table, and uses are looked up.
// Soundness is judged once; then one walk through the claims fills the paper for an action, and its
// uses are looked up there (02, T-06). Tests 2 and 3, the flags, the owner and the governed entries
// are the gate's own. Its answers are those of the gate (`plain_gate_same` and `plain_plan_same` of
// coverage_table).
#![tactic(auto)]

ghost use Rattle.std.specs.Prelude.{◌≡◌, false, cond};
ghost use Rattle.gate_rules.specs.Gate.{listed, padded};
ghost use Rattle.gate_rules.specs.Fitting.{Fit};
ghost use Rattle.gate_rules.specs.Plans.{actions_of, judged, held, halt_of, runs};
ghost use Rattle.violations.specs.Pushed.{pushed_all};
ghost use Rattle.coverage_table.specs.Table.{plain_violations, plain_hops, plainly_gated, plain_judgements, plainly_planned};
ghost use Rattle.plain_gate.specs.Cells.{cells_of, hops_told, cell_hops, faults_in};
ghost use Rattle.plain_gate.specs.Known.{Known};

use actions::{Action, Judgement, Plan, PlanVerdict, Verdict, Violation, Violations};
use refusals::Refusal;
use register::{Actor, Register};
use soundness::Findings;

// The violations of an action and the hop counts of its uses; 0 past the uses.
#[derive(Clone, Copy)]
struct PlainlyJudged {
    violations: Violations,
    hops: [usize; Action::USES],
}

// What stands in the cells of an action's uses, 0 past them.
fn cells_of<'a>(cells: &'a [u16], reports: &'a [u32], m: usize, a: Action) -> [u16; Action::USES]
    ensures { result ≡ cells_of cells.now reports.now m a }
{
    let top = a.used.min(Action::USES);
    let mut found = [paper::NOTHING; Action::USES];
    for i in 0..top {
        let u = a.uses[i];
        found[i] = paper::cell_in(cells, reports, m, u);
    }
    found
}

// The hop count of the claim in a cell, 0 where there is none.
fn hops_told(hops: &[u16], cell: u16) -> usize
    ensures { result ≡ hops_told hops.now cell }
{
    if (cell as usize) < paper::CLAIM {
        return 0;
    }
    let place = (cell as usize - paper::CLAIM) % Register::CLAIMS;
    if hops.len() <= place {
        return 0;
    }
    hops[place] as usize
}

// The hop counts of the first `n` uses, by what stands in their cells; 0 past them.
fn hops_in<'a>(hops: &'a [u16], own: &'a [u16], n: usize) -> [usize; Action::USES]
    ensures { result ≡ cell_hops hops.now own.now n }
{
    let top = n.min(Action::USES.min(own.len()));
    let mut counts = [0usize; Action::USES];
    for i in 0..top {
        counts[i] = hops_told(hops, own[i]);
    }
    counts
}

// 4, 5: a violation more for each of the first `n` uses whose cell has nothing, or else whose owner's cell has nothing, where there is an owner to ask.
fn put_faults<'a>(
    vs: Violations,
    own: &'a [u16],
    theirs: &'a [u16],
    owned: bool,
    n: usize,
) -> Violations
    ensures { result ≡ pushed_all vs (faults_in own.now theirs.now owned n) }
{
    let long = own.len().min(theirs.len());
    let top = n.min(Action::USES.min(long));
    let mut put = vs;
    for i in 0..top {
        if own[i] == paper::NOTHING {
            put = violations::push(put, Violation::NotCovered(i as u32));
        } else if owned & (theirs[i] == paper::NOTHING) {
            put = violations::push(put, Violation::OwnerNotCovering(i as u32));
        }
    }
    put
}

// An action in range by a known actor of a sound register, judged by its paper.
fn judge(r: Register, sheet: &[u32], found: Findings, a: Action) -> PlainlyJudged
    requires { Known r sheet.now found × Fit r a }
    ensures { result ≡ record { violations = listed (plain_violations r a); hops = padded (plain_hops r a) } }
{
    let n = r.actors.count;
    let m = r.resources.count;
    let machine = columns::is_beside(
        &found.actors.names,
        &found.actors.kinds,
        n,
        a.actor,
        Actor::MACHINE,
    );
    let owner = gate::owner_of(&found.actors.names, &found.actors.owners, n, a.actor);
    let owned = machine & (owner != 0);
    let first = violations::first_violations(a, machine, owner);
    let page = paper::walk(
        r,
        sheet,
        &found.ups,
        &found.resources.reports,
        a.actor,
        owner,
        a.now,
    );
    let own = cells_of(&page.own, &found.resources.reports, m, a);
    let theirs = cells_of(&page.theirs, &found.resources.reports, m, a);
    let violations = put_faults(first, &own, &theirs, owned, a.used);
    let hops = hops_in(&page.hops, &own, a.used);
    PlainlyJudged { violations, hops }
}

// The plain gate.
pub fn gate(r: Register, a: Action) -> Verdict
    ensures { result ≡ plainly_gated r a }
{
    let mut sheet = [0u32; columns::SHEET];
    let found = soundness::examine(&mut sheet, r.version, r.actors, r.resources, r.claims);
    if !found.sound {
        return violations::stopped(Refusal::Unsound);
    }
    let outcome = gate::action_outcome(&found.actors.names, r.actors.count, a);
    match outcome {
        Err(why) => violations::stopped(why),
        Ok(()) => {
            let judged = judge(r, &sheet, found, a);
            let hops = judged.hops;
            violations::decided(judged.violations, hops)
        }
    }
}

// The verdict on an action of a plan.
fn judge_one(r: Register, sheet: &[u32], found: Findings, a: Action, cancelled: bool) -> Judgement
    requires { Known r sheet.now found × Fit r a }
    ensures { result ≡ cond cancelled Judgement.Cancelled (judged (plain_violations r a)) }
{
    if cancelled {
        return Judgement::Cancelled;
    }
    let judged = judge(r, sheet, found, a);
    let count = judged.violations.count;
    if count == 0 {
        return Judgement::Permitted;
    }
    Judgement::Refused(count as u32)
}

// The verdicts on the actions of a plan that nothing stops: each action has its own paper.
fn judge_all(r: Register, sheet: &[u32], found: Findings, p: Plan) -> PlanVerdict
    requires { Known r sheet.now found × (halt_of r p ≡ runs) }
    ensures { result ≡ held (plain_judgements r false (actions_of p)) }
{
    let mut list = [Judgement::Permitted; Plan::ACTIONS];
    let mut flagged = false;
    for i in 0..p.count {
        let a = p.actions[i];
        let what = judge_one(r, sheet, found, a, flagged);
        list[i] = what;
        flagged |= a.flags != 0;
    }
    PlanVerdict {
        outcome: Ok(()),
        position: 0,
        list,
        count: p.count,
    }
}

// The plain gate for a plan.
pub fn plan(r: Register, p: Plan) -> PlanVerdict
    ensures { result ≡ plainly_planned r p }
{
    let mut sheet = [0u32; columns::SHEET];
    let found = soundness::examine(&mut sheet, r.version, r.actors, r.resources, r.claims);
    if !found.sound {
        return plans::stopped(Refusal::Unsound, 0);
    }
    if Plan::ACTIONS < p.count {
        return plans::stopped(Refusal::Range, 0);
    }
    let stop = plans::first_stop(&found.actors.names, r.actors.count, p);
    let outcome = stop.outcome;
    match outcome {
        Err(why) => plans::stopped(why, stop.position),
        Ok(()) => judge_all(r, &sheet, found, p),
    }
}
