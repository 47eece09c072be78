// The gate for a plan text, whose steps are actions and whole plans.
// The text comes first: its failing line is refused with 19, 20, 22 or 23. Then 1 where the register
// is not sound; then the first action whose actor does not stand stops the whole plan with 3 and is
// named by its position, a cancelled one too. A stopped plan has no verdicts. Otherwise each action
// has one, in reading order: every action after the first with a flag set is cancelled, whatever
// plans they stand in. The text is read once for its form; what is kept of an action is where it
// begins, and it is read again there when it is judged.
#![tactic(auto)]

ghost use Rattle.std.specs.Prelude.{◌≡◌, false, ◌≤◌, replicate};
ghost use Rattle.gate.specs.Judged.{lent_from};
ghost use Rattle.plans.specs.Stops.{halt_by};
ghost use Rattle.plans.specs.Judgements.{judgements_by};
ghost use Rattle.steps.specs.Steps.{text_action_limit};
ghost use Rattle.steps.specs.Judging.{stopped_plan, text_verdict, plan_text_judged};
ghost use Rattle.step_reading.specs.Finding.{action_at, actions_at};

use actions::{Action, Judgement};
use gate::{Counts, LentRegister};
use refusals::Refusal;
use register::Register;
use step_reading::Places;
use steps::{PlanTextVerdict, TEXT_ACTIONS};

// The places of the verdicts with none in them yet: each holds the permission, which is not counted.
fn no_verdicts() -> [Judgement; TEXT_ACTIONS]
    ensures { result ≡ replicate text_action_limit Judgement.Permitted }
{
    [Judgement::Permitted; TEXT_ACTIONS]
}

// A stopped plan: no verdicts.
fn stopped(why: Refusal, line: usize, position: usize) -> PlanTextVerdict
    ensures { result ≡ stopped_plan why line position }
{
    let list = no_verdicts();
    PlanTextVerdict {
        outcome: Err(why),
        line,
        position,
        list,
        count: 0,
    }
}

// The action that begins at a place of the text.
fn action_at(text: &[u8], at: usize) -> Action
    ensures { result ≡ action_at text.now at }
{
    action_reading::read_lines(text, lines::behind(at, 0)).action
}

// The verdicts on the actions that begin at these places of the text, by what is lent.
fn judge_places(lent: LentRegister<'_>, text: &[u8], p: Places) -> PlanTextVerdict
    requires { p.count ≤ text_action_limit }
    ensures { result ≡ text_verdict (halt_by lent.entry.found.now.actors.names lent.entry.counts.actors 0 (actions_at text.now p)) (judgements_by (lent_from lent.entry) false (actions_at text.now p)) }
{
    let mut list = no_verdicts();
    let mut flagged = false;
    for i in 0..p.count {
        let a = action_at(text, p.list[i]);
        if let Err(why) = gate::action_outcome(&lent.found.actors.names, lent.counts.actors, a) {
            return stopped(why, 0, i);
        }
        let what = plans::judge(lent, a, flagged);
        list[i] = what;
        flagged |= a.flags != 0;
    }
    PlanTextVerdict {
        outcome: Ok(()),
        line: 0,
        position: 0,
        list,
        count: p.count,
    }
}

// The gate for a plan text.
pub fn plan_text(r: Register, text: &[u8]) -> PlanTextVerdict
    ensures { result ≡ plan_text_judged r text.now }
{
    let places = step_reading::read_text(text);
    if !lines::goes_on(text, places.cursor) {
        return stopped(places.cursor.refusal, places.cursor.line, 0);
    }
    let mut sheet = [0u32; columns::SHEET];
    let found = soundness::examine(&mut sheet, r.version, r.actors, r.resources, r.claims);
    if !found.sound {
        return stopped(Refusal::Unsound, 0, 0);
    }
    let mut bytes = [0u8; coverage::BYTES];
    let lens = coverage::lay(&mut bytes, r.resources);
    let counts = Counts {
        actors: r.actors.count,
        resources: r.resources.count,
        claims: r.claims.count,
    };
    let ends = gate::claim_ends(&sheet, &found.ups, counts.claims);
    let lent = LentRegister {
        counts,
        found: &found,
        lens: &lens,
        ends: &ends,
        sheet: &sheet,
        bytes: &bytes,
    };
    judge_places(lent, text, places)
}
