// The gate for a plan of up to 16 actions, in order.
// Refused with 1 where the register is not sound and then with 2 where the count is above 16, both
// with position 0; then the first action with 2 or 3 stops the whole plan and is named by its
// position from 0, a cancelled one too. A stopped plan has no verdicts. Otherwise each action has
// one: every action after the first with a flag set is cancelled, and any other is permitted, or
// refused with its number of violations. Soundness is judged, and what is looked at of the register
// is taken out of it, once for the whole plan; it is lent to each action.
#![tactic(auto)]

ghost use Rattle.std.specs.Prelude.{◌≡◌, false, cond, ◌≤◌};
ghost use Rattle.actions.specs.Actions.{violation_limit};
ghost use Rattle.gate_rules.specs.Plans.{actions_of, held, stopped, planned};
ghost use Rattle.gate.specs.Judged.{lent_from, lent_judged};
ghost use Rattle.plans.specs.Stops.{stop_of, halt_by};
ghost use Rattle.plans.specs.Judgements.{judged_as, judgements_by};

use actions::{Action, Judgement, Plan, PlanVerdict};
use gate::{Counts, LentRegister};
use refusals::Refusal;
use register::Register;

// What stops a plan, and at which position; accepted, with position 0, where nothing does.
#[derive(Clone, Copy)]
pub struct Stop {
    pub outcome: Result<(), Refusal>,
    pub position: usize,
}

// The first action with 2 or 3, by the ids of the first `n` actors.
pub fn first_stop(names: &[u32], n: usize, p: Plan) -> Stop
    ensures { result ≡ stop_of (halt_by names.now n 0 (actions_of p)) }
{
    for position in 0..p.count.min(Plan::ACTIONS) {
        let outcome = gate::action_outcome(names, n, p.actions[position]);
        if let Err(_) = outcome {
            return Stop { outcome, position };
        }
    }
    Stop {
        outcome: Ok(()),
        position: 0,
    }
}

// A stopped plan: no verdicts.
pub fn stopped(why: Refusal, position: usize) -> PlanVerdict
    ensures { result ≡ stopped why position }
{
    let list = [Judgement::Permitted; Plan::ACTIONS];
    PlanVerdict {
        outcome: Err(why),
        position,
        list,
        count: 0,
    }
}

// The verdict on an action that is judged, by its number of violations.
fn verdict_by(count: usize) -> Judgement
    requires { count ≤ violation_limit }
    ensures { result ≡ judged_as count }
{
    if count == 0 {
        return Judgement::Permitted;
    }
    Judgement::Refused(count as u32)
}

// The verdict on an action, by what is lent.
pub fn judge(lent: LentRegister<'_>, a: Action, cancelled: bool) -> Judgement
    ensures { result ≡ cond cancelled Judgement.Cancelled (judged_as (lent_judged (lent_from lent.entry) a).violations.count) }
{
    if cancelled {
        return Judgement::Cancelled;
    }
    let judged = lent.judge(a);
    verdict_by(judged.violations.count)
}

// The verdicts on the actions of a plan, by what is lent.
pub fn judge_all(lent: LentRegister<'_>, p: Plan) -> PlanVerdict
    ensures { result ≡ held (judgements_by (lent_from lent.entry) false (actions_of p)) }
{
    let count = p.count.min(Plan::ACTIONS);
    let mut list = [Judgement::Permitted; Plan::ACTIONS];
    let mut flagged = false;
    for i in 0..count {
        let a = p.actions[i];
        let cancelled = flagged;
        flagged |= a.flags != 0;
        let what = if cancelled {
            Judgement::Cancelled
        } else {
            let judged = lent.judge(a);
            verdict_by(judged.violations.count)
        };
        list[i] = what;
    }
    PlanVerdict {
        outcome: Ok(()),
        position: 0,
        list,
        count,
    }
}

// The gate for a plan.
pub fn plan(r: Register, p: Plan) -> PlanVerdict
    ensures { result ≡ planned r p }
{
    let actors = r.actors;
    let o = r.resources;
    let k = r.claims;
    let mut sheet = [0u32; columns::SHEET];
    let found = soundness::examine(&mut sheet, r.version, actors, o, k);
    if !found.sound {
        return stopped(Refusal::Unsound, 0);
    }
    if Plan::ACTIONS < p.count {
        return stopped(Refusal::Range, 0);
    }
    let mut bytes = [0u8; coverage::BYTES];
    let lens = coverage::lay(&mut bytes, o);
    let counts = Counts {
        actors: actors.count,
        resources: o.count,
        claims: k.count,
    };
    let ends = gate::claim_ends(&sheet, &found.ups, counts.claims);
    let stop = first_stop(&found.actors.names, counts.actors, p);
    let outcome = stop.outcome;
    match outcome {
        Err(why) => stopped(why, stop.position),
        Ok(()) => {
            let lent = LentRegister {
                counts,
                found: &found,
                lens: &lens,
                ends: &ends,
                sheet: &sheet,
                bytes: &bytes,
            };
            judge_all(lent, p)
        }
    }
}
