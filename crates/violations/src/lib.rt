// The list of violations in 01's order, and the verdict by it.
// The flags that are set, that a machine has no owner, and the entries that it governs, each put
// behind those that are there. What is put where there is no place is dropped: an action in range
// has places for all.
#![tactic(auto)]

ghost use Rattle.std.specs.Prelude.{◌≡◌, cond, [], eqb};
ghost use Rattle.actions.specs.Actions.{governs_of};
ghost use Rattle.gate_rules.specs.Gate.{flags_set, governed, listed, padded};
ghost use Rattle.violations.specs.Pushed.{besides, pushed_all, pushed};

use actions::{Action, Decision, Verdict, Violated, Violation, Violations};
use refusals::Refusal;

// No violations.
pub fn none() -> Violations
    ensures { result ≡ listed [] }
{
    let v = Violated {
        what: Violation::FlagSet(0),
    };
    let list = [v; Violations::MOST];
    Violations { list, count: 0 }
}

// One violation more, at the end; as they were where there is no place.
pub fn push(mut vs: Violations, v: Violation) -> Violations
    ensures { result ≡ pushed vs v }
{
    put(&mut vs, v);
    vs
}

// The same, where they stand.
pub fn put(vs: &mut Violations, v: Violation)
    ensures { vs.new ≡ pushed vs.old v }
{
    let at = vs.count;
    if at < Violations::MOST {
        vs.list[at] = Violated { what: v };
        vs.count += 1;
    }
}

// 1: one for each set flag, lowest first.
pub fn push_flags(mut vs: Violations, flags: u32) -> Violations
    ensures { result ≡ pushed_all vs (flags_set flags) }
{
    for flag in 0..Action::FLAGS {
        if (flags >> flag) % 2 == 1 {
            put(&mut vs, Violation::FlagSet(flag));
        }
    }
    vs
}

// 3: one for each governed entry.
pub fn push_governs(mut vs: Violations, a: Action) -> Violations
    ensures { result ≡ pushed_all vs (governed 0 (governs_of a)) }
{
    for position in 0..a.governed.min(Action::GOVERNED) {
        put(&mut vs, Violation::MachineGoverns(position as u32));
    }
    vs
}

// The violations of an action besides those of its uses.
pub fn first_violations(a: Action, machine: bool, owner: u32) -> Violations
    ensures { result ≡ pushed_all (listed []) (besides machine owner a) }
{
    let flagged = push_flags(none(), a.flags);
    if machine {
        if owner == 0 {
            let unowned = push(flagged, Violation::NoOwner(a.actor));
            return push_governs(unowned, a);
        }
        return push_governs(flagged, a);
    }
    flagged
}

// A call that was refused: no violations and no hop counts.
pub fn stopped(why: Refusal) -> Verdict
    ensures { result ≡ record { decision = Decision.Stopped why; violations = listed []; hops = padded [] } }
{
    let violations = none();
    let hops = [0usize; Action::USES];
    Verdict {
        decision: Decision::Stopped(why),
        violations,
        hops,
    }
}

// The verdict on an action with these violations and hop counts: permitted means an empty list.
pub fn decided(violations: Violations, hops: [usize; Action::USES]) -> Verdict
    ensures { result ≡ record { decision = cond (eqb violations.count 0) Decision.Permitted Decision.Refused; violations = violations; hops = hops } }
{
    let decision = if violations.count == 0 {
        Decision::Permitted
    } else {
        Decision::Refused
    };
    Verdict {
        decision,
        violations,
        hops,
    }
}
