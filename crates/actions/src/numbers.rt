// 01's numbers of the kinds of violation and of a plan's verdicts, and the number that each is about.
ghost use Rattle.std.specs.Prelude.{◌≡◌};
ghost use Rattle.actions.specs.Actions.{kind_of, value_of, judgement_number, judgement_value};

use crate::{Judgement, Violation};

// 01's number of a violation's kind.
pub fn kind(v: Violation) -> u32
    ensures { result ≡ kind_of v }
{
    match v {
        Violation::FlagSet(_) => 1,
        Violation::NoOwner(_) => 2,
        Violation::MachineGoverns(_) => 3,
        Violation::NotCovered(_) => 4,
        Violation::OwnerNotCovering(_) => 5,
    }
}

// The flag, actor or position that a violation is about.
pub fn value(v: Violation) -> u32
    ensures { result ≡ value_of v }
{
    match v {
        Violation::FlagSet(i) => i,
        Violation::NoOwner(id) => id,
        Violation::MachineGoverns(at) => at,
        Violation::NotCovered(at) => at,
        Violation::OwnerNotCovering(at) => at,
    }
}

// The number of a verdict of a plan. 3 is a stopped call's, and no verdict of a plan has it.
pub fn judgement_number(j: Judgement) -> u32
    ensures { result ≡ judgement_number j }
{
    match j {
        Judgement::Permitted => 1,
        Judgement::Refused(_) => 2,
        Judgement::Cancelled => 4,
    }
}

// The number of violations that a verdict of a plan names, 0 where it names none.
pub fn judgement_value(j: Judgement) -> u32
    ensures { result ≡ judgement_value j }
{
    match j {
        Judgement::Permitted => 0,
        Judgement::Refused(violations) => violations,
        Judgement::Cancelled => 0,
    }
}
