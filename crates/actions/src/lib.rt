// What the gate and the plan are asked and answer, and whether an action is in range.
// Every number of an action has a type that can say one out of range; entries past a count are
// ignored. The structs that come in cross to C as they are; answers hold enums.
#![tactic(auto)]

mod numbers;
mod ranges;

ghost use Rattle.std.specs.Prelude.{◌≡◌};
ghost use Rattle.actions.specs.Actions.{one_use};

pub use numbers::{judgement_number, judgement_value, kind, value};
pub use ranges::action_fits;
use refusals::Refusal;

// A resource number with a right.
#[repr(C)]
#[derive(Clone, Copy)]
pub struct Usage {
    pub resource: u32,
    pub right: u32,
}

#[repr(C)]
#[derive(Clone, Copy)]
pub struct Action {
    pub actor: u32,
    pub flags: u32,
    pub now: u64,
    pub uses: [Usage; Action::USES],
    pub used: usize,
    pub governs: [u32; Action::GOVERNED],
    pub governed: usize,
}

impl Action {
    pub const USES: usize = 32;

    pub const GOVERNED: usize = 8;

    pub const FLAGS: u32 = 10;
}

// The greatest flags number: all ten flags.
pub const FLAGS_LIMIT: u32 = 1023;

#[repr(C)]
#[derive(Clone, Copy)]
pub struct Plan {
    pub actions: [Action; Plan::ACTIONS],
    pub count: usize,
}

impl Plan {
    pub const ACTIONS: usize = 16;
}

// Why an action is not permitted: the flag, actor or position that it is about.
#[derive(Clone, Copy)]
pub enum Violation {
    // 1: a flag is set.
    FlagSet(u32),
    // 2: the actor is a machine without owner.
    NoOwner(u32),
    // 3: a machine governs.
    MachineGoverns(u32),
    // 4: the actor does not cover the use.
    NotCovered(u32),
    // 5: the machine's owner does not cover the use.
    OwnerNotCovering(u32),
}

#[derive(Clone, Copy)]
pub struct Violated {
    pub what: Violation,
}

#[derive(Clone, Copy)]
pub struct Violations {
    pub list: [Violated; Violations::MOST],
    pub count: usize,
}

impl Violations {
    // Ten flags, one owner, eight governed entries, thirty-two uses.
    pub const MOST: usize = 51;
}

#[derive(Clone, Copy)]
pub enum Decision {
    Permitted,
    Refused,
    Stopped(Refusal),
}

// The answer of the gate: past the counts, flag 0 and hop count 0.
#[derive(Clone, Copy)]
pub struct Verdict {
    pub decision: Decision,
    pub violations: Violations,
    pub hops: [usize; Action::USES],
}

// The verdict on an action of a plan.
#[derive(Clone, Copy)]
pub enum Judgement {
    // 1: no violations.
    Permitted,
    // 2: with its number of violations.
    Refused(u32),
    // 3: it stands after the first action with a flag set.
    Cancelled,
}

// The answer for a plan: past the count, permitted. A stopped plan has no verdicts, and the position of the action that stopped it.
#[derive(Clone, Copy)]
pub struct PlanVerdict {
    pub outcome: Result<(), Refusal>,
    pub position: usize,
    pub list: [Judgement; Plan::ACTIONS],
    pub count: usize,
}

// The action of an actor, a use and a moment alone: no flag set, nothing governed.
pub fn one_use(actor: u32, usage: Usage, moment: u64) -> Action
    ensures { result ≡ one_use actor usage moment }
{
    let mut uses = [Usage {
        resource: 0,
        right: 0,
    }; Action::USES];
    uses[0] = usage;
    Action {
        actor,
        flags: 0,
        now: moment,
        uses,
        used: 1,
        governs: [0; Action::GOVERNED],
        governed: 0,
    }
}
