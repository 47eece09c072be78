// Plans inside plans: the steps of a plan text, read and judged: definitions and theorems.
// Here is what a plan text is answered with; in specs/ the definitions that the call is proved to
// equal.
#![tactic(auto)]

use actions::Judgement;
use refusals::Refusal;

// The levels of plans, the outermost being 1.
pub const LEVELS: usize = 8;

// The steps of one plan.
pub const STEPS: u32 = 64;

// The actions of a plan text, in all its plans.
pub const TEXT_ACTIONS: usize = 64;

// The answer for a plan text. Refused: no verdicts; the failing line from 1 where the text is refused, and the position of the action that does
// so where one stops the plan. Past the count the list holds permissions that say nothing.
#[derive(Clone, Copy)]
pub struct PlanTextVerdict {
    pub outcome: Result<(), Refusal>,
    pub line: usize,
    pub position: usize,
    pub list: [Judgement; TEXT_ACTIONS],
    pub count: usize,
}
