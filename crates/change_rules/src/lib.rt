// What a grant or a withdrawal answers: definitions and theorems.
// Here are the types, the register beside the outcome; in specs/ the definitions that the four
// calls are proved to equal.
#![tactic(auto)]

use refusals::Refusal;
use register::Register;

// The answer of a grant. Refused: the register as it came.
#[derive(Clone, Copy)]
pub struct Granted {
    pub register: Register,
    pub outcome: Result<(), Refusal>,
}

// The answer of a withdrawal, which is a revocation or a clearing, with how many claims went. Refused: the register as it came, and none.
#[derive(Clone, Copy)]
pub struct Revoked {
    pub register: Register,
    pub outcome: Result<(), Refusal>,
    pub removed: usize,
}
