// The texts of a register and of an action, and their readings: definitions and theorems.
// Here are the types of what a reading answers; in specs/ the definitions that the calls are proved
// to equal.
#![tactic(auto)]

use actions::Action;
use refusals::Refusal;
use register::Register;

// No text of a sound register is longer.
pub const REGISTER_TEXT: usize = 39789;

// The last moment, as a number of a text.
pub const LAST_MOMENT: u32 = register::LAST_MOMENT as u32;

// A register that was read. Refused: the empty register, and the failing line from 1, or 0 where the register is not sound. Accepted:
// line 0.
#[derive(Clone, Copy)]
pub struct RegisterRead {
    pub register: Register,
    pub outcome: Result<(), Refusal>,
    pub line: usize,
}

// An action that was read. Refused: the action of all zeros, and the failing line from 1. Accepted: line 0.
#[derive(Clone, Copy)]
pub struct ActionRead {
    pub action: Action,
    pub outcome: Result<(), Refusal>,
    pub line: usize,
}
