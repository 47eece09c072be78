// The first fault of a register, and of a text that is to be one: definitions and theorems.
// Here is the type; in specs/ the definitions that the two calls are proved to equal. The fault
// crosses to C as it is, and has no bytes between or behind its fields.
#![tactic(auto)]

// The first fault. Sound: `sound` is 1 and all else is 0. Otherwise `sound` is 0, `why` has the number of the rule that is broken, `list` is 0 for
// the register, 1 for its actors, 2 for its resources and 3 for its claims, and `place` and `id` are those of the record. Where a line of a text fails,
// `line` is its number.
#[repr(C)]
#[derive(Clone, Copy)]
pub struct Fault {
    pub sound: u32,
    pub why: u32,
    pub list: u32,
    pub id: u32,
    pub place: usize,
    pub line: usize,
}

impl Fault {
    pub const ACTORS: u32 = 1;

    pub const RESOURCES: u32 = 2;

    pub const CLAIMS: u32 = 3;
}
