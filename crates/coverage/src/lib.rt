// Which of an actor's claims cover a use, and which of them is the nearest.
// By lent columns: when each claim ends; the claims that the actor holds and that have not ended,
// gathered once for an action; the paths laid one after the other, 64 bytes to a resource, so that
// containment of any two is judged on parts of one lent column; and of the gathered claims that
// cover a use the one whose path reaches furthest.
#![tactic(auto)]

mod gathering;
mod laying;
mod reaching;

pub use gathering::{ends, gather, spot};
pub use laying::lay;
pub use reaching::nearest_covering;
use register::Register;

// The bytes of the paths of all resources.
pub const BYTES: usize = Register::RESOURCES * Register::PATH;

// The places of the claims that can cover, in register order; 0 past the count.
#[derive(Clone, Copy)]
pub struct Gathered {
    pub places: [u16; Register::CLAIMS],
    pub count: usize,
}
