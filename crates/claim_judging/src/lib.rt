// Whether one claim is as it should be, by itself and over the claims before it.
// By itself: its numbers in range, the actors and the resource that it names standing, a root
// granted by the keeper (a), and what a machine may grant (c); the actors and resources are lent as
// columns, or were looked up in them before. Over the claims before it, where it has a parent:
// drawn from the parent (b), with fewer hands left (d) and no circle along the chain (e).
#![tactic(auto)]

mod alone;
mod hands;
mod over;

pub use alone::{claim_fits, names_stand, root_kept, stands_named};
pub use hands::stored;
pub use over::{circles_up, fewer_left, stands_over};
