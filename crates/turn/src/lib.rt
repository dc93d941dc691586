//! One legal history behind a ticket lock.
//!
//! A `Turns` keeps a state, which has a list of entries, behind a lock whose turns come in the order of their
//! tickets. A `Pass` is the right to take turns, and knows the list that its last turn left. The layer above may
//! rely on this: each turn finds a list that begins with what its pass has seen, and under the pass's number just
//! the entries of the pass's own turns; and the state that `close` gives back has them all. Between turns `newest`
//! tells a pass of how many entries its next turn finds at least.
#![tactic(auto)]

mod kept;
mod rule;
mod turns;

pub use kept::{Act, Kept};
pub use turns::{Pass, StillOpen, Turns};
