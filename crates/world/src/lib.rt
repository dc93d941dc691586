//! Any number of clients and one session, and all that can happen between them, in memory.
//!
//! What the layers above may rely on: `specs/World.antt` says what each [`Event`] makes of a world, and
//! [`run`] gives the world of a whole list of events. After every list of events the history is legal,
//! each client holds what it has received with its own unconfirmed edits done to it, a client that has
//! received all and has nothing pending holds the server's notebook, and a client's delta or report is
//! refused only where its cell was deleted. All that is said of the world after `run` is `IsRun` in
//! `specs/Plays.antt`; the laws stand in `proofs/`, for any history that is made by these events.
#![tactic(auto)]

mod event;
mod world;

pub use event::Event;
pub use world::{World, place_of, run};
