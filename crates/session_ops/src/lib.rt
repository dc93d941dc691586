//! What is asked of a session and what it answers, and what a list of answered calls makes of the
//! notebook that a session opens with.
//!
//! What the layers above may rely on: `Entry`, `Call`, `Op`, `Reply` and `Refusal` are plain data,
//! and the definitions in `specs/State.antt` say which reply each call gets and what it changes.
#![tactic(auto)]

mod deed;
mod entry;
mod snapshot;

pub use deed::{CellEdit, Deed, edit_source};
pub use entry::{Call, Entry, Op, Refusal, Reply};
pub use snapshot::Snapshot;
