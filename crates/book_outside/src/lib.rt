//! What the program reaches outside itself: where books and scripts are held, where output goes,
//! and the gate that each evaluation passes.
//!
//! What the layers above may rely on: a shelf gives the front of what is held under a name and lists
//! its reads with their names, a sink appends what it is given and counts the writes that it was asked
//! for, each tells `Failed` only where its count of faults rose in that call, and what an object holds
//! or has written may be untold, as that of real files is.
#![tactic(auto)]

mod gate;
mod host;
mod memory;
mod outside;
mod readings;

pub use gate::{CellNo, Gate, JobTag, LaneNo, PlainGate};
pub use host::{HostShelf, HostSink};
pub use memory::{MemoryShelf, MemorySink, NoFaultSink};
pub use outside::{Shelf, ShelfError, Sink, SinkError};
