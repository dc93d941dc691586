//! The notebook: a name, a setup cell and sections of cells, as plain data.
//!
//! What the layers above may rely on: each value of `Notebook` keeps the rules of `IsNotebook`
//! (numbers, kinds, parents, limits), and contracts see it as the record of its parts.
#![tactic(auto)]

mod before;
mod book;
mod cells;
mod change;
mod edits;
mod flow;
mod lists;
mod parts;
mod sections;
mod states;

pub use before::{Before, FlowCells};
pub use book::Notebook;
pub use change::{CellKind, Change, Changed, NoteError};
pub use parts::{Cell, CellId, Kind, Parts, Passed, Saved, Section, SectionId};
pub use states::{Lane, PathError, Status, Validity};
