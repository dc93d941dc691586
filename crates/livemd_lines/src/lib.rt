//! The lines of a Live Markdown text, each with what it is: a fence, metadata, a heading or text.
//!
//! What the layer above may rely on: [`lines`] gives exactly the lines of a text with their kinds
//! (`specs/Kinds.antt`), or says that memory is short. [`Line::of`] gives one line with its kind,
//! from the piece of text that it is and the fence that is open before it, and [`Line::open_after`]
//! the fence that is open after it. So a layer may walk the pieces of a text and see its lines one by
//! one, and need keep none of them (`proofs/Walks.antt`). Whether only blank lines follow a line with
//! a stamp is left to that layer.
#![tactic(auto)]

mod fences;
mod kinds;
mod metadata;

pub use fences::{Fence, Mark};
pub use kinds::{Line, LineKind, lines};
pub use metadata::Metadata;
