//! Scripts: what clients do to a book, as lines of text.
//!
//! What the layers above may rely on: each value of `Script` keeps the rules of `IsNumbered`, and
//! contracts see it as the record of its names and lines.
#![tactic(auto)]

mod content;
mod cut;
mod delta_text;
mod error;
mod form;
mod line;
mod names;
mod ops;
mod read;
mod script;
mod texts;
mod words;

pub use content::Content;
pub use error::{LineFault, ScriptError};
pub use line::{Count, ScriptLine};
pub use read::read_script;
pub use script::Script;
