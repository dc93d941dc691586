//! Reading the source of a code cell: its tokens, their nesting, and the trees that they derive.
//!
//! The layer above may rely on this: [`read`] gives the expressions of a source exactly where the
//! source reads as some, by `Reads` of `ex_model`, and a source reads as one list of expressions at
//! most. Nothing here recurses over the source, its tokens or its trees, and the time that it takes
//! is linear in the source.
#![tactic(auto)]

mod front;
mod lexeme;
mod nesting;
mod parser;
mod reading;
mod tokens;

pub use reading::read;
