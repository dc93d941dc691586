//! Writing Live Markdown, Livebook's format of notebooks, by this project's rules.
//!
//! What the layer above may rely on: [`tidy`] gives the tidy form of a notebook, what of it a book
//! can tell, [`text`] the text of that, and [`write`] its bytes (`Tidy` and `Write` of
//! `livemd_format`).
#![tactic(auto)]

mod cells;
mod fences;
mod markdown;
mod page;
mod texts;
mod tidy_up;
mod writer;

pub use writer::{text, tidy, write};
