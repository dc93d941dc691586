//! Live Markdown as definitions: the items of a book, the notebook and the notices that they make,
//! the tidy form of a notebook and its text.
//!
//! What the layers above may rely on: the definitions in `specs/`, and the laws in `proofs/`. Code
//! here is only what reader and writer both ask of a line, and the types of notices.
#![tactic(auto)]

mod kinds;
mod notices;

pub use kinds::{is_code, may_stand};
pub use notices::{Notice, NoticeKind};
