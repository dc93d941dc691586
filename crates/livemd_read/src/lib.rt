//! Reading Live Markdown, Livebook's format of notebooks, by this project's line rules.
//!
//! What the layer above may rely on: [`read`] gives the notebook and the notices of a book
//! (`Reads` of `livemd_format`) or says why there is none, each cause exactly where it holds
//! (`specs/Causes.antt`).
#![tactic(auto)]

mod build;
mod count;
mod done;
mod draft;
mod items;
mod open;
mod reader;
mod settle;
mod take;
mod types;

pub use livemd_format::{Notice, NoticeKind};
pub use reader::read;
pub use types::{BookError, Read};
