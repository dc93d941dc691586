//! The printed text of replies, notebooks and deltas.
//!
//! What the layers above may rely on: each function's bytes are those that `specs/` gives.
//! Each pushing form puts them after what its string holds. Where memory is wanting it gives
//! `AllocError`, and the string may then hold a beginning of the text; nothing else fails.
#![tactic(auto)]

mod book;
mod deltas;
mod reply;
mod states;
mod words;

pub use book::{book_text, push_book, rev_in};
pub use deltas::push_delta;
pub use reply::{push_refusal, push_reply, reply_text};
pub use states::push_state;
pub use words::{push_named, push_number, push_plain, push_text};
