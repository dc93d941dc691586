//! What goes from the ends of a line: spaces, tabs and carriage returns.
//!
//! What the layers above may rely on: each call answers a stretch of the text that it is given, exactly
//! the one that `specs/Blanks.antt` says, takes no memory and always answers. Blanks are spaces and
//! tabs alone, as in Live Markdown and in scripts; no other white space counts.
#![tactic(auto)]

mod trim;

pub use trim::{
    is_blank, is_space_or_tab, trim_spaces, without_crs, without_end_blanks, without_front_blanks,
};
