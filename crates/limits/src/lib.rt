//! The limits of books, scripts, notebooks and edits, each said once.
//!
//! What the layers above may rely on: these numbers, here for code and in `specs/Limits.antt` for
//! definitions. They are this project's own; Livebook has none of them.
#![tactic(auto)]

/// A book or a script has at most this many bytes.
pub const MOST_FILE_BYTES: usize = 8_388_608;

/// A notebook has at most this many sections.
pub const MOST_SECTIONS: usize = 1_000;

/// The sections of a notebook have at most this many cells.
pub const MOST_CELLS: usize = 4_000;

/// At most this many cells among them are code.
pub const MOST_CODE_CELLS: usize = 1_000;

/// An edit puts in at most this many UTF-16 units.
pub const MOST_INSERTED: u64 = 65_536;

/// The numbers of cells and sections are below this one, so that there is always a next.
pub const NUMBERS_END: u64 = 9_223_372_036_854_775_808;
