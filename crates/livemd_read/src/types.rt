//! What reading a book gives.
ghost use Rattle.std.specs.Prelude.{◌≡◌};
ghost use Rattle.livemd_read.specs.declared.types.BookError.TheVariants.{OutOfMemory};

use livemd_format::Notice;
use notebook::Notebook;
use plain_list::Items;
use std::alloc::AllocError;
use thiserror::Error;

/// A book as it was read.
#[derive(Debug, Drop)]
pub struct Read {
    pub notebook: Notebook,
    /// In the order of lines.
    pub notices: Items<Notice>,
}

/// Why a book isn't read. The causes are checked in this order; want of memory may come at any
/// point.
#[derive(Clone, Copy, Debug, Drop, PartialEq, Eq, Error)]
pub enum BookError {
    /// The book has more than 8,388,608 bytes.
    #[error("the book has more than 8388608 bytes")]
    TooLarge,
    /// The bytes aren't UTF-8: the longest front that is has `at` bytes. Place 0 of the byte FF.
    #[error("the book is not UTF-8 from byte {at} on")]
    NotUtf8 { at: u64 },
    /// The notebook would have more than 1,000 sections.
    #[error("the book has more than 1000 sections")]
    TooManySections,
    /// The notebook would have more than 4,000 cells in its sections, or more than 1,000 code cells
    /// among them.
    #[error("the book has too many cells")]
    TooManyCells,
    /// Memory ran out.
    #[error("out of memory")]
    OutOfMemory,
}

impl From<AllocError> for BookError {
    ghost from_gives = { λ _ e. e ≡ OutOfMemory };

    fn from(_: AllocError) -> BookError {
        BookError::OutOfMemory
    }
}
