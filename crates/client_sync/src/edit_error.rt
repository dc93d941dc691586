//! Why a client refuses an edit.
use thiserror::Error;

/// Why a client refuses an edit of its own text, in the order of the checks. The client is then as
/// it was.
#[derive(Clone, Copy, Debug, PartialEq, Eq, Error)]
pub enum EditError {
    /// The client has no such cell.
    #[error("no cell has the number")]
    NoCell,
    /// The edit inserts more than 65,536 UTF-16 units.
    #[error("the edit inserts too much")]
    EditTooLong,
    /// The edit reaches past the text's `len` UTF-16 units.
    #[error("the text has {len} units")]
    PastEnd { len: u64 },
    /// The edit cuts the text inside a character, at the place `at` in UTF-16 units.
    #[error("place {at} is inside a surrogate pair")]
    SplitsPair { at: u64 },
    /// Memory was refused.
    #[error("out of memory")]
    OutOfMemory,
}
