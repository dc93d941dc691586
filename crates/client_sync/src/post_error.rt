//! Why a client posts no report.
use thiserror::Error;

/// Why a client posts no report. The client is then as it was.
#[derive(Clone, Copy, Debug, PartialEq, Eq, Error)]
pub enum PostError {
    /// The client has no such cell.
    #[error("no cell has the number")]
    NoCell,
    /// Memory was refused.
    #[error("out of memory")]
    OutOfMemory,
}
