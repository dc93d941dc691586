//! Where a cell is evaluated, and what is known of its evaluation.
ghost use Rattle.std.specs.Prelude.{◌≡◌};
ghost use Rattle.notebook.specs.declared.states.PathError.TheVariants.{OutOfMemory};

use crate::parts::SectionId;
use std::alloc::AllocError;
use thiserror::Error;

/// Cells of one lane are evaluated one after the other; lanes don't wait for one another but where a
/// branch begins.
#[derive(Clone, Copy, Debug, PartialEq, Eq)]
pub enum Lane {
    /// The setup cell and the code cells of the sections that branch from none.
    Main,
    /// The code cells of the section, which branches from another.
    Branch(SectionId),
}

/// What is asked for a cell.
#[derive(Clone, Copy, Debug, PartialEq, Eq)]
pub enum Status {
    /// Nothing.
    Ready,
    /// To be evaluated.
    Queued,
    /// It is being evaluated.
    Evaluating,
}

/// What a cell's last evaluation is worth.
#[derive(Clone, Copy, Debug, PartialEq, Eq)]
pub enum Validity {
    /// No evaluation has finished.
    Fresh,
    /// The last one to finish read the path that the cell has now.
    Evaluated,
    /// The last one to finish read another path.
    Stale,
    /// The last attempt was broken off.
    Aborted,
}

/// Why there is no path.
#[derive(Clone, Copy, Debug, Drop, PartialEq, Eq, Error)]
pub enum PathError {
    /// No live setup or code cell has the number.
    #[error("no cell of code has the number")]
    NoCell,
    /// Memory ran out.
    #[error("out of memory")]
    OutOfMemory,
}

impl From<AllocError> for PathError {
    ghost from_gives = { λ _ e. e ≡ OutOfMemory };

    fn from(_: AllocError) -> PathError {
        PathError::OutOfMemory
    }
}
