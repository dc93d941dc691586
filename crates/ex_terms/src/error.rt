//! Why a value has no text for readers.
ghost use Rattle.std.specs.Prelude.{◌≡◌};
ghost use Rattle.ex_terms.specs.declared.error.DisplayError.TheVariants.{OutOfMemory};

use std::alloc::AllocError;
use thiserror::Error;

/// Why a value isn't given as a text for readers.
#[derive(Clone, Copy, Debug, PartialEq, Eq, Error)]
pub enum DisplayError {
    /// The value is a tuple or a list.
    #[error("a tuple or a list has no text")]
    NoText,
    /// Memory was refused.
    #[error("out of memory")]
    OutOfMemory,
}

impl From<AllocError> for DisplayError {
    ghost from_gives = { λ _ e. e ≡ OutOfMemory };

    fn from(_: AllocError) -> DisplayError {
        DisplayError::OutOfMemory
    }
}
