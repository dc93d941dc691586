//! Why bytes are no script.
ghost use Rattle.std.specs.Prelude.{◌≡◌};
ghost use Rattle.script.specs.declared.error.LineError.TheVariants.{OutOfMemory as LineMemory};
ghost use Rattle.script.specs.declared.error.ScriptError.TheVariants.{OutOfMemory};

use std::alloc::AllocError;
use thiserror::Error;

/// What is wrong with a line.
#[derive(Clone, Copy, Debug, PartialEq, Eq)]
pub enum LineFault {
    /// The line isn't UTF-8, as one with the byte 255; a comment isn't spared.
    NotUtf8,
    /// The line isn't one of the lines that are played so far, in its form, as `quiet` and
    /// `send ann`, or has a name that would be the 65th.
    Unbuilt,
}

/// Why bytes are no script.
#[derive(Clone, Copy, Debug, PartialEq, Eq, Error)]
pub enum ScriptError {
    /// The script is longer than 8,388,608 bytes.
    #[error("the script is too large")]
    TooLarge,
    /// The first line, counted from 1, that has a fault.
    #[error("line {line} of the script: {kind:?}")]
    At { line: u64, kind: LineFault },
    /// Memory ran out.
    #[error("out of memory")]
    OutOfMemory,
}

impl From<AllocError> for ScriptError {
    ghost from_gives = { λ _ e. e ≡ OutOfMemory };

    fn from(_: AllocError) -> ScriptError {
        ScriptError::OutOfMemory
    }
}

/// Why a line is not taken.
#[derive(Clone, Copy, Debug, PartialEq, Eq)]
pub(crate) enum LineError {
    /// The line has a fault.
    Fault(LineFault),
    /// Memory ran out.
    OutOfMemory,
}

impl From<AllocError> for LineError {
    ghost from_gives = { λ _ e. e ≡ LineMemory };

    fn from(_: AllocError) -> LineError {
        LineError::OutOfMemory
    }
}
