//! Why a row of the tables gives no value.
ghost use Rattle.std.specs.Prelude.{◌≡◌};
ghost use Rattle.ex_prims.specs.declared.refused.Refused.TheVariants.{OutOfMemory};

use ex_faults::Fault;
use std::alloc::AllocError;

/// Why a row of the tables gives no value.
#[derive(Drop)]
pub(crate) enum Refused {
    /// An argument is of another kind than the row takes, or outside of what it takes.
    Wrong,
    /// A fault of the row's own.
    Faulted(Fault),
    /// Arguments and value have more units than there are steps left, so the value isn't made.
    TooManySteps,
    /// What would be printed has more bytes than there is room for.
    TooMuchOutput,
    /// Memory was refused.
    OutOfMemory,
}

impl From<AllocError> for Refused {
    ghost from_gives = { λ _ e. e ≡ OutOfMemory };

    fn from(_: AllocError) -> Refused {
        Refused::OutOfMemory
    }
}
