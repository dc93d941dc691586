//! What a call may cost and print.
ghost use Rattle.std.specs.Prelude.{◌≡◌, ◌<◌, ◌≤◌, ◌+◌};
ghost use Rattle.ex_prims.specs.Bodies.{Covers};

use crate::refused::Refused;

/// What a call may cost and print.
#[derive(Drop)]
pub(crate) struct Limits {
    /// The sizes of the arguments together, or the largest number of 64 bits where that is greater.
    pub operands: u64,
    /// The steps that are left.
    pub left: u64,
    /// The number of bytes that may still be printed.
    pub room: u64,
}

impl Limits {
    /// Whether arguments and a value of this size can be paid. [`Refused::TooManySteps`] exactly where
    /// they have more units together than there are steps left.
    pub(crate) fn cover(&self, size: u64) -> Result<(), Refused>
        ensures { Covers self.now size result }
    {
        let left = self.left;
        match self.operands.checked_add(size) {
            Some(charge) => {
                if charge <= left {
                    Ok(())
                } else {
                    Err(Refused::TooManySteps)
                }
            }
            None => Err(Refused::TooManySteps),
        }
    }
}
