//! Shelves and sinks, by what they hold and how often they have failed.
ghost use Rattle.std.specs.Prelude.{◌≡◌, ◌≤◌, ◌++◌, ℕ, List, Option, Some, IfOk, OnOk, IfSome, IsErrOf};
ghost use Rattle.book_outside.specs.Outside.{Reading, IsListed, one_more, Rose, IsReadOf, AppendsAll, AppendsFront};
ghost use Rattle.book_outside.specs.declared.outside.ShelfError.TheVariants.{OutOfMemory as ShelfMemory};
ghost use Rattle.book_outside.specs.declared.outside.SinkError.TheVariants.{OutOfMemory as SinkMemory};

use std::alloc::{AllocError, AllocFailed, Global};
use thiserror::Error;

/// Why a shelf gives no bytes.
#[derive(Clone, Copy, Debug, PartialEq, Eq, Error)]
pub enum ShelfError {
    /// The shelf failed: a missing name is a fault of the shelf too.
    #[error("the shelf failed")]
    Failed,
    /// Memory ran out.
    #[error("out of memory")]
    OutOfMemory,
}

impl From<AllocError> for ShelfError {
    ghost from_gives = { λ _ e. e ≡ ShelfMemory };

    fn from(_: AllocError) -> ShelfError {
        ShelfError::OutOfMemory
    }
}

/// Why a sink has not taken all bytes.
#[derive(Clone, Copy, Debug, PartialEq, Eq, Error)]
pub enum SinkError {
    /// The sink failed. It may have taken a front of the bytes.
    #[error("the sink failed")]
    Failed,
    /// Memory ran out, and the sink has taken nothing.
    #[error("out of memory")]
    OutOfMemory,
}

impl From<AllocError> for SinkError {
    ghost from_gives = { λ _ e. e ≡ SinkMemory };

    fn from(_: AllocError) -> SinkError {
        SinkError::OutOfMemory
    }
}

/// Where books and scripts are held.
pub trait Shelf {
    /// The bytes that are held under each name, where the shelf tells it: of two entries of one
    /// name the first counts.
    ghost held: { Self → Option (List (List ℕ × List ℕ)) };

    /// The reads so far in order, each with its name and whether it failed.
    ghost reads: { Self → List Reading };

    /// How often the shelf has failed. It stands still at 2^64 - 1, and counts as risen there.
    ghost faults: { Self → ℕ };

    /// The first `most` bytes of what is held under the name, or all where there are fewer.
    ///
    /// The read is listed under its name, as failed exactly after `Failed`. After want of memory it is
    /// listed as one that didn't fail, or not at all.
    fn read(&mut self, alloc: Global, name: &str, most: u64) -> Result<Vec<u8>, ShelfError>
        ensures front { IfOk result (IsReadOf (held self.old) name.now most) }
        ensures same { held self.new ≡ held self.old }
        ensures listed { IsListed (reads self.old) name.now (reads self.new) result }
        ensures counts { faults self.old ≤ faults self.new }
        ensures failed { IsErrOf result ShelfError.Failed
            → Rose (faults self.old) (faults self.new) };
}

/// Where output goes.
pub trait Sink {
    /// The bytes that were written, where the sink tells it.
    ghost written: { Self → Option (List ℕ) };

    /// How many writes the sink was asked for. It stands still at 2^64 - 1.
    ghost writes: { Self → ℕ };

    /// How often the sink has failed. It stands still at 2^64 - 1, and counts as risen there.
    ghost faults: { Self → ℕ };

    /// Writes the bytes. After `Failed` a front of them may have been written, after want of memory
    /// nothing was. A sink that takes nothing of bytes that aren't empty has failed.
    fn write(&mut self, bytes: &[u8]) -> Result<(), SinkError>
        ensures appended { OnOk result
            (AppendsAll (written self.old) bytes.now (written self.new)) }
        ensures part { IsErrOf result SinkError.Failed
            → AppendsFront (written self.old) bytes.now (written self.new) }
        ensures memory { IsErrOf result SinkError.OutOfMemory
            → written self.new ≡ written self.old }
        ensures asked { writes self.new ≡ one_more (writes self.old) }
        ensures counts { faults self.old ≤ faults self.new }
        ensures failed { IsErrOf result SinkError.Failed
            → Rose (faults self.old) (faults self.new) };
}
