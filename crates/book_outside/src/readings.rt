//! The reads of a shelf, as it keeps them.
ghost use Rattle.std.specs.Prelude.{◌≡◌, ℕ, List, true, false, is_ok, if◌then◌else◌};
ghost use Rattle.book_outside.specs.Outside.{Reading, with_reading};
ghost use Rattle.book_outside.specs.Readings.{readings_of};

use std::alloc::{AllocError, Global};

/// A read that was asked for.
#[derive(Debug, Drop)]
pub(crate) struct NamedRead {
    name: String,
    failed: bool,
}

/// Lists a read of the name as the last, not failed so far. Without memory for it nothing is listed.
pub(crate) fn list_read(
    reads: &mut Vec<NamedRead>,
    alloc: Global,
    name: &str,
) -> Result<(), AllocError>
    ensures { readings_of reads.new.items
        ≡ (if is_ok result then with_reading (readings_of reads.old.items) name.now false
        else readings_of reads.old.items) }
{
    let name = String::from_str(alloc, name)?;
    reads.push(NamedRead {
        name,
        failed: false,
    })?;
    Ok(())
}

/// The read that was listed last failed.
pub(crate) fn fail_last(reads: &mut Vec<NamedRead>)
    ensures { (before : List Reading) (name : List ℕ)
        → readings_of reads.old.items ≡ with_reading before name false
        → readings_of reads.new.items ≡ with_reading before name true }
{
    if let Some(last) = reads.last_mut() {
        last.failed = true;
    }
}
