//! The revisions of a notebook's cells, as a list.
ghost use Rattle.std.specs.Prelude.{◌≡◌, OnOk};
ghost use Rattle.client_sync.specs.Revisions.{raised_one, raised, with_made, without_revision};
ghost use Rattle.session_ops.specs.Snapshot.{listed_revision};

use notebook::{CellId, Changed};
use plain_list::Items;
use std::alloc::AllocError;

/// The revision of a cell; `None` where the list has no such cell.
pub(crate) fn rev_in(revs: &[(CellId, u64)], cell: CellId) -> Option<u64>
    ensures { result ≡ listed_revision cell revs.now }
{
    for (id, rev) in revs {
        if *id == cell {
            return Some(*rev);
        }
    }
    None
}

/// The entry, with this revision where it is the cell's.
fn raised_one(entry: &(CellId, u64), cell: CellId, rev: u64) -> (CellId, u64)
    ensures { result ≡ raised_one cell rev entry.now }
{
    (entry.0, if entry.0 == cell { rev } else { entry.1 })
}

/// Gives a cell a revision; the others stay.
pub(crate) fn raise(revs: &mut [(CellId, u64)], cell: CellId, rev: u64)
    ensures { revs.new ≡ raised cell rev revs.old }
{
    for entry in revs.iter_mut() {
        *entry = raised_one(entry, cell, rev);
    }
}

/// Takes a cell out of the list.
pub(crate) fn remove(revs: &mut Vec<(CellId, u64)>, cell: CellId)
    ensures { revs.new.items ≡ without_revision cell revs.old.items }
{
    revs.retain(|entry| entry.0 != cell);
}

/// Puts the cell that a change made, if it made one, at the list's end, with the revision 0.
pub(crate) fn add_made(revs: &mut Items<(CellId, u64)>, made: Changed) -> Result<(), AllocError>
    ensures { OnOk result (revs.new ≡ with_made made revs.old) }
{
    match made {
        Changed::Plain | Changed::NewSection { .. } => Ok(()),
        Changed::NewCell { cell } => {
            revs.push((cell, 0))?;
            Ok(())
        }
    }
}
