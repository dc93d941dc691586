//! Whether an evaluation still counts. Another rule of validity changes this file and
//! `specs/Validity`.
ghost use Rattle.std.specs.Prelude.{◌≡◌, map};
ghost use Rattle.std.specs.Option.{option_copied, option_map};
ghost use Rattle.notebook.specs.Before.{left};
ghost use Rattle.notebook.specs.Flow.{passed};
ghost use Rattle.notebook.specs.Validity.{validity_by_path};
ghost use Rattle.freshness.specs.Marked.{path_read};
ghost use Rattle.freshness.specs.Validity.{validity_of, validity_on};

use crate::mark::Finished;
use crate::marks::Marks;
use crate::walk::is_path;
use notebook::{CellId, FlowCells, Validity};

/// What an evaluation that was not broken off is worth, where the cell's flow is this one.
fn worth(last: Option<&Finished>, flow: FlowCells<'_>) -> Validity
    ensures { result ≡ validity_by_path (option_map path_read (option_copied last.entry)) (map passed (left flow.entry)) }
{
    match last {
        None => Validity::Fresh,
        Some(last) => {
            if is_path(last.path.as_slice(), flow) {
                Validity::Evaluated
            } else {
                Validity::Stale
            }
        }
    }
}

/// What the cell's last finished evaluation is worth, where the cell's flow is this one.
fn validity_on(marks: &Marks, cell: CellId, flow: FlowCells<'_>) -> Validity
    ensures { result ≡ validity_on marks.now cell (map passed (left flow.entry)) }
{
    match marks.mark(cell) {
        None => Validity::Fresh,
        Some(mark) => {
            if mark.aborted {
                return Validity::Aborted;
            }
            worth(mark.finished.as_ref(), flow)
        }
    }
}

impl Marks {
    /// What the cell's last finished evaluation is worth in the notebook to which the marks were
    /// brought: aborted where the cell is marked so; else fresh where none was finished; else evaluated
    /// where the path that it read is the cell's present path; else stale. `None` exactly where no live
    /// setup or code cell has the number. Takes no memory.
    pub fn validity(&self, cell: CellId) -> Option<Validity>
        ensures { result ≡ validity_of self.now cell }
    {
        let before = self.book().before(cell)?;
        Some(validity_on(self, cell, before.flow))
    }
}
