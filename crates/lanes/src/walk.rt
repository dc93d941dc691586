//! Going through cells that stand one after the other.
ghost use Rattle.std.specs.Prelude.{◌≡◌, ◌++◌, IfOk, map, true, None};
ghost use Rattle.std.specs.List.{list_any};
ghost use Rattle.std.specs.Option.{option_copied};
ghost use Rattle.std.specs.Prelude.{find};
ghost use Rattle.notebook.specs.Before.{left};
ghost use Rattle.notebook.specs.Flow.{passed, is_cell};
ghost use Rattle.notebook.specs.Validity.{same_path, same_passed};
ghost use Rattle.lanes.specs.Work.{own_cells, same_lane, is_branch, stands_in};

use notebook::{Cell, CellId, FlowCells, Lane, Notebook, Passed, Section, SectionId};
use plain_list::Items;
use std::alloc::{AllocError, Global};

/// Whether a cell that was passed is this one, with the source that it has now.
fn is_same(read: &Passed, cell: &Cell) -> bool
    ensures { result ≡ same_passed read.now (passed cell.now) }
{
    read.cell == cell.id && read.source.as_str() == cell.source.as_str()
}

/// Whether a path that was read goes through these cells, with the sources that they have now.
pub(crate) fn is_path(read: &[Passed], cells: FlowCells<'_>) -> bool
    ensures { result ≡ same_path read.now (map passed (left cells.entry)) }
{
    let mut rest = cells;
    for passed in read {
        let Some((cell, after)) = rest.next() else {
            return false;
        };
        if !is_same(passed, cell) {
            return false;
        }
        rest = after;
    }
    rest.next().is_none()
}

/// Whether a cell is among these.
pub(crate) fn has_cell(cells: FlowCells<'_>, id: CellId) -> bool
    ensures { result ≡ list_any (is_cell id) (left cells.entry) }
{
    let mut rest = cells;
    while let Some((cell, after)) = rest.next() {
        if cell.id == id {
            return true;
        }
        rest = after;
    }
    false
}

/// The cells with their sources, copied.
pub(crate) fn path_of(alloc: Global, cells: FlowCells<'_>) -> Result<Items<Passed>, AllocError>
    ensures { IfOk result (λ p. p ≡ map passed (left cells.entry)) }
{
    let mut path = Items::new(alloc);
    let mut rest = cells;
    while let Some((cell, after)) = rest.next() {
        path.push(Passed {
            cell: cell.id,
            source: cell.source.copy()?,
        })?;
        rest = after;
    }
    Ok(path)
}

/// Whether two lanes are one.
pub(crate) fn is_same_lane(a: Lane, b: Lane) -> bool
    ensures { result ≡ same_lane a b }
{
    match a {
        Lane::Main => match b {
            Lane::Main => true,
            Lane::Branch(_) => false,
        },
        Lane::Branch(section) => match b {
            Lane::Main => false,
            Lane::Branch(other) => section == other,
        },
    }
}

/// The branch of the number, if there is one.
fn branch_of(sections: &[Section], id: SectionId) -> Option<&Section>
    ensures { option_copied result ≡ find (is_branch id) sections.now }
{
    sections
        .iter()
        .find(|section| section.id == id && section.parent.is_some())
}

/// A lane's own cells; none where there is no such lane.
pub(crate) fn own_cells(book: &Notebook, lane: Lane) -> FlowCells<'_>
    ensures { left result ≡ own_cells book.now lane }
{
    match lane {
        Lane::Main => FlowCells::of_main(book.parts()),
        Lane::Branch(section) => match branch_of(book.parts().sections.as_slice(), section) {
            None => FlowCells::none(),
            Some(branch) => FlowCells::of_section(branch),
        },
    }
}
