//! Going through cells that stand one after the other.
ghost use Rattle.std.specs.Prelude.{◌≡◌, find};
ghost use Rattle.std.specs.List.{list_any};
ghost use Rattle.std.specs.Option.{option_copied};
ghost use Rattle.notebook.specs.Before.{left};
ghost use Rattle.notebook.specs.Flow.{is_cell};
ghost use Rattle.section_queues.specs.Starts.{own_cells, is_branch, stands_in};
ghost use Rattle.section_queues.specs.Wanted.{same_lane};

use notebook::{CellId, FlowCells, Lane, Notebook, Section, SectionId};

/// Whether a cell is among these.
fn has_cell(cells: FlowCells<'_>, id: CellId) -> bool
    ensures { result ≡ list_any (is_cell id) (left cells.entry) }
{
    let mut rest = cells;
    while let Some((cell, after)) = rest.next() {
        if cell.id == id {
            return true;
        }
        rest = after;
    }
    false
}

/// Whether a cell stands in the flow of another, which is its own too.
pub(crate) fn stands_in(book: &Notebook, cell: CellId, other: CellId) -> bool
    ensures { result ≡ stands_in book.now cell other }
{
    match book.before(other) {
        None => false,
        Some(before) => has_cell(before.flow, cell),
    }
}

/// Whether two lanes are one.
pub(crate) fn is_same_lane(a: Lane, b: Lane) -> bool
    ensures { result ≡ same_lane a b }
{
    match a {
        Lane::Main => match b {
            Lane::Main => true,
            Lane::Branch(_) => false,
        },
        Lane::Branch(section) => match b {
            Lane::Main => false,
            Lane::Branch(other) => section == other,
        },
    }
}

/// The branch of the number, if there is one.
fn branch_of(sections: &[Section], id: SectionId) -> Option<&Section>
    ensures { option_copied result ≡ find (is_branch id) sections.now }
{
    sections
        .iter()
        .find(|section| section.id == id && section.parent.is_some())
}

/// A lane's own cells; none where there is no such lane.
pub(crate) fn own_cells(book: &Notebook, lane: Lane) -> FlowCells<'_>
    ensures { left result ≡ own_cells book.now lane }
{
    match lane {
        Lane::Main => FlowCells::of_main(book.parts()),
        Lane::Branch(section) => match branch_of(book.parts().sections.as_slice(), section) {
            None => FlowCells::none(),
            Some(branch) => FlowCells::of_section(branch),
        },
    }
}
