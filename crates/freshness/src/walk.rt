//! Going through cells that stand one after the other.
ghost use Rattle.std.specs.Prelude.{◌≡◌, ◌++◌, ◌∷◌, IfOk, OnOk, map, flat_map};
ghost use Rattle.notebook.specs.Before.{left};
ghost use Rattle.notebook.specs.Flow.{code_cells, passed};
ghost use Rattle.notebook.specs.Rules.{cell_number};
ghost use Rattle.notebook.specs.Validity.{same_passed, same_path};
ghost use Rattle.freshness.specs.Following.{code_numbers};

use notebook::{Cell, CellId, FlowCells, Parts, Passed};
use plain_list::Items;
use std::alloc::{AllocError, Global};

/// Whether a cell that was passed is this one, with the source that it has now.
fn is_same(read: &Passed, cell: &Cell) -> bool
    ensures { result ≡ same_passed read.now (passed cell.now) }
{
    read.cell == cell.id && read.source.as_str() == cell.source.as_str()
}

/// Whether a path that was read goes through these cells, with the sources that they have now.
pub(crate) fn is_path(read: &[Passed], cells: FlowCells<'_>) -> bool
    ensures { result ≡ same_path read.now (map passed (left cells.entry)) }
{
    let mut rest = cells;
    for passed in read {
        let Some((cell, after)) = rest.next() else {
            return false;
        };
        if !is_same(passed, cell) {
            return false;
        }
        rest = after;
    }
    rest.next().is_none()
}

/// The cells with their sources, copied.
pub(crate) fn path_of(alloc: Global, cells: FlowCells<'_>) -> Result<Items<Passed>, AllocError>
    ensures { IfOk result (λ p. p ≡ map passed (left cells.entry)) }
{
    let mut path = Items::new(alloc);
    let mut rest = cells;
    while let Some((cell, after)) = rest.next() {
        path.push(Passed {
            cell: cell.id,
            source: cell.source.copy()?,
        })?;
        rest = after;
    }
    Ok(path)
}

/// Puts the numbers of the code cells among these at the end.
fn push_code(ids: &mut Vec<CellId>, cells: &[Cell]) -> Result<(), AllocError>
    ensures { OnOk result (ids.new.items ≡ ids.old.items ++ map cell_number (code_cells cells.now)) }
{
    for cell in cells {
        if cell.is_code() {
            ids.push(cell.id)?;
        }
    }
    Ok(())
}

/// The numbers of the setup cell and the code cells, in notebook order.
pub(crate) fn code_numbers(alloc: Global, parts: &Parts) -> Result<Vec<CellId>, AllocError>
    ensures { IfOk result (λ ids. ids.items ≡ code_numbers parts.now) }
{
    let mut ids = Vec::new(alloc);
    ids.push(parts.setup.id)?;
    for section in parts.sections.as_slice() {
        push_code(&mut ids, section.cells.as_slice())?;
    }
    Ok(ids)
}
