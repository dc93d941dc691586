//! The cells that a change of the notebook takes away.
ghost use Rattle.std.specs.Prelude.{◌≡◌, ℕ, List, IfOk, map};
ghost use Rattle.notebook.specs.declared.parts.Cell.{Cell};
ghost use Rattle.notebook.specs.Book.{resourced};
ghost use Rattle.notebook.specs.declared.parts.Parts.{Parts};
ghost use Rattle.notebook.specs.declared.change.Changed.{Changed};
ghost use Rattle.notebook.specs.Change.{Makes, change, cells_in};
ghost use Rattle.notebook.specs.Living.{gone_cells};
ghost use Rattle.notebook.specs.Rules.{cell_number};

use notebook::{Cell, CellId, Change, Notebook, Section, SectionId};
use std::alloc::{AllocError, Global};

/// The numbers of the live cells that a change takes away, which is made of the notebook or of the
/// one with other sources.
pub(crate) fn gone_numbers(
    alloc: Global,
    book: &Notebook,
    asked: &Change,
) -> Result<Vec<CellId>, AllocError>
    ensures { (n n' : Parts) (made : Changed) (own : Cell → List ℕ) →
        book.now ≡ resourced own n → change n asked.now ≡ Makes n' made →
        IfOk result (λ ids. ids.items ≡ map cell_number (gone_cells n asked.now)) }
{
    match asked {
        Change::DeleteCell { cell } => Ok(Vec::from_array(alloc, [*cell])?),
        Change::DeleteSection { section } => {
            numbers_in(alloc, book.parts().sections.as_slice(), *section)
        }
        _ => Ok(Vec::new(alloc)),
    }
}

/// The numbers of the cells of a section.
fn numbers_in(alloc: Global, sections: &[Section], id: SectionId) -> Result<Vec<CellId>, AllocError>
    ensures { IfOk result (λ ids. ids.items ≡ map cell_number (cells_in id sections.now)) }
{
    for section in sections {
        if section.id == id {
            return numbers(alloc, section.cells.as_slice());
        }
    }
    Ok(Vec::new(alloc))
}

/// The numbers of some cells.
fn numbers(alloc: Global, cells: &[Cell]) -> Result<Vec<CellId>, AllocError>
    ensures { IfOk result (λ ids. ids.items ≡ map cell_number cells.now) }
{
    let mut ids = Vec::new(alloc);
    for cell in cells {
        ids.push(cell.id)?;
    }
    Ok(ids)
}
