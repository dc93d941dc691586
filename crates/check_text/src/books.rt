//! A new notebook, and the lanes and paths of cells (`notebook`).
use crate::changes::{Ask, BookRow, change_all};
use Ask::{PutCell, PutSection, SetParent};
use notebook::{CellId, CellKind, Lane, Notebook, PathError};
use std::alloc::Global;
use utf16_text::Text;

fn set_source(alloc: Global, book: &mut Notebook, cell: CellId, source: &str) -> Option<bool> {
    Some(book.set_source(cell, Text::of(alloc, source).ok()?))
}

fn has_source(book: &Notebook, cell: CellId, wanted: &str) -> bool {
    match book.find(cell) {
        Some(cell) => cell.source.as_str() == wanted,
        None => false,
    }
}

fn next_cell(book: Notebook) -> CellId {
    book.into_parts().next_cell
}

fn is_named(book: &Notebook, wanted: &str) -> bool {
    book.parts().name.as_str() == wanted
}

fn holds(book: &Notebook, source: &str) -> bool {
    has_source(book, 0, source) && book.find(1).is_none()
}

/// Whether a copy has the source in its setup cell, and no other cell.
fn is_copied(book: &Notebook, source: &str) -> Option<bool> {
    match book.copy() {
        Ok(copy) => {
            let held = holds(&copy, source);
            Some(next_cell(copy) == 1 && held)
        }
        Err(_) => None,
    }
}

/// A new notebook's name, and the source that its setup cell gets.
pub struct Untitled(&'static str, &'static str);

pub const UNTITLED: &[Untitled] = &[Untitled("Untitled notebook", "x = 1")];

impl BookRow for Untitled {
    fn is_as_wanted_of(&self, alloc: Global, book: &mut Notebook) -> Option<bool> {
        let named = is_named(book, self.0);
        let set = set_source(alloc, book, 0, self.1)?;
        let other_set = set_source(alloc, book, 1, "x = 2")?;
        Some(named && set && !other_set && is_copied(book, self.1)?)
    }
}

/// The section A with the cell 1, its branches B with 2 and 3 and C with 4 and 5, and D with 6.
const BRANCHED: &[Ask] = &[
    PutSection(0),
    PutSection(1),
    PutSection(2),
    PutSection(3),
    SetParent(2, Some(1)),
    SetParent(3, Some(1)),
    PutCell(1, 0, CellKind::Code),
    PutCell(2, 0, CellKind::Code),
    PutCell(2, 1, CellKind::Code),
    PutCell(3, 0, CellKind::Code),
    PutCell(3, 1, CellKind::Code),
    PutCell(4, 0, CellKind::Code),
];

/// Changes that make a book, one of its cells, and the cell's lane and path, if it has any.
pub struct Path(&'static [Ask], CellId, Option<Lane>, &'static [u64]);

pub const PATHS: &[Path] = &[
    Path(&[], 0, Some(Lane::Main), &[0]),
    Path(BRANCHED, 5, Some(Lane::Branch(3)), &[0, 1, 4, 5]),
    Path(BRANCHED, 6, Some(Lane::Main), &[0, 1, 6]),
    Path(BRANCHED, 99, None, &[]),
];

/// Whether a cell's path is the wanted one, where an empty one is none.
fn has_path(alloc: Global, book: &Notebook, cell: CellId, wanted: &[u64]) -> Option<bool> {
    match book.path(alloc, cell) {
        Ok(path) => Some(path.as_slice() == wanted),
        Err(PathError::NoCell) => Some(wanted.is_empty()),
        Err(PathError::OutOfMemory) => None,
    }
}

impl BookRow for Path {
    fn is_as_wanted_of(&self, alloc: Global, book: &mut Notebook) -> Option<bool> {
        change_all(alloc, book, self.0)?;
        Some(book.lane(self.1) == self.2 && has_path(alloc, book, self.1, self.3)?)
    }
}
