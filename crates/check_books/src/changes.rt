//! Changes of a notebook, each true where it was made.
use notebook::{CellId, CellKind, Change, Notebook, SectionId};
use std::alloc::Global;
use utf16_text::Text;

/// A change of a book whose next numbers are small.
fn ask(book: &mut Notebook, alloc: Global, asked: Change) -> bool {
    let parts = book.parts();
    if parts.next_cell > 10_000 || parts.next_section > 10_000 {
        return false;
    }
    book.change(alloc, asked).is_ok()
}

/// Gives the book a name.
pub fn rename(book: &mut Notebook, alloc: Global, name: &str) -> bool {
    match Text::of(alloc, name) {
        Ok(name) => ask(book, alloc, Change::SetName { name }),
        Err(_) => false,
    }
}

/// A new section at the index.
pub fn section(book: &mut Notebook, alloc: Global, index: u64, name: &str) -> bool {
    match Text::of(alloc, name) {
        Ok(name) => ask(book, alloc, Change::InsertSection { index, name }),
        Err(_) => false,
    }
}

/// Takes a section out.
pub fn delete(book: &mut Notebook, alloc: Global, section: SectionId) -> bool {
    ask(book, alloc, Change::DeleteSection { section })
}

/// A section that branches from another one.
pub fn branch(book: &mut Notebook, alloc: Global, section: SectionId, parent: SectionId) -> bool {
    let parent = Some(parent);
    ask(book, alloc, Change::SetParent { section, parent })
}

/// Gives a cell its source.
pub fn source(book: &mut Notebook, alloc: Global, cell: CellId, source: &str) -> bool {
    match Text::of(alloc, source) {
        Ok(source) => book.set_source(cell, source),
        Err(_) => false,
    }
}

/// A new cell at the front of a section; it has this number and gets this source.
pub fn cell(
    book: &mut Notebook,
    alloc: Global,
    section: SectionId,
    kind: CellKind,
    cell: CellId,
    text: &str,
) -> bool {
    let index = 0;
    let asked = Change::InsertCell {
        section,
        index,
        kind,
    };
    ask(book, alloc, asked) && source(book, alloc, cell, text)
}
