//! Notebooks, read from books.
use livemd_read::{Read, read};
use notebook::Notebook;
use std::alloc::Global;

/// The notebook of a book.
pub fn read_book(alloc: Global, book: &str) -> Option<Notebook> {
    let Read {
        notebook,
        notices: _,
    } = read(alloc, book.as_bytes()).ok()?;
    Some(notebook)
}
