//! Notebooks that are written.
use crate::answer::{Answer, first_wrong};
use crate::changes::{branch, cell, delete, section};
use livemd_write::{tidy, write};
use notebook::{CellId, CellKind, Notebook};
use std::alloc::Global;

/// The sections 2 and 3, whose names aren't tidy, and of which the second branches from the first: 1 was deleted.
fn have_sections(book: &mut Notebook, alloc: Global) -> bool {
    section(book, alloc, 0, " S\r\n")
        && section(book, alloc, 1, " S\r\n")
        && section(book, alloc, 2, " S\r\n")
        && delete(book, alloc, 1)
        && branch(book, alloc, 3, 2)
}

/// Text in the first section: a heading and an open fence in it, nothing but blanks, and a carriage
/// return at the end; and code with a fence in it in the branch.
fn have_cells(book: &mut Notebook, alloc: Global) -> bool {
    cell(book, alloc, 2, CellKind::Markdown, 1, "c\r")
        && cell(book, alloc, 2, CellKind::Markdown, 2, " \n")
        && cell(book, alloc, 2, CellKind::Markdown, 3, "\na\n## b\n~~~\n\n")
        && cell(book, alloc, 3, CellKind::Code, 4, "```")
}

fn bytes(alloc: Global, book: &Notebook) -> Option<Vec<u8>> {
    write(alloc, book).ok()
}

/// Whether this is what is written of the book.
fn is_written_as(alloc: Global, book: &Notebook, text: &str) -> Option<bool> {
    let written = bytes(alloc, book)?;
    Some(written.as_slice() == text.as_bytes())
}

fn tidied(alloc: Global, book: &Notebook) -> Option<Notebook> {
    tidy(alloc, book).ok()
}

fn next_cell(book: &Notebook) -> CellId {
    book.parts().next_cell
}

/// Whether this is what is written of the book's tidy form, and the number that its next cell gets.
fn is_tidied_as(alloc: Global, book: &Notebook, text: &str, next: CellId) -> Option<bool> {
    let tidied = tidied(alloc, book)?;
    let right = is_written_as(alloc, &tidied, text)?;
    Some(right && next_cell(&tidied) == next)
}

const WRITTEN: &str =
    "# Untitled notebook\n\n## S\n\na\n<!-- livebook:{\"force_markdown\":true} -->\n\n## b\n~~~\n~~~\n\n<!-- livebook:{\"break_markdown\":true} -->\n\nc\n\n<!-- livebook:{\"branch_parent_index\":0} -->\n\n## S\n\n````elixir\n```\n````\n";

/// A new notebook, which is its name; a book that isn't tidy; its tidy form, which is written the same, and in which
/// no cell has the number of one that went.
fn tried_on(book: &mut Notebook, alloc: Global) -> Answer {
    let new = is_written_as(alloc, book, "# Untitled notebook\n");
    if !(have_sections(book, alloc) && have_cells(book, alloc)) {
        return Answer::Refused;
    }
    let written = is_written_as(alloc, book, WRITTEN);
    let tidied = is_tidied_as(alloc, book, WRITTEN, 4);
    first_wrong(&[new, written, tidied])
}

/// Notebooks as they are written.
pub fn are_tidy(alloc: Global) -> Answer {
    match Notebook::untitled(alloc) {
        Ok(mut book) => tried_on(&mut book, alloc),
        Err(_) => Answer::Refused,
    }
}
