//! Plays tables and stories of lists, texts, deltas, notebooks, source logs and of what is outside,
//! through the public calls of their crates, and prints a line for each: `ok`, the first row that
//! isn't as wanted, or that a call was refused. What is wanted was worked out by hand.
#![tactic(auto)]

mod books;
mod changes;
mod deltas;
mod laws;
mod lists;
mod logs;
mod outside;
mod pairs;
mod parts;
mod tables;
mod texts;

use changes::first_wrong_book;
use std::alloc::Global;
use std::io;
use tables::{first_wrong, once};

fn main(rt: HostRuntime) -> io::Result<()> {
    let alloc = rt.alloc();
    tell(&rt, &of_texts(alloc))?;
    tell(&rt, &of_deltas(alloc))?;
    tell(&rt, &of_books(alloc))?;
    tell(&rt, &of_logs(alloc))?;
    tell(&rt, &outside::in_memory(alloc))?;
    tell(
        &rt,
        &[
            ("files are read up to the limit", outside::files(&rt, alloc)),
            ("the output takes bytes", outside::output(&rt)),
        ],
    )
}

/// A table's name, and the first row that isn't as wanted, counted from 1; 0 where all rows are, and
/// none where a call was refused.
type Answer = (&'static str, Option<usize>);

/// Prints a line for each table.
fn tell<R: Print>(rt: &R, answers: &[Answer]) -> io::Result<()> {
    for (name, answer) in answers {
        match answer {
            Some(0) => println!(rt; "{name}: ok")?,
            Some(row) => println!(rt; "{name}: row {row}")?,
            None => println!(rt; "{name}: a call was refused")?,
        }
    }
    Ok(())
}

fn of_texts(alloc: Global) -> [Answer; 5] {
    [
        ("lists grow, lend and are copied", once(lists::story(alloc))),
        ("texts have units", first_wrong(alloc, texts::COUNTED)),
        ("texts are cut at units", first_wrong(alloc, texts::CUTS)),
        ("texts grow and are copied", once(texts::growth(alloc))),
        (
            "lone halves of pairs are left out",
            first_wrong(alloc, texts::HALVES),
        ),
    ]
}

fn of_deltas(alloc: Global) -> [Answer; 10] {
    [
        (
            "only canonical steps are a delta",
            first_wrong(alloc, deltas::SEALED),
        ),
        ("deltas are applied", first_wrong(alloc, deltas::APPLIED)),
        ("steps are packed", once(deltas::packed(alloc))),
        (
            "deltas are transformed",
            first_wrong(alloc, deltas::TRANSFORMED),
        ),
        ("deltas are composed", first_wrong(alloc, deltas::COMPOSED)),
        (
            "both orders make one text",
            first_wrong(alloc, laws::ORDERS),
        ),
        ("two deltas are one", first_wrong(alloc, laws::JOINED)),
        (
            "deltas reach past a text",
            first_wrong(alloc, laws::REACHES),
        ),
        (
            "a delta without steps is empty",
            once(Some(laws::is_nothing_empty(alloc))),
        ),
        ("all pairs of short edits agree", pairs::all(alloc)),
    ]
}

fn of_books(alloc: Global) -> [Answer; 6] {
    [
        (
            "a new notebook has its setup cell",
            first_wrong_book(alloc, books::UNTITLED),
        ),
        (
            "notebooks are changed",
            first_wrong_book(alloc, changes::MADE),
        ),
        (
            "changes are refused",
            first_wrong_book(alloc, changes::REFUSED),
        ),
        (
            "books and sections are named",
            first_wrong_book(alloc, changes::NAMED),
        ),
        (
            "there are a thousand at most",
            first_wrong_book(alloc, changes::LIMITS),
        ),
        (
            "cells have lanes and paths",
            first_wrong_book(alloc, books::PATHS),
        ),
    ]
}

fn of_logs(alloc: Global) -> [Answer; 2] {
    [
        ("two clients type at one place", logs::at_one_place(alloc)),
        ("deltas and reports are refused", logs::refused(alloc)),
    ]
}
