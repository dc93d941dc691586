//! Plays tables of books, scripts and printed texts through the public calls of the crates that read and write them.
//!
//! It prints a line a table: `lines have kinds: ok`, the number of the first row that isn't as wanted, or that a call
//! was refused. The file `stdout` beside it has what it must print.
#![tactic(auto)]

mod answer;
mod books;
mod changes;
mod lines;
mod pieces;
mod printed;
mod script_rows;
mod scripts;
mod tables;
mod written;

use answer::{Answer, line};
use std::alloc::Global;
use std::io;

fn main(rt: HostRuntime) -> io::Result<()> {
    let alloc = rt.alloc();
    tell_books(&rt, alloc)?;
    tell_scripts(&rt, alloc)?;
    tell_printed(&rt, alloc)
}

fn tell_books(rt: &impl Print, alloc: Global) -> io::Result<()> {
    tell(rt, alloc, "lines have kinds", lines::have_kinds(alloc))?;
    tell(
        rt,
        alloc,
        "fences stay open until they are closed",
        lines::are_fenced(alloc),
    )?;
    tell(
        rt,
        alloc,
        "lines of large texts are counted",
        lines::are_counted(alloc),
    )?;
    tell(rt, alloc, "books are read", books::are_read(alloc))?;
    tell(
        rt,
        alloc,
        "bytes that are no text are no book",
        books::are_no_text(alloc),
    )?;
    tell(rt, alloc, "books have limits", books::have_limits(alloc))?;
    tell(
        rt,
        alloc,
        "books are written tidy",
        written::are_tidy(alloc),
    )
}

fn tell_scripts(rt: &impl Print, alloc: Global) -> io::Result<()> {
    tell(
        rt,
        alloc,
        "lines are read or refused",
        script_rows::lines_are_read(alloc),
    )?;
    tell(
        rt,
        alloc,
        "counts and cells are read or refused",
        script_rows::counts_are_read(alloc),
    )?;
    tell(
        rt,
        alloc,
        "operations are read or refused",
        script_rows::operations_are_read(alloc),
    )?;
    tell(
        rt,
        alloc,
        "reports and deltas differ by their word",
        script_rows::reports_are_read(alloc),
    )?;
    tell(
        rt,
        alloc,
        "edits are read or refused",
        script_rows::edits_are_read(alloc),
    )?;
    tell(
        rt,
        alloc,
        "operands stand in their places",
        script_rows::operands_stand(alloc),
    )?;
    tell(
        rt,
        alloc,
        "clients are numbered as their names appear",
        script_rows::clients_are_numbered(alloc),
    )?;
    tell(
        rt,
        alloc,
        "the limit of scripts counts bytes",
        script_rows::bytes_are_counted(alloc),
    )?;
    tell(
        rt,
        alloc,
        "bytes that are no text are no script",
        scripts::are_no_text(alloc),
    )?;
    tell(rt, alloc, "there are 64 names", scripts::have_names(alloc))
}

fn tell_printed(rt: &impl Print, alloc: Global) -> io::Result<()> {
    tell(
        rt,
        alloc,
        "refusals are printed",
        printed::refusals_are_printed(alloc),
    )?;
    tell(
        rt,
        alloc,
        "replies are printed",
        printed::replies_are_printed(alloc),
    )?;
    tell(
        rt,
        alloc,
        "texts are printed",
        printed::texts_are_printed(alloc),
    )?;
    tell(
        rt,
        alloc,
        "deltas are printed",
        printed::deltas_are_printed(alloc),
    )?;
    tell(
        rt,
        alloc,
        "books are printed",
        printed::books_are_printed(alloc),
    )?;
    tell(
        rt,
        alloc,
        "revisions are found",
        printed::revisions_are_found(),
    )
}

/// Prints what came of a table.
fn tell(rt: &impl Print, alloc: Global, name: &str, answer: Answer) -> io::Result<()> {
    let line = line(alloc, name, answer)?;
    rt.println(line.as_str())
}
