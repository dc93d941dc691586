//! Shelves, sinks and gates, in memory and real, by callers that know their traits alone
//! (`book_outside`).
use crate::Answer;
use book_outside::{
    Gate, HostShelf, HostSink, JobTag, MemoryShelf, MemorySink, NoFaultSink, PlainGate, Shelf,
    ShelfError, Sink, SinkError,
};
use std::alloc::{AllocGlobal, Global};
use std::rt::Files;

/// A name, how many bytes are asked for, and what is read; none where the shelf fails.
type Read<'a> = (&'a str, u64, Option<&'a str>);

/// Whether a shelf gives the bytes, or fails where none are wanted. None where memory ran out.
fn gives<S: Shelf>(alloc: Global, shelf: &mut S, row: &Read<'_>) -> Option<bool> {
    match (shelf.read(alloc, row.0, row.1), row.2) {
        (Ok(bytes), Some(wanted)) => Some(bytes.as_slice() == wanted.as_bytes()),
        (Err(ShelfError::Failed), None) => Some(true),
        (Err(ShelfError::OutOfMemory), _) => None,
        _ => Some(false),
    }
}

fn read_all<S: Shelf>(alloc: Global, shelf: &mut S, rows: &[Read<'_>]) -> Option<usize> {
    for (at, row) in rows.iter().enumerate() {
        if !gives(alloc, shelf, row)? {
            return Some(at + 1);
        }
    }
    Some(0)
}

fn entry(alloc: Global, name: &str, text: &str) -> Option<(String, Vec<u8>)> {
    let name = String::from_str(alloc, name).ok()?;
    let bytes = text.as_bytes().to_vec(alloc).ok()?;
    Some((name, bytes))
}

fn push_entry(
    alloc: Global,
    books: &mut Vec<(String, Vec<u8>)>,
    name: &str,
    text: &str,
) -> Option<()> {
    books.push(entry(alloc, name, text)?).ok()
}

fn entries(alloc: Global) -> Option<Vec<(String, Vec<u8>)>> {
    let mut books = Vec::new(alloc);
    for (name, text) in [("a", "first"), ("b", "other"), ("a", "second")] {
        push_entry(alloc, &mut books, name, text)?;
    }
    Some(books)
}

/// The fourth call fails.
fn shelf(alloc: Global) -> Option<usize> {
    let fail = [4].to_vec(alloc).ok()?;
    let mut shelf = MemoryShelf::new(entries(alloc)?, fail);
    read_all(
        alloc,
        &mut shelf,
        &[
            ("a", 9, Some("first")),
            ("a", 2, Some("fi")),
            ("c", 9, None),
            ("b", 9, None),
            ("b", 9, Some("other")),
        ],
    )
}

/// The files and the folder lie beside the program.
const FILES: [Read<'static>; 5] = [
    ("book", 100, Some("some text")),
    ("book", 4, Some("some")),
    ("-", 6, Some("a name")),
    ("missing", 4, None),
    ("folder", 4, None),
];

pub fn files<R: Files + AllocGlobal>(rt: &R, alloc: Global) -> Option<usize> {
    let mut shelf = HostShelf::new(rt);
    read_all(alloc, &mut shelf, &FILES)
}

/// A text, and whether the sink takes it.
type Write<'a> = (&'a str, bool);

/// Whether a sink takes the text, or fails where that is wanted. None where memory ran out.
fn takes<K: Sink + Send>(sink: &mut K, row: &Write<'_>) -> Option<bool> {
    match sink.write(row.0.as_bytes()) {
        Ok(()) => Some(row.1),
        Err(SinkError::Failed) => Some(!row.1),
        Err(SinkError::OutOfMemory) => None,
    }
}

fn write_all<K: Sink + Send>(sink: &mut K, rows: &[Write<'_>]) -> Option<usize> {
    for (at, row) in rows.iter().enumerate() {
        if !takes(sink, row)? {
            return Some(at + 1);
        }
    }
    Some(0)
}

/// The row that isn't as wanted, or the one behind the last where other bytes were written.
fn held(row: usize, bytes: &[u8], wanted: &str) -> usize {
    if row == 0 && bytes != wanted.as_bytes() {
        4
    } else {
        row
    }
}

/// The second call fails.
fn failing_sink(alloc: Global) -> Option<usize> {
    let mut sink = MemorySink::new(alloc, [2].to_vec(alloc).ok()?);
    let row = write_all(
        &mut sink,
        &[("one ", true), ("two ", false), ("three", true)],
    )?;
    Some(held(row, sink.bytes(), "one three"))
}

fn faultless_sink(alloc: Global) -> Option<usize> {
    let mut sink = NoFaultSink::new(alloc);
    let row = write_all(&mut sink, &[("one ", true), ("two", true)])?;
    Some(held(row, sink.bytes(), "one two"))
}

pub fn in_memory(alloc: Global) -> [Answer; 3] {
    [
        (
            "a shelf in memory gives the front of the first book",
            shelf(alloc),
        ),
        (
            "a sink in memory keeps what was written",
            failing_sink(alloc),
        ),
        ("a sink in memory never fails", faultless_sink(alloc)),
    ]
}

fn pass<G: Gate>(gate: &G) {
    let tag = JobTag {
        eval: 1,
        cell: 2,
        lane: 0,
    };
    gate.arrive(&tag);
    gate.leave(&tag);
}

/// A line of text on the output, behind a gate.
pub fn output<R: Print + Sync>(rt: &R) -> Option<usize> {
    pass(&PlainGate);
    write_all(&mut HostSink::new(rt), &[("some text\n", true)])
}
