//! The whole program over a shelf and a sink in memory: what it reports, and what is written where one fails.
use crate::answer::Answer;
use book_outside::{MemoryShelf, MemorySink, PlainGate};
use delta::Step;
use driver::{Entry, Outcome, Reply, Report, program};
use std::alloc::Global;
use std::sync::Wait;
use std::thread::Threads;

/// The book with the name `T` and a section `S` with one text line.
const BOOK: &str = "# T\n\n## S\n\nab\n";

const SCRIPT: &str = "join ann\nedit ann 1 [1,\"X\"]\nsync\nshow ann\n";

const TRANSCRIPT: &str =
    "ann joined at 1\nann edit 1: ok\nann sent: accepted rev 1\nsync at 2\nnotebook \"T\"\nsection 1 \"S\"\ncell 1 markdown rev 1 \"aXb\"\nend\nnotebook \"T\"\nsection 1 \"S\"\ncell 1 markdown rev 1 \"aXb\"\n";

/// Two code cells.
const CELLS: &str = "## S\n\n```elixir\nx = 2\n```\n\n```elixir\nx * 21\n```\n";

const SETTLED: &str =
    "ann joined at 1\nann post: ok\nann sent: ok\nsync at 2\nsettled\ncode 1 main ready evaluated value 2\ncode 2 main ready evaluated value 42\nend\nnotebook \"Untitled notebook\"\nsection 1 \"S\"\ncell 1 code rev 0 \"x = 2\"\ncell 2 code rev 0 \"x * 21\"\ncode 1 main ready evaluated value 2\ncode 2 main ready evaluated value 42\n";

/// What of the report is looked at.
#[derive(Clone, Copy)]
enum Reported {
    /// There is no report.
    Nothing,
    /// So many entries of the history.
    Entries(usize),
    /// The same, and two marks.
    Marked(usize, u64, u64),
}

/// A run: the words, the names on the shelf with their texts, the number of the write that fails, and what comes of it.
#[derive(Clone, Copy)]
struct Run {
    words: &'static [&'static str],
    held: &'static [(&'static str, &'static str)],
    failing: u64,
    status: u8,
    reported: Reported,
    written: &'static str,
}

/// No write fails.
const NONE: u64 = 0;

const RUNS: [Run; 9] = [
    Run {
        words: &["play", "b", "s"],
        held: &[("b", BOOK), ("s", SCRIPT)],
        failing: NONE,
        status: 0,
        reported: Reported::Marked(2, 2, 2),
        written: TRANSCRIPT,
    },
    Run {
        words: &["play", "b", "s"],
        held: &[("b", BOOK), ("s", SCRIPT)],
        failing: 2,
        status: 6,
        reported: Reported::Entries(1),
        written: "ann joined at 1\n",
    },
    Run {
        words: &["play", "b", "s"],
        held: &[
            ("b", CELLS),
            ("s", "join ann\npost ann queue 2\nsync\nsettle\ncells\n"),
        ],
        failing: NONE,
        status: 0,
        reported: Reported::Entries(8),
        written: SETTLED,
    },
    Run {
        words: &["play", "b", "s"],
        held: &[("s", SCRIPT)],
        failing: NONE,
        status: 2,
        reported: Reported::Nothing,
        written: "",
    },
    Run {
        words: &["play", "b", "s"],
        held: &[("b", BOOK)],
        failing: NONE,
        status: 4,
        reported: Reported::Nothing,
        written: "",
    },
    Run {
        words: &["play", "b"],
        held: &[("b", BOOK), ("s", SCRIPT)],
        failing: NONE,
        status: 1,
        reported: Reported::Nothing,
        written: "",
    },
    Run {
        words: &[],
        held: &[("b", BOOK), ("s", SCRIPT)],
        failing: NONE,
        status: 1,
        reported: Reported::Nothing,
        written: "",
    },
    Run {
        words: &["format", "b"],
        held: &[("b", "")],
        failing: NONE,
        status: 0,
        reported: Reported::Nothing,
        written: "# Untitled notebook\n",
    },
    Run {
        words: &["format", "b"],
        held: &[("b", BOOK)],
        failing: 1,
        status: 6,
        reported: Reported::Nothing,
        written: "",
    },
];

fn push_word(alloc: Global, words: &mut Vec<String>, word: &str) -> Option<()> {
    words.push(String::from_str(alloc, word).ok()?).ok()
}

fn words(alloc: Global, spoken: &[&str]) -> Option<Vec<String>> {
    let mut words = Vec::new(alloc);
    for word in spoken {
        push_word(alloc, &mut words, word)?;
    }
    Some(words)
}

fn push_text(
    alloc: Global,
    books: &mut Vec<(String, Vec<u8>)>,
    name: &str,
    text: &str,
) -> Option<()> {
    let name = String::from_str(alloc, name).ok()?;
    let bytes = Vec::from_slice(alloc, text.as_bytes()).ok()?;
    books.push((name, bytes)).ok()
}

fn shelf(alloc: Global, held: &[(&str, &str)]) -> Option<MemoryShelf> {
    let mut books = Vec::new(alloc);
    for (name, text) in held {
        push_text(alloc, &mut books, name, text)?;
    }
    Some(MemoryShelf::new(books, Vec::new(alloc)))
}

fn sink(alloc: Global, failing: u64) -> Option<MemorySink> {
    let failing = Vec::from_slice(alloc, &[failing]).ok()?;
    Some(MemorySink::new(alloc, failing))
}

/// What the program answers.
fn outcome<R: Threads + Wait + Sync>(
    rt: &R,
    alloc: Global,
    words: &[String],
    shelf: &mut MemoryShelf,
    sink: &mut MemorySink,
) -> Outcome {
    program(rt, alloc, words, shelf, sink, &PlainGate)
}

fn is_reported(report: &Option<Report>, wanted: Reported) -> bool {
    match (report, wanted) {
        (None, Reported::Nothing) => true,
        (Some(report), Reported::Entries(count)) => report.history.len() == count,
        (Some(report), Reported::Marked(count, first, second)) => {
            report.history.len() == count && report.marks.as_slice() == [first, second].as_slice()
        }
        _ => false,
    }
}

fn is_told(outcome: &Outcome, run: &Run) -> bool {
    outcome.status == run.status
        && outcome.fault.is_none() == (run.status == 0)
        && is_reported(&outcome.report, run.reported)
}

/// Whether a run comes out as told.
fn comes_out<R: Threads + Wait + Sync>(rt: &R, alloc: Global, run: &Run) -> Option<bool> {
    let words = words(alloc, run.words)?;
    let mut shelf = shelf(alloc, run.held)?;
    let mut sink = sink(alloc, run.failing)?;
    let outcome = outcome(rt, alloc, words.as_slice(), &mut shelf, &mut sink);
    Some(is_told(&outcome, run) && sink.bytes() == run.written.as_bytes())
}

/// Plays each run.
pub fn tried<R: Threads + Wait + Sync>(rt: &R, alloc: Global) -> Answer {
    for (at, run) in RUNS.iter().enumerate() {
        match comes_out(rt, alloc, run) {
            Some(true) => {}
            Some(false) => return Answer::Wrong { row: at + 1 },
            None => return Answer::Refused,
        }
    }
    Answer::Right
}

/// One letter is taken away where another puts one.
const CROSSING: [(&str, &str); 2] = [
    ("b", "# T\n\n## S\n\nabcd\n"),
    (
        "s",
        "join ann\njoin bob\nedit ann 1 [1,-2]\nedit bob 1 [2,\"X\"]\nsend ann 1\nsend bob 1\n",
    ),
];

/// Whether an entry made the revision 2 by putting `X` behind one unit.
fn puts_an_x(entry: &Entry) -> bool {
    let Reply::Applied { rev: 2, delta } = &entry.reply else {
        return false;
    };
    match delta.to_compact() {
        [Step::Retain(1), Step::Insert(text)] => text.as_str() == "X",
        _ => false,
    }
}

fn is_moved(outcome: &Outcome) -> bool {
    match &outcome.report {
        None => false,
        Some(report) => {
            match report.history.as_slice().get(3) {
                None => false,
                Some(fourth) => puts_an_x(fourth),
            }
        }
    }
}

/// Whether the history of two edits that cross has the later one as it was moved.
pub fn moved<R: Threads + Wait + Sync>(rt: &R, alloc: Global) -> Option<bool> {
    let words = words(alloc, &["play", "b", "s"])?;
    let mut shelf = shelf(alloc, &CROSSING)?;
    let mut sink = sink(alloc, NONE)?;
    let outcome = outcome(rt, alloc, words.as_slice(), &mut shelf, &mut sink);
    Some(is_moved(&outcome))
}
