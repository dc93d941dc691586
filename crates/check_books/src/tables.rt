//! Tables of texts with what a call tells of each, as a text too.
use crate::answer::Answer;
use crate::pieces::repeated;
use crate::{books, lines, printed, scripts};
use std::alloc::Global;

/// A call that is made with a text, and whose result is told as a text.
#[derive(Clone, Copy)]
pub enum Call {
    /// The kinds of a text's lines.
    Kinds,
    /// How many lines a text has.
    LineCount,
    /// The notebook and the notices of a book.
    Book,
    /// Whether a book is read, or why it isn't.
    BookFault,
    /// How many notices a book has.
    NoticeCount,
    /// How many lines a script has, or which can't be read.
    Script,
    /// The same of an operation, posted and raw.
    Operation,
    /// The same of edits, after a line by which their client joins.
    Edits,
    /// The lines of a script.
    ScriptLines,
    /// The names of a script, and the client of each line.
    Names,
    /// A text in quotes.
    Quoted,
}

/// What the call tells; none where it was refused.
fn told(alloc: Global, call: Call, text: &str) -> Option<String> {
    match call {
        Call::Kinds => lines::kinds(alloc, text),
        Call::LineCount => lines::line_count(alloc, text),
        Call::Book => books::book(alloc, text),
        Call::BookFault => books::fault(alloc, text.as_bytes()),
        Call::NoticeCount => books::notice_count(alloc, text),
        Call::Script => scripts::outcome(alloc, text.as_bytes()),
        Call::Operation => scripts::operation(alloc, text),
        Call::Edits => scripts::edits(alloc, text),
        Call::ScriptLines => scripts::lines(alloc, text),
        Call::Names => scripts::names(alloc, text),
        Call::Quoted => printed::quoted(alloc, text),
    }
}

/// Whether this is what was told.
pub fn is_told(told: Option<String>, wanted: &str) -> Option<bool> {
    let told = told?;
    Some(told.as_str() == wanted)
}

/// Tries each text with what the call has to tell of it.
pub fn tried(alloc: Global, call: Call, rows: &[(&str, &str)]) -> Answer {
    for (at, (text, wanted)) in rows.iter().enumerate() {
        match is_told(told(alloc, call, text), wanted) {
            Some(true) => {}
            Some(false) => return Answer::Wrong { row: at + 1 },
            None => return Answer::Refused,
        }
    }
    Answer::Right
}

/// Whether the call tells this of the text so many times.
fn is_told_of_many(
    alloc: Global,
    call: Call,
    text: &str,
    count: u64,
    wanted: &str,
) -> Option<bool> {
    let text = repeated(alloc, text, count)?;
    is_told(told(alloc, call, text.as_str()), wanted)
}

/// Tries each text, so many times one behind the other, with what the call has to tell of that.
pub fn tried_often(alloc: Global, rows: &[(Call, &str, u64, &str)]) -> Answer {
    for (at, (call, text, count, wanted)) in rows.iter().enumerate() {
        match is_told_of_many(alloc, *call, text, *count, wanted) {
            Some(true) => {}
            Some(false) => return Answer::Wrong { row: at + 1 },
            None => return Answer::Refused,
        }
    }
    Answer::Right
}
