//! What a run of the program answers.
use livemd_read::BookError;
use plain_list::Items;
use script::ScriptError;
use session_ops::Entry;

/// A session's whole history, and the marks: for each turn of the script's player that made no entry,
/// the history's length that it found.
#[derive(Debug, Drop)]
pub struct Report {
    pub history: Items<Entry>,
    pub marks: Items<u64>,
}

/// Why a run did not do all that it was asked. The place in this list, counted from 1, is the status.
#[derive(Clone, Copy, Debug, PartialEq, Eq)]
pub enum RunFault {
    /// The words are neither `play BOOK SCRIPT` nor `format BOOK`.
    Usage,
    /// The shelf failed at the book.
    BookUnread,
    /// The book isn't one.
    BookRefused(BookError),
    /// The shelf failed at the script.
    ScriptUnread,
    /// The script isn't one.
    ScriptRefused(ScriptError),
    /// The sink failed.
    SinkFailed,
    /// Memory was refused.
    OutOfMemory,
}

/// The answer of a run.
#[derive(Debug, Drop)]
pub struct Outcome {
    /// 0 where all was played, or the book formatted, and written; else the fault's place in the list
    /// of faults.
    pub status: u8,
    pub fault: Option<RunFault>,
    /// There exactly at the statuses 0 and 6 of `play`.
    pub report: Option<Report>,
}
