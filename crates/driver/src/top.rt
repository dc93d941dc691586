//! The top call: words, shelf and sink in, the status out.
ghost use Rattle.std.specs.Prelude.{◌≡◌, ◌≤◌, List, ℕ, Option, map, IfSome, MatchOption, string_bytes};
ghost use Rattle.driver.specs.Around.{Input, input, output, around};
ghost use Rattle.driver.specs.Program.{IsPlay, IsFormat, IsNoFormat, IsAnswer, IsFormatAnswer, IsComplete, status_of};
ghost use Rattle.driver.specs.Answers.{BytesAreBook, BytesAreScript, IsBookAnswer, IsScriptAnswer, IsWriting, WordsAnswer, HasReadBook, outcome_of, ended_with};

use crate::outcome::{Outcome, RunFault};
use crate::play::{Played, play};
use book_outside::{Gate, Shelf, ShelfError, Sink, SinkError};
use limits::MOST_FILE_BYTES;
use livemd_read::{BookError, Read, read};
use livemd_write::write;
use notebook::Notebook;
use script::{Script, ScriptError, read_script};
use std::alloc::Global;
use std::sync::Wait;
use std::thread::Threads;

/// At most this many bytes of a book or a script are read: one more than either may have.
const MOST_BYTES: u64 = MOST_FILE_BYTES as u64 + 1;

/// Runs the program on the words of the command line. `play BOOK SCRIPT` plays the script of that name
/// over the book of that name, and writes the transcript to the sink; `format BOOK` is
/// [`format_command`].
///
/// Both are read from the shelf, the book first, each once, and may have 8,388,608 bytes. The notices
/// of the book are one write, each script line that prints is one, and so is the end. Code cells are
/// evaluated on the caller's thread; the gate isn't used yet.
///
/// At the statuses 1 to 5 nothing is written, and no write asked for. At status 6 of `play` a front of
/// the transcript was written, or of what the lines so far print, and the report is of their history.
/// At status 7 nothing was written, or, of `play`, such a front of some actual history; no report tells it.
/// Where words, book and script are in order and neither shelf nor sink fails, the status is 0, or 7
/// for want of memory.
pub fn program<R: Threads + Wait + Sync, S: Shelf, K: Sink + Send, G: Gate>(
    rt: &R,
    alloc: Global,
    words: &[String],
    shelf: &mut S,
    sink: &mut K,
    _gate: &G,
) -> Outcome
    ensures status { result.status ≡ status_of result.fault }
    ensures answer { IsAnswer (map string_bytes words.now)
        (around (S.held shelf.old)
        (input S.reads S.faults shelf.old) (input S.reads S.faults shelf.new)
        (output K.writes K.faults K.written sink.old) (output K.writes K.faults K.written sink.new))
        result.report result.fault }
    ensures complete { IsComplete (map string_bytes words.now)
        (around (S.held shelf.old)
        (input S.reads S.faults shelf.old) (input S.reads S.faults shelf.new)
        (output K.writes K.faults K.written sink.old) (output K.writes K.faults K.written sink.new))
        result.fault }
{
    match play_words(words) {
        Some((book, script)) => run(rt, alloc, book, script, shelf, sink),
        None => run_format(alloc, words, shelf, sink),
    }
}

/// Writes the book of a name in its tidy form, as `format BOOK` does: the notices are dropped, and the
/// text is one write.
///
/// The statuses are 0, 2, 3, 6 and 7, and there is no report. At status 6 a front of the text was
/// written, at status 7 nothing. It waits for nobody.
pub fn format_command<S: Shelf, K: Sink>(
    alloc: Global,
    name: &str,
    shelf: &mut S,
    sink: &mut K,
) -> Outcome
    ensures status { result.status ≡ status_of result.fault }
    ensures answer { IsFormatAnswer name.now
        (around (S.held shelf.old)
        (input S.reads S.faults shelf.old) (input S.reads S.faults shelf.new)
        (output K.writes K.faults K.written sink.old) (output K.writes K.faults K.written sink.new))
        result.report result.fault }
{
    match read_book(alloc, name, shelf) {
        Ok(book) => write_book(alloc, &book.notebook, sink),
        Err(fault) => ended(fault),
    }
}

/// Runs on words that don't ask to play.
fn run_format<S: Shelf, K: Sink>(
    alloc: Global,
    words: &[String],
    shelf: &mut S,
    sink: &mut K,
) -> Outcome
    requires { (book script : List ℕ) → ¬ IsPlay (map string_bytes words.now) book script }
    ensures status { result.status ≡ status_of result.fault }
    ensures answer { IsAnswer (map string_bytes words.now)
        (around (S.held shelf.old)
        (input S.reads S.faults shelf.old) (input S.reads S.faults shelf.new)
        (output K.writes K.faults K.written sink.old) (output K.writes K.faults K.written sink.new))
        result.report result.fault }
{
    match format_word(words) {
        Some(book) => format_command(alloc, book, shelf, sink),
        None => ended(RunFault::Usage),
    }
}

/// The names of book and script in the words `play BOOK SCRIPT`.
fn play_words(words: &[String]) -> Option<(&str, &str)>
    ensures some { IfSome result (λ names. IsPlay (map string_bytes words.now)
        names.0.now names.1.now) }
    ensures none { WordsAnswer (map string_bytes words.now) result }
{
    match words {
        [mode, book, script] if mode.as_str() == "play" => Some((book.as_str(), script.as_str())),
        _ => None,
    }
}

/// The name of the book in the words `format BOOK`.
fn format_word(words: &[String]) -> Option<&str>
    ensures { MatchOption result (IsNoFormat (map string_bytes words.now))
        (λ book. IsFormat (map string_bytes words.now) book.now) }
{
    match words {
        [mode, book] if mode.as_str() == "format" => Some(book.as_str()),
        _ => None,
    }
}

/// The outcome of a fault without a report.
fn ended(fault: RunFault) -> Outcome
    ensures { result ≡ ended_with fault }
{
    let status = match fault {
        RunFault::Usage => 1,
        RunFault::BookUnread => 2,
        RunFault::BookRefused(_) => 3,
        RunFault::ScriptUnread => 4,
        RunFault::ScriptRefused(_) => 5,
        RunFault::SinkFailed => 6,
        RunFault::OutOfMemory => 7,
    };
    Outcome {
        status,
        fault: Some(fault),
        report: None,
    }
}

/// Reads book and script and plays.
fn run<R: Wait, S: Shelf, K: Sink>(
    rt: &R,
    alloc: Global,
    book: &str,
    script: &str,
    shelf: &mut S,
    sink: &mut K,
) -> Outcome
    ensures status { result.status ≡ status_of result.fault }
    ensures answer { (words : List (List ℕ)) → IsPlay words book.now script.now → IsAnswer words
        (around (S.held shelf.old)
        (input S.reads S.faults shelf.old) (input S.reads S.faults shelf.new)
        (output K.writes K.faults K.written sink.old) (output K.writes K.faults K.written sink.new))
        result.report result.fault }
{
    match read_book(alloc, book, shelf) {
        Ok(book) => run_script(rt, alloc, book, script, shelf, sink),
        Err(fault) => ended(fault),
    }
}

/// Reads the script and plays it over a book.
fn run_script<R: Wait, S: Shelf, K: Sink>(
    rt: &R,
    alloc: Global,
    book: Read,
    script: &str,
    shelf: &mut S,
    sink: &mut K,
) -> Outcome
    ensures status { result.status ≡ status_of result.fault }
    ensures answer { (words : List (List ℕ)) (first : Input)
        → HasReadBook words (S.held shelf.old) script.now book
        first (input S.reads S.faults shelf.old)
        → IsAnswer words
        (around (S.held shelf.old)
        first (input S.reads S.faults shelf.new)
        (output K.writes K.faults K.written sink.old) (output K.writes K.faults K.written sink.new))
        result.report result.fault }
{
    match read_lines(alloc, script, shelf) {
        Ok(script) => {
            let Read { notebook, notices } = book;
            finished(play(
                rt,
                alloc,
                notebook,
                notices.as_slice(),
                script.content(),
                sink,
            ))
        }
        Err(why) => ended(why),
    }
}

/// Writes the tidy form of a book.
fn write_book<K: Sink>(alloc: Global, book: &Notebook, sink: &mut K) -> Outcome
    ensures status { result.status ≡ status_of result.fault }
    ensures report { result.report ≡ None }
    ensures written { IsWriting book.now
        (output K.writes K.faults K.written sink.old) (output K.writes K.faults K.written sink.new)
        result.fault }
{
    let text = match write(alloc, book) {
        Ok(text) => text,
        Err(_) => return ended(RunFault::OutOfMemory),
    };
    match sink.write(text.as_slice()) {
        Ok(()) => Outcome {
            status: 0,
            fault: None,
            report: None,
        },
        Err(SinkError::Failed) => ended(RunFault::SinkFailed),
        Err(SinkError::OutOfMemory) => ended(RunFault::OutOfMemory),
    }
}

/// The outcome of what was played.
fn finished(played: Played) -> Outcome
    ensures { result ≡ outcome_of played }
{
    match played {
        Played::Done(report) => Outcome {
            status: 0,
            fault: None,
            report: Some(report),
        },
        Played::SinkFailed(report) => Outcome {
            status: 6,
            fault: Some(RunFault::SinkFailed),
            report: Some(report),
        },
        Played::OutOfMemory => ended(RunFault::OutOfMemory),
    }
}

/// The book of a name.
fn read_book<S: Shelf>(alloc: Global, name: &str, shelf: &mut S) -> Result<Read, RunFault>
    ensures answer { IsBookAnswer (S.held shelf.old) name.now
        (input S.reads S.faults shelf.old) (input S.reads S.faults shelf.new)
        result }
    ensures same { S.held shelf.new ≡ S.held shelf.old }
    ensures counts { S.faults shelf.old ≤ S.faults shelf.new }
{
    match shelf.read(alloc, name, MOST_BYTES) {
        Ok(bytes) => notebook_of(alloc, bytes.as_slice()),
        Err(ShelfError::Failed) => Err(RunFault::BookUnread),
        Err(ShelfError::OutOfMemory) => Err(RunFault::OutOfMemory),
    }
}

/// The script of a name.
fn read_lines<S: Shelf>(alloc: Global, name: &str, shelf: &mut S) -> Result<Script, RunFault>
    ensures answer { IsScriptAnswer (S.held shelf.old) name.now
        (input S.reads S.faults shelf.old) (input S.reads S.faults shelf.new)
        result }
{
    match shelf.read(alloc, name, MOST_BYTES) {
        Ok(bytes) => script_of(alloc, bytes.as_slice()),
        Err(ShelfError::Failed) => Err(RunFault::ScriptUnread),
        Err(ShelfError::OutOfMemory) => Err(RunFault::OutOfMemory),
    }
}

/// The book that bytes are.
fn notebook_of(alloc: Global, bytes: &[u8]) -> Result<Read, RunFault>
    ensures answer { BytesAreBook bytes.now result }
{
    match read(alloc, bytes) {
        Ok(book) => Ok(book),
        Err(BookError::OutOfMemory) => Err(RunFault::OutOfMemory),
        Err(BookError::TooLarge) => Err(RunFault::BookRefused(BookError::TooLarge)),
        Err(BookError::NotUtf8 { at }) => Err(RunFault::BookRefused(BookError::NotUtf8 { at })),
        Err(BookError::TooManySections) => {
            Err(RunFault::BookRefused(BookError::TooManySections))
        }
        Err(BookError::TooManyCells) => Err(RunFault::BookRefused(BookError::TooManyCells)),
    }
}

/// The script that bytes are.
fn script_of(alloc: Global, bytes: &[u8]) -> Result<Script, RunFault>
    ensures { BytesAreScript bytes.now result }
{
    match read_script(alloc, bytes) {
        Ok(script) => Ok(script),
        Err(ScriptError::OutOfMemory) => Err(RunFault::OutOfMemory),
        Err(ScriptError::TooLarge) => Err(RunFault::ScriptRefused(ScriptError::TooLarge)),
        Err(ScriptError::At { line, kind }) => {
            Err(RunFault::ScriptRefused(ScriptError::At { line, kind }))
        }
    }
}
