//! The words that tell a fault.
ghost use Rattle.std.specs.Prelude.{◌≡◌, Some, codes};
ghost use Rattle.livesession.specs.Fault.{told, book_words, script_words, kind_word};

use driver::RunFault;
use livemd_read::BookError;
use script::{LineFault, ScriptError};
use std::fmt;

/// A fault as it is told: its name, and of a refusal that it carries the name and the fields in
/// order, with single spaces between, as `ScriptRefused At 2 Unbuilt`.
#[derive(Clone, Copy, Debug)]
pub(crate) struct Told {
    pub(crate) fault: RunFault,
}

impl fmt::Display for Told {
    ghost output = { λ t. Some (told t.fault) };

    fn fmt<W: fmt::Write>(&self, f: &mut fmt::Formatter<W>) -> fmt::Result {
        match self.fault {
            RunFault::Usage => f.write_str("Usage"),
            RunFault::BookUnread => f.write_str("BookUnread"),
            RunFault::BookRefused(error) => write!(f, "BookRefused {}", BookWords { error }),
            RunFault::ScriptUnread => f.write_str("ScriptUnread"),
            RunFault::ScriptRefused(error) => write!(f, "ScriptRefused {}", ScriptWords { error }),
            RunFault::SinkFailed => f.write_str("SinkFailed"),
            RunFault::OutOfMemory => f.write_str("OutOfMemory"),
        }
    }
}

/// Why a book was refused.
#[derive(Clone, Copy, Debug)]
struct BookWords {
    error: BookError,
}

impl fmt::Display for BookWords {
    ghost output = { λ b. Some (book_words b.error) };

    fn fmt<W: fmt::Write>(&self, f: &mut fmt::Formatter<W>) -> fmt::Result {
        match self.error {
            BookError::TooLarge => f.write_str("TooLarge"),
            BookError::NotUtf8 { at } => write!(f, "NotUtf8 {at}"),
            BookError::TooManySections => f.write_str("TooManySections"),
            BookError::TooManyCells => f.write_str("TooManyCells"),
            BookError::OutOfMemory => f.write_str("OutOfMemory"),
        }
    }
}

/// Why a script was refused.
#[derive(Clone, Copy, Debug)]
struct ScriptWords {
    error: ScriptError,
}

impl fmt::Display for ScriptWords {
    ghost output = { λ s. Some (script_words s.error) };

    fn fmt<W: fmt::Write>(&self, f: &mut fmt::Formatter<W>) -> fmt::Result {
        match self.error {
            ScriptError::TooLarge => f.write_str("TooLarge"),
            ScriptError::At { line, kind } => {
                let kind = kind_word(kind);
                write!(f, "At {line} {kind}")
            }
            ScriptError::OutOfMemory => f.write_str("OutOfMemory"),
        }
    }
}

/// The name of what is wrong with a line.
fn kind_word(kind: LineFault) -> &'static str
    ensures { result.now ≡ kind_word kind }
{
    match kind {
        LineFault::NotUtf8 => "NotUtf8",
        LineFault::Unbuilt => "Unbuilt",
    }
}
