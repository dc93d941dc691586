//! What the lines read so far have left open.
ghost use Rattle.std.specs.Prelude.{◌≡◌, ◌++◌, ◌∷◌, IfOk, OnOk};
ghost use Rattle.std.specs.Option.{option_map};
ghost use Rattle.std.specs.String.{string_bytes};
ghost use Rattle.livemd_read.specs.Resume.{IsPassageOf, IsLonger, source_after};

use livemd_lines::Line;
use std::alloc::{AllocError, Global};

/// Markdown text up to its last line that isn't blank, and the blank lines after that, each behind
/// a line feed: they belong to the text only if more of it comes.
#[derive(Debug, Drop)]
pub(crate) struct Passage {
    pub(crate) source: String,
    pub(crate) blanks: String,
}

/// What stands in a fence.
#[derive(Clone, Copy, Debug)]
pub(crate) enum Content<'a> {
    Code,
    /// A saved output with its info.
    Output(&'a str),
}

/// What is open between two lines.
#[derive(Debug, Drop)]
pub(crate) enum Open<'a> {
    Nothing,
    /// A forcing line, with no text before it.
    Forced,
    /// Markdown text; its next line may be forced.
    Text {
        passage: Passage,
        forced: bool,
    },
    /// A fence and the lines read of it, none at first.
    Fence {
        what: Content<'a>,
        source: Option<String>,
    },
    /// An output line behind code, with its number: it waits for a fence.
    OutputLine {
        line: u64,
    },
}

/// Puts a line behind a line feed at the end of a text.
fn push_line(text: &mut String, line: &str) -> Result<(), AllocError>
    ensures ok { OnOk result (string_bytes text.new ≡ string_bytes text.old ++ 10 ∷ line.now) }
{
    text.push_str("\n")?;
    text.push_str(line)?;
    Ok(())
}

impl Passage {
    /// The text of one line, which isn't blank.
    pub(crate) fn of(alloc: Global, line: &str) -> Result<Passage, AllocError>
        ensures { IfOk result (IsPassageOf line.now) }
    {
        Ok(Passage {
            source: String::from_str(alloc, line)?,
            blanks: String::new(alloc),
        })
    }

    /// The text with one line more: a blank one waits until more comes.
    pub(crate) fn with_line(self, line: &Line<'_>) -> Result<Passage, AllocError>
        ensures { IfOk result (IsLonger self line.now.text.now) }
    {
        let Passage {
            mut source,
            mut blanks,
        } = self;
        if line.is_blank() {
            push_line(&mut blanks, line.text)?;
            return Ok(Passage { source, blanks });
        }
        source.push_str(blanks.as_str())?;
        push_line(&mut source, line.text)?;
        blanks.clear();
        Ok(Passage { source, blanks })
    }
}

/// What stands in a fence with one line more.
pub(crate) fn with_line(
    alloc: Global,
    source: Option<String>,
    line: &str,
) -> Result<String, AllocError>
    ensures { IfOk result
        (λ s. string_bytes s ≡ source_after (option_map string_bytes source) line.now) }
{
    match source {
        None => String::from_str(alloc, line),
        Some(mut source) => {
            push_line(&mut source, line)?;
            Ok(source)
        }
    }
}
