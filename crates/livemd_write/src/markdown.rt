//! The tidy form of Markdown text.
ghost use Rattle.std.specs.Prelude.{◌≡◌, ◌++◌, ◌∷◌, [], List, ℕ, true, false, if◌then◌else◌, IfOk, OnOk};
ghost use Rattle.std.specs.String.{string_bytes};
ghost use Rattle.blanks.specs.Blanks.{drop_end, is_blank, is_cr};
ghost use Rattle.livemd_lines.specs.Views.{line_view};
ghost use Rattle.livemd_format.specs.Tidy.{clean_pieces, tidy_markdown};
ghost use Rattle.livemd_write.specs.Passages.{IsPassage, LineTaken};
ghost use Rattle.livemd_write.specs.Texts.{closing_text};
ghost use Rattle.utf16_text.specs.Appended.{Appends};

use crate::texts::push_marks;
use livemd_lines::{Fence, Line};
use std::alloc::{AllocError, Global};

/// Markdown text as far as its lines were taken, without the blank ones at its front.
#[derive(Debug, Drop)]
struct Passage {
    /// The lines up to the last one that isn't blank, with line feeds between.
    text: String,
    /// Whether there is such a line.
    begun: bool,
    /// The fence that they leave open.
    left: Option<Fence>,
    /// The blank lines after that, each behind a line feed: they belong to the text only if more of it
    /// comes.
    blanks: String,
    /// The fence that is open behind these.
    around: Option<Fence>,
}

/// Closes the fence that is open, if one is.
fn close(out: &mut String, left: Option<Fence>) -> Result<(), AllocError>
    ensures ok { OnOk result (Appends (closing_text left) out.old out.new) }
{
    match left {
        None => Ok(()),
        Some(fence) => {
            out.push_str("\n")?;
            push_marks(out, fence.mark, fence.count)
        }
    }
}

/// Puts a line at the end of a text, behind a line feed if it isn't the first.
fn push_line(text: &mut String, begun: bool, line: &str) -> Result<(), AllocError>
    ensures ok { OnOk result
        (Appends (if begun then 10 ∷ line.now else line.now) text.old text.new) }
{
    if begun {
        text.push_str("\n")?;
    }
    text.push_str(line)?;
    Ok(())
}

impl Passage {
    /// Text of which no line was taken.
    fn new(alloc: Global) -> Passage
        ensures { IsPassage [] result }
    {
        Passage {
            text: String::new(alloc),
            begun: false,
            left: None,
            blanks: String::new(alloc),
            around: None,
        }
    }

    /// Takes a line that isn't blank: it ends the text, and blank lines before it belong to that.
    fn push(&mut self, line: &Line<'_>) -> Result<(), AllocError>
        requires { is_blank line.now.text.now ≡ false }
        ensures ok { OnOk result (LineTaken self.old (line_view line.now) self.new) }
    {
        self.text.push_str(self.blanks.as_str())?;
        self.blanks.clear();
        push_line(&mut self.text, self.begun, line.text)?;
        self.begun = true;
        self.around = line.open_after(self.around);
        self.left = self.around;
        Ok(())
    }

    /// Takes a blank line: it waits until more comes, and goes where no text stands before it.
    fn push_blank(&mut self, line: &Line<'_>) -> Result<(), AllocError>
        requires { is_blank line.now.text.now ≡ true }
        ensures ok { OnOk result (LineTaken self.old (line_view line.now) self.new) }
    {
        if !self.begun {
            return Ok(());
        }
        push_line(&mut self.blanks, true, line.text)?;
        self.around = line.open_after(self.around);
        Ok(())
    }

    /// Takes the line that a piece of the text is.
    fn take(&mut self, alloc: Global, piece: &str) -> Result<(), AllocError>
        ensures ok { OnOk result
            ((seen : List (List ℕ)) → IsPassage seen self.old
            → IsPassage (seen ++ drop_end is_cr piece.now ∷ []) self.new) }
    {
        let line = Line::of(alloc, self.around, piece)?;
        if line.is_blank() {
            self.push_blank(&line)?;
        } else {
            self.push(&line)?;
        }
        Ok(())
    }
}

/// All lines of a text, taken.
fn passage_of(alloc: Global, text: &str) -> Result<Passage, AllocError>
    ensures { IfOk result (IsPassage (clean_pieces text.now)) }
{
    let mut passage = Passage::new(alloc);
    for piece in text.split('\n') {
        passage.take(alloc, piece)?;
    }
    Ok(passage)
}

/// The tidy form of Markdown text.
pub(crate) fn tidy_markdown(alloc: Global, text: &str) -> Result<String, AllocError>
    ensures { IfOk result (λ s. string_bytes s ≡ tidy_markdown text.now) }
{
    let Passage {
        text: mut out,
        begun: _,
        left,
        blanks: _,
        around: _,
    } = passage_of(alloc, text)?;
    close(&mut out, left)?;
    Ok(out)
}
