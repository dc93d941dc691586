//! The tidy form of texts.
ghost use Rattle.std.specs.Prelude.{◌≡◌, ◌∷◌, [], ◌<◌, map, replicate, IfOk, OnOk};
ghost use Rattle.std.specs.List.{list_any};
ghost use Rattle.std.specs.String.{string_bytes};
ghost use Rattle.utf16_text.specs.Units.{AreScalars};
ghost use Rattle.blanks.specs.Blanks.{is_cr};
ghost use Rattle.livemd_lines.specs.Kinds.{byte_of};
ghost use Rattle.livemd_format.specs.Tidy.{changed, clean, tidy_name};
ghost use Rattle.livemd_write.specs.Texts.{space_for};
ghost use Rattle.utf16_text.specs.Appended.{Appends};

use blanks::{trim_spaces, without_crs};
use livemd_lines::Mark;
use std::alloc::{AllocError, Global};
use utf16_text::Text;

/// The text without the carriage returns that stand before a line feed or at its end.
pub(crate) fn clean(alloc: Global, text: &str) -> Result<String, AllocError>
    ensures { IfOk result (λ s. string_bytes s ≡ clean text.now) }
{
    let mut out = String::new(alloc);
    let mut between = "";
    for piece in text.split('\n') {
        out.push_str(between)?;
        out.push_str(without_crs(piece))?;
        between = "\n";
    }
    Ok(out)
}

/// The text with a space for each mark.
fn spaced(alloc: Global, text: &str, mark: char) -> Result<String, AllocError>
    requires { mark < 128 }
    ensures { IfOk result (λ s. string_bytes s ≡ map (space_for mark) text.now) }
{
    let mut out = String::new(alloc);
    let mut between = "";
    for piece in text.split(mark) {
        out.push_str(between)?;
        out.push_str(piece)?;
        between = " ";
    }
    Ok(out)
}

/// The mark of a fence, as a text.
fn mark_text(mark: Mark) -> &'static str
    ensures { result.now ≡ byte_of mark ∷ [] }
{
    match mark {
        Mark::Backtick => "`",
        Mark::Tilde => "~",
    }
}

/// Puts a mark so many times at the end.
pub(crate) fn push_marks(out: &mut String, mark: Mark, count: usize) -> Result<(), AllocError>
    ensures ok { OnOk result (Appends (replicate count (byte_of mark)) out.old out.new) }
{
    for _ in 0..count {
        out.push_str(mark_text(mark))?;
    }
    Ok(())
}

/// The tidy form of a name.
pub(crate) fn tidy_name(alloc: Global, text: &Text) -> Result<Text, AllocError>
    ensures tidy { IfOk result (λ t. t ≡ changed tidy_name text.now) }
    ensures characters { AreScalars text.now }
{
    let text = clean(alloc, text.as_str())?;
    let text = spaced(alloc, text.as_str(), '\n')?;
    let text = spaced(alloc, text.as_str(), '\r')?;
    Text::of(alloc, trim_spaces(text.as_str()))
}

/// Whether a text has a carriage return.
fn has_crs(text: &str) -> bool
    ensures { result ≡ list_any is_cr text.now }
{
    text.as_bytes().contains(&b'\r')
}

/// What [`clean_text`] gives, of a text that is cut and put together again.
fn cleaned(alloc: Global, text: &Text) -> Result<Text, AllocError>
    ensures tidy { IfOk result (λ t. t ≡ changed clean text.now) }
    ensures characters { AreScalars text.now }
{
    let text = clean(alloc, text.as_str())?;
    Text::of(alloc, text.as_str())
}

/// A text without the carriage returns that stand before a line feed or at its end.
pub(crate) fn clean_text(alloc: Global, text: &Text) -> Result<Text, AllocError>
    ensures tidy { IfOk result (λ t. t ≡ changed clean text.now) }
    ensures characters { AreScalars text.now }
{
    if has_crs(text.as_str()) {
        cleaned(alloc, text)
    } else {
        text.copy()
    }
}
