//! The lines of a text, each with what it is.
ghost use Rattle.std.specs.Prelude.{◌≡◌, IfOk};
ghost use Rattle.blanks.specs.Blanks.{drop_end, is_blank, is_cr};
ghost use Rattle.livemd_lines.specs.Lines.{lines};
ghost use Rattle.livemd_lines.specs.Kinds.{heading_kind, kind_of, kind_in, open_after, kinded, kinds_of};
ghost use Rattle.livemd_lines.specs.Views.{kind_view, line_view, lines_view};

use crate::fences::{Fence, opening_of};
use crate::metadata::{Metadata, metadata_of};
use blanks::{trim_spaces, without_crs};
use std::alloc::{AllocError, Global};

/// What a line is.
#[derive(Clone, Copy, Debug)]
pub enum LineKind<'a> {
    /// It opens a fence. The info is what stands behind the fence's character, without outer
    /// spaces and tabs.
    Opens { fence: Fence, info: &'a str },
    /// It stands inside a fence, whatever it looks like.
    Inside,
    /// It closes the fence.
    Closes,
    /// A metadata line.
    Metadata(Metadata),
    /// It begins with `# `; the rest without outer spaces.
    Heading1(&'a str),
    /// It begins with `## `; the rest without outer spaces.
    Heading2(&'a str),
    /// Every other line, a blank one too.
    Text,
}

/// A line of a text: what it is, and its text without line feed and without the carriage returns
/// at its end.
#[derive(Clone, Copy, Debug)]
pub struct Line<'a> {
    pub kind: LineKind<'a>,
    pub text: &'a str,
}

impl<'a> Line<'a> {
    /// The line that a piece of a text is, where the fence is open before it, if one is. The pieces
    /// are those of [`str::lines`].
    pub fn of(alloc: Global, around: Option<Fence>, piece: &'a str) -> Result<Line<'a>, AllocError>
        ensures { IfOk result (λ line. line_view line ≡ kinded around (drop_end is_cr piece.now)) }
    {
        let text = without_crs(piece);
        let kind = kind_in(alloc, around, text)?;
        Ok(Line { kind, text })
    }

    /// The fence that is open after the line, by the one that is open before it.
    pub fn open_after(&self, around: Option<Fence>) -> Option<Fence>
        ensures { result ≡ open_after around (kind_view self.now.kind) }
    {
        match &self.kind {
            LineKind::Opens { fence, info: _ } => Some(*fence),
            LineKind::Closes => None,
            _ => around,
        }
    }

    /// Whether the line has only spaces and tabs, or nothing.
    pub fn is_blank(&self) -> bool
        ensures { result ≡ is_blank self.now.text.now }
    {
        blanks::is_blank(self.text)
    }
}

/// What a line is that neither opens a fence nor is metadata.
fn heading_kind(line: &str) -> LineKind<'_>
    ensures { kind_view result ≡ heading_kind line.now }
{
    if let Some(name) = line.strip_prefix("# ") {
        return LineKind::Heading1(trim_spaces(name));
    }
    if let Some(name) = line.strip_prefix("## ") {
        return LineKind::Heading2(trim_spaces(name));
    }
    LineKind::Text
}

/// What a line outside fences is.
fn kind_of(alloc: Global, line: &str) -> Result<LineKind<'_>, AllocError>
    ensures { IfOk result (λ kind. kind_view kind ≡ kind_of line.now) }
{
    if let Some(opening) = opening_of(line) {
        return Ok(LineKind::Opens {
            fence: opening.fence,
            info: opening.info,
        });
    }
    match metadata_of(alloc, line)? {
        Some(metadata) => Ok(LineKind::Metadata(metadata)),
        None => Ok(heading_kind(line)),
    }
}

/// What a line is before which the fence is open, if one is.
fn kind_in(alloc: Global, around: Option<Fence>, line: &str) -> Result<LineKind<'_>, AllocError>
    ensures { IfOk result (λ kind. kind_view kind ≡ kind_in around line.now) }
{
    match around {
        Some(fence) => {
            if fence.is_closed_by(line) {
                Ok(LineKind::Closes)
            } else {
                Ok(LineKind::Inside)
            }
        }
        None => kind_of(alloc, line),
    }
}

/// The lines of a text, each with its kind, all at once. A text is cut at each line feed, and an
/// empty last piece is no line. [`Line::of`] serves who walks the lines and keeps none.
pub fn lines(alloc: Global, text: &str) -> Result<Vec<Line<'_>>, AllocError>
    ensures { IfOk result (λ all. lines_view all.items ≡ kinds_of (lines text.now)) }
{
    let mut done = Vec::new(alloc);
    let mut around = None;
    for piece in text.lines() {
        let line = Line::of(alloc, around, piece)?;
        around = line.open_after(around);
        done.push(line)?;
    }
    Ok(done)
}
