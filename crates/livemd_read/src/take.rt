//! One line after the other is taken.
ghost use Rattle.std.specs.Prelude.{◌≡◌, ◌++◌, ◌∷◌, [], ℕ, true, false, IfOk, OnOk, List, option_map, unwrap_or};
ghost use Rattle.std.specs.String.{string_bytes};
ghost use Rattle.blanks.specs.Blanks.{drop_end, is_blank, is_space_or_tab};
ghost use Rattle.livemd_lines.specs.Kinds.{Opens, Heading1};
ghost use Rattle.livemd_lines.specs.Views.{kind_view, line_view};
ghost use Rattle.livemd_format.specs.Items.{at_setup, cut, cut_by, cut_metadata, is_closing_kind, is_force, is_inside, one_line, output_at};
ghost use Rattle.livemd_format.specs.Items as format;
ghost use Rattle.livemd_format.specs.Reads.{items_of};
ghost use Rattle.livemd_read.specs.Resume.{fenced_item, resume, BeginsText, Cuts, Takes};
ghost use Rattle.livemd_read.specs.Views.{IsDone, cut_of, item_of, views};

use crate::done::Done;
use crate::items::Item;
use crate::open::{Content, Open, Passage, with_line};
use blanks::without_end_blanks;
use livemd_format::{is_code, may_stand};
use livemd_lines::{Fence, Line, LineKind, Metadata};
use std::alloc::{AllocError, Global};

/// Whether a line of the kind forces the next one to be text.
fn is_force(kind: &LineKind<'_>) -> bool
    ensures { result ≡ is_force (kind_view kind.now) }
{
    matches!(kind, LineKind::Metadata(Metadata::ForceMarkdown))
}

/// Whether a line of the kind stands inside a fence.
fn is_inside(kind: &LineKind<'_>) -> bool
    ensures { result ≡ is_inside (kind_view kind.now) }
{
    matches!(kind, LineKind::Inside)
}

/// Whether a line of the kind closes a fence.
fn is_closing(kind: &LineKind<'_>) -> bool
    ensures { result ≡ is_closing_kind (kind_view kind.now) }
{
    matches!(kind, LineKind::Closes)
}

/// Markdown text that begins with the line.
fn open_text<'a>(alloc: Global, line: &Line<'_>) -> Result<Open<'a>, AllocError>
    requires text { is_blank line.now.text.now ≡ false }
    ensures { IfOk result (BeginsText (line_view line.now)) }
{
    Ok(Open::Text {
        passage: Passage::of(alloc, line.text)?,
        forced: false,
    })
}

/// Puts an item of one line at the end.
fn push_line<'a>(done: &mut Done<'a>, item: Item<'a>) -> Result<Open<'a>, AllocError>
    requires { IsDone done.old }
    ensures { IfOk result
        (λ after. (number : ℕ)
        → Cuts done.old done.new after number (λ _. one_line (item_of item.entry))) }
{
    done.push(item)?;
    Ok(Open::Nothing)
}

/// Begins with a line that opens a fence outside text.
fn begin_fence<'a>(
    alloc: Global,
    fence: Fence,
    info: &str,
    line: &Line<'_>,
) -> Result<Open<'a>, AllocError>
    requires text { is_blank line.now.text.now ≡ false }
    ensures { IfOk result
        (λ after. (done : Done) (number : ℕ) → IsDone done
        → Cuts done done after number
        (cut_by (Opens fence info.now) (cut_of done) number (line_view line.now))) }
{
    if is_code(fence, info) {
        return Ok(Open::Fence {
            what: Content::Code,
            source: None,
        });
    }
    open_text(alloc, line)
}

/// Begins with a heading 1.
fn begin_heading<'a>(
    alloc: Global,
    done: &mut Done<'a>,
    name: &'a str,
    line: &Line<'_>,
) -> Result<Open<'a>, AllocError>
    requires done { IsDone done.old }
    requires text { is_blank line.now.text.now ≡ false }
    ensures { IfOk result
        (λ after. (number : ℕ)
        → Cuts done.old done.new after number
        (cut_by (Heading1 name.now) (cut_of done.old) number (line_view line.now))) }
{
    if done.at_name {
        push_line(done, Item::Name(name))
    } else {
        open_text(alloc, line)
    }
}

/// Begins with an output line.
fn begin_output<'a>(done: &mut Done<'a>, number: u64) -> Result<Open<'a>, AllocError>
    requires { IsDone done.old }
    ensures { IfOk result
        (λ after. Cuts done.old done.new after number (output_at (cut_of done.old) number)) }
{
    if done.after_code {
        Ok(Open::OutputLine { line: number })
    } else {
        push_line(done, Item::Misplaced { line: number })
    }
}

/// Begins with a metadata line.
fn begin_metadata<'a>(
    done: &mut Done<'a>,
    meaning: Metadata,
    number: u64,
    line: &Line<'a>,
) -> Result<Open<'a>, AllocError>
    requires { IsDone done.old }
    ensures { IfOk result
        (λ after. Cuts done.old done.new after number (cut_metadata meaning (cut_of done.old) number
        (line_view line.now))) }
{
    match meaning {
        Metadata::BranchParentIndex(index) => {
            push_line(
                done,
                Item::Branch {
                    line: number,
                    index,
                },
            )
        }
        Metadata::BreakMarkdown => push_line(done, Item::Dropped),
        Metadata::ForceMarkdown => Ok(Open::Forced),
        Metadata::Output => begin_output(done, number),
        Metadata::Stamp => push_line(done, Item::Stamp(without_end_blanks(line.text))),
        Metadata::Unknown => push_line(done, Item::Kept(without_end_blanks(line.text))),
    }
}

/// Begins an item with a line that isn't blank.
fn begin_item<'a>(
    alloc: Global,
    done: &mut Done<'a>,
    number: u64,
    line: &Line<'a>,
) -> Result<Open<'a>, AllocError>
    requires done { IsDone done.old }
    requires text { is_blank line.now.text.now ≡ false }
    ensures { IfOk result
        (λ after. Cuts done.old done.new after number (cut (cut_of done.old) number
        (line_view line.now))) }
{
    match line.kind {
        LineKind::Opens { fence, info } => begin_fence(alloc, fence, info, line),
        LineKind::Metadata(meaning) => begin_metadata(done, meaning, number, line),
        LineKind::Heading1(name) => begin_heading(alloc, done, name, line),
        LineKind::Heading2(name) => push_line(done, Item::Section(name)),
        LineKind::Inside => open_text(alloc, line),
        LineKind::Closes => open_text(alloc, line),
        LineKind::Text => open_text(alloc, line),
    }
}

/// Takes a line before which nothing is open.
fn begin<'a>(
    alloc: Global,
    done: &mut Done<'a>,
    number: u64,
    line: &Line<'a>,
) -> Result<Open<'a>, AllocError>
    requires { IsDone done.old }
    ensures { IfOk result
        (λ after. Takes done.old Open.Nothing done.new after number (line_view line.now)) }
{
    if line.is_blank() {
        return Ok(Open::Nothing);
    }
    begin_item(alloc, done, number, line)
}

/// Takes a line behind a forcing line that no text stands before.
fn after_force<'a>(alloc: Global, line: &Line<'_>) -> Result<Open<'a>, AllocError>
    ensures { IfOk result
        (λ after. (done : Done) (number : ℕ) → IsDone done
        → Takes done Open.Forced done after number (line_view line.now)) }
{
    if line.is_blank() {
        return Ok(Open::Forced);
    }
    open_text(alloc, line)
}

/// Takes a line while Markdown text is open and the line is forced.
fn go_on_forced<'a>(passage: Passage, line: &Line<'_>) -> Result<Open<'a>, AllocError>
    ensures { IfOk result
        (λ after. (done : Done) (number : ℕ) → IsDone done
        → Takes done (Open.Text passage true) done after number (line_view line.now)) }
{
    if line.is_blank() {
        return Ok(Open::Text {
            passage,
            forced: true,
        });
    }
    Ok(Open::Text {
        passage: passage.with_line(line)?,
        forced: false,
    })
}

/// Takes a line while Markdown text is open.
fn go_on<'a>(
    alloc: Global,
    done: &mut Done<'a>,
    passage: Passage,
    number: u64,
    line: &Line<'a>,
) -> Result<Open<'a>, AllocError>
    requires { IsDone done.old }
    ensures { IfOk result
        (λ after. Takes done.old (Open.Text passage false) done.new after number
        (line_view line.now)) }
{
    if is_force(&line.kind) {
        return Ok(Open::Text {
            passage,
            forced: true,
        });
    }
    if may_stand(&line.kind) {
        return Ok(Open::Text {
            passage: passage.with_line(line)?,
            forced: false,
        });
    }
    done.push(Item::Markdown(passage.source))?;
    begin(alloc, done, number, line)
}

/// The item of a fence.
fn fenced_item<'a>(is_setup: bool, what: Content<'a>, text: String) -> Item<'a>
    ensures { (done : List format.Item) → is_setup ≡ at_setup done
        → item_of result ≡ fenced_item done what.entry (string_bytes text) }
{
    match what {
        Content::Code if is_setup => Item::Setup(text),
        Content::Code => Item::Code(text),
        Content::Output(info) => Item::Saved { info, text },
    }
}

/// Puts the item of a fence at the end.
fn push_fence<'a>(
    alloc: Global,
    done: &mut Done<'a>,
    what: Content<'a>,
    source: Option<String>,
) -> Result<(), AllocError>
    requires { IsDone done.old }
    ensures items { OnOk result
        (cut_of done.new ≡ cut_of done.old ++ fenced_item (cut_of done.old) what.entry
        (unwrap_or (option_map string_bytes source) []) ∷ []) }
    ensures done { OnOk result (IsDone done.new) }
{
    let text = source.unwrap_or(String::new(alloc));
    let item = fenced_item(done.at_setup, what, text);
    done.push(item)?;
    Ok(())
}

/// Takes a line while a fence that is no text is open.
fn go_on_in_fence<'a>(
    alloc: Global,
    done: &mut Done<'a>,
    what: Content<'a>,
    source: Option<String>,
    number: u64,
    line: &Line<'a>,
) -> Result<Open<'a>, AllocError>
    requires { IsDone done.old }
    ensures { IfOk result
        (λ after. Takes done.old (Open.Fence what.entry source) done.new after number
        (line_view line.now)) }
{
    if is_inside(&line.kind) {
        return Ok(Open::Fence {
            what,
            source: Some(with_line(alloc, source, line.text)?),
        });
    }
    push_fence(alloc, done, what, source)?;
    if is_closing(&line.kind) {
        return Ok(Open::Nothing);
    }
    begin(alloc, done, number, line)
}

/// Takes a line that isn't blank behind an output line.
fn after_output_line<'a>(
    alloc: Global,
    done: &mut Done<'a>,
    output: u64,
    number: u64,
    line: &Line<'a>,
) -> Result<Open<'a>, AllocError>
    requires done { IsDone done.old }
    requires text { is_blank line.now.text.now ≡ false }
    ensures { IfOk result
        (λ after. Takes done.old (Open.OutputLine output) done.new after number
        (line_view line.now)) }
{
    if let LineKind::Opens { fence: _, info } = line.kind {
        return Ok(Open::Fence {
            what: Content::Output(info),
            source: None,
        });
    }
    done.push(Item::Misplaced { line: output })?;
    begin(alloc, done, number, line)
}

/// Takes a line while an output line waits for its fence.
fn await_fence<'a>(
    alloc: Global,
    done: &mut Done<'a>,
    output: u64,
    number: u64,
    line: &Line<'a>,
) -> Result<Open<'a>, AllocError>
    requires { IsDone done.old }
    ensures { IfOk result
        (λ after. Takes done.old (Open.OutputLine output) done.new after number
        (line_view line.now)) }
{
    if line.is_blank() {
        return Ok(Open::OutputLine { line: output });
    }
    after_output_line(alloc, done, output, number, line)
}

/// Takes the line of the number.
fn take<'a>(
    alloc: Global,
    done: &mut Done<'a>,
    pending: Open<'a>,
    number: u64,
    line: &Line<'a>,
) -> Result<Open<'a>, AllocError>
    requires { IsDone done.old }
    ensures { IfOk result
        (λ after. Takes done.old pending.entry done.new after number (line_view line.now)) }
{
    match pending {
        Open::Nothing => begin(alloc, done, number, line),
        Open::Forced => after_force(alloc, line),
        Open::Text { passage, forced } => {
            if forced {
                go_on_forced(passage, line)
            } else {
                go_on(alloc, done, passage, number, line)
            }
        }
        Open::Fence { what, source } => { go_on_in_fence(alloc, done, what, source, number, line) }
        Open::OutputLine { line: output } => await_fence(alloc, done, output, number, line),
    }
}

/// Ends what is open where no line is left.
fn finish<'a>(alloc: Global, done: &mut Done<'a>, pending: Open<'a>) -> Result<(), AllocError>
    requires { IsDone done.old }
    ensures ok { OnOk result
        ((number : ℕ) → cut_of done.new ≡ resume (cut_of done.old) pending.entry number []) }
{
    match pending {
        Open::Nothing => Ok(()),
        Open::Forced => {
            done.push(Item::Dropped)?;
            Ok(())
        }
        Open::Text { passage, forced: _ } => {
            done.push(Item::Markdown(passage.source))?;
            Ok(())
        }
        Open::Fence { what, source } => push_fence(alloc, done, what, source),
        Open::OutputLine { line } => {
            done.push(Item::Misplaced { line })?;
            Ok(())
        }
    }
}

/// The items of a text. Branch lines and stamps stay as they are.
pub(crate) fn read_items(alloc: Global, text: &str) -> Result<Vec<Item<'_>>, AllocError>
    ensures { IfOk result (λ is. views is.items ≡ items_of text.now) }
{
    let mut done = Done::new(alloc);
    let mut pending = Open::Nothing;
    let mut around = None;
    let mut number: u64 = 1;
    for piece in text.lines() {
        let line = Line::of(alloc, around, piece)?;
        around = line.open_after(around);
        pending = take(alloc, &mut done, pending, number, &line)?;
        number += 1;
    }
    finish(alloc, &mut done, pending)?;
    Ok(done.items)
}
