//! The blocks of a notebook, put one behind the other, each behind an empty line.
ghost use Rattle.std.specs.Prelude.{◌≡◌, ◌&&◌, ◌<◌, ◌++◌, ◌∷◌, [], false, encode_utf8_all, map, IfOk, OnOk, string_bytes};
ghost use Rattle.std.specs.List.{AllByRecursion, flat_map};
ghost use Rattle.utf16_text.specs.Units.{AreScalars};
ghost use Rattle.blanks.specs.Blanks.{is_empty};
ghost use Rattle.livemd_lines.specs.Lines.{lines};
ghost use Rattle.livemd_lines.specs.Kinds.{kinds_of};
ghost use Rattle.livemd_lines.specs.Views.{kind_view, line_view};
ghost use Rattle.livemd_lines.specs.Written.{text_of_lines};
ghost use Rattle.livemd_format.specs.RoundTrip.{AreCellTexts, AreSectionTexts, AreTexts};
ghost use Rattle.livemd_format.specs.Tidy.{changed, is_markdown, number_from, tidied, tidy_before, tidy_cell, tidy_cells, tidy_name};
ghost use Rattle.livemd_format.specs.Write.{blocks, branch_blocks, branch_line, break_blocks, cell_blocks, code_blocks, force, forced_lines, kept_blocks, line_block, markdown_block, own_blocks, saved_blocks, setup_blocks};
ghost use Rattle.livemd_write.specs.Pages.{PutsCellText, tidy_section_blocks, PutsIn};
ghost use Rattle.livemd_write.specs.Told.{told, told_cell, told_section};
ghost use Rattle.utf16_text.specs.Appended.{Appends};

use crate::cells::{is_markdown, stays, tidy_body, tidy_cell};
use crate::fences::push_fence;
use crate::texts::{clean_text, tidy_name};
use itoa::Buffer;
use livemd_format::may_stand;
use livemd_lines::{Line, LineKind};
use notebook::{Cell, Parts, Saved, Section, SectionId};
use std::alloc::{AllocError, Global};
use utf16_text::Text;

/// Puts a line as a block.
fn push_line(out: &mut String, line: &str) -> Result<(), AllocError>
    ensures ok { OnOk result (PutsIn (line_block line.now ∷ []) out.old out.new) }
{
    out.push_str("\n")?;
    out.push_str(line)?;
    out.push_str("\n")?;
    Ok(())
}

/// Puts a heading with the mark as a block.
fn push_heading(out: &mut String, mark: &str, name: &Text) -> Result<(), AllocError>
    ensures ok { OnOk result
        (PutsIn (line_block (mark.now ++ encode_utf8_all name.now) ∷ []) out.old out.new) }
{
    out.push_str("\n")?;
    out.push_str(mark)?;
    out.push_str(name.as_str())?;
    out.push_str("\n")?;
    Ok(())
}

/// Puts kept lines, each as a block.
fn push_kept(out: &mut String, before: &[Text]) -> Result<(), AllocError>
    ensures ok { OnOk result (PutsIn (kept_blocks before.now) out.old out.new) }
{
    for line in before {
        push_line(out, line.as_str())?;
    }
    Ok(())
}

/// Puts the tidy form of kept lines, each as a block.
fn push_tidy_kept(alloc: Global, out: &mut String, before: &[Text]) -> Result<(), AllocError>
    ensures ok { OnOk result (PutsIn (kept_blocks (tidy_before before.now)) out.old out.new) }
    ensures characters { OnOk result (AllByRecursion AreScalars before.now) }
{
    for line in before {
        let line = clean_text(alloc, line)?;
        push_line(out, line.as_str())?;
    }
    Ok(())
}

/// Puts the branch line with the index as a block.
fn push_branch_line(out: &mut String, index: u64) -> Result<(), AllocError>
    ensures ok { OnOk result (PutsIn (line_block (branch_line index) ∷ []) out.old out.new) }
{
    let mut buffer = Buffer::new();
    out.push_str("\n<!-- livebook:{\"branch_parent_index\":")?;
    out.push_str(buffer.format(index))?;
    out.push_str("} -->\n")?;
    Ok(())
}

/// Puts a saved output.
fn push_output(out: &mut String, output: &Saved) -> Result<(), AllocError>
    ensures ok { OnOk result (PutsIn (saved_blocks output.now) out.old out.new) }
{
    push_line(out, "<!-- livebook:{\"output\":true} -->")?;
    push_fence(out, output.info.as_str(), output.text.as_str())?;
    Ok(())
}

/// Puts saved outputs.
fn push_saved(out: &mut String, saved: &[Saved]) -> Result<(), AllocError>
    ensures ok { OnOk result (PutsIn (flat_map saved_blocks saved.now) out.old out.new) }
{
    for output in saved {
        push_output(out, output)?;
    }
    Ok(())
}

/// Puts code and its saved outputs.
fn push_code(out: &mut String, cell: &Cell) -> Result<(), AllocError>
    ensures ok { OnOk result (PutsIn (code_blocks cell.now) out.old out.new) }
{
    push_fence(out, "elixir", cell.source.as_str())?;
    push_saved(out, cell.saved.as_slice())?;
    Ok(())
}

/// Puts what a line of the kind needs before it.
fn push_force(out: &mut String, kind: &LineKind<'_>) -> Result<(), AllocError>
    ensures ok { OnOk result
        (Appends (text_of_lines (force (kind_view kind.now))) out.old out.new) }
{
    if may_stand(kind) {
        return Ok(());
    }
    out.push_str("<!-- livebook:{\"force_markdown\":true} -->\n\n")?;
    Ok(())
}

/// Puts a line of Markdown text behind what it needs.
fn push_forced(out: &mut String, line: &Line<'_>) -> Result<(), AllocError>
    ensures ok { OnOk result
        (Appends (text_of_lines (forced_lines (line_view line.now ∷ []))) out.old out.new) }
{
    push_force(out, &line.kind)?;
    out.push_str(line.text)?;
    out.push_str("\n")?;
    Ok(())
}

/// Puts the lines of Markdown text.
fn push_lines(alloc: Global, out: &mut String, source: &str) -> Result<(), AllocError>
    ensures ok { OnOk result
        (Appends (text_of_lines (forced_lines (kinds_of (lines source.now)))) out.old out.new) }
{
    let mut around = None;
    for piece in source.lines() {
        let line = Line::of(alloc, around, piece)?;
        around = line.open_after(around);
        push_forced(out, &line)?;
    }
    Ok(())
}

/// Puts Markdown text as a block.
fn push_markdown(alloc: Global, out: &mut String, source: &str) -> Result<(), AllocError>
    ensures ok { OnOk result (PutsIn (markdown_block source.now ∷ []) out.old out.new) }
{
    out.push_str("\n")?;
    push_lines(alloc, out, source)?;
    Ok(())
}

/// Puts a cell's own blocks.
fn push_own(alloc: Global, out: &mut String, cell: &Cell) -> Result<(), AllocError>
    ensures ok { OnOk result (PutsIn (own_blocks cell.now) out.old out.new) }
{
    if is_markdown(cell.kind) {
        push_markdown(alloc, out, cell.source.as_str())
    } else {
        push_code(out, cell)
    }
}

/// Whether a cell needs a break before it where a Markdown cell stands there.
fn needs_break(cell: &Cell) -> bool
    ensures { result ≡ (is_markdown cell.now.kind && is_empty cell.now.before) }
{
    is_markdown(cell.kind) && cell.before.is_empty()
}

/// Puts a break between two Markdown cells where no kept line ends the first.
fn push_break(out: &mut String, after_markdown: bool, cell: &Cell) -> Result<(), AllocError>
    ensures ok { OnOk result (PutsIn (break_blocks after_markdown cell.now) out.old out.new) }
{
    if after_markdown && needs_break(cell) {
        return push_line(out, "<!-- livebook:{\"break_markdown\":true} -->");
    }
    Ok(())
}

/// Puts the tidy form of a cell, if it stays, and tells whether a Markdown cell stands last then.
fn push_tidy_cell(
    alloc: Global,
    out: &mut String,
    after_markdown: bool,
    cell: &Cell,
) -> Result<bool, AllocError>
    ensures puts { IfOk result
        (PutsCellText (string_bytes out.old) after_markdown cell.now (string_bytes out.new)) }
    ensures characters { OnOk result (AreCellTexts (told_cell cell.now)) }
{
    let body = tidy_body(alloc, cell)?;
    if !stays(&body) {
        return Ok(after_markdown);
    }
    push_break(out, after_markdown, cell)?;
    push_tidy_kept(alloc, out, cell.before.as_slice())?;
    push_own(alloc, out, &body)?;
    Ok(is_markdown(body.kind))
}

/// Puts the tidy form of the cells of a section, one after the other, so that no more than one is held.
fn push_tidy_cells(alloc: Global, out: &mut String, cells: &[Cell]) -> Result<(), AllocError>
    ensures ok { OnOk result (PutsIn (cell_blocks false (tidy_cells cells.now)) out.old out.new) }
    ensures characters { OnOk result (AllByRecursion AreCellTexts (map told_cell cells.now)) }
{
    let mut after_markdown = false;
    for cell in cells {
        after_markdown = push_tidy_cell(alloc, out, after_markdown, cell)?;
    }
    Ok(())
}

/// Whether there is nothing of the setup cell.
fn is_nothing(cell: &Cell) -> bool
    ensures { result ≡
        (is_empty cell.now.source && (is_empty cell.now.before && is_empty cell.now.saved)) }
{
    cell.source.is_empty() && cell.before.is_empty() && cell.saved.is_empty()
}

/// Puts the setup cell, unless there is nothing of it.
fn push_setup(out: &mut String, cell: &Cell) -> Result<(), AllocError>
    ensures ok { OnOk result (PutsIn (setup_blocks cell.now) out.old out.new) }
{
    if is_nothing(cell) {
        return Ok(());
    }
    push_kept(out, cell.before.as_slice())?;
    push_code(out, cell)?;
    Ok(())
}

/// The index of the section with the number, from 0; how many there are if none has it.
fn index_of(sections: &[Section], id: SectionId) -> u64
    ensures { result ≡ number_from 0 id sections.now }
{
    let mut index: u64 = 0;
    for section in sections {
        if section.id == id {
            return index;
        }
        index += 1;
    }
    index
}

/// Puts the branch line of a section with a parent.
fn push_branch(
    out: &mut String,
    all: &[Section],
    parent: Option<SectionId>,
) -> Result<(), AllocError>
    ensures ok { OnOk result (PutsIn (branch_blocks all.now parent) out.old out.new) }
{
    match parent {
        None => Ok(()),
        Some(parent) => push_branch_line(out, index_of(all, parent)),
    }
}

/// Puts the tidy form of a name, as a heading with the mark.
fn push_tidy_heading(
    alloc: Global,
    out: &mut String,
    mark: &str,
    name: &Text,
) -> Result<(), AllocError>
    ensures ok { OnOk result
        (PutsIn (line_block (mark.now ++ encode_utf8_all (changed tidy_name name.now)) ∷ []) out.old
        out.new) }
    ensures characters { OnOk result (AreScalars name.now) }
{
    let name = tidy_name(alloc, name)?;
    push_heading(out, mark, &name)?;
    Ok(())
}

/// Puts the tidy form of a section of these.
fn push_tidy_section(
    alloc: Global,
    out: &mut String,
    all: &[Section],
    section: &Section,
) -> Result<(), AllocError>
    ensures ok { OnOk result (PutsIn (tidy_section_blocks all.now section.now) out.old out.new) }
    ensures characters { OnOk result (AreSectionTexts (told_section section.now)) }
{
    push_tidy_kept(alloc, out, section.before.as_slice())?;
    push_branch(out, all, section.parent)?;
    push_tidy_heading(alloc, out, "## ", &section.name)?;
    push_tidy_cells(alloc, out, section.cells.as_slice())?;
    Ok(())
}

/// Puts the tidy form of all sections.
fn push_tidy_sections(alloc: Global, out: &mut String, all: &[Section]) -> Result<(), AllocError>
    ensures ok { OnOk result
        (PutsIn (flat_map (tidy_section_blocks all.now) all.now) out.old out.new) }
    ensures characters { OnOk result (AllByRecursion AreSectionTexts (map told_section all.now)) }
{
    for section in all {
        push_tidy_section(alloc, out, all, section)?;
    }
    Ok(())
}

/// Puts the tidy form of the setup cell.
fn push_tidy_setup(alloc: Global, out: &mut String, cell: &Cell) -> Result<(), AllocError>
    ensures ok { OnOk result (PutsIn (setup_blocks (tidy_cell cell.now)) out.old out.new) }
    ensures characters { OnOk result (AreCellTexts (told_cell cell.now)) }
{
    let tidy = tidy_cell(alloc, cell.id, cell)?;
    push_setup(out, &tidy)?;
    Ok(())
}

/// Puts the blocks of a notebook's tidy form. That form is made cell by cell, and never held whole.
pub(crate) fn push_tidied(alloc: Global, out: &mut String, book: &Parts) -> Result<(), AllocError>
    ensures ok { OnOk result (PutsIn (blocks (tidied book.now)) out.old out.new) }
    ensures characters { OnOk result (AreTexts (told book.now)) }
{
    push_tidy_kept(alloc, out, book.before.as_slice())?;
    push_tidy_heading(alloc, out, "# ", &book.name)?;
    push_tidy_setup(alloc, out, &book.setup)?;
    push_tidy_sections(alloc, out, book.sections.as_slice())?;
    push_tidy_kept(alloc, out, book.after.as_slice())?;
    Ok(())
}
