//! The printed text of a notebook.
ghost use Rattle.std.specs.Prelude.{◌≡◌, ◌≢◌, ◌++◌, ℕ, OnOk, IfOk, map, codes, string_bytes};
ghost use Rattle.std.specs.List.{flat_map};
ghost use Rattle.json.specs.Print.{quoted};
ghost use Rattle.notebook.specs.Book.{cells_of};
ghost use Rattle.notebook.specs.Rules.{cell_number, AreDistinct};
ghost use Rattle.transcript.specs.Left.{LeavesOthers};
ghost use Rattle.transcript.specs.Texts.{rev_in as rev_among, kind_text, from_text, cell_line, cell_lines, section_line, section_lines, setup_lines, book_lines, ended_line, as_text};
ghost use Rattle.transcript.specs.Printed.{Appends, AppendsLines};

use crate::words::{push_named, push_plain, push_text};
use notebook::{Cell, CellId, Kind, Notebook, Section, SectionId};
use std::alloc::{AllocError, Global};

/// The revision that a list of cells and their revisions gives a cell: that of the cell's first
/// place, and 0 where the cell has none.
pub fn rev_in(revs: &[(CellId, u64)], cell: CellId) -> u64
    ensures { result ≡ rev_among revs.now cell }
{
    for (id, rev) in revs {
        if *id == cell {
            return *rev;
        }
    }
    0
}

/// The revision of a cell, and what is left of the list: all but its first place where that is the
/// cell's, so that a list in the order of the cells is gone through once.
fn take_rev(revs: &[(CellId, u64)], cell: CellId) -> (u64, &[(CellId, u64)])
    ensures rev { result.0 ≡ rev_among revs.now cell }
    ensures left { (other : ℕ) → other ≢ cell
        → rev_among result.1.now other ≡ rev_among revs.now other }
{
    match revs.split_first() {
        Some((first, left)) if first.0 == cell => (first.1, left),
        _ => (rev_in(revs, cell), revs),
    }
}

/// The word for a kind of cell.
fn kind_word(kind: Kind) -> &'static str
    ensures { result.now ≡ kind_text kind }
{
    match kind {
        Kind::Setup => "setup",
        Kind::Code => "code",
        Kind::Markdown => "markdown",
    }
}

/// Puts a cell's line after a text.
fn push_cell(out: &mut String, cell: &Cell, rev: u64) -> Result<(), AllocError>
    ensures { OnOk result (Appends (ended_line (cell_line (λ _. rev) cell.now)) out.old out.new) }
{
    push_named(out, "cell ", cell.id)?;
    push_plain(out, " ")?;
    push_plain(out, kind_word(cell.kind))?;
    push_named(out, " rev ", rev)?;
    push_plain(out, " ")?;
    push_text(out, cell.source.as_str())?;
    push_plain(out, "\n")
}

/// Puts the setup cell's line after a text, and nothing where its source is empty.
fn push_setup(out: &mut String, setup: &Cell, rev: u64) -> Result<(), AllocError>
    ensures { OnOk result (AppendsLines (setup_lines (λ _. rev) setup.now) out.old out.new) }
{
    if setup.source.is_empty() {
        return Ok(());
    }
    push_cell(out, setup, rev)
}

/// Puts the lines of cells after a text, and gives what is left of the revisions.
fn push_cells<'a>(
    out: &mut String,
    cells: &[Cell],
    revs: &'a [(CellId, u64)],
) -> Result<&'a [(CellId, u64)], AllocError>
    requires { AreDistinct (map cell_number cells.now) }
    ensures text { OnOk result
        (AppendsLines (cell_lines (rev_among revs.now) cells.now) out.old out.new) }
    ensures left { IfOk result (λ left. LeavesOthers cells.now revs.now left.now) }
{
    let mut left = revs;
    for cell in cells {
        let (rev, others) = take_rev(left, cell.id);
        push_cell(out, cell, rev)?;
        left = others;
    }
    Ok(left)
}

/// Puts the words for a section's parent after a text.
fn push_parent(out: &mut String, parent: Option<SectionId>) -> Result<(), AllocError>
    ensures { OnOk result (Appends (from_text parent) out.old out.new) }
{
    match parent {
        Some(id) => push_named(out, " from ", id),
        None => Ok(()),
    }
}

/// Puts a section's own line after a text.
fn push_heading(out: &mut String, section: &Section) -> Result<(), AllocError>
    ensures { OnOk result (Appends (ended_line (section_line section.now)) out.old out.new) }
{
    push_named(out, "section ", section.id)?;
    push_plain(out, " ")?;
    push_text(out, section.name.as_str())?;
    push_parent(out, section.parent)?;
    push_plain(out, "\n")
}

/// Puts the lines of sections after a text.
fn push_sections(
    out: &mut String,
    sections: &[Section],
    revs: &[(CellId, u64)],
) -> Result<(), AllocError>
    requires { AreDistinct (map cell_number (flat_map cells_of sections.now)) }
    ensures { OnOk result
        (AppendsLines (section_lines (rev_among revs.now) sections.now) out.old out.new) }
{
    let mut left = revs;
    for section in sections {
        push_heading(out, section)?;
        left = push_cells(out, section.cells.as_slice(), left)?;
    }
    Ok(())
}

/// Puts the line with a notebook's name after a text.
fn push_title(out: &mut String, name: &str) -> Result<(), AllocError>
    ensures { OnOk result
        (Appends (ended_line (codes "notebook " ++ quoted name.now)) out.old out.new) }
{
    push_plain(out, "notebook ")?;
    push_text(out, name)?;
    push_plain(out, "\n")
}

/// Puts the lines of a notebook after a text, each with a LF: its name, the setup cell if its source
/// isn't empty, then each section and its cells. Each cell has the revision that `revs` gives it at
/// the cell's first place, and 0 where it has none there. A list in the order of the cells is gone
/// through once; where a cell isn't the next one, what is left is searched.
pub fn push_book(
    out: &mut String,
    book: &Notebook,
    revs: &[(CellId, u64)],
) -> Result<(), AllocError>
    ensures { OnOk result
        (AppendsLines (book_lines (rev_among revs.now) book.now) out.old out.new) }
{
    let parts = book.parts();
    push_title(out, parts.name.as_str())?;
    let (rev, left) = take_rev(revs, parts.setup.id);
    push_setup(out, &parts.setup, rev)?;
    push_sections(out, parts.sections.as_slice(), left)
}

/// The lines of a notebook, as `push_book` puts them.
pub fn book_text(
    alloc: Global,
    book: &Notebook,
    revs: &[(CellId, u64)],
) -> Result<String, AllocError>
    ensures { IfOk result
        (λ s. string_bytes s ≡ as_text (book_lines (rev_among revs.now) book.now)) }
{
    let mut out = String::new(alloc);
    push_book(&mut out, book, revs)?;
    Ok(out)
}
