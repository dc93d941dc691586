//! The tidy form of cells.
ghost use Rattle.std.specs.Prelude.{◌≡◌, ◌++◌, ◌+◌, ◌<◌, ◌≤◌, ◌^◌, [], List, filter, length, map, IfOk, OnOk};
ghost use Rattle.std.specs.List.{AllByRecursion};
ghost use Rattle.utf16_text.specs.Units.{AreScalars};
ghost use Rattle.notebook.specs.declared.parts.Cell.{Cell};
ghost use Rattle.livemd_format.specs.RoundTrip.{AreCellTexts, AreOutputTexts};
ghost use Rattle.livemd_format.specs.Tidy.{changed, is_markdown, numbered, stays, tidy_before, tidy_cell, tidy_cells, tidy_markdown, tidy_outputs, tidy_saved, tidy_source};
ghost use Rattle.livemd_write.specs.Cells.{PutsCell};
ghost use Rattle.livemd_write.specs.Told.{told_cell, told_saved};

use crate::markdown::tidy_markdown;
use crate::texts::clean_text;
use notebook::{Cell, CellId, Kind, Saved};
use plain_list::Items;
use std::alloc::{AllocError, Global};
use utf16_text::Text;

/// Kept lines, tidy.
pub(crate) fn tidy_kept(alloc: Global, before: &[Text]) -> Result<Items<Text>, AllocError>
    ensures tidy { IfOk result (λ ls. ls ≡ tidy_before before.now) }
    ensures characters { OnOk result (AllByRecursion AreScalars before.now) }
{
    let mut out = Items::new(alloc);
    for line in before {
        out.push(clean_text(alloc, line)?)?;
    }
    Ok(out)
}

/// A saved output, tidy.
fn tidy_output(alloc: Global, output: &Saved) -> Result<Saved, AllocError>
    ensures tidy { IfOk result (λ o. o ≡ tidy_saved output.now) }
    ensures characters { OnOk result (AreOutputTexts output.now) }
{
    Ok(Saved {
        info: clean_text(alloc, &output.info)?,
        text: clean_text(alloc, &output.text)?,
    })
}

/// The saved outputs of code, tidy.
fn tidy_saved(alloc: Global, saved: &[Saved]) -> Result<Items<Saved>, AllocError>
    ensures tidy { IfOk result (λ os. os ≡ map tidy_saved saved.now) }
    ensures characters { OnOk result (AllByRecursion AreOutputTexts saved.now) }
{
    let mut out = Items::new(alloc);
    for output in saved {
        out.push(tidy_output(alloc, output)?)?;
    }
    Ok(out)
}

/// Whether a cell of the kind is text.
pub(crate) fn is_markdown(kind: Kind) -> bool
    ensures { result ≡ is_markdown kind }
{
    matches!(kind, Kind::Markdown)
}

/// The saved outputs of a cell of the kind, tidy: only code has them.
fn tidy_outputs(alloc: Global, kind: Kind, saved: &[Saved]) -> Result<Items<Saved>, AllocError>
    ensures tidy { IfOk result (λ os. os ≡ tidy_outputs kind saved.now) }
    ensures characters { OnOk result (AllByRecursion AreOutputTexts (told_saved kind saved.now)) }
{
    if is_markdown(kind) {
        Ok(Items::new(alloc))
    } else {
        tidy_saved(alloc, saved)
    }
}

/// Markdown text, tidy.
fn tidy_text(alloc: Global, source: &Text) -> Result<Text, AllocError>
    ensures tidy { IfOk result (λ t. t ≡ changed tidy_markdown source.now) }
    ensures characters { AreScalars source.now }
{
    let text = tidy_markdown(alloc, source.as_str())?;
    Text::of(alloc, text.as_str())
}

/// The source of a cell of the kind, tidy.
fn tidy_source(alloc: Global, kind: Kind, source: &Text) -> Result<Text, AllocError>
    ensures tidy { IfOk result (λ t. t ≡ tidy_source kind source.now) }
    ensures characters { AreScalars source.now }
{
    if is_markdown(kind) {
        tidy_text(alloc, source)
    } else {
        clean_text(alloc, source)
    }
}

/// The cell, tidy, with the number.
pub(crate) fn tidy_cell(alloc: Global, id: CellId, cell: &Cell) -> Result<Cell, AllocError>
    ensures tidy { IfOk result (λ c. c ≡ record (tidy_cell cell.now) { id = id }) }
    ensures characters { OnOk result (AreCellTexts (told_cell cell.now)) }
{
    Ok(Cell {
        id,
        kind: cell.kind,
        source: tidy_source(alloc, cell.kind, &cell.source)?,
        before: tidy_kept(alloc, cell.before.as_slice())?,
        saved: tidy_outputs(alloc, cell.kind, cell.saved.as_slice())?,
    })
}

/// Looks at kept lines, for the proof alone: each consists of characters.
fn look_at(before: &[Text])
    ensures { AllByRecursion AreScalars before.now }
{
    for line in before {
        line.as_str();
    }
}

/// The cell, tidy, without its kept lines, which are many where a book holds many.
pub(crate) fn tidy_body(alloc: Global, cell: &Cell) -> Result<Cell, AllocError>
    ensures tidy { IfOk result (λ c. c ≡ record (tidy_cell cell.now) { before = [] }) }
    ensures characters { OnOk result (AreCellTexts (told_cell cell.now)) }
{
    look_at(cell.before.as_slice());
    Ok(Cell {
        id: cell.id,
        kind: cell.kind,
        source: tidy_source(alloc, cell.kind, &cell.source)?,
        before: Items::new(alloc),
        saved: tidy_outputs(alloc, cell.kind, cell.saved.as_slice())?,
    })
}

/// Whether a tidy cell stays: an empty Markdown cell goes.
pub(crate) fn stays(cell: &Cell) -> bool
    ensures { result ≡ stays cell.now }
{
    !(is_markdown(cell.kind) && cell.source.is_empty())
}

/// Puts the cell, tidy and with the number, at the end, if it stays; the number that comes next.
fn push_staying(
    alloc: Global,
    out: &mut Items<Cell>,
    id: CellId,
    cell: &Cell,
) -> Result<CellId, AllocError>
    requires { id < 2 ^ 63 }
    ensures puts { IfOk result (PutsCell out.old id cell.now out.new) }
    ensures characters { OnOk result (AreCellTexts (told_cell cell.now)) }
{
    let tidy = tidy_cell(alloc, id, cell)?;
    if stays(&tidy) {
        out.push(tidy)?;
        return Ok(id + 1);
    }
    Ok(id)
}

/// The cells that stay, tidy and numbered from the given number on.
pub(crate) fn tidy_cells(
    alloc: Global,
    first: CellId,
    cells: &[Cell],
) -> Result<Items<Cell>, AllocError>
    requires { first + length cells.now < 2 ^ 63 }
    ensures tidy { IfOk result (λ cs. cs ≡ numbered first (tidy_cells cells.now)) }
    ensures characters { OnOk result (AllByRecursion AreCellTexts (map told_cell cells.now)) }
{
    let mut out = Items::new(alloc);
    let mut next = first;
    for cell in cells {
        next = push_staying(alloc, &mut out, next, cell)?;
    }
    Ok(out)
}
