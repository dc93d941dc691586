//! Queued cells that can't be evaluated, since a cell before them has failed.
ghost use Rattle.std.specs.Prelude.{◌≡◌, ◌&&◌, IfOk, OnOk, OnErr, filter, map, find};
ghost use Rattle.notebook.specs.Before.{left};
ghost use Rattle.notebook.specs.Rules.{cell_number};
ghost use Rattle.section_queues.specs.Apart.{AreApart};
ghost use Rattle.section_queues.specs.Facts.{known, has_failed, same_number};
ghost use Rattle.section_queues.specs.Starts.{failed_ancestor, is_hopeless};
ghost use Rattle.section_queues.specs.Calls.{is_hopeful, swept};

use crate::facts::CellFacts;
use crate::wants::Wants;
use notebook::{CellId, FlowCells, Notebook};
use plain_list::Items;
use std::alloc::{AllocError, Global};

/// Whether the cell is evaluated and shows a fault.
fn has_failed<F: CellFacts>(facts: &F, cell: CellId) -> bool
    ensures { result ≡ has_failed
        (known (F.evaluated_cells facts.now) (F.faulty_cells facts.now)) cell }
{
    facts.evaluated(cell) && facts.failed(cell)
}

/// The first of these cells that is evaluated and shows a fault.
fn first_failed<F: CellFacts>(facts: &F, cells: FlowCells<'_>) -> Option<CellId>
    ensures { result ≡ find (has_failed
        (known (F.evaluated_cells facts.now) (F.faulty_cells facts.now)))
        (map cell_number (left cells.entry)) }
{
    let mut rest = cells;
    while let Some((cell, after)) = rest.next() {
        if has_failed(facts, cell.id) {
            return Some(cell.id);
        }
        rest = after;
    }
    None
}

/// The first cell before this one in its flow that is evaluated and shows a fault; `None` exactly
/// where there is none, or where no live setup or code cell has the number. Takes no memory.
pub fn failed_ancestor<F: CellFacts>(book: &Notebook, facts: &F, cell: CellId) -> Option<CellId>
    ensures { result ≡ failed_ancestor book.now
        (known (F.evaluated_cells facts.now) (F.faulty_cells facts.now)) cell }
{
    match book.before(cell) {
        None => None,
        Some(before) => first_failed(facts, before.earlier),
    }
}

/// Whether some cell before this one in its flow is evaluated and shows a fault.
fn is_hopeless<F: CellFacts>(book: &Notebook, facts: &F, cell: CellId) -> bool
    ensures { result ≡ is_hopeless book.now
        (known (F.evaluated_cells facts.now) (F.faulty_cells facts.now)) cell }
{
    failed_ancestor(book, facts, cell).is_some()
}

/// Those of these cells that have an ancestor that failed.
fn hopeless_among<F: CellFacts>(
    alloc: Global,
    book: &Notebook,
    facts: &F,
    cells: &[CellId],
) -> Result<Vec<CellId>, AllocError>
    ensures { IfOk result (λ out. out.items ≡ filter (is_hopeless book.now
        (known (F.evaluated_cells facts.now) (F.faulty_cells facts.now))) cells.now) }
{
    let mut out = Vec::new(alloc);
    for cell in cells {
        if is_hopeless(book, facts, *cell) {
            out.push(*cell)?;
        }
    }
    Ok(out)
}

/// Takes those out that have an ancestor that failed.
fn drop_hopeless<F: CellFacts>(cells: &mut Items<CellId>, book: &Notebook, facts: &F)
    requires { AreApart same_number cells.old }
    ensures rest { cells.new ≡ filter (is_hopeful book.now
        (known (F.evaluated_cells facts.now) (F.faulty_cells facts.now))) cells.old }
    ensures once { AreApart same_number cells.new }
{
    cells.retain(|cell| !is_hopeless(book, facts, *cell));
}

impl Wants {
    /// Takes all queued cells out, in one step, that have an ancestor that is evaluated and shows a
    /// fault, and answers which, in the order in which they were asked for. After want of memory all is
    /// as it was.
    ///
    /// Who has no memory for the answer asks [`failed_ancestor`] of one cell after the other and takes
    /// it out by `unask`: that a cell was taken out, and isn't evaluated any more, changes for no other
    /// cell whether it is to be taken out.
    pub fn sweep<F: CellFacts>(
        &mut self,
        book: &Notebook,
        facts: &F,
    ) -> Result<Vec<CellId>, AllocError>
        ensures out { IfOk result (λ out. out.items ≡ filter (is_hopeless book.now
            (known (F.evaluated_cells facts.now) (F.faulty_cells facts.now))) self.old.queued) }
        ensures ok { OnOk result (self.new ≡ swept book.now
            (known (F.evaluated_cells facts.now) (F.faulty_cells facts.now)) self.old) }
        ensures err { OnErr result (self.new ≡ self.old) }
    {
        let out = hopeless_among(self.alloc, book, facts, self.waiting.as_slice())?;
        drop_hopeless(&mut self.waiting, book, facts);
        Ok(out)
    }
}
