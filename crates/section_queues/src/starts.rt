//! Which cell may start in a lane.
ghost use Rattle.std.specs.Prelude.{◌≡◌, map, find};
ghost use Rattle.std.specs.List.{list_any, list_all};
ghost use Rattle.notebook.specs.Before.{left};
ghost use Rattle.notebook.specs.Rules.{cell_number};
ghost use Rattle.section_queues.specs.Facts.{known};
ghost use Rattle.section_queues.specs.Wanted.{runs_cell, runs_in};
ghost use Rattle.section_queues.specs.Starts.{earlier, is_due, is_settled, may_start, stands_in};

use crate::facts::CellFacts;
use crate::walk::{is_same_lane, own_cells, stands_in};
use crate::wants::{LaneRun, Wants};
use notebook::{CellId, FlowCells, Lane, Notebook};

/// Whether the cell stands in the flow of one of these.
fn is_asked(book: &Notebook, cell: CellId, queued: &[CellId]) -> bool
    ensures { result ≡ list_any (stands_in book.now cell) queued.now }
{
    queued.iter().any(|other| stands_in(book, cell, *other))
}

/// Whether the cell is queued, or isn't evaluated and stands in the flow of a queued cell.
fn is_due<F: CellFacts>(wants: &Wants, book: &Notebook, facts: &F, cell: CellId) -> bool
    ensures { result ≡ is_due book.now
        (known (F.evaluated_cells facts.now) (F.faulty_cells facts.now)) wants.now cell }
{
    wants.queued(cell) || !facts.evaluated(cell) && is_asked(book, cell, wants.queue())
}

/// The first of these cells that is due.
fn first_due<F: CellFacts>(
    wants: &Wants,
    book: &Notebook,
    facts: &F,
    cells: FlowCells<'_>,
) -> Option<CellId>
    ensures { result ≡ find (is_due book.now
        (known (F.evaluated_cells facts.now) (F.faulty_cells facts.now)) wants.now)
        (map cell_number (left cells.entry)) }
{
    let mut rest = cells;
    while let Some((cell, after)) = rest.next() {
        if is_due(wants, book, facts, cell.id) {
            return Some(cell.id);
        }
        rest = after;
    }
    None
}

/// Whether one of these is a run of the cell.
fn is_running(runs: &[LaneRun], cell: CellId) -> bool
    ensures { result ≡ list_any (runs_cell cell) runs.now }
{
    runs.iter().any(|it| it.run.cell == cell)
}

/// Whether a cell holds up those after it no more: it is neither queued nor running, is evaluated,
/// and shows no fault.
fn is_settled<F: CellFacts>(wants: &Wants, facts: &F, cell: CellId) -> bool
    ensures { result ≡ is_settled
        (known (F.evaluated_cells facts.now) (F.faulty_cells facts.now)) wants.now cell }
{
    !wants.queued(cell)
        && !is_running(wants.lane_runs(), cell)
        && facts.evaluated(cell)
        && !facts.failed(cell)
}

/// Whether all of these cells are settled.
fn are_settled<F: CellFacts>(wants: &Wants, facts: &F, cells: FlowCells<'_>) -> bool
    ensures { result ≡ list_all (is_settled
        (known (F.evaluated_cells facts.now) (F.faulty_cells facts.now)) wants.now)
        (map cell_number (left cells.entry)) }
{
    let mut rest = cells;
    while let Some((cell, after)) = rest.next() {
        if !is_settled(wants, facts, cell.id) {
            return false;
        }
        rest = after;
    }
    true
}

/// Whether all cells before a cell in its flow are settled.
fn is_settled_before<F: CellFacts>(wants: &Wants, book: &Notebook, facts: &F, cell: CellId) -> bool
    ensures { result ≡ list_all (is_settled
        (known (F.evaluated_cells facts.now) (F.faulty_cells facts.now)) wants.now)
        (earlier book.now cell) }
{
    match book.before(cell) {
        None => true,
        Some(before) => are_settled(wants, facts, before.earlier),
    }
}

/// Whether one of these runs in the lane.
fn runs_in(runs: &[LaneRun], lane: Lane) -> bool
    ensures { result ≡ list_any (runs_in lane) runs.now }
{
    runs.iter().any(|it| is_same_lane(it.lane, lane))
}

impl Wants {
    /// The cell whose evaluation may start in the lane: its first in notebook order that is queued, or
    /// isn't evaluated and stands in the flow of a queued cell; where the lane runs none, and every
    /// earlier cell of that cell's flow is neither queued nor running, is evaluated, and shows no fault.
    /// `None` exactly where the lane may not start. Takes no memory.
    pub fn next<F: CellFacts>(&self, book: &Notebook, facts: &F, lane: Lane) -> Option<CellId>
        ensures { result ≡ may_start book.now
            (known (F.evaluated_cells facts.now) (F.faulty_cells facts.now)) self.now lane }
    {
        if runs_in(self.lane_runs(), lane) {
            return None;
        }
        let cell = first_due(self, book, facts, own_cells(book, lane))?;
        if !is_settled_before(self, book, facts, cell) {
            return None;
        }
        Some(cell)
    }
}
