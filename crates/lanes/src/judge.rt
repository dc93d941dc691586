//! What still counts of what was evaluated, and what may start.
ghost use Rattle.std.specs.Prelude.{◌≡◌, MatchOption, None, map, find};
ghost use Rattle.std.specs.List.{list_any, list_all};
ghost use Rattle.std.specs.Option.{option_copied, option_map};
ghost use Rattle.notebook.specs.Before.{left};
ghost use Rattle.notebook.specs.Flow.{passed, path};
ghost use Rattle.notebook.specs.Rules.{cell_number};
ghost use Rattle.notebook.specs.Validity.{status_by, validity_by};
ghost use Rattle.lanes.specs.Work.{is_fault, is_aborted, last_finished, path_read, shown_in, shows_fault, is_evaluated_on, is_evaluated, has_failed, failed_ancestor, earlier, stands_in, is_asked_by, is_due, is_settled, runs_in, may_start, may_start_in, ready_lane, is_queued, is_running};
ghost use Rattle.lanes.specs.Rows.{IsRow};

use crate::walk::{has_cell, is_path, is_same_lane, own_cells};
use crate::work::{Finished, Mark, Work};
use ex_model::{Outcome, Shown};
use notebook::{CellId, FlowCells, Lane, Notebook, Status, Validity};

/// What is known of a cell. `shown` is what its last finished evaluation showed, also where that isn't
/// valid any more.
#[derive(Clone, Copy, Debug)]
pub struct Row<'a> {
    pub status: Status,
    pub validity: Validity,
    pub shown: Option<&'a Shown>,
}

/// Whether an evaluation ended by a fault.
fn is_fault(outcome: &Outcome) -> bool
    ensures { result ≡ is_fault outcome.now }
{
    match outcome {
        Outcome::Value(_) => false,
        Outcome::Fault(_) => true,
    }
}

/// What is asked for a cell that runs or not, and is queued or not.
fn status_by(runs: bool, queued: bool) -> Status
    ensures { result ≡ status_by runs queued }
{
    if runs {
        Status::Evaluating
    } else if queued {
        Status::Queued
    } else {
        Status::Ready
    }
}

/// What the last finished evaluation is worth where the cell's flow is this one.
fn validity_by(aborted: bool, last: Option<&Finished>, flow: FlowCells<'_>) -> Validity
    ensures { result ≡ validity_by aborted (option_map path_read (option_copied last.entry))
        (map passed (left flow.entry)) }
{
    if aborted {
        return Validity::Aborted;
    }
    match last {
        None => Validity::Fresh,
        Some(last) => {
            if is_path(last.path.as_slice(), flow) {
                Validity::Evaluated
            } else {
                Validity::Stale
            }
        }
    }
}

/// Whether a cell stands in the flow of another, which is its own too.
fn stands_in(book: &Notebook, cell: CellId, other: CellId) -> bool
    ensures { result ≡ stands_in book.now cell other }
{
    match book.before(other) {
        None => false,
        Some(before) => has_cell(before.flow, cell),
    }
}

/// Whether the mark is that of a queued cell in whose flow the cell stands.
fn is_asked_by(book: &Notebook, cell: CellId, mark: &Mark) -> bool
    ensures { result ≡ is_asked_by book.now cell mark.now }
{
    mark.queued && stands_in(book, cell, mark.cell)
}

impl Work {
    /// Whether the cell's last attempt was broken off.
    fn is_aborted(&self, cell: CellId) -> bool
        ensures { result ≡ is_aborted self.now cell }
    {
        match self.mark(cell) {
            None => false,
            Some(mark) => mark.aborted,
        }
    }

    /// Whether the cell's last finished evaluation showed a fault.
    fn shows_fault(&self, cell: CellId) -> bool
        ensures { result ≡ shows_fault (last_finished self.now cell) }
    {
        match self.last(cell) {
            None => false,
            Some(last) => is_fault(&last.shown.outcome),
        }
    }

    /// What the cell's last finished evaluation is worth where its flow is this one.
    fn validity(&self, cell: CellId, flow: FlowCells<'_>) -> Validity
        ensures { result ≡ validity_by (is_aborted self.now cell)
            (option_map path_read (last_finished self.now cell)) (map passed (left flow.entry)) }
    {
        validity_by(self.is_aborted(cell), self.last(cell), flow)
    }

    /// Whether the cell's last finished evaluation counts where its flow is this one.
    fn is_evaluated_on(&self, cell: CellId, flow: FlowCells<'_>) -> bool
        ensures { result ≡ is_evaluated_on self.now cell (map passed (left flow.entry)) }
    {
        match self.validity(cell, flow) {
            Validity::Evaluated => true,
            Validity::Fresh | Validity::Stale | Validity::Aborted => false,
        }
    }

    /// Whether the cell's last finished evaluation read the path that the cell has now, and no later
    /// attempt was broken off. False where there is no live setup or code cell of the number. Takes no
    /// memory.
    pub fn is_evaluated(&self, book: &Notebook, cell: CellId) -> bool
        ensures { result ≡ is_evaluated book.now self.now cell }
    {
        match book.before(cell) {
            None => false,
            Some(before) => self.is_evaluated_on(cell, before.flow),
        }
    }

    /// Whether the cell is evaluated and shows a fault.
    fn has_failed(&self, book: &Notebook, cell: CellId) -> bool
        ensures { result ≡ has_failed book.now self.now cell }
    {
        self.shows_fault(cell) && self.is_evaluated(book, cell)
    }

    /// The first of these cells that is evaluated and shows a fault.
    fn first_failed(&self, book: &Notebook, cells: FlowCells<'_>) -> Option<CellId>
        ensures { result ≡ find (has_failed book.now self.now)
            (map cell_number (left cells.entry)) }
    {
        let mut rest = cells;
        while let Some((cell, after)) = rest.next() {
            if self.has_failed(book, cell.id) {
                return Some(cell.id);
            }
            rest = after;
        }
        None
    }

    /// The first cell before this one in its flow that is evaluated and shows a fault; `None` where
    /// there is none, and where no live setup or code cell has the number. Takes no memory.
    pub fn failed_ancestor(&self, book: &Notebook, cell: CellId) -> Option<CellId>
        ensures { result ≡ failed_ancestor book.now self.now cell }
    {
        match book.before(cell) {
            None => None,
            Some(before) => self.first_failed(book, before.earlier),
        }
    }

    /// Whether the cell is queued, or isn't evaluated and stands in the flow of a queued cell.
    fn is_due(&self, book: &Notebook, cell: CellId) -> bool
        ensures { result ≡ is_due book.now self.now cell }
    {
        self.is_queued(cell) || !self.is_evaluated(book, cell) && self.is_asked(book, cell)
    }

    /// Whether the cell stands in the flow of a queued cell.
    fn is_asked(&self, book: &Notebook, cell: CellId) -> bool
        ensures { result ≡ list_any (is_asked_by book.now cell) self.now.marks }
    {
        self.marks
            .as_slice()
            .iter()
            .any(|mark| is_asked_by(book, cell, mark))
    }

    /// The first of these cells that is due.
    fn first_due(&self, book: &Notebook, cells: FlowCells<'_>) -> Option<CellId>
        ensures { result ≡ find (is_due book.now self.now) (map cell_number (left cells.entry)) }
    {
        let mut rest = cells;
        while let Some((cell, after)) = rest.next() {
            if self.is_due(book, cell.id) {
                return Some(cell.id);
            }
            rest = after;
        }
        None
    }

    /// Whether a cell holds up those after it no more.
    fn is_settled(&self, book: &Notebook, cell: CellId) -> bool
        ensures { result ≡ is_settled book.now self.now cell }
    {
        !self.is_queued(cell)
            && !self.is_running(cell)
            && self.is_evaluated(book, cell)
            && !self.shows_fault(cell)
    }

    /// Whether all of these cells are settled.
    fn are_settled(&self, book: &Notebook, cells: FlowCells<'_>) -> bool
        ensures { result ≡ list_all (is_settled book.now self.now)
            (map cell_number (left cells.entry)) }
    {
        let mut rest = cells;
        while let Some((cell, after)) = rest.next() {
            if !self.is_settled(book, cell.id) {
                return false;
            }
            rest = after;
        }
        true
    }

    /// Whether all cells before a cell in its flow are settled.
    fn is_settled_before(&self, book: &Notebook, cell: CellId) -> bool
        ensures { result ≡ list_all (is_settled book.now self.now) (earlier book.now cell) }
    {
        match book.before(cell) {
            None => true,
            Some(before) => self.are_settled(book, before.earlier),
        }
    }

    /// Whether an evaluation runs in the lane.
    fn runs_in(&self, lane: Lane) -> bool
        ensures { result ≡ list_any (runs_in lane) self.now.running }
    {
        self.running
            .as_slice()
            .iter()
            .any(|it| is_same_lane(lane, it.lane))
    }

    /// The cell whose evaluation may start in the lane: its first that is due, where the lane runs none
    /// and every earlier cell of that cell's flow is neither queued nor running, is evaluated, and
    /// shows no fault. `None` exactly where no cell may start there. Takes no memory.
    pub fn may_start(&self, book: &Notebook, lane: Lane) -> Option<CellId>
        ensures { result ≡ may_start book.now self.now lane }
    {
        if self.runs_in(lane) {
            return None;
        }
        let cell = self.first_due(book, own_cells(book, lane))?;
        if !self.is_settled_before(book, cell) {
            return None;
        }
        Some(cell)
    }

    /// Whether a cell's evaluation may start in the lane.
    fn may_start_in(&self, book: &Notebook, lane: Lane) -> bool
        ensures { result ≡ may_start_in book.now self.now lane }
    {
        self.may_start(book, lane).is_some()
    }

    /// The first lane in which a cell's evaluation may start: the main one, or else that of the first
    /// such branch. Takes no memory.
    pub fn ready_lane(&self, book: &Notebook) -> Option<Lane>
        ensures { result ≡ ready_lane book.now self.now }
    {
        if self.may_start_in(book, Lane::Main) {
            return Some(Lane::Main);
        }
        for section in book.parts().sections.as_slice() {
            if section.parent.is_some() && self.may_start_in(book, Lane::Branch(section.id)) {
                return Some(Lane::Branch(section.id));
            }
        }
        None
    }

    /// What is known of the cell; `None` exactly where no live setup or code cell has the number. Takes
    /// no memory.
    pub fn row(&self, book: &Notebook, cell: CellId) -> Option<Row<'_>>
        ensures { MatchOption result (path book.now cell ≡ None) (IsRow book.now self.now cell) }
    {
        let before = book.before(cell)?;
        Some(Row {
            status: status_by(self.is_running(cell), self.is_queued(cell)),
            validity: self.validity(cell, before.flow),
            shown: self.last_shown(cell),
        })
    }

    /// What the cell's last finished evaluation showed.
    fn last_shown(&self, cell: CellId) -> Option<&Shown>
        ensures { option_copied result ≡ option_map shown_in (last_finished self.now cell) }
    {
        match self.last(cell) {
            None => None,
            Some(last) => Some(&last.shown),
        }
    }
}
