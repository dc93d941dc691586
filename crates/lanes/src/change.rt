//! What calls make of the work.
ghost use Rattle.std.specs.Prelude.{◌≡◌, ◌&&◌, ◌+◌, ◌<◌, [], None, find, is_some, map, length, unwrap_or, slice_get, slice_set, Some, IfOk, OnOk, OnErr, MatchOption, MatchResult};
ghost use Rattle.std.specs.List.{list_any};
ghost use Rattle.notebook.specs.Flow.{path};
ghost use Rattle.lanes.specs.Work.{is_mark_of};
ghost use Rattle.lanes.specs.Changes.{asked, as_cancelled, as_stored, begun, cancelled, has_moved, housed, is_eval, is_home, is_hopeless, marked, moved_mark, remarked, running_eval, stored, swept, swept_mark, without_dead, without_moved};
ghost use Rattle.lanes.specs.declared.work.Mark.{Mark};
ghost use Rattle.lanes.specs.Places.{IsFirst, with_queued};

use crate::walk::{is_same_lane, path_of};
use crate::work::{Finished, Mark, Running, Work};
use ex_model::Shown;
use notebook::{CellId, Lane, Notebook, Passed};
use plain_list::Items;
use std::alloc::{AllocError, Global};

/// The place of a cell's mark.
fn place_of(marks: &[Mark], cell: CellId) -> Option<usize>
    ensures { MatchOption result (find (is_mark_of cell) marks.now ≡ None)
        (IsFirst (is_mark_of cell) marks.now) }
{
    for (at, mark) in marks.iter().enumerate() {
        if mark.cell == cell {
            return Some(at);
        }
    }
    None
}

/// The place of the running evaluation of the number.
fn place_of_eval(running: &[Running], eval: u64) -> Option<usize>
    ensures { MatchOption result (find (is_eval eval) running.now ≡ None)
        (IsFirst (is_eval eval) running.now) }
{
    for (at, it) in running.iter().enumerate() {
        if it.eval == eval {
            return Some(at);
        }
    }
    None
}

/// Marks a cell as queued or not; a mark is made where there is none.
fn set_queued(marks: &mut Items<Mark>, cell: CellId, queued: bool) -> Result<(), AllocError>
    ensures ok { OnOk result (marks.new ≡ marked cell (with_queued queued) marks.old) }
    ensures err { OnErr result (marks.new ≡ marks.old) }
{
    match place_of(marks.as_slice(), cell) {
        Some(at) => {
            marks.item_mut(at).queued = queued;
            Ok(())
        }
        None => {
            marks.push(Mark {
                cell,
                queued,
                aborted: false,
                last: None,
            })?;
            Ok(())
        }
    }
}

/// Keeps a finished evaluation at a cell's mark, if there is one.
fn keep(marks: &mut Items<Mark>, cell: CellId, path: Items<Passed>, shown: Shown)
    ensures { marks.new ≡ remarked cell (as_stored path shown) marks.old }
{
    if let Some(at) = place_of(marks.as_slice(), cell) {
        let mark = marks.item_mut(at);
        mark.aborted = false;
        mark.last = Some(Finished { path, shown });
    }
}

/// Marks a cell as broken off and not queued, if it has a mark.
fn break_off(marks: &mut Items<Mark>, cell: CellId)
    ensures { marks.new ≡ remarked cell as_cancelled marks.old }
{
    if let Some(at) = place_of(marks.as_slice(), cell) {
        let mark = marks.item_mut(at);
        mark.queued = false;
        mark.aborted = true;
    }
}

/// The cell's present path, copied; the empty one where it has none.
fn present_path(alloc: Global, book: &Notebook, cell: CellId) -> Result<Items<Passed>, AllocError>
    ensures { IfOk result (λ p. p ≡ unwrap_or (path book.now cell) []) }
{
    match book.before(cell) {
        None => Ok(Items::new(alloc)),
        Some(before) => path_of(alloc, before.flow),
    }
}

/// Whether the running evaluation's cell still has its lane.
fn is_home(book: &Notebook, running: &Running) -> bool
    ensures { result ≡ is_home book.now running.now }
{
    match book.lane(running.cell) {
        None => false,
        Some(lane) => is_same_lane(running.lane, lane),
    }
}

/// Whether the cell runs in a lane that isn't its own any more.
fn has_moved(book: &Notebook, cell: CellId, running: &[Running]) -> bool
    ensures { result ≡ list_any (has_moved book.now cell) running.now }
{
    running
        .iter()
        .any(|it| it.cell == cell && !is_home(book, it))
}

/// Marks a cell as broken off if it runs in a lane that isn't its own any more.
fn abort_if_moved(mark: &mut Mark, running: &[Running], book: &Notebook)
    ensures { mark.new ≡ moved_mark book.now running.now mark.old }
{
    if has_moved(book, mark.cell, running) {
        mark.aborted = true;
    }
}

/// Marks all cells as broken off that run in a lane that isn't theirs any more.
fn abort_moved(marks: &mut Items<Mark>, running: &[Running], book: &Notebook)
    ensures { marks.new ≡ map (moved_mark book.now running.now) marks.old }
{
    for at in 0..marks.len() {
        abort_if_moved(marks.item_mut(at), running, book);
    }
}

impl Work {
    /// Queues a cell. After want of memory the work is as it was.
    pub fn ask(&mut self, cell: CellId) -> Result<(), AllocError>
        ensures ok { OnOk result (self.new ≡ asked cell self.old) }
        ensures err { OnErr result (self.new ≡ self.old) }
    {
        set_queued(&mut self.marks, cell, true)?;
        Ok(())
    }

    /// Begins an evaluation of the cell in the lane, along the cell's present path, and answers its
    /// number; the cell isn't queued any more. After want of memory the work is as it was. (The numbers
    /// end at 2^64 - 1; no machine starts that many.)
    pub fn begin(
        &mut self,
        alloc: Global,
        book: &Notebook,
        lane: Lane,
        cell: CellId,
    ) -> Result<u64, AllocError>
        ensures { MatchResult result
            (λ eval. (eval ≡ self.old.started + 1) ×
            (self.new ≡ begun book.now lane eval cell self.old)) (λ e. self.new ≡ self.old) }
    {
        let Some(eval) = self.started.checked_add(1) else {
            return Err(AllocError);
        };
        let path = present_path(alloc, book, cell)?;
        let count = self.running.len();
        self.running.push(Running {
            lane,
            eval,
            cell,
            path,
        })?;
        if let Err(error) = set_queued(&mut self.marks, cell, false) {
            self.running.truncate(count);
            return Err(error);
        }
        self.started = eval;
        Ok(eval)
    }

    /// Keeps what the running evaluation of the number showed, along the path that it read: it runs no
    /// more, and its cell isn't marked as broken off. False exactly where no such evaluation runs, and
    /// then nothing changes. Takes no memory.
    pub fn store(&mut self, eval: u64, shown: Shown) -> bool
        ensures ran { result ≡ is_some (running_eval self.old eval) }
        ensures work { self.new ≡ stored shown self.old (running_eval self.old eval) }
    {
        let Some(at) = place_of_eval(self.running.as_slice(), eval) else {
            return false;
        };
        let Running { cell, path, .. } = self.running.remove(at);
        self.running.retain(|it| it.eval != eval);
        keep(&mut self.marks, cell, path, shown);
        true
    }

    /// Takes a cell out of the queued ones, takes its running evaluation away, and marks it as broken
    /// off. Takes no memory.
    pub fn cancel(&mut self, cell: CellId)
        ensures { self.new ≡ cancelled cell self.old }
    {
        break_off(&mut self.marks, cell);
        self.running.retain(|it| it.cell != cell);
    }

    /// Follows a change of the notebook to this one: drops all that stands for cells that live no more,
    /// and takes the evaluations away whose cell has another lane; these cells are marked as broken
    /// off. Takes no memory.
    pub fn house(&mut self, book: &Notebook)
        ensures { self.new ≡ housed book.now self.old }
    {
        self.drop_dead(book);
        self.drop_moved(book);
    }

    /// Drops all that stands for cells that live no more.
    fn drop_dead(&mut self, book: &Notebook)
        ensures { self.new ≡ without_dead book.now self.old }
    {
        self.marks.retain(|mark| book.find(mark.cell).is_some());
        self.running.retain(|it| book.find(it.cell).is_some());
    }

    /// Takes the evaluations away whose cell has another lane, and marks these cells as broken off.
    fn drop_moved(&mut self, book: &Notebook)
        ensures { self.new ≡ without_moved book.now self.old }
    {
        abort_moved(&mut self.marks, self.running.as_slice(), book);
        self.running.retain(|it| is_home(book, it));
    }

    /// Takes all queued cells that have an ancestor that is evaluated and shows a fault out of the
    /// queued ones, and marks them as broken off, in one step. Takes no memory.
    pub fn sweep(&mut self, book: &Notebook)
        ensures { self.new ≡ swept book.now self.old }
    {
        // That one cell was swept changes for no other whether it is: this rests on the book's rules.
        let _rules = book.parts();
        for at in 0..self.marks.len() {
            self.sweep_at(book, at);
        }
    }

    /// The same for the cell of the mark at a place.
    fn sweep_at(&mut self, book: &Notebook, at: usize)
        requires { at < length self.old.marks }
        ensures running { self.new.running ≡ self.old.running }
        ensures started { self.new.started ≡ self.old.started }
        ensures mark { (m : Mark) → slice_get self.old.marks at ≡ Some m
            → self.new.marks ≡ slice_set self.old.marks at (swept_mark book.now self.old m) }
    {
        if self.is_lost(book, &self.marks.as_slice()[at]) {
            let mark = self.marks.item_mut(at);
            mark.queued = false;
            mark.aborted = true;
        }
    }

    /// Whether the mark is that of a queued cell with an ancestor that is evaluated and shows a fault.
    fn is_lost(&self, book: &Notebook, mark: &Mark) -> bool
        ensures { result ≡ (mark.now.queued && is_hopeless book.now self.now mark.now.cell) }
    {
        mark.queued && self.failed_ancestor(book, mark.cell).is_some()
    }
}
