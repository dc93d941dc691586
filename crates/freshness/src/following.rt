//! Marks that follow the notebook.
ghost use Rattle.std.specs.Prelude.{◌≡◌, ℕ, OnOk, OnErr, MatchOption, None, find};
ghost use Rattle.notebook.specs.Rules.{IsNotebook};
ghost use Rattle.freshness.specs.declared.mark.Mark.{Mark};
ghost use Rattle.freshness.specs.Marked.{is_mark_of, as_aborted, as_finished, with_started};
ghost use Rattle.freshness.specs.Calls.{AreRemarked};
ghost use Rattle.freshness.specs.Following.{Extends, followed, with_mark, with_marks};
ghost use Rattle.freshness.specs.Places.{IsFirst};

use crate::mark::{Mark, Started, finish};
use crate::walk::code_numbers;
use ex_model::Shown;
use notebook::{CellId, Notebook};
use plain_list::Items;
use std::alloc::{AllocError, Global};

/// The place of a cell's mark.
fn place_of(marks: &[Mark], cell: CellId) -> Option<usize>
    ensures { MatchOption result (find (is_mark_of cell) marks.now ≡ None) (IsFirst (is_mark_of cell) marks.now) }
{
    for (at, mark) in marks.iter().enumerate() {
        if mark.cell == cell {
            return Some(at);
        }
    }
    None
}

/// Gives a cell a new mark, if it has none. After want of memory they are as they were.
fn add_mark(marks: &mut Items<Mark>, cell: CellId) -> Result<(), AllocError>
    ensures ok { OnOk result (marks.new ≡ with_mark cell marks.old) }
    ensures front { Extends marks.old marks.new }
{
    if place_of(marks.as_slice(), cell).is_some() {
        return Ok(());
    }
    marks.push(Mark {
        cell,
        aborted: false,
        started: None,
        finished: None,
    })?;
    Ok(())
}

/// Gives each of these cells a new mark that has none, at the end.
fn add_marks(marks: &mut Items<Mark>, cells: &[CellId]) -> Result<(), AllocError>
    ensures ok { OnOk result (marks.new ≡ with_marks cells.now marks.old) }
    ensures front { Extends marks.old marks.new }
{
    for cell in cells {
        add_mark(marks, *cell)?;
    }
    Ok(())
}

/// The marks of the notebook's live setup and code cells: those that there were, and new ones. After
/// want of memory they are as they were.
pub(crate) fn follow(
    alloc: Global,
    marks: &mut Items<Mark>,
    book: &Notebook,
) -> Result<(), AllocError>
    ensures ok { OnOk result (marks.new ≡ followed book.now marks.old) }
    ensures err { OnErr result (marks.new ≡ marks.old) }
{
    let cells = code_numbers(alloc, book.parts())?;
    let count = marks.len();
    if let Err(error) = add_marks(marks, &cells) {
        marks.truncate(count);
        return Err(error);
    }
    marks.retain(|mark| book.lane(mark.cell).is_some());
    Ok(())
}

/// Keeps at a cell's mark that this evaluation was started.
pub(crate) fn keep_start(marks: &mut Items<Mark>, cell: CellId, started: Started)
    ensures { AreRemarked cell (with_started started) marks.old marks.new }
{
    if let Some(at) = place_of(marks.as_slice(), cell) {
        marks.item_mut(at).started = Some(started);
    }
}

/// Keeps at a cell's mark that the evaluation that was started last has finished.
pub(crate) fn keep_finish(marks: &mut Items<Mark>, cell: CellId, eval: u64, shown: Shown)
    ensures { AreRemarked cell (as_finished eval shown) marks.old marks.new }
{
    if let Some(at) = place_of(marks.as_slice(), cell) {
        finish(marks.item_mut(at), eval, shown);
    }
}

/// Keeps at a cell's mark that its last attempt was broken off.
pub(crate) fn keep_abort(marks: &mut Items<Mark>, cell: CellId)
    ensures { AreRemarked cell as_aborted marks.old marks.new }
{
    if let Some(at) = place_of(marks.as_slice(), cell) {
        marks.item_mut(at).aborted = true;
    }
}
