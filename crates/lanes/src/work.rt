//! What is asked of the evaluators, what runs, and what was shown.
ghost use Rattle.std.specs.Prelude.{◌≡◌};
ghost use Rattle.std.specs.List.{list_any};
ghost use Rattle.std.specs.Option.{option_copied};
ghost use Rattle.lanes.specs.Work.{no_work, mark_of, is_queued, is_running, is_idle, is_queued_mark, last_finished};
ghost use Rattle.lanes.specs.Changes.{running_eval};

use ex_model::Shown;
use notebook::{CellId, Lane, Passed};
use plain_list::Items;
use std::alloc::Global;

/// A finished evaluation: the path that it read, and what it showed.
#[derive(Debug, Drop)]
pub struct Finished {
    pub path: Items<Passed>,
    pub shown: Shown,
}

/// What stands for one cell: whether it is queued, whether its last attempt was broken off, and its
/// last finished evaluation.
#[derive(Debug, Drop)]
pub struct Mark {
    pub cell: CellId,
    pub queued: bool,
    pub aborted: bool,
    pub last: Option<Finished>,
}

/// A running evaluation: its lane, its number, its cell, and the path that was read at its start.
#[derive(Debug, Drop)]
pub struct Running {
    pub lane: Lane,
    pub eval: u64,
    pub cell: CellId,
    pub path: Items<Passed>,
}

/// The work of a notebook's evaluators. A cell without a mark was never asked for nor evaluated.
/// Evaluations are numbered from 1; `started` is the last number.
#[derive(Debug, Drop)]
pub struct Work {
    pub marks: Items<Mark>,
    pub running: Items<Running>,
    pub started: u64,
}

impl Work {
    /// Nothing was asked for yet. Takes no memory.
    pub fn new(alloc: Global) -> Work
        ensures { result ≡ no_work }
    {
        Work {
            marks: Items::new(alloc),
            running: Items::new(alloc),
            started: 0,
        }
    }

    /// The mark of a cell, if it has one.
    pub(crate) fn mark(&self, cell: CellId) -> Option<&Mark>
        ensures { option_copied result ≡ mark_of self.now cell }
    {
        self.marks.as_slice().iter().find(|mark| mark.cell == cell)
    }

    /// The cell's last finished evaluation, if there is one.
    pub(crate) fn last(&self, cell: CellId) -> Option<&Finished>
        ensures { option_copied result ≡ last_finished self.now cell }
    {
        match self.mark(cell) {
            None => None,
            Some(mark) => mark.last.as_ref(),
        }
    }

    /// Whether the cell is queued. Takes no memory.
    pub fn is_queued(&self, cell: CellId) -> bool
        ensures { result ≡ is_queued self.now cell }
    {
        match self.mark(cell) {
            None => false,
            Some(mark) => mark.queued,
        }
    }

    /// Whether an evaluation of the cell runs. Takes no memory.
    pub fn is_running(&self, cell: CellId) -> bool
        ensures { result ≡ is_running self.now cell }
    {
        self.running.as_slice().iter().any(|it| it.cell == cell)
    }

    /// The running evaluation of the number; `None` exactly where it runs no more, or never did. Takes
    /// no memory.
    pub fn running(&self, eval: u64) -> Option<&Running>
        ensures { option_copied result ≡ running_eval self.now eval }
    {
        self.running.as_slice().iter().find(|it| it.eval == eval)
    }

    /// Whether no cell is queued and no evaluation runs. Takes no memory.
    pub fn is_idle(&self) -> bool
        ensures { result ≡ is_idle self.now }
    {
        !self.has_queued() && self.running.len() == 0
    }

    /// Whether some cell is queued.
    fn has_queued(&self) -> bool
        ensures { result ≡ list_any is_queued_mark self.now.marks }
    {
        self.marks.as_slice().iter().any(|mark| mark.queued)
    }
}
