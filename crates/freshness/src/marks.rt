//! The marks of a notebook's cells.
ghost use Rattle.std.specs.Prelude.{◌≡◌, IsSome, Some, [], IfOk, OnOk, OnErr, find, unwrap_or};
ghost use Rattle.std.specs.Option.{option_copied, option_map};
ghost use Rattle.notebook.specs.Flow.{lane_of, path};
ghost use Rattle.freshness.specs.Marked.{as_aborted, as_finished, as_started, finished_of, is_mark_of, last_started, mark_of, present_path, shown_in};
ghost use Rattle.notebook.specs.declared.states.Validity.TheVariants.{Aborted};
ghost use Rattle.freshness.specs.Calls.{IsBroughtTo, IsNew, IsRemarked};
ghost use Rattle.freshness.specs.Validity.{validity_of};

use crate::following::{follow, keep_abort, keep_finish, keep_start};
use crate::mark::{Mark, Started};
use crate::walk::path_of;
use ex_model::Shown;
use notebook::{CellId, Notebook, Passed};
use plain_list::Items;
use std::alloc::{AllocError, Global};
use std::marker::Model;

/// What is kept for each live setup or code cell of a notebook. It keeps a copy of the notebook to
/// which it was brought, so that a cell's validity can be told without it.
#[derive(Drop)]
pub struct Marks {
    alloc: Global,
    book: Notebook,
    marks: Items<Mark>,
}

impl Model for Marks {
    ghost use Rattle.freshness.specs.Marked.{Marked, IsMarked};

    ghost Value = { Marked };

    ghost view = { λ m. record { book = m.book; marks = m.marks } };

    ghost invariant = { λ m. IsMarked (record { book = m.book; marks = m.marks }) };
}

/// The mark of a cell, if it has one.
fn mark_among(marks: &[Mark], cell: CellId) -> Option<&Mark>
    ensures { option_copied result ≡ find (is_mark_of cell) marks.now }
{
    marks.iter().find(|mark| mark.cell == cell)
}

/// The cell's present path, copied; the empty one where it has none.
fn path_in(alloc: Global, book: &Notebook, cell: CellId) -> Result<Items<Passed>, AllocError>
    ensures { IfOk result (λ p. p ≡ present_path book.now cell) }
{
    match book.before(cell) {
        None => Ok(Items::new(alloc)),
        Some(before) => path_of(alloc, before.flow),
    }
}

impl Marks {
    /// The marks of a notebook of which nothing was evaluated yet.
    pub fn new(alloc: Global, book: &Notebook) -> Result<Marks, AllocError>
        ensures { IfOk result (IsNew book.now) }
    {
        let copy = book.copy()?;
        let mut marks = Items::new(alloc);
        follow(alloc, &mut marks, &copy)?;
        Ok(Marks {
            alloc,
            book: copy,
            marks,
        })
    }

    /// Brings the marks to a changed notebook: cells that live on keep theirs, new cells get new ones,
    /// and all is dropped that was kept for cells that live no more. After want of memory all is as it
    /// was.
    pub fn changed(&mut self, book: &Notebook) -> Result<(), AllocError>
        ensures ok { OnOk result (IsBroughtTo book.now self.old self.new) }
        ensures err { OnErr result (self.new ≡ self.old) }
    {
        let copy = book.copy()?;
        follow(self.alloc, &mut self.marks, &copy)?;
        self.book = copy;
        Ok(())
    }

    /// Keeps that an evaluation of the cell was started, with the path that the cell has now. The cell
    /// has to be a live setup or code cell. After want of memory all is as it was.
    pub fn started(&mut self, cell: CellId, eval: u64) -> Result<(), AllocError>
        requires { IsSome (lane_of self.old.book cell) }
        ensures ok { OnOk result
            (IsRemarked cell (as_started eval (present_path self.old.book cell)) self.old self.new) }
        ensures last { OnOk result (last_started self.new cell ≡ Some eval) }
        ensures err { OnErr result (self.new ≡ self.old) }
    {
        let path = path_in(self.alloc, &self.book, cell)?;
        keep_start(&mut self.marks, cell, Started { eval, path });
        Ok(())
    }

    /// Keeps what an evaluation of the cell showed, along the path that was read at its start; the
    /// cell isn't marked as aborted any more. The cell has to be a live setup or code cell, and the
    /// evaluation the one that was last started for it. Takes no memory.
    pub fn finished(&mut self, cell: CellId, eval: u64, shown: Shown)
        requires live { IsSome (lane_of self.old.book cell) }
        requires last_started { last_started self.old cell ≡ Some eval }
        ensures mark { IsRemarked cell (as_finished eval shown) self.old self.new }
        ensures shows { option_map shown_in (finished_of self.new cell) ≡ Some shown }
    {
        keep_finish(&mut self.marks, cell, eval, shown);
    }

    /// Marks the cell as aborted: its last attempt was broken off. It has to be a live setup or code
    /// cell. Takes no memory.
    pub fn aborted(&mut self, cell: CellId)
        requires { IsSome (lane_of self.old.book cell) }
        ensures mark { IsRemarked cell as_aborted self.old self.new }
        ensures aborted { validity_of self.new cell ≡ Some Aborted }
    {
        keep_abort(&mut self.marks, cell);
    }

    /// What the cell's last finished evaluation showed, also where it doesn't count any more; `None`
    /// exactly where none was finished. Takes no memory.
    pub fn shown(&self, cell: CellId) -> Option<&Shown>
        ensures { option_copied result ≡ option_map shown_in (finished_of self.now cell) }
    {
        match self.mark(cell) {
            None => None,
            Some(mark) => match &mark.finished {
                None => None,
                Some(last) => Some(&last.shown),
            },
        }
    }

    /// The mark of a cell; `None` exactly where no live setup or code cell has the number.
    pub(crate) fn mark(&self, cell: CellId) -> Option<&Mark>
        ensures { option_copied result ≡ mark_of self.now cell }
    {
        mark_among(self.marks.as_slice(), cell)
    }

    /// The notebook to which the marks were brought.
    pub(crate) fn book(&self) -> &Notebook
        ensures { result.now ≡ self.now.book }
    {
        &self.book
    }
}
