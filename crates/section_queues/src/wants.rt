//! The queued cells and the running evaluations.
ghost use Rattle.std.specs.Prelude.{◌≡◌, ◌++◌, ◌∷◌, [], false, IfNone, OnOk, OnErr, filter, find, option_map};
ghost use Rattle.std.specs.Bool.{OnFalse};
ghost use Rattle.std.specs.List.{list_any};
ghost use Rattle.section_queues.specs.Apart.{AreApart};
ghost use Rattle.section_queues.specs.Facts.{is_in, same_number, is_other};
ghost use Rattle.section_queues.specs.Wanted.{cell_of_run, clashes, eval_of_run, is_eval, is_idle, is_other_eval, is_queued, run_of, running_in, runs_cell, runs_in, runs_other};
ghost use Rattle.section_queues.specs.Calls.{asked, begun, cell_of, ended, eval_of, no_wants, taken_away, unasked};

use crate::walk::is_same_lane;
use notebook::{CellId, Lane};
use plain_list::Items;
use std::alloc::{AllocError, Global};
use std::marker::Model;

/// A running evaluation: its number, and its cell.
#[derive(Clone, Copy, Debug, PartialEq, Eq)]
pub struct Run {
    pub eval: u64,
    pub cell: CellId,
}

/// A running evaluation with the lane that runs it.
#[derive(Clone, Copy, Debug, PartialEq, Eq)]
pub struct LaneRun {
    pub lane: Lane,
    pub run: Run,
}

/// The queued cells, and for each lane its running evaluation, if it has one. No cell is queued
/// twice, and no lane, evaluation or cell runs twice. A cell that runs may be queued again.
#[derive(Drop)]
pub struct Wants {
    pub(crate) alloc: Global,
    pub(crate) waiting: Items<CellId>,
    pub(crate) runs: Items<LaneRun>,
}

impl Model for Wants {
    ghost use Rattle.section_queues.specs.Wanted.{Wanted, IsOrderly};

    ghost Value = { Wanted };

    ghost view = { λ w. record { queued = w.waiting; running = w.runs } };

    ghost invariant = { λ w. IsOrderly (record { queued = w.waiting; running = w.runs }) };
}

/// Whether a cell is among these.
fn is_among(cells: &[CellId], cell: CellId) -> bool
    ensures { result ≡ is_in cell cells.now }
{
    cells.iter().any(|it| *it == cell)
}

/// Puts a cell that isn't among these at the end. After want of memory they are as they were.
fn push_cell(cells: &mut Items<CellId>, cell: CellId) -> Result<(), AllocError>
    requires new { is_in cell cells.old ≡ false }
    requires once { AreApart same_number cells.old }
    ensures ok { OnOk result (cells.new ≡ cells.old ++ cell ∷ []) }
    ensures err { OnErr result (cells.new ≡ cells.old) }
    ensures once { AreApart same_number cells.new }
{
    cells.push(cell)?;
    Ok(())
}

/// Takes a cell out, if it is among these.
fn drop_cell(cells: &mut Items<CellId>, cell: CellId)
    requires { AreApart same_number cells.old }
    ensures rest { cells.new ≡ filter (is_other cell) cells.old }
    ensures once { AreApart same_number cells.new }
{
    cells.retain(|it| *it != cell);
}

/// The evaluation that runs in the lane.
fn run_in(runs: &[LaneRun], lane: Lane) -> Option<Run>
    ensures { result ≡ option_map run_of (find (runs_in lane) runs.now) }
{
    runs.iter()
        .find(|it| is_same_lane(it.lane, lane))
        .map(|it| it.run)
}

/// The number of the evaluation of the cell that runs.
fn eval_in(runs: &[LaneRun], cell: CellId) -> Option<u64>
    ensures { result ≡ option_map eval_of_run (find (runs_cell cell) runs.now) }
{
    runs.iter()
        .find(|it| it.run.cell == cell)
        .map(|it| it.run.eval)
}

/// The cell of the running evaluation of the number.
fn cell_in(runs: &[LaneRun], eval: u64) -> Option<CellId>
    ensures { result ≡ option_map cell_of_run (find (is_eval eval) runs.now) }
{
    runs.iter()
        .find(|it| it.run.eval == eval)
        .map(|it| it.run.cell)
}

/// Puts a run that clashes with none of these at the end. After want of memory they are as they were.
fn push_run(runs: &mut Items<LaneRun>, it: LaneRun) -> Result<(), AllocError>
    requires lane { list_any (runs_in it.lane) runs.old ≡ false }
    requires eval { list_any (is_eval it.run.eval) runs.old ≡ false }
    requires cell { list_any (runs_cell it.run.cell) runs.old ≡ false }
    requires apart { AreApart clashes runs.old }
    ensures ok { OnOk result (runs.new ≡ runs.old ++ it ∷ []) }
    ensures err { OnErr result (runs.new ≡ runs.old) }
    ensures apart { AreApart clashes runs.new }
{
    runs.push(it)?;
    Ok(())
}

/// Takes the run of a cell out, if there is one.
fn drop_run(runs: &mut Items<LaneRun>, cell: CellId)
    requires { AreApart clashes runs.old }
    ensures rest { runs.new ≡ filter (runs_other cell) runs.old }
    ensures apart { AreApart clashes runs.new }
{
    runs.retain(|it| it.run.cell != cell);
}

/// Takes the run of an evaluation out, if there is one.
fn drop_eval(runs: &mut Items<LaneRun>, eval: u64)
    requires { AreApart clashes runs.old }
    ensures rest { runs.new ≡ filter (is_other_eval eval) runs.old }
    ensures apart { AreApart clashes runs.new }
{
    runs.retain(|it| it.run.eval != eval);
}

impl Wants {
    /// Nothing is queued and nothing runs. Takes no memory.
    pub fn new(alloc: Global) -> Wants
        ensures { result ≡ no_wants }
    {
        Wants {
            alloc,
            waiting: Items::new(alloc),
            runs: Items::new(alloc),
        }
    }

    /// Queues a cell; one that is queued stays so. After want of memory all is as it was.
    pub fn ask(&mut self, cell: CellId) -> Result<(), AllocError>
        ensures ok { OnOk result (self.new ≡ asked cell self.old) }
        ensures err { OnErr result (self.new ≡ self.old) }
    {
        if is_among(self.waiting.as_slice(), cell) {
            return Ok(());
        }
        push_cell(&mut self.waiting, cell)?;
        Ok(())
    }

    /// Begins an evaluation in a lane: its cell isn't queued any more. The lane may run none, and no
    /// lane may run this evaluation or this cell. After want of memory all is as it was.
    pub fn begin(&mut self, lane: Lane, run: Run) -> Result<(), AllocError>
        requires free_lane { list_any (runs_in lane) self.old.running ≡ false }
        requires new_eval { list_any (is_eval run.eval) self.old.running ≡ false }
        requires free_cell { list_any (runs_cell run.cell) self.old.running ≡ false }
        ensures ok { OnOk result (self.new ≡ begun lane run self.old) }
        ensures err { OnErr result (self.new ≡ self.old) }
    {
        push_run(&mut self.runs, LaneRun { lane, run })?;
        drop_cell(&mut self.waiting, run.cell);
        Ok(())
    }

    /// Takes a cell out of the queued ones. False exactly where it isn't queued, and then nothing
    /// changes. Takes no memory.
    pub fn unask(&mut self, cell: CellId) -> bool
        ensures was { result ≡ is_queued self.old cell }
        ensures rest { self.new ≡ unasked cell self.old }
        ensures otherwise { OnFalse result (self.new ≡ self.old) }
    {
        let queued = is_among(self.waiting.as_slice(), cell);
        drop_cell(&mut self.waiting, cell);
        queued
    }

    /// Takes the running evaluation of a cell away, and answers its number. `None` exactly where no
    /// lane runs the cell, and then nothing changes. Takes no memory.
    pub fn take_away(&mut self, cell: CellId) -> Option<u64>
        ensures eval { result ≡ eval_of self.old cell }
        ensures rest { self.new ≡ taken_away cell self.old }
        ensures otherwise { IfNone result (self.new ≡ self.old) }
    {
        let eval = eval_in(self.runs.as_slice(), cell);
        drop_run(&mut self.runs, cell);
        eval
    }

    /// Ends a running evaluation, and answers its cell. `None` exactly where no lane runs the
    /// evaluation, and then nothing changes. Takes no memory.
    pub fn end(&mut self, eval: u64) -> Option<CellId>
        ensures cell { result ≡ cell_of self.old eval }
        ensures rest { self.new ≡ ended eval self.old }
        ensures otherwise { IfNone result (self.new ≡ self.old) }
    {
        let cell = cell_in(self.runs.as_slice(), eval);
        drop_eval(&mut self.runs, eval);
        cell
    }

    /// Whether the cell is queued. Takes no memory.
    pub fn queued(&self, cell: CellId) -> bool
        ensures { result ≡ is_queued self.now cell }
    {
        is_among(self.waiting.as_slice(), cell)
    }

    /// The evaluation that runs in the lane; `None` exactly where it runs none. Takes no memory.
    pub fn running(&self, lane: Lane) -> Option<Run>
        ensures { result ≡ running_in self.now lane }
    {
        run_in(self.runs.as_slice(), lane)
    }

    /// Whether no cell is queued and no evaluation runs. Takes no memory.
    pub fn idle(&self) -> bool
        ensures { result ≡ is_idle self.now }
    {
        self.waiting.len() == 0 && self.runs.len() == 0
    }

    /// The queued cells, in the order in which they were asked for.
    pub(crate) fn queue(&self) -> &[CellId]
        ensures { result.now ≡ self.now.queued }
    {
        self.waiting.as_slice()
    }

    /// The runs, in the order in which they began.
    pub(crate) fn lane_runs(&self) -> &[LaneRun]
        ensures { result.now ≡ self.now.running }
    {
        self.runs.as_slice()
    }
}
