//! The logs of a notebook's cells, in no order.
ghost use Rattle.std.specs.Prelude.{◌≡◌, ◌≤◌, ◌++◌, ◌∷◌, [], List, ℕ, false, filter, length, map, IfOk, OnOk, OnErr};
ghost use Rattle.std.specs.List.{AllByRecursion};
ghost use Rattle.notebook.specs.declared.parts.Cell.{Cell};
ghost use Rattle.notebook.specs.declared.parts.Parts.{Parts};
ghost use Rattle.notebook.specs.Book.{cells};
ghost use Rattle.session_ops.specs.Numbers.{is_in};
ghost use Rattle.session_ops.specs.State.{State, opening, once_left};
ghost use Rattle.session_core.specs.Logs.{ArePast, IsLogIn, IsFreshIn, IsNewLog, LineUp, BeginsIn, log_cell, log_lives, once_joined, place_in, with_revision};

use notebook::{Cell, CellId, Notebook, Parts};
use plain_list::Items;
use revisions::SourceLog;
use std::alloc::{AllocError, Global};
use utf16_text::Text;

/// The log of one cell's source.
#[derive(Drop)]
pub(crate) struct CellLog {
    pub(crate) cell: CellId,
    pub(crate) log: SourceLog,
}

/// A log for each live cell, which nobody has joined.
pub(crate) fn first_logs(alloc: Global, book: &Parts) -> Result<Vec<CellLog>, AllocError>
    ensures { AllByRecursion (BeginsIn book.now) (cells book.now)
        → IfOk result (λ logs. LineUp (opening book.now) (cells book.now) logs.items) }
{
    let mut logs = Vec::new(alloc);
    push_log(alloc, &mut logs, &book.setup)?;
    for section in book.sections.as_slice() {
        push_logs(alloc, &mut logs, section.cells.as_slice())?;
    }
    Ok(logs)
}

/// Puts a log for each cell at the end.
fn push_logs(alloc: Global, logs: &mut Vec<CellLog>, cells: &[Cell]) -> Result<(), AllocError>
    ensures { (n : Parts) (before : List Cell) → AllByRecursion (BeginsIn n) cells.now
        → LineUp (opening n) before logs.old.items
        → OnOk result (LineUp (opening n) (before ++ cells.now) logs.new.items) }
{
    for cell in cells {
        push_log(alloc, logs, cell)?;
    }
    Ok(())
}

/// Puts a log for the cell at the end.
fn push_log(alloc: Global, logs: &mut Vec<CellLog>, cell: &Cell) -> Result<(), AllocError>
    ensures { (n : Parts) (before : List Cell) → BeginsIn n cell.now
        → LineUp (opening n) before logs.old.items
        → OnOk result (LineUp (opening n) (before ++ cell.now ∷ []) logs.new.items) }
{
    let log = SourceLog::new(alloc, cell.source.copy()?, &[])?;
    logs.push(CellLog { cell: cell.id, log })?;
    Ok(())
}

/// The log of a cell that is yet to come, and that begins with this source. These clients have joined.
pub(crate) fn new_log(
    alloc: Global,
    cell: CellId,
    source: Text,
    joined: &[u32],
) -> Result<CellLog, AllocError>
    ensures { (s : State) → IsFreshIn s joined.now cell source
        → IfOk result (IsNewLog s cell source) }
{
    let log = SourceLog::new(alloc, source, joined)?;
    Ok(CellLog { cell, log })
}

/// Drops the logs of cells that live no more.
pub(crate) fn drop_dead(logs: &mut Vec<CellLog>, book: &Notebook)
    ensures { logs.new.items ≡ filter (log_lives book.now) logs.old.items }
{
    logs.retain(|log| book.find(log.cell).is_some());
}

/// The place of a cell's log.
pub(crate) fn place_of(logs: &[CellLog], cell: CellId) -> Option<usize>
    ensures { result ≡ place_in cell logs.now }
{
    for (at, log) in logs.iter().enumerate() {
        if log.cell == cell {
            return Some(at);
        }
    }
    None
}

/// Notes that a client joins, which hasn't joined: it stands last among those that have joined, and in
/// each log. After want of memory both stand for what they stood for.
pub(crate) fn take_part(
    joined: &mut Vec<u32>,
    logs: &mut Vec<CellLog>,
    client: u32,
) -> Result<(), AllocError>
    ensures joined_ok { OnOk result (joined.new.items ≡ joined.old.items ++ client ∷ []) }
    ensures joined_err { OnErr result (joined.new.items ≡ joined.old.items) }
    ensures cells { map log_cell logs.new.items ≡ map log_cell logs.old.items }
    ensures logs_ok { (s : State) → is_in client s.joined ≡ false
        → AllByRecursion (IsLogIn s) logs.old.items
        → OnOk result (AllByRecursion (IsLogIn (once_joined client s)) logs.new.items) }
    ensures logs_err { (s : State) → is_in client s.joined ≡ false
        → AllByRecursion (IsLogIn s) logs.old.items
        → OnErr result (AllByRecursion (IsLogIn s) logs.new.items) }
{
    joined.push(client)?;
    match join_all(logs, client) {
        Ok(()) => Ok(()),
        Err(fault) => {
            joined.pop();
            Err(fault)
        }
    }
}

/// Notes in each log that a client joins, which hasn't joined. After want of memory the logs stand for
/// what they stood for.
fn join_all(logs: &mut [CellLog], client: u32) -> Result<(), AllocError>
    ensures cells { map log_cell logs.new ≡ map log_cell logs.old }
    ensures ok { (s : State) → is_in client s.joined ≡ false
        → AllByRecursion (IsLogIn s) logs.old
        → OnOk result (AllByRecursion (IsLogIn (once_joined client s)) logs.new) }
    ensures err { (s : State) → is_in client s.joined ≡ false
        → AllByRecursion (IsLogIn s) logs.old
        → OnErr result (AllByRecursion (IsLogIn s) logs.new) }
    ensures len { length logs.new ≡ length logs.old }
{
    for at in 0..logs.len() {
        if let Err(fault) = logs[at].log.joined(client) {
            leave_first(logs, client, at);
            return Err(fault);
        }
    }
    Ok(())
}

/// Takes a client that has just joined out of the first logs, `count` of them.
fn leave_first(logs: &mut [CellLog], client: u32, count: usize)
    requires { count ≤ length logs.old }
    ensures cells { map log_cell logs.new ≡ map log_cell logs.old }
    ensures logs { (s : State) → is_in client s.joined ≡ false
        → ArePast (IsLogIn (once_joined client s)) (IsLogIn s) count logs.old
        → AllByRecursion (IsLogIn s) logs.new }
    ensures len { length logs.new ≡ length logs.old }
{
    let mut left = count;
    while left > 0 {
        left -= 1;
        logs[left].log.left(client);
    }
}

/// Notes in each log that a client has left.
pub(crate) fn leave_all(logs: &mut [CellLog], client: u32)
    ensures cells { map log_cell logs.new ≡ map log_cell logs.old }
    ensures logs { (s : State) → AllByRecursion (IsLogIn s) logs.old
        → AllByRecursion (IsLogIn (once_left client s)) logs.new }
    ensures len { length logs.new ≡ length logs.old }
{
    for at in 0..logs.len() {
        logs[at].log.left(client);
    }
}

/// Each cell with its revision.
pub(crate) fn revisions(alloc: Global, logs: &[CellLog]) -> Result<Items<(CellId, u64)>, AllocError>
    ensures { (s : State) → AllByRecursion (IsLogIn s) logs.now
        → IfOk result (λ revs. revs ≡ map (with_revision s) (map log_cell logs.now)) }
{
    let mut revs = Items::new(alloc);
    for log in logs {
        revs.push((log.cell, log.log.rev()))?;
    }
    Ok(revs)
}
