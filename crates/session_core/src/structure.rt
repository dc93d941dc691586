//! Changes of the notebook's structure.
ghost use Rattle.std.specs.Prelude.{◌≡◌, ◌<◌, ◌^◌, Some, None, true, if◌then◌else◌, filter, find, IfOk, OnErr, MatchResult};
ghost use Rattle.std.specs.Option.{option_copied};
ghost use Rattle.notebook.specs.Flow.{is_cell};
ghost use Rattle.session_ops.specs.declared.entry.Call.TheVariants.{Client};
ghost use Rattle.session_ops.specs.State.{made_reply};
ghost use Rattle.session_ops.specs.Structure.{change_of};
ghost use Rattle.session_core.specs.Logs.{log_lives};
ghost use Rattle.session_core.specs.Held.{Answers, KeepsAll, TriesChange};
ghost use Rattle.session_core.specs.Session.{new_source, takes_away, told_change};

use crate::clients::is_in;
use crate::held::Held;
use crate::logs::{CellLog, drop_dead, new_log};
use notebook::{Cell, CellId, Change, Changed, NoteError, Notebook, Parts};
use session_ops::{Call, Entry, Op, Refusal, Reply};
use std::alloc::{AllocError, Global};
use utf16_text::Text;

impl Held {
    /// Changes the notebook's structure, as the operation asks.
    pub(crate) fn restructure(
        &mut self,
        by: u32,
        client: u32,
        op: Op,
        change: Change,
    ) -> Result<Reply, AllocError>
        requires { change_of op ≡ Some change }
        ensures ok { Answers by (Client client op) self.old self.new result }
        ensures err { KeepsAll self.old self.new result }
    {
        if !is_in(client, self.joined.as_slice()) {
            return self.refuse(by, client, op, Refusal::NotJoined);
        }
        self.history.make_room(1)?;
        match self.make(change) {
            Ok(made) => {
                self.work.sweep(&self.book);
                self.history.append(Entry {
                    by,
                    call: Call::Client { client, op },
                    reply: reply_of(made),
                });
                Ok(reply_of(made))
            }
            Err(fault) => match told(fault) {
                Some(why) => {
                    self.history.append(Entry {
                        by,
                        call: Call::Client { client, op },
                        reply: Reply::Refused(why),
                    });
                    Ok(Reply::Refused(why))
                }
                None => Err(AllocError),
            },
        }
    }

    /// Makes a change: of the notebook, of the logs and of what is asked for. After a refusal, and after
    /// want of memory, all is as it was.
    fn make(&mut self, change: Change) -> Result<Changed, NoteError>
        ensures history { self.new.history ≡ self.old.history }
        ensures made { TriesChange change self.old self.new result }
    {
        if !self.book.has_numbers() {
            return Err(NoteError::OutOfMemory);
        }
        let source = new_source(self.alloc, self.book.parts(), &change)?;
        match source {
            None => self.make_plain(change),
            Some(source) => self.make_cell(change, source),
        }
    }

    /// Makes a change that makes no cell.
    fn make_plain(&mut self, change: Change) -> Result<Changed, NoteError>
        requires cells { self.old.book.next_cell < 2 ^ 63 }
        requires sections { self.old.book.next_section < 2 ^ 63 }
        requires plain { new_source self.old.book change ≡ None }
        ensures history { self.new.history ≡ self.old.history }
        ensures made { TriesChange change self.old self.new result }
    {
        let gone = takes_away(&change);
        match self.book.change(self.alloc, change) {
            Ok(made) => {
                drop_gone(gone, &mut self.logs, &self.book);
                self.work.house(&self.book);
                Ok(made)
            }
            Err(fault) => Err(fault),
        }
    }

    /// Makes a change that makes a cell, which begins with this source.
    fn make_cell(&mut self, change: Change, source: Text) -> Result<Changed, NoteError>
        requires cells { self.old.book.next_cell < 2 ^ 63 }
        requires sections { self.old.book.next_section < 2 ^ 63 }
        requires begins { new_source self.old.book change ≡ Some source }
        ensures history { self.new.history ≡ self.old.history }
        ensures made { TriesChange change self.old self.new result }
    {
        let cell = self.book.parts().next_cell;
        let log = new_log(self.alloc, cell, source, self.joined.as_slice())?;
        if self.logs.push(log).is_err() {
            return Err(NoteError::OutOfMemory);
        }
        match self.book.change(self.alloc, change) {
            Ok(made) => {
                self.work.house(&self.book);
                Ok(made)
            }
            Err(fault) => {
                self.logs.pop();
                Err(fault)
            }
        }
    }
}

/// Whether a change takes cells away.
fn takes_away(change: &Change) -> bool
    ensures { result ≡ takes_away change.now }
{
    matches!(
        change,
        Change::DeleteSection { .. } | Change::DeleteCell { .. }
    )
}

/// The source with which the cell begins that a change makes, if it makes one.
fn new_source(alloc: Global, book: &Parts, change: &Change) -> Result<Option<Text>, AllocError>
    ensures { IfOk result (λ source. source ≡ new_source book.now change.now) }
{
    match change {
        Change::InsertCell { .. } => Ok(Some(Text::new(alloc))),
        Change::RestoreCell { cell, .. } => match find_in(book.bin.as_slice(), *cell) {
            None => Ok(None),
            Some(found) => Ok(Some(found.source.copy()?)),
        },
        _ => Ok(None),
    }
}

/// The first of some cells that has the number.
fn find_in(cells: &[Cell], id: CellId) -> Option<&Cell>
    ensures { option_copied result ≡ find (is_cell id) cells.now }
{
    cells.iter().find(|cell| cell.id == id)
}

/// Drops the logs of cells that live no more, if some may have gone.
fn drop_gone(gone: bool, logs: &mut Vec<CellLog>, book: &Notebook)
    ensures { logs.new.items ≡ (if gone then filter
        (log_lives book.now) logs.old.items else logs.old.items) }
{
    if gone {
        drop_dead(logs, book);
    }
}

/// What a change that was made is answered with.
fn reply_of(made: Changed) -> Reply
    ensures { result ≡ made_reply made }
{
    match made {
        Changed::Plain => Reply::Accepted,
        Changed::NewCell { cell } => Reply::NewCell { cell },
        Changed::NewSection { section } => Reply::NewSection { section },
    }
}

/// How a client is told that a change isn't made; `None` for want of memory.
fn told(fault: NoteError) -> Option<Refusal>
    ensures { result ≡ told_change fault }
{
    match fault {
        NoteError::NoCell => Some(Refusal::NoCell),
        NoteError::NoSection => Some(Refusal::NoSection),
        NoteError::BadIndex { len } => Some(Refusal::BadIndex { len }),
        NoteError::BadParent => Some(Refusal::BadParent),
        NoteError::HasBranches => Some(Refusal::HasBranches),
        NoteError::TooManyCells => Some(Refusal::TooManyCells),
        NoteError::TooManySections => Some(Refusal::TooManySections),
        NoteError::OutOfMemory => None,
    }
}
