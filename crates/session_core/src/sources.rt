//! Deltas and reports: what clients do to a cell's source and its log.
ghost use Rattle.std.specs.Prelude.{◌≡◌, ℕ, Some, true, IfOk, OnErr};
ghost use Rattle.notebook.specs.declared.parts.Cell.{Cell};
ghost use Rattle.notebook.specs.declared.parts.Parts.{Parts};
ghost use Rattle.notebook.specs.Book.{cells, found};
ghost use Rattle.session_ops.specs.declared.entry.Call.TheVariants.{Client};
ghost use Rattle.session_ops.specs.declared.entry.Op.TheVariants.{Report as IsReport};
ghost use Rattle.session_ops.specs.declared.entry.Reply.TheVariants.{Refused};
ghost use Rattle.session_ops.specs.Numbers.{is_in};
ghost use Rattle.session_ops.specs.State.{State, reply, report_reply};
ghost use Rattle.revisions.specs.Answer.{IsReportCause};
ghost use Rattle.session_core.specs.Logs.{place_in};
ghost use Rattle.session_core.specs.Stands.{IsMovedIn, source_in};
ghost use Rattle.session_core.specs.Held.{IsHeld, HasAnswered, IsAsBefore, state_of, Answers, AnswersRefused, AnswersMember, KeepsAll, KeepsAllMember, delta_of};
ghost use Rattle.session_core.specs.Session.{told};

use crate::clients::is_in;
use crate::held::Held;
use crate::logs::place_of;
use delta::Delta;
use notebook::CellId;
use revisions::{Move, ReportError, RevError};
use session_ops::{Call, Entry, Op, Refusal, Reply};
use std::alloc::AllocError;

/// A client's delta, which was made at the cell's revision `base`.
#[derive(Drop)]
pub(crate) struct Edit {
    pub(crate) client: u32,
    pub(crate) cell: CellId,
    pub(crate) base: u64,
    pub(crate) delta: Delta,
}

impl Held {
    /// Edits a cell's source.
    pub(crate) fn edit(&mut self, by: u32, edit: Edit) -> Result<Reply, AllocError>
        ensures ok { Answers by (Client edit.client (delta_of edit)) self.old self.new result }
        ensures err { KeepsAll self.old self.new result }
    {
        if !is_in(edit.client, self.joined.as_slice()) {
            return self.refuse_edit(by, edit, Refusal::NotJoined);
        }
        match place_of(self.logs.as_slice(), edit.cell) {
            None => self.refuse_edit(by, edit, Refusal::NoCell),
            Some(at) => self.edit_at(by, at, edit),
        }
    }

    /// Edits the source of the cell whose log stands at a place, for a client that has joined.
    fn edit_at(&mut self, by: u32, at: usize, edit: Edit) -> Result<Reply, AllocError>
        requires { Some at ≡ place_in edit.cell self.old.logs.items }
        ensures ok { AnswersMember by edit.client (delta_of edit) self.old self.new result }
        ensures err { KeepsAllMember edit.client self.old self.new result }
    {
        match self.logs[at].log.moved(self.alloc, edit.base, &edit.delta) {
            Ok(moved) => self.take(by, at, edit, moved),
            Err(fault) => match told(fault) {
                Some(why) => self.refuse_edit(by, edit, why),
                None => Err(AllocError),
            },
        }
    }

    /// Takes a client's delta, as it was moved to the present source.
    fn take(&mut self, by: u32, at: usize, edit: Edit, moved: Move) -> Result<Reply, AllocError>
        requires { Some at ≡ place_in edit.cell self.old.logs.items }
        ensures ok { (n0 : Parts) (c : Cell) → IsHeld n0 self.old
            → is_in edit.client self.old.joined.items ≡ true
            → found edit.cell (cells self.old.book) ≡ Some c
            → IsMovedIn (state_of n0 self.old) edit.cell c edit.base edit.delta moved
            → IfOk result
            (HasAnswered n0 by (Client edit.client (delta_of edit)) self.old self.new) }
        ensures err { (n0 : Parts) (c : Cell) → IsHeld n0 self.old
            → is_in edit.client self.old.joined.items ≡ true
            → found edit.cell (cells self.old.book) ≡ Some c
            → IsMovedIn (state_of n0 self.old) edit.cell c edit.base edit.delta moved
            → OnErr result (IsAsBefore n0 self.old self.new) }
    {
        let Edit {
            client,
            cell,
            base,
            delta,
        } = edit;
        let Some(rev) = self.logs[at].log.rev().checked_add(1) else {
            return Err(AllocError);
        };
        let source = moved.text().copy()?;
        let kept = moved.delta().copy(self.alloc)?;
        self.history.make_room(1)?;
        let accepted = self.logs[at].log.take(self.alloc, client, moved)?;
        self.book.set_source(cell, source);
        self.work.sweep(&self.book);
        self.history.append(Entry {
            by,
            call: Call::Client {
                client,
                op: Op::Delta { cell, base, delta },
            },
            reply: Reply::Applied { rev, delta: kept },
        });
        Ok(Reply::Applied {
            rev,
            delta: accepted.delta,
        })
    }

    /// Refuses a client's delta.
    fn refuse_edit(&mut self, by: u32, edit: Edit, why: Refusal) -> Result<Reply, AllocError>
        ensures ok { AnswersRefused by (Client edit.client (delta_of edit)) why self.old self.new
            result }
        ensures err { KeepsAll self.old self.new result }
    {
        let Edit {
            client,
            cell,
            base,
            delta,
        } = edit;
        self.refuse(by, client, Op::Delta { cell, base, delta }, why)
    }

    /// Notes that a client has a cell's revision.
    pub(crate) fn report(
        &mut self,
        by: u32,
        client: u32,
        cell: CellId,
        rev: u64,
    ) -> Result<Reply, AllocError>
        ensures ok { Answers by (Client client (IsReport cell rev)) self.old self.new result }
        ensures err { KeepsAll self.old self.new result }
    {
        if !is_in(client, self.joined.as_slice()) {
            return self.refuse(by, client, Op::Report { cell, rev }, Refusal::NotJoined);
        }
        match place_of(self.logs.as_slice(), cell) {
            None => self.refuse(by, client, Op::Report { cell, rev }, Refusal::NoCell),
            Some(at) => self.report_at(by, at, client, cell, rev),
        }
    }

    /// Notes in the log at a place that a client, which has joined, has the cell's revision.
    fn report_at(
        &mut self,
        by: u32,
        at: usize,
        client: u32,
        cell: CellId,
        rev: u64,
    ) -> Result<Reply, AllocError>
        requires { Some at ≡ place_in cell self.old.logs.items }
        ensures ok { AnswersMember by client (IsReport cell rev) self.old self.new result }
        ensures err { KeepsAllMember client self.old self.new result }
    {
        self.history.make_room(1)?;
        match self.logs[at].log.report(client, rev) {
            Ok(()) => {
                self.history.append(Entry {
                    by,
                    call: Call::Client {
                        client,
                        op: Op::Report { cell, rev },
                    },
                    reply: Reply::Accepted,
                });
                Ok(Reply::Accepted)
            }
            Err(fault) => self.refuse(by, client, Op::Report { cell, rev }, told_report(fault)),
        }
    }
}

/// How a client is told that its delta isn't taken; `None` for want of memory.
fn told(fault: RevError) -> Option<Refusal>
    ensures { result ≡ told fault }
{
    match fault {
        RevError::TooNew { now } => Some(Refusal::TooNew { now }),
        RevError::TooOld { kept } => Some(Refusal::TooOld { kept }),
        RevError::PastEnd { len } => Some(Refusal::PastEnd { len }),
        RevError::SplitsPair { at } => Some(Refusal::SplitsPair { at }),
        RevError::OutOfMemory => None,
    }
}

/// How a client is told that its report isn't noted.
fn told_report(fault: ReportError) -> Refusal
    ensures { (s : State) (cell : ℕ) (c : Cell) (rev : ℕ)
        → IsReportCause (source_in s cell c.source) rev fault
        → report_reply s cell rev (Some c) ≡ Refused result }
{
    match fault {
        ReportError::TooNew { now } => Refusal::TooNew { now },
    }
}
