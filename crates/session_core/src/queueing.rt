//! Cells that are asked for, and cancelled.
ghost use Rattle.std.specs.Prelude.{◌≡◌, None, IfOk, OnErr};
ghost use Rattle.notebook.specs.declared.parts.Parts.{Parts};
ghost use Rattle.session_ops.specs.declared.entry.Call.TheVariants.{Client};
ghost use Rattle.session_ops.specs.declared.entry.Op.TheVariants.{Queue as IsQueue, Cancel as IsCancel};
ghost use Rattle.session_ops.specs.State.{reply, code_reply, queue_reply_by, cancel_reply_by};
ghost use Rattle.lanes.specs.Work.{failed_ancestor, is_queued, is_running};
ghost use Rattle.std.specs.Prelude.{◌||◌};
ghost use Rattle.session_core.specs.Held.{IsHeld, state_of, Answers, AnswersAccepted, KeepsAll};
ghost use Rattle.session_core.specs.Session.{refused_by};

use crate::clients::is_in;
use crate::held::Held;
use notebook::{CellId, Kind};
use session_ops::{Call, Entry, Op, Refusal, Reply};
use std::alloc::AllocError;

impl Held {
    /// Queues a cell.
    pub(crate) fn queue(&mut self, by: u32, client: u32, cell: CellId) -> Result<Reply, AllocError>
        ensures ok { Answers by (Client client (IsQueue cell)) self.old self.new result }
        ensures err { KeepsAll self.old self.new result }
    {
        match self.queue_refusal(client, cell) {
            Some(why) => self.refuse(by, client, Op::Queue { cell }, why),
            None => self.take_queued(by, client, cell),
        }
    }

    /// Why a client may not queue a cell.
    fn queue_refusal(&self, client: u32, cell: CellId) -> Option<Refusal>
        ensures { (n0 : Parts) → IsHeld n0 self.now
            → result ≡ refused_by (reply (state_of n0 self.now) (Client client (IsQueue cell))) }
    {
        if !is_in(client, self.joined.as_slice()) {
            return Some(Refusal::NotJoined);
        }
        match self.book.find(cell) {
            None => Some(Refusal::NoCell),
            Some(found) => self.code_refusal(cell, found.kind),
        }
    }

    /// Why a cell of this kind may not be queued.
    fn code_refusal(&self, cell: CellId, kind: Kind) -> Option<Refusal>
        ensures { result ≡ refused_by
            (code_reply kind (queue_reply_by (failed_ancestor self.now.book self.now.work cell))) }
    {
        if kind == Kind::Markdown {
            return Some(Refusal::NotCode);
        }
        match self.work.failed_ancestor(&self.book, cell) {
            None => None,
            Some(cell) => Some(Refusal::AncestorFailed { cell }),
        }
    }

    /// Queues a cell that may be queued.
    fn take_queued(&mut self, by: u32, client: u32, cell: CellId) -> Result<Reply, AllocError>
        ensures ok { AnswersAccepted by (Client client (IsQueue cell)) self.old self.new result }
        ensures err { KeepsAll self.old self.new result }
    {
        self.history.make_room(1)?;
        self.work.ask(cell)?;
        self.work.sweep(&self.book);
        self.history.append(Entry {
            by,
            call: Call::Client {
                client,
                op: Op::Queue { cell },
            },
            reply: Reply::Accepted,
        });
        Ok(Reply::Accepted)
    }

    /// Cancels a cell: it is neither queued nor runs any more.
    pub(crate) fn cancel(&mut self, by: u32, client: u32, cell: CellId) -> Result<Reply, AllocError>
        ensures ok { Answers by (Client client (IsCancel cell)) self.old self.new result }
        ensures err { KeepsAll self.old self.new result }
    {
        match self.cancel_refusal(client, cell) {
            Some(why) => self.refuse(by, client, Op::Cancel { cell }, why),
            None => self.take_cancelled(by, client, cell),
        }
    }

    /// Why a client may not cancel a cell.
    fn cancel_refusal(&self, client: u32, cell: CellId) -> Option<Refusal>
        ensures { (n0 : Parts) → IsHeld n0 self.now
            → result ≡ refused_by (reply (state_of n0 self.now) (Client client (IsCancel cell))) }
    {
        if !is_in(client, self.joined.as_slice()) {
            return Some(Refusal::NotJoined);
        }
        match self.book.find(cell) {
            None => Some(Refusal::NoCell),
            Some(found) => self.wanted_refusal(cell, found.kind),
        }
    }

    /// Why a cell of this kind may not be cancelled.
    fn wanted_refusal(&self, cell: CellId, kind: Kind) -> Option<Refusal>
        ensures { result ≡ refused_by (code_reply kind (cancel_reply_by
            (is_queued self.now.work cell || is_running self.now.work cell))) }
    {
        if kind == Kind::Markdown {
            return Some(Refusal::NotCode);
        }
        if self.work.is_queued(cell) || self.work.is_running(cell) {
            return None;
        }
        Some(Refusal::NotQueued)
    }

    /// Cancels a cell that may be cancelled.
    fn take_cancelled(&mut self, by: u32, client: u32, cell: CellId) -> Result<Reply, AllocError>
        ensures ok { AnswersAccepted by (Client client (IsCancel cell)) self.old self.new result }
        ensures err { KeepsAll self.old self.new result }
    {
        self.history.make_room(1)?;
        self.work.cancel(cell);
        self.work.sweep(&self.book);
        self.history.append(Entry {
            by,
            call: Call::Client {
                client,
                op: Op::Cancel { cell },
            },
            reply: Reply::Accepted,
        });
        Ok(Reply::Accepted)
    }
}
