//! What a session holds: the present notebook with all that belongs to it, and the history.
ghost use Rattle.std.specs.Prelude.{◌≡◌, ◌∷◌, ◌++◌, [], Some, None, IsSome, IfOk, OnOk, OnErr, MatchOption, length};
ghost use Rattle.std.specs.Option.{option_copied};
ghost use Rattle.notebook.specs.declared.parts.Parts.{Parts};
ghost use Rattle.notebook.specs.Flow.{path};
ghost use Rattle.lanes.specs.Work.{is_idle};
ghost use Rattle.lanes.specs.Rows.{IsRow};
ghost use Rattle.session_ops.specs.declared.entry.Call.TheVariants.{Client};
ghost use Rattle.session_ops.specs.declared.entry.Op.TheVariants.{Join as IsJoin, Leave as IsLeave};
ghost use Rattle.session_ops.specs.declared.entry.Reply.TheVariants.{Refused};
ghost use Rattle.session_ops.specs.Snapshot.{IsSnapshot, live_revision};
ghost use Rattle.session_ops.specs.State.{ChangesNothing, reply};
ghost use Rattle.session_ops.specs.Structure.{change_of};
ghost use Rattle.session_core.specs.Held.{IsHeld, LeavesState, history_of, state_of, Answers, AnswersRefused, KeepsAll};
ghost use Rattle.session_core.specs.Session.{IsWaiting, status_of, validity_of, shown_of, ready_lane};

use crate::clients::{is_in, remove};
use crate::history::History;
use crate::logs::{CellLog, first_logs, leave_all, place_of, revisions, take_part};
use crate::sources::Edit;
use ex_model::Shown;
use lanes::{Row, Work};
use notebook::{CellId, Lane, Notebook, Status, Validity};
use plain_list::Items;
use session_ops::{Call, Entry, Op, Refusal, Reply};
use std::alloc::{AllocError, Global};

/// A notebook with a log for each live cell, the clients that have joined, what is asked of the
/// evaluators and what was shown, and the history.
#[derive(Drop)]
pub(crate) struct Held {
    pub(crate) alloc: Global,
    pub(crate) book: Notebook,
    pub(crate) logs: Vec<CellLog>,
    pub(crate) joined: Vec<u32>,
    pub(crate) work: Work,
    pub(crate) history: History,
}

impl Held {
    /// What a session holds that opens with a notebook.
    pub(crate) fn new(alloc: Global, book: Notebook) -> Result<Held, AllocError>
        ensures { IfOk result (λ s. IsHeld book s × (history_of s ≡ [])) }
    {
        let parts = book.parts();
        let logs = first_logs(alloc, parts)?;
        Ok(Held {
            alloc,
            book,
            logs,
            joined: Vec::new(alloc),
            work: Work::new(alloc),
            history: History::new(alloc),
        })
    }

    /// Does what a client asks, and appends one entry with the answer, which it also gives. A refused
    /// call changes the history alone. After want of memory nothing is appended.
    pub(crate) fn apply(&mut self, by: u32, client: u32, op: Op) -> Result<Reply, AllocError>
        ensures ok { Answers by (Client client op) self.old self.new result }
        ensures refused { (n0 : Parts) → IsHeld n0 self.old
            → IfOk result (λ answer. ChangesNothing (Client client op) answer
            → LeavesState n0 self.old self.new) }
        ensures err { KeepsAll self.old self.new result }
    {
        match op.change()? {
            Some(change) => self.restructure(by, client, op, change),
            None => self.act(by, client, op),
        }
    }

    /// Does what a client asks that isn't a change of the structure.
    fn act(&mut self, by: u32, client: u32, op: Op) -> Result<Reply, AllocError>
        requires { change_of op ≡ None }
        ensures ok { Answers by (Client client op) self.old self.new result }
        ensures err { KeepsAll self.old self.new result }
    {
        match op {
            Op::Join => self.join(by, client),
            Op::Leave => self.leave(by, client),
            Op::Delta { cell, base, delta } => self.edit(
                by,
                Edit {
                    client,
                    cell,
                    base,
                    delta,
                },
            ),
            Op::Report { cell, rev } => self.report(by, client, cell, rev),
            Op::Queue { cell } => self.queue(by, client, cell),
            Op::Cancel { cell } => self.cancel(by, client, cell),
            _ => unreachable!(),
        }
    }

    /// Lets a client take part.
    fn join(&mut self, by: u32, client: u32) -> Result<Reply, AllocError>
        ensures ok { Answers by (Client client IsJoin) self.old self.new result }
        ensures err { KeepsAll self.old self.new result }
    {
        if is_in(client, self.joined.as_slice()) {
            return self.refuse(by, client, Op::Join, Refusal::AlreadyJoined);
        }
        self.history.make_room(1)?;
        take_part(&mut self.joined, &mut self.logs, client)?;
        self.history.append(Entry {
            by,
            call: Call::Client {
                client,
                op: Op::Join,
            },
            reply: Reply::Accepted,
        });
        Ok(Reply::Accepted)
    }

    /// Lets a client take part no more.
    fn leave(&mut self, by: u32, client: u32) -> Result<Reply, AllocError>
        ensures ok { Answers by (Client client IsLeave) self.old self.new result }
        ensures err { KeepsAll self.old self.new result }
    {
        if !is_in(client, self.joined.as_slice()) {
            return self.refuse(by, client, Op::Leave, Refusal::NotJoined);
        }
        self.history.make_room(1)?;
        remove(&mut self.joined, client);
        leave_all(&mut self.logs, client);
        self.history.append(Entry {
            by,
            call: Call::Client {
                client,
                op: Op::Leave,
            },
            reply: Reply::Accepted,
        });
        Ok(Reply::Accepted)
    }

    /// Refuses a call; the history alone grows.
    pub(crate) fn refuse(
        &mut self,
        by: u32,
        client: u32,
        op: Op,
        why: Refusal,
    ) -> Result<Reply, AllocError>
        ensures ok { AnswersRefused by (Client client op) why self.old self.new result }
        ensures err { KeepsAll self.old self.new result }
    {
        self.history.make_room(1)?;
        self.history.append(Entry {
            by,
            call: Call::Client { client, op },
            reply: Reply::Refused(why),
        });
        Ok(Reply::Refused(why))
    }

    /// What a snapshot shows: the present notebook, each live cell's revision, and the number of
    /// entries.
    pub(crate) fn shown_now(&self) -> Result<(Notebook, Items<(CellId, u64)>, u64), AllocError>
        ensures { (n0 : Parts) → IsHeld n0 self.now →
            IfOk result (λ now. IsSnapshot (state_of n0 self.now) (length (history_of self.now))
            (record { book = now.0; revs = now.1; cursor = now.2 })) }
    {
        let book = self.book.copy()?;
        let revs = revisions(self.alloc, self.logs.as_slice())?;
        Ok((book, revs, self.history.len() as u64))
    }

    /// The first lane that may start: the main one, and then the branches in notebook order. `None`
    /// exactly where none may: never while nothing runs and some cell is queued. Takes no memory.
    pub(crate) fn ready_lane(&self) -> Option<Lane>
        ensures lane { (n0 : Parts) → IsHeld n0 self.now
            → result ≡ ready_lane (state_of n0 self.now) }
        ensures some { (n0 : Parts) → IsHeld n0 self.now → IsWaiting (state_of n0 self.now)
            → IsSome result }
    {
        self.work.ready_lane(&self.book)
    }

    /// Whether nothing is queued and nothing runs. Takes no memory.
    pub(crate) fn idle(&self) -> bool
        ensures { (n0 : Parts) → IsHeld n0 self.now → result ≡ is_idle (state_of n0 self.now).work }
    {
        self.work.is_idle()
    }

    /// The history. Takes no memory.
    pub(crate) fn history(&self) -> &[Entry]
        ensures { result.now ≡ history_of self.now }
    {
        self.history.as_slice()
    }

    /// The history, when the session is done. Takes no memory.
    pub(crate) fn into_history(self) -> Vec<Entry>
        ensures { result.items ≡ history_of self }
    {
        let Held {
            alloc: _,
            book: _,
            logs: _,
            joined: _,
            work: _,
            history,
        } = self;
        history.into_entries()
    }

    /// The present notebook. Takes no memory.
    pub(crate) fn book(&self) -> &Notebook
        ensures { (n0 : Parts) → IsHeld n0 self.now → result.now ≡ (state_of n0 self.now).book }
    {
        &self.book
    }

    /// The revision of a cell's source; `None` exactly where no live cell has the number. Takes no
    /// memory.
    pub(crate) fn rev(&self, cell: CellId) -> Option<u64>
        ensures { (n0 : Parts) → IsHeld n0 self.now
            → result ≡ live_revision (state_of n0 self.now) cell }
    {
        match place_of(self.logs.as_slice(), cell) {
            None => None,
            Some(at) => Some(self.logs[at].log.rev()),
        }
    }

    /// Status, validity and what is shown of a setup or code cell; `None` exactly where no live setup
    /// or code cell has the number. Takes no memory.
    pub(crate) fn row(&self, cell: CellId) -> Option<Row<'_>>
        ensures { (n0 : Parts) → IsHeld n0 self.now
            → MatchOption result (path (state_of n0 self.now).book cell ≡ None)
            (IsRow (state_of n0 self.now).book (state_of n0 self.now).work cell) }
    {
        self.work.row(&self.book, cell)
    }

    /// What is asked for a cell; `None` exactly where no live setup or code cell has the number. Takes
    /// no memory.
    pub(crate) fn status(&self, cell: CellId) -> Option<Status>
        ensures { (n0 : Parts) → IsHeld n0 self.now
            → result ≡ status_of (state_of n0 self.now) cell }
    {
        match self.row(cell) {
            None => None,
            Some(row) => Some(row.status),
        }
    }

    /// What a cell's last evaluation is worth; `None` exactly where no live setup or code cell has the
    /// number. Takes no memory.
    pub(crate) fn validity(&self, cell: CellId) -> Option<Validity>
        ensures { (n0 : Parts) → IsHeld n0 self.now
            → result ≡ validity_of (state_of n0 self.now) cell }
    {
        match self.row(cell) {
            None => None,
            Some(row) => Some(row.validity),
        }
    }

    /// What a cell's last finished evaluation showed; `None` exactly where no evaluation of a live setup
    /// or code cell of the number was finished. Takes no memory.
    pub(crate) fn shown(&self, cell: CellId) -> Option<&Shown>
        ensures { (n0 : Parts) → IsHeld n0 self.now
            → option_copied result ≡ shown_of (state_of n0 self.now) cell }
    {
        match self.row(cell) {
            None => None,
            Some(row) => row.shown,
        }
    }
}
