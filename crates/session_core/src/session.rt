//! The session, as its callers see it: the notebook with which it opened, and its history.
ghost use Rattle.std.specs.Prelude.{◌≡◌, [], None, IsSome, IfOk, OnErr, MatchOption, length};
ghost use Rattle.std.specs.Option.{option_copied};
ghost use Rattle.std.specs.Str.{encode_utf8_all};
ghost use Rattle.ex_model.specs.Along.{MeansInCell};
ghost use Rattle.notebook.specs.Flow.{path};
ghost use Rattle.lanes.specs.Work.{is_idle};
ghost use Rattle.lanes.specs.Rows.{IsRow};
ghost use Rattle.session_ops.specs.declared.entry.Call.TheVariants.{Client, Respond};
ghost use Rattle.session_ops.specs.Snapshot.{IsSnapshot, live_revision};
ghost use Rattle.session_ops.specs.State.{ChangesNothing};
ghost use Rattle.session_core.specs.declared.job.PlainJob.{PlainJob as AnyJob};
ghost use Rattle.session_core.specs.Session.{IsSession, HasAnswered, HasTriedStart, IsHandedOut, StayOut, OthersStayOut, LeavesState, IsWaiting, history_of, state_of, status_of, validity_of, shown_of, ready_lane};

use crate::evaluated::Evaluated;
use crate::held::Held;
use crate::job::PlainJob;
use ex_model::Shown;
use lanes::Row;
use notebook::{CellId, Lane, Notebook, Status, Validity};
use session_ops::{Entry, Op, Reply, Snapshot};
use std::alloc::{AllocError, Global};
use std::marker::Model;
use std::snapshot::Snapshot as Ghost;

/// A notebook that is changed by calls, and all that was asked of it. Contracts see it as the notebook
/// with which it opened and the history, which is legal; the rest is what these make.
#[derive(Drop)]
pub struct Session {
    opening: Ghost<Notebook>,
    held: Held,
}

impl Model for Session {
    ghost use Rattle.session_core.specs.Session.{Session as Story};

    ghost Value = { Story };

    ghost use Rattle.session_core.specs.Held.{IsHeld, history_of};

    ghost view = { λ s. record { opening = s.opening.value; history = history_of s.held } };

    ghost invariant = { λ s. IsHeld s.opening.value s.held };
}

impl Session {
    /// A session that opens with a notebook: nobody has joined, nothing is queued, and the history is
    /// empty.
    pub fn new(alloc: Global, book: Notebook) -> Result<Session, AllocError>
        ensures opens { IfOk result (λ s. s ≡ record { opening = book; history = [] }) }
        ensures session { IfOk result (IsSession book) }
    {
        let opening = Ghost::of(&book);
        let held = Held::new(alloc, book)?;
        Ok(Session { opening, held })
    }

    /// Does what a client asks, and appends one entry with the answer, which it also gives. A refused
    /// call changes the history alone. After want of memory the session is as it was. An evaluation that
    /// is out stays out, whatever comes of the call.
    pub fn apply(&mut self, by: u32, client: u32, op: Op) -> Result<Reply, AllocError>
        ensures ok { IfOk result
            (HasAnswered self.old.opening by (Client client op) self.old self.new) }
        ensures refused { IfOk result (λ answer. ChangesNothing (Client client op) answer
            → LeavesState self.old.opening self.old self.new) }
        ensures err { OnErr result (self.new ≡ self.old) }
        ensures out { StayOut self.old self.new }
    {
        self.held.apply(by, client, op)
    }

    /// Starts the evaluation of the lane's first due cell: appends the start and hands the job out.
    /// `None` exactly where no cell of the lane may start; then the session is as it was, and so it is
    /// after want of memory. An evaluation that was out stays out.
    pub fn start(&mut self, by: u32, lane: Lane) -> Result<Option<PlainJob>, AllocError>
        ensures ok { IfOk result (HasTriedStart self.old.opening by lane self.old self.new) }
        ensures err { OnErr result (self.new ≡ self.old) }
        ensures out { StayOut self.old self.new }
    {
        self.held.start(by, lane)
    }

    /// Answers an evaluation that was started under the same number and isn't answered yet, with what
    /// its source gives over its bindings within 200,000 steps: `Stored` where it still runs, and else
    /// `Late`, and then the history alone changes. Takes no memory: its start kept room for the answer.
    /// Another evaluation that is out stays out.
    pub fn respond(&mut self, by: u32, eval: u64, ran: Evaluated) -> Reply
        requires { (job : AnyJob)
            × IsHandedOut self.old.opening self.old by job
            × (job.eval ≡ eval)
            × MeansInCell (encode_utf8_all job.source) job.base ran }
        ensures ok { HasAnswered self.old.opening by (Respond eval ran.shown) self.old self.new
            result }
        ensures late { ChangesNothing (Respond eval ran.shown) result
            → LeavesState self.old.opening self.old self.new }
        ensures out { OthersStayOut eval self.old self.new }
    {
        self.held.respond(by, eval, ran)
    }

    /// The present notebook with each live cell's revision, and the number of entries.
    pub fn snapshot(&self) -> Result<Snapshot, AllocError>
        ensures { IfOk result (IsSnapshot (state_of self.now.opening self.now)
            (length (history_of self.now))) }
    {
        let (book, revs, cursor) = self.held.shown_now()?;
        Ok(Snapshot::of(book, revs, cursor))
    }

    /// The first lane that may start: the main one, and then the branches in notebook order. `None`
    /// exactly where none may: never while nothing runs and some cell is queued. Takes no memory.
    pub fn ready_lane(&self) -> Option<Lane>
        ensures lane { result ≡ ready_lane (state_of self.now.opening self.now) }
        ensures some { IsWaiting (state_of self.now.opening self.now) → IsSome result }
    {
        self.held.ready_lane()
    }

    /// Whether nothing is queued and nothing runs. Takes no memory.
    pub fn idle(&self) -> bool
        ensures { result ≡ is_idle (state_of self.now.opening self.now).work }
    {
        self.held.idle()
    }

    /// The history, which is legal. Takes no memory.
    pub fn history(&self) -> &[Entry]
        ensures entries { result.now ≡ history_of self.now }
        ensures legal { IsSession self.now.opening self.now }
    {
        self.held.history()
    }

    /// The history, when the session is done. Takes no memory.
    pub fn into_history(self) -> Vec<Entry>
        ensures entries { result.items ≡ history_of self }
        ensures legal { IsSession self.opening self }
    {
        let Session { opening: _, held } = self;
        held.into_history()
    }

    /// The present notebook. Takes no memory.
    pub fn book(&self) -> &Notebook
        ensures { result.now ≡ (state_of self.now.opening self.now).book }
    {
        self.held.book()
    }

    /// The revision of a cell's source; `None` exactly where no live cell has the number. Takes no
    /// memory.
    pub fn rev(&self, cell: CellId) -> Option<u64>
        ensures { result ≡ live_revision (state_of self.now.opening self.now) cell }
    {
        self.held.rev(cell)
    }

    /// Status, validity and what is shown of a setup or code cell; `None` exactly where no live setup
    /// or code cell has the number. Takes no memory.
    pub fn row(&self, cell: CellId) -> Option<Row<'_>>
        ensures { MatchOption result
            (path (state_of self.now.opening self.now).book cell ≡ None)
            (IsRow (state_of self.now.opening self.now).book
            (state_of self.now.opening self.now).work cell) }
    {
        self.held.row(cell)
    }

    /// What is asked for a cell; `None` exactly where no live setup or code cell has the number. Takes
    /// no memory.
    pub fn status(&self, cell: CellId) -> Option<Status>
        ensures { result ≡ status_of (state_of self.now.opening self.now) cell }
    {
        self.held.status(cell)
    }

    /// What a cell's last evaluation is worth; `None` exactly where no live setup or code cell has the
    /// number. Takes no memory.
    pub fn validity(&self, cell: CellId) -> Option<Validity>
        ensures { result ≡ validity_of (state_of self.now.opening self.now) cell }
    {
        self.held.validity(cell)
    }

    /// What a cell's last finished evaluation showed; `None` exactly where no evaluation of a live setup
    /// or code cell of the number was finished. Takes no memory.
    pub fn shown(&self, cell: CellId) -> Option<&Shown>
        ensures { option_copied result ≡ shown_of (state_of self.now.opening self.now) cell }
    {
        self.held.shown(cell)
    }
}
