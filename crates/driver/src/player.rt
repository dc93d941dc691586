//! The player: it plays the lines of a script over the session and the clients, and prints.
ghost use Rattle.std.specs.Prelude.{◌≡◌, OnOk, IfOk, map, slice_get, length};
ghost use Rattle.std.specs.Str.{encode_utf8_all};
ghost use Rattle.notebook.specs.declared.parts.Parts.{Parts};
ghost use Rattle.session_ops.specs.declared.entry.Call.TheVariants.{Client as ByClient};
ghost use Rattle.script.specs.declared.line.ScriptLine.TheVariants.{Join, Leave, Edit, Post, PostReport, Send, Recv, Sync, Show, Pending, RawJoin, Raw, Settle, Cells, Book};
ghost use Rattle.session_core.specs.Session.{IsSession};
ghost use Rattle.client_sync.specs.Stands.{IsPostable, number_in};
ghost use Rattle.driver.specs.Lines.{posted_words};
ghost use Rattle.driver.specs.Player.{Stage, or_no_name, how_many, send_next, send_many, send_all, send_each, send_or_nothing};
ghost use Rattle.driver.specs.Standing.{Stands, HasCalled, HasAdmitted};
ghost use Rattle.driver.specs.Ends.{IsFresh};
ghost use Rattle.transcript.specs.Printed.{AppendsLine};
ghost use Rattle.driver.specs.Plays.{game, Plays, PlaysFor, DoesFor, PlaysIn, DoesIn, PrintsIn, AsksFor, EditsOwn, PostsOwn, ReportsOwn, ReceivesOwn, RoundsIn, HasLooked, Posts};

use crate::clients::{all_sent, deliver, deliver_all, remove};
use crate::lines::{
    push_edit_refused, push_edited, push_joined, push_left, push_no_client, push_not_joined,
    push_not_posted, push_nothing_sent, push_pending, push_posted, push_raw, push_raw_joined,
    push_raw_not_joined, push_raw_refused, push_received, push_sent, push_sync,
};
use crate::settling::settle;
use crate::statuses::push_statuses;
use client_sync::{Client, PostError};
use delta::Delta;
use notebook::{CellId, Notebook};
use plain_list::Items;
use script::{Count, ScriptLine};
use session_core::Session;
use session_ops::{Entry, Op, Reply};
use std::alloc::{AllocError, Global};
use std::sync::Wait;
use transcript::{push_book, push_plain};
use utf16_text::Text;
use world::place_of;

/// The session, its clients in the order of their joining, and the marks: for each turn that made no
/// entry, the history's length that it found.
#[derive(Drop)]
pub(crate) struct Player {
    pub(crate) alloc: Global,
    pub(crate) session: Session,
    pub(crate) clients: Vec<Client>,
    pub(crate) marks: Items<u64>,
}

impl Player {
    /// A player before the first line.
    pub(crate) fn new(alloc: Global, book: Notebook) -> Result<Player, AllocError>
        ensures { IfOk result (IsFresh book) }
    {
        Ok(Player {
            alloc,
            session: Session::new(alloc, book)?,
            clients: Vec::new(alloc),
            marks: Items::new(alloc),
        })
    }

    /// Plays a line and gives what it prints. After want of memory the player is of no more use.
    pub(crate) fn line<R: Wait>(
        &mut self,
        rt: &R,
        names: &[Text],
        line: &ScriptLine,
    ) -> Result<String, AllocError>
        ensures { (n0 : Parts) (s : Stage) → Stands (game n0 names.now) self.old s
            → IfOk result (λ piece. PrintsIn names.now line.now self.old self.new piece n0 s) }
    {
        let mut out = String::new(self.alloc);
        match line {
            ScriptLine::Join { client } => {
                self.join(name_in(names, *client), *client, &mut out)?;
            }
            ScriptLine::Leave { client } => {
                self.leave(name_in(names, *client), *client, &mut out)?;
            }
            ScriptLine::Edit {
                client,
                cell,
                delta,
            } => {
                self.edit(name_in(names, *client), *client, *cell, delta, &mut out)?;
            }
            ScriptLine::Post { client, op } => {
                self.post(name_in(names, *client), *client, op, &mut out)?;
            }
            ScriptLine::PostReport { client, cell } => {
                self.post_report(name_in(names, *client), *client, *cell, &mut out)?;
            }
            ScriptLine::Send { client, count } => {
                self.send(name_in(names, *client), *client, *count, &mut out)?;
            }
            ScriptLine::Recv { client, count } => {
                self.recv(name_in(names, *client), *client, *count, &mut out)?;
            }
            ScriptLine::Sync => {
                self.sync(rt, names, &mut out)?;
            }
            ScriptLine::Show { client } => {
                self.show(name_in(names, *client), *client, &mut out)?;
            }
            ScriptLine::Pending { client, cell } => {
                self.pending(name_in(names, *client), *client, *cell, &mut out)?;
            }
            ScriptLine::RawJoin { client } => {
                self.raw_join(name_in(names, *client), *client, &mut out)?;
            }
            ScriptLine::Raw { client, op } => {
                self.raw(name_in(names, *client), *client, op, &mut out)?;
            }
            ScriptLine::Settle => {
                self.settle(rt, &mut out)?;
            }
            ScriptLine::Cells => {
                self.cells(&mut out)?;
            }
            ScriptLine::Book => {
                self.book(&mut out)?;
            }
        }
        Ok(out)
    }

    /// `join NAME`.
    pub(crate) fn join(
        &mut self,
        name: &str,
        client: u32,
        out: &mut String,
    ) -> Result<(), AllocError>
        ensures { PlaysFor result name.now client (Join client) self.old self.new out.old out.new }
    {
        let reply = self.call(client, Op::Join)?;
        match reply {
            Reply::Accepted => {
                self.admit(client)?;
                push_joined(out, name, self.session.history().len() as u64)?;
            }
            other => push_not_joined(out, name, &other)?,
        }
        Ok(())
    }

    /// `leave NAME`: the session is told at once; the name's client is gone, with its outbox.
    pub(crate) fn leave(
        &mut self,
        name: &str,
        client: u32,
        out: &mut String,
    ) -> Result<(), AllocError>
        ensures { PlaysFor result name.now client (Leave client) self.old self.new out.old out.new }
    {
        let reply = self.call(client, Op::Leave)?;
        remove(&mut self.clients, client);
        push_left(out, name, &reply)?;
        Ok(())
    }

    /// `rawjoin NAME`: the number joins, and holds no client.
    pub(crate) fn raw_join(
        &mut self,
        name: &str,
        client: u32,
        out: &mut String,
    ) -> Result<(), AllocError>
        ensures { PlaysFor result name.now client (RawJoin client)
            self.old self.new out.old out.new }
    {
        let reply = self.call(client, Op::Join)?;
        match reply {
            Reply::Accepted => {
                push_raw_joined(out, name, self.session.history().len() as u64)?;
            }
            other => push_raw_not_joined(out, name, &other)?,
        }
        Ok(())
    }

    /// `raw NAME RAWOP`: a call of a name that holds no client.
    pub(crate) fn raw(
        &mut self,
        name: &str,
        client: u32,
        op: &Op,
        out: &mut String,
    ) -> Result<(), AllocError>
        ensures { PlaysFor result name.now client (Raw client op.now)
            self.old self.new out.old out.new }
    {
        match place_of(&self.clients, client) {
            Some(_) => push_raw_refused(out, name)?,
            None => {
                let reply = self.call(client, op.copy(self.alloc)?)?;
                push_raw(out, name, &reply)?;
            }
        }
        Ok(())
    }

    /// One call of the session under the number 0.
    fn call(&mut self, client: u32, op: Op) -> Result<Reply, AllocError>
        ensures { (n0 : Parts) → IsSession n0 self.old.session
            → IfOk result (HasCalled n0 (ByClient client op) self.old self.new) }
    {
        let reply = self.session.apply(0, client, op)?;
        Ok(reply)
    }

    /// Makes a client that has just joined.
    fn admit(&mut self, client: u32) -> Result<(), AllocError>
        ensures { (n0 : Parts) → IsSession n0 self.old.session
            → OnOk result (HasAdmitted n0 client self.old self.new) }
    {
        let snapshot = self.session.snapshot()?;
        let own = Client::join(self.alloc, client, snapshot)?;
        self.clients.push(own)?;
        Ok(())
    }

    /// `edit NAME CELL DELTA`.
    pub(crate) fn edit(
        &mut self,
        name: &str,
        client: u32,
        cell: CellId,
        delta: &Delta,
        out: &mut String,
    ) -> Result<(), AllocError>
        ensures { PlaysFor result name.now client (Edit client cell delta.now)
            self.old self.new out.old out.new }
    {
        match place_of(&self.clients, client) {
            None => push_no_client(out, name, "edit")?,
            Some(at) => edit_own(&mut self.clients[at], name, cell, delta, out)?,
        }
        Ok(())
    }

    /// `post NAME OP`.
    pub(crate) fn post(
        &mut self,
        name: &str,
        client: u32,
        op: &Op,
        out: &mut String,
    ) -> Result<(), AllocError>
        ensures { PlaysFor result name.now client (Post client op.now)
            self.old self.new out.old out.new }
    {
        match place_of(&self.clients, client) {
            None => push_no_client(out, name, "post")?,
            Some(at) => post_own(self.alloc, &mut self.clients[at], name, op, out)?,
        }
        Ok(())
    }

    /// `post NAME report CELL`: the client's revision of the cell.
    pub(crate) fn post_report(
        &mut self,
        name: &str,
        client: u32,
        cell: CellId,
        out: &mut String,
    ) -> Result<(), AllocError>
        ensures { PlaysFor result name.now client (PostReport client cell)
            self.old self.new out.old out.new }
    {
        match place_of(&self.clients, client) {
            None => push_no_client(out, name, "post")?,
            Some(at) => report_own(&mut self.clients[at], name, cell, out)?,
        }
        Ok(())
    }

    /// `send NAME COUNT`.
    pub(crate) fn send(
        &mut self,
        name: &str,
        client: u32,
        count: Count,
        out: &mut String,
    ) -> Result<(), AllocError>
        ensures { PlaysFor result name.now client (Send client count)
            self.old self.new out.old out.new }
    {
        match place_of(&self.clients, client) {
            None => push_no_client(out, name, "send")?,
            Some(at) => {
                let many = how_many(count, self.clients[at].outbox_len());
                self.send_or_nothing(name, client, many, out)?;
            }
        }
        Ok(())
    }

    /// Sends so many messages of a client, or says that there is nothing to send.
    fn send_or_nothing(
        &mut self,
        name: &str,
        client: u32,
        many: u64,
        out: &mut String,
    ) -> Result<(), AllocError>
        ensures { DoesFor result name.now client (λ g. send_or_nothing g client many)
            self.old self.new out.old out.new }
    {
        if many == 0 {
            push_nothing_sent(out, name)?;
            return Ok(());
        }
        self.send_many(name, client, many, out)?;
        Ok(())
    }

    /// Sends so many messages of a client, one after the other.
    fn send_many(
        &mut self,
        name: &str,
        client: u32,
        many: u64,
        out: &mut String,
    ) -> Result<(), AllocError>
        ensures { DoesFor result name.now client (λ g. send_many many g client)
            self.old self.new out.old out.new }
    {
        for _ in 0..many {
            self.send_next(name, client, out)?;
        }
        Ok(())
    }

    /// Sends the message at the front of a client's outbox, if there is one.
    fn send_next(&mut self, name: &str, client: u32, out: &mut String) -> Result<(), AllocError>
        ensures { DoesFor result name.now client (λ g. send_next g client)
            self.old self.new out.old out.new }
    {
        let Some(at) = place_of(&self.clients, client) else {
            return Ok(());
        };
        match self.clients[at].take_front() {
            None => Ok(()),
            Some(op) => {
                self.ask(name, client, op, out)?;
                Ok(())
            }
        }
    }

    /// Makes a client's call, and prints its answer as that to a message.
    fn ask(&mut self, name: &str, client: u32, op: Op, out: &mut String) -> Result<(), AllocError>
        ensures { AsksFor result (ByClient client op) name.now self.old self.new out.old out.new }
    {
        let reply = self.call(client, op)?;
        push_sent(out, name, &reply)?;
        Ok(())
    }

    /// `recv NAME COUNT`.
    pub(crate) fn recv(
        &mut self,
        name: &str,
        client: u32,
        count: Count,
        out: &mut String,
    ) -> Result<(), AllocError>
        ensures { PlaysFor result name.now client (Recv client count)
            self.old self.new out.old out.new }
    {
        match place_of(&self.clients, client) {
            None => push_no_client(out, name, "recv")?,
            Some(at) => {
                self.look()?;
                let history = self.session.history();
                receive_own(history, &mut self.clients[at], count, name, out)?;
            }
        }
        Ok(())
    }

    /// `sync`.
    pub(crate) fn sync<R: Wait>(
        &mut self,
        rt: &R,
        names: &[Text],
        out: &mut String,
    ) -> Result<(), AllocError>
        ensures { PlaysIn result names.now Sync self.old self.new out.old out.new }
    {
        for _ in rt.forever() {
            let at = self.round(names, out)?;
            if all_sent(&self.clients) {
                push_sync(out, at)?;
                return Ok(());
            }
        }
        unreachable!()
    }

    /// A round of `sync`: every client sends all, and then receives all. It gives the history's length.
    fn round(&mut self, names: &[Text], out: &mut String) -> Result<u64, AllocError>
        ensures { RoundsIn result names.now self.old self.new out.old out.new }
    {
        let numbers = self.numbers()?;
        self.send_each(names, numbers.as_slice(), out)?;
        let at = self.look()?;
        deliver_all(self.session.history(), &mut self.clients)?;
        Ok(at)
    }

    /// The clients' numbers, in the order of joining.
    fn numbers(&self) -> Result<Vec<u32>, AllocError>
        ensures { IfOk result (λ numbers. numbers.items ≡ map number_in self.now.clients.items) }
    {
        let mut numbers = Vec::new(self.alloc);
        for client in self.clients.iter() {
            numbers.push(client.number())?;
        }
        Ok(numbers)
    }

    /// Each of these clients sends all that stands in its outbox.
    fn send_each(
        &mut self,
        names: &[Text],
        numbers: &[u32],
        out: &mut String,
    ) -> Result<(), AllocError>
        ensures { DoesIn result names.now (λ g. send_each g numbers.now)
            self.old self.new out.old out.new }
    {
        for number in numbers {
            self.send_all(name_in(names, *number), *number, out)?;
        }
        Ok(())
    }

    /// A client sends all that stands in its outbox.
    fn send_all(&mut self, name: &str, client: u32, out: &mut String) -> Result<(), AllocError>
        ensures { DoesFor result name.now client (λ g. send_all g client)
            self.old self.new out.old out.new }
    {
        let Some(at) = place_of(&self.clients, client) else {
            return Ok(());
        };
        let many = self.clients[at].outbox_len();
        self.send_many(name, client, many, out)?;
        Ok(())
    }

    /// A turn that makes no entry: it leaves a mark, which is the history's length.
    pub(crate) fn look(&mut self) -> Result<u64, AllocError>
        ensures { IfOk result (HasLooked self.old self.new) }
    {
        let at = self.session.history().len() as u64;
        self.marks.push(at)?;
        Ok(at)
    }

    /// `show NAME`.
    pub(crate) fn show(
        &mut self,
        name: &str,
        client: u32,
        out: &mut String,
    ) -> Result<(), AllocError>
        ensures { PlaysFor result name.now client (Show client) self.old self.new out.old out.new }
    {
        match place_of(&self.clients, client) {
            None => push_no_client(out, name, "show")?,
            Some(at) => {
                let own = &self.clients[at];
                push_book(out, own.book(), own.revs())?;
            }
        }
        Ok(())
    }

    /// `pending NAME CELL`.
    pub(crate) fn pending(
        &mut self,
        name: &str,
        client: u32,
        cell: CellId,
        out: &mut String,
    ) -> Result<(), AllocError>
        ensures { PlaysFor result name.now client (Pending client cell)
            self.old self.new out.old out.new }
    {
        match place_of(&self.clients, client) {
            None => push_no_client(out, name, "pending")?,
            Some(at) => {
                let own = &self.clients[at];
                push_pending(out, name, cell, own.pending(cell), own.outbox_len())?;
            }
        }
        Ok(())
    }

    /// `settle`.
    pub(crate) fn settle<R: Wait>(&mut self, rt: &R, out: &mut String) -> Result<(), AllocError>
        ensures { Plays result Settle self.old self.new out.old out.new }
    {
        settle(rt, self.alloc, &mut self.session, 1)?;
        self.look()?;
        push_plain(out, "settled\n")?;
        Ok(())
    }

    /// `cells`.
    pub(crate) fn cells(&mut self, out: &mut String) -> Result<(), AllocError>
        ensures { Plays result Cells self.old self.new out.old out.new }
    {
        self.look()?;
        push_statuses(out, self.alloc, self.session.book().parts(), &self.session)?;
        Ok(())
    }

    /// `book`.
    pub(crate) fn book(&mut self, out: &mut String) -> Result<(), AllocError>
        ensures { Plays result Book self.old self.new out.old out.new }
    {
        self.look()?;
        let book = livemd_write::text(self.alloc, self.session.book())?;
        push_plain(out, book.as_str())?;
        Ok(())
    }
}

/// An edit of the client's own notebook, and what is printed of it.
fn edit_own(
    own: &mut Client,
    name: &str,
    cell: CellId,
    delta: &Delta,
    out: &mut String,
) -> Result<(), AllocError>
    ensures { EditsOwn result name.now cell delta.now own.old own.new out.old out.new }
{
    match own.edit(cell, delta) {
        Ok(()) => push_edited(out, name, cell)?,
        Err(why) => push_edit_refused(out, name, cell, why)?,
    }
    Ok(())
}

/// Puts the operation into the client's outbox, where it may be posted.
fn post_own(
    alloc: Global,
    own: &mut Client,
    name: &str,
    op: &Op,
    out: &mut String,
) -> Result<(), AllocError>
    ensures { PostsOwn result name.now op.now own.old own.new out.old out.new }
{
    if !op.is_postable() {
        return Ok(());
    }
    put_own(alloc, own, name, op, out)
}

/// Puts an operation that may be posted into the client's outbox.
fn put_own(
    alloc: Global,
    own: &mut Client,
    name: &str,
    op: &Op,
    out: &mut String,
) -> Result<(), AllocError>
    requires { IsPostable op.now }
    ensures posted { Posts result op.now own.old own.new }
    ensures printed { OnOk result (AppendsLine (posted_words name.now) out.old out.new) }
{
    own.post(op.copy(alloc)?)?;
    push_posted(out, name)?;
    Ok(())
}

/// Puts a report of the client's revision of a cell into its outbox.
fn report_own(
    own: &mut Client,
    name: &str,
    cell: CellId,
    out: &mut String,
) -> Result<(), AllocError>
    ensures { ReportsOwn result name.now cell own.old own.new out.old out.new }
{
    match own.post_report(cell) {
        Ok(()) => push_posted(out, name)?,
        Err(PostError::NoCell) => push_not_posted(out, name)?,
        Err(PostError::OutOfMemory) => return Err(AllocError),
    }
    Ok(())
}

/// Entries that the client receives, and what is printed of them.
fn receive_own(
    history: &[Entry],
    own: &mut Client,
    count: Count,
    name: &str,
    out: &mut String,
) -> Result<(), AllocError>
    ensures { ReceivesOwn result count history.now name.now own.old own.new out.old out.new }
{
    let unseen = (history.len() as u64).saturating_sub(own.cursor());
    deliver(history, own, how_many(count, unseen))?;
    push_received(out, name, own.cursor())?;
    Ok(())
}

/// So many, or all where there are fewer.
fn how_many(count: Count, there: u64) -> u64
    ensures { result ≡ how_many count there }
{
    match count {
        Count::AtMost(most) => most.min(there),
        Count::All => there,
    }
}

/// A client's name; the empty text where there is none.
fn name_in(names: &[Text], client: u32) -> &str
    ensures { result.now ≡ encode_utf8_all (or_no_name (slice_get names.now client)) }
{
    match names.get(client as usize) {
        Some(name) => name.as_str(),
        None => "",
    }
}
