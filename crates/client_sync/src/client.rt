//! A client in memory.
ghost use Rattle.std.specs.Prelude.{◌≡◌, ◌+◌, ◌<◌, ◌∷◌, ◌++◌, [], List, Some, IfOk, OnOk, OnErr, MatchResult, length, map, slice_get};
ghost use Rattle.std.specs.Option.{option_copied, option_map};
ghost use Rattle.limits.specs.Limits.{numbers_end};
ghost use Rattle.notebook.specs.declared.parts.Parts.{Parts};
ghost use Rattle.notebook.specs.Book.{cells, found};
ghost use Rattle.notebook.specs.Rules.{IsNotebook};
ghost use Rattle.notebook.specs.declared.change.Changed.{Changed};
ghost use Rattle.notebook.specs.Change.{Makes, change};
ghost use Rattle.session_ops.specs.declared.entry.Entry.{Entry};
ghost use Rattle.session_ops.specs.State.{state};
ghost use Rattle.session_ops.specs.Snapshot.{HasRevisions, IsSnapshot, live_revision};
ghost use Rattle.client_sync.specs.Client.{Client as Holder, Pending, Done, edited, reported, held, delivered, joined_client, with_message, received_entry, pending_of, with_edit, all_moved, without};
ghost use Rattle.client_sync.specs.Going.{ArePendingBelow, HasForgotten, IsOver};
ghost use Rattle.client_sync.specs.Own.{IsOwnText, IsOwnFault, source_of};
ghost use Rattle.client_sync.specs.declared.pending.Unconfirmed.{Unconfirmed};
ghost use Rattle.delta.specs.Moves.{FitsText, composed, transformed, text_after};
ghost use Rattle.notebook.specs.declared.parts.Cell.{Cell};
ghost use Rattle.client_sync.specs.Moving.{FitsBoth, IsMovedOver, over_pending, over_option};
ghost use Rattle.client_sync.specs.Revisions.{raised, without_revision};
ghost use Rattle.session_ops.specs.Deeds.{Edits, FitsCell, book_after, deed, edit_in};
ghost use Rattle.client_sync.specs.Causes.{IsEditCause, IsPostCause};
ghost use Rattle.client_sync.specs.Stands.{ForEachHolder, HasTaken, IsNextEntry, IsPendingAt, IsPendingOf, IsPostable, IsViewOf, Mirrors, number_in, pending_in};
ghost use Rattle.client_sync.specs.Steps.{AtPlace, ChangesEditsAlone, ForItsEdits, HasCell, HasMade, HasPosted, HasRaised, HasTakenChange, HasTakenIn, HoldsEdits, IsServersIfQuiet, KeepsTexts, acknowledged, moved_over};
ghost use Rattle.session_ops.specs.Born.{TouchesMadeCells};

use crate::changes::gone_numbers;
use crate::edit_error::EditError;
use crate::outbox::Outbox;
use crate::pending::{PendingEdits, Unconfirmed, place_of};
use crate::post_error::PostError;
use crate::revs::{add_made, raise, remove, rev_in};
use delta::{ApplyError, Delta, Side};
use delta_laws::{composed, nothing, transformed};
use limits::MOST_INSERTED;
use notebook::{CellId, Change, Notebook};
use plain_list::Items;
use session_ops::{CellEdit, Deed, Entry, Op, Snapshot, edit_source};
use std::alloc::{AllocError, Global};
use std::mem;
use utf16_text::Text;

/// A notebook as of the client's last delivery, with the client's own unconfirmed edits done to it;
/// and the messages that the server hasn't taken yet.
#[derive(Drop)]
pub struct Client {
    alloc: Global,
    number: u32,
    cursor: u64,
    book: Notebook,
    revs: Items<(CellId, u64)>,
    pending: Items<Unconfirmed>,
    outbox: Outbox,
    nothing: Delta,
}

impl Client {
    /// A client that has just joined, with the snapshot of the session as it then was.
    pub fn join(alloc: Global, number: u32, snapshot: Snapshot) -> Result<Client, AllocError>
        ensures { (n0 : Parts) (seen : List Entry) →
            IsSnapshot (state n0 seen) (length seen) snapshot → TouchesMadeCells (state n0 seen) →
            IfOk result (λ c. Mirrors n0 c (joined_client number seen)) }
    {
        let (book, revs, cursor) = snapshot.into_parts();
        keeps_rules(&book);
        Ok(Client {
            alloc,
            number,
            cursor,
            book,
            revs,
            pending: Items::new(alloc),
            outbox: Outbox::new(alloc),
            nothing: nothing(alloc),
        })
    }

    /// Edits a cell of the client's own notebook, by a delta over the client's own text, in UTF-16
    /// units. Where nothing of the cell is in flight the edit is posted; else it waits in the
    /// cell's buffer. An edit without steps does nothing.
    ///
    /// It answers, in this order: `NoCell`; `EditTooLong` exactly above 65,536 inserted units;
    /// `PastEnd` or `SplitsPair` exactly where the delta doesn't fit the client's own text. After
    /// each error, want of memory too, the client is as it was.
    pub fn edit(&mut self, cell: CellId, delta: &Delta) -> Result<(), EditError>
        ensures edited { ForEachHolder self.old (λ n0 m. MatchResult result
            (λ _. (m' : Holder) × ((edited n0 m cell delta.now ≡ Done m') × Mirrors n0 self.new m'))
            (λ e. IsEditCause (edited n0 m cell delta.now) e)) }
        ensures refused { OnErr result (self.new ≡ self.old) }
    {
        let Some(base) = rev_in(self.revs.as_slice(), cell) else {
            return Err(EditError::NoCell);
        };
        let text = self.edited_text(cell, delta)?;
        if delta.is_empty() {
            return Ok(());
        }
        if self.note_edit(cell, base, delta).is_err() {
            return Err(EditError::OutOfMemory);
        }
        self.book.set_source(cell, text);
        Ok(())
    }

    /// The text that an edit makes of a cell's own text.
    fn edited_text(&self, cell: CellId, delta: &Delta) -> Result<Text, EditError>
        ensures { MatchResult result (IsOwnText self.now.book cell delta.now)
            (IsOwnFault self.now.book cell delta.now) }
    {
        let Some(own) = self.book.find(cell) else {
            return Err(EditError::NoCell);
        };
        if delta.inserted() > MOST_INSERTED {
            return Err(EditError::EditTooLong);
        }
        match delta.apply(self.alloc, &own.source) {
            Ok(text) => Ok(text),
            Err(ApplyError::PastEnd { len }) => Err(EditError::PastEnd { len }),
            Err(ApplyError::SplitsPair { at }) => Err(EditError::SplitsPair { at }),
            Err(ApplyError::OutOfMemory) => Err(EditError::OutOfMemory),
        }
    }

    /// Notes an edit of a cell that the client has, made at the revision `base`: with nothing of
    /// the cell in flight it is posted, and else it goes into the buffer. The notebook stays. After
    /// an error nothing is changed.
    fn note_edit(&mut self, cell: CellId, base: u64, delta: &Delta) -> Result<(), AllocError>
        ensures noted { (m : Holder) (own : Cell) → HoldsEdits self.old m →
            HasCell self.old cell own →
            OnOk result (HoldsEdits self.new
            (with_edit m cell base delta.now (pending_of cell m.pending))) }
        ensures texts { (n : Parts) (own : Cell) → KeepsTexts n self.old →
            HasCell self.old cell own →
            IsServersIfQuiet n self.old cell own.source → OnOk result (KeepsTexts n self.new) }
        ensures rest { ChangesEditsAlone self.old self.new }
        ensures err { OnErr result (self.new ≡ self.old) }
    {
        match place_of(self.pending.as_slice(), cell) {
            None => self.begin_edit(cell, base, delta),
            Some(at) => self.buffer_edit(at, delta),
        }
    }

    /// Posts the first edit of a cell, whose text is the server's. After an error nothing is
    /// changed.
    fn begin_edit(&mut self, cell: CellId, base: u64, delta: &Delta) -> Result<(), AllocError>
        ensures posted { (own : Cell) → HasCell self.old cell own →
            OnOk result (HasPosted self.old self.new cell base own.source delta.now) }
        ensures rest { ChangesEditsAlone self.old self.new }
        ensures err { OnErr result (self.new ≡ self.old) }
    {
        let Some(own) = self.book.find(cell) else {
            return Ok(());
        };
        let server = own.source.copy()?;
        self.post_edit(cell, base, server, delta)?;
        Ok(())
    }

    /// Puts an edit in flight over the server's text, and its message at the outbox's end. After an
    /// error nothing is changed.
    fn post_edit(
        &mut self,
        cell: CellId,
        base: u64,
        server: Text,
        delta: &Delta,
    ) -> Result<(), AllocError>
        ensures posted { OnOk result (HasPosted self.old self.new cell base server delta.now) }
        ensures err { OnErr result (self.new ≡ self.old) }
    {
        let flight = delta.copy(self.alloc)?;
        let message = delta.copy(self.alloc)?;
        self.outbox.push(Op::Delta {
            cell,
            base,
            delta: message,
        })?;
        let buffer = nothing(self.alloc);
        match self.pending.push(Unconfirmed {
            cell,
            server,
            flight,
            buffer,
        }) {
            Ok(()) => Ok(()),
            Err(error) => {
                self.outbox.take_last();
                Err(error)
            }
        }
    }

    /// Puts an edit behind those of the buffer at a place. After an error nothing is changed.
    fn buffer_edit(&mut self, at: usize, delta: &Delta) -> Result<(), AllocError>
        requires { at < length self.old.pending }
        ensures joined { AtPlace self.old.pending at (λ front here back.
            OnOk result (self.new ≡ record self.old {
              pending =
                  front ++ record here { buffer = composed here.buffer delta.now } ∷ back;
            })) }
        ensures err { OnErr result (self.new ≡ self.old) }
    {
        let buffer = composed(self.alloc, &self.pending.as_slice()[at].buffer, delta)?;
        self.pending.item_mut(at).buffer = buffer;
        Ok(())
    }

    /// Puts a message at the outbox's end. After want of memory nothing is changed.
    pub fn post(&mut self, op: Op) -> Result<(), AllocError>
        requires { IsPostable op }
        ensures posted { ForEachHolder self.old (λ n0 m.
            OnOk result (Mirrors n0 self.new (with_message m op))) }
        ensures err { OnErr result (self.new ≡ self.old) }
    {
        self.outbox.push(op)?;
        Ok(())
    }

    /// Posts the cell's revision at the client's last delivery: a promise to build on none before
    /// it.
    ///
    /// It answers `NoCell` exactly where the client has no such cell. After each error, want of
    /// memory too, the client is as it was.
    pub fn post_report(&mut self, cell: CellId) -> Result<(), PostError>
        ensures posted { ForEachHolder self.old (λ n0 m. MatchResult result
            (λ _. (m' : Holder) × ((reported n0 m cell ≡ Some m') × Mirrors n0 self.new m'))
            (λ e. IsPostCause (reported n0 m cell) e)) }
        ensures refused { OnErr result (self.new ≡ self.old) }
    {
        let Some(rev) = rev_in(self.revs.as_slice(), cell) else {
            return Err(PostError::NoCell);
        };
        match self.outbox.push(Op::Report { cell, rev }) {
            Ok(()) => Ok(()),
            Err(_) => Err(PostError::OutOfMemory),
        }
    }

    /// The message at the outbox's front; `None` exactly where the outbox is empty. Takes no
    /// memory.
    pub fn outbox_front(&self) -> Option<&Op>
        ensures { option_copied result ≡ slice_get self.now.outbox 0 }
    {
        self.outbox.front()
    }

    /// The number of messages in the outbox. Takes no memory.
    pub fn outbox_len(&self) -> u64
        ensures { ForEachHolder self.now (λ n0 m. result ≡ length m.outbox) }
    {
        self.outbox.len() as u64
    }

    /// Takes the message at the outbox's front out; `None` exactly where the outbox is empty. Takes
    /// no memory.
    pub fn take_front(&mut self) -> Option<Op>
        ensures { ForEachHolder self.old (λ n0 m. HasTaken n0 m self.new result) }
    {
        self.outbox.take_front()
    }

    /// Receives the next entry of the history. A client's own delta that came back ends what was in
    /// flight, and a buffer that isn't empty is posted; another's delta moves what is pending for
    /// its cell, and goes first in every tie. A change of the notebook's structure is made, and
    /// what is pending for a cell that it deletes goes: the bin gets the server's text. Nothing is
    /// said of the client after want of memory.
    pub fn receive(&mut self, entry: &Entry) -> Result<(), AllocError>
        ensures { ForEachHolder self.old (λ n0 m. IsNextEntry n0 m entry.now →
            OnOk result (Mirrors n0 self.new (received_entry n0 m entry.now))) }
    {
        let Some(cursor) = self.cursor.checked_add(1) else {
            return Err(AllocError);
        };
        self.take_entry(entry)?;
        self.cursor = cursor;
        Ok(())
    }

    /// Takes in what the next entry tells; the cursor stays.
    fn take_entry(&mut self, entry: &Entry) -> Result<(), AllocError>
        ensures { ForEachHolder self.old (λ n0 m. IsNextEntry n0 m entry.now →
            OnOk result (HasTakenIn n0 self.new m entry.now)) }
    {
        match entry.deed()? {
            Deed::Nothing => Ok(()),
            Deed::Edits(edit) => self.take_edit(&edit),
            Deed::Changes(asked) => self.take_change(asked),
        }
    }

    /// Takes in a change that was made: what is pending for the cells that it takes away goes, the
    /// change is made, and the list of revisions follows.
    fn take_change(&mut self, asked: Change) -> Result<(), AllocError>
        ensures { (n n' : Parts) (ps : List Pending) (made : Changed) → IsOver n self.old ps →
            ArePendingBelow n.next_cell ps → change n asked ≡ Makes n' made →
            OnOk result (HasTakenChange n n' self.old self.new ps asked made) }
    {
        if !self.book.has_numbers() {
            return Err(AllocError);
        }
        let gone = gone_numbers(self.alloc, &self.book, &asked)?;
        self.forget_all(&gone);
        self.make(asked)
    }

    /// Makes a change of the client's own notebook, and puts the cell that it made, if it made one,
    /// into the list of revisions. No change is refused here that wasn't refused by the session.
    fn make(&mut self, asked: Change) -> Result<(), AllocError>
        requires cells { self.old.book.next_cell < numbers_end }
        requires sections { self.old.book.next_section < numbers_end }
        ensures { OnOk result (HasMade self.old self.new asked) }
    {
        match self.book.change(self.alloc, asked) {
            Ok(made) => add_made(&mut self.revs, made),
            Err(_) => Err(AllocError),
        }
    }

    /// Drops what is pending for some cells, and their revisions.
    fn forget_all(&mut self, cells: &[CellId])
        ensures { HasForgotten self.old self.new cells.now }
    {
        for cell in cells {
            self.forget(*cell);
        }
    }

    /// Drops what is pending for a cell, whose text is the server's again, and the cell's revision.
    fn forget(&mut self, cell: CellId)
        ensures { HasForgotten self.old self.new (cell ∷ []) }
    {
        self.remove_revision(cell);
        self.drop_pending(cell);
    }

    /// Drops what is pending for a cell, whose text is the server's again.
    fn drop_pending(&mut self, cell: CellId)
        ensures over { (n : Parts) (ps : List Pending) → IsOver n self.old ps →
            IsOver n self.new (without cell ps) }
        ensures rest { self.new ≡
            record self.old { book = self.new.book; pending = self.new.pending } }
        ensures numbers { (self.new.book.next_cell ≡ self.old.book.next_cell)
            × (self.new.book.next_section ≡ self.old.book.next_section) }
    {
        if let Some(at) = place_of(self.pending.as_slice(), cell) {
            let edits = self.take_out(at);
            self.book.set_source(cell, edits.server);
        }
    }

    /// Takes a cell out of the list of revisions.
    fn remove_revision(&mut self, cell: CellId)
        ensures { self.new ≡ record self.old { revs = without_revision cell self.old.revs } }
    {
        let mut revs = mem::replace(&mut self.revs, Items::new(self.alloc)).into_vec();
        remove(&mut revs, cell);
        self.revs = Items::from_vec(revs);
    }

    /// Takes in a delta that was applied; the cursor stays.
    fn take_edit(&mut self, edit: &CellEdit<'_>) -> Result<(), AllocError>
        ensures { ForEachHolder self.old (λ n0 m. (e : Entry) → IsNextEntry n0 m e →
            deed e.call e.reply ≡ Edits (edit_in edit.now) →
            OnOk result (HasTakenIn n0 self.new m e)) }
    {
        if edit.client == self.number {
            self.take_own(edit.cell, edit.rev)
        } else {
            self.take_foreign(edit.cell, edit.rev, edit.delta)
        }
    }

    /// Takes in that the client's own delta of a cell came back, which made the revision `rev`. The
    /// notebook stays.
    fn take_own(&mut self, cell: CellId, rev: u64) -> Result<(), AllocError>
        ensures taken { ForItsEdits self.old (λ m.
            OnOk result (HoldsEdits self.new (acknowledged m cell rev))) }
        ensures texts { (n : Parts) (m : Holder) (p : Pending) → KeepsTexts n self.old →
            HoldsEdits self.old m → pending_of cell m.pending ≡ Some p → FitsCell n cell p.flight →
            OnOk result (KeepsTexts (book_after cell p.flight n) self.new) }
        ensures rest { OnOk result (HasRaised self.old self.new cell rev) }
    {
        self.raise(cell, rev);
        match place_of(self.pending.as_slice(), cell) {
            None => Ok(()),
            Some(at) => self.acknowledge(at, cell, rev),
        }
    }

    /// Ends what is in flight at a place, and posts what is buffered there, unless it is empty.
    fn acknowledge(&mut self, at: usize, cell: CellId, rev: u64) -> Result<(), AllocError>
        requires { at < length self.old.pending }
        ensures posted { ForItsEdits self.old (λ m. IsPendingAt self.old.pending cell at →
            OnOk result (HoldsEdits self.new (acknowledged m cell rev))) }
        ensures texts { (n : Parts) (m : Holder) (p : IsPendingAt self.old.pending cell at) →
            KeepsTexts n self.old → HoldsEdits self.old m → FitsCell n cell p.here.flight →
            OnOk result (KeepsTexts (book_after cell p.here.flight n) self.new) }
        ensures rest { OnOk result (ChangesEditsAlone self.old self.new) }
    {
        let mut done = self.take_out(at);
        if done.buffer.is_empty() {
            return Ok(());
        }
        move_text(self.alloc, &mut done.server, &done.flight)?;
        self.post_edit(cell, rev, done.server, &done.buffer)?;
        Ok(())
    }

    /// Takes the pending edits at a place out.
    fn take_out(&mut self, at: usize) -> Unconfirmed
        requires { at < length self.old.pending }
        ensures taken { AtPlace self.old.pending at (λ front here back.
            (result ≡ here) × (self.new.pending ≡ front ++ back)) }
        ensures rest { self.new ≡ record self.old { pending = self.new.pending } }
    {
        let mut edits = mem::replace(&mut self.pending, Items::new(self.alloc)).into_vec();
        let done = edits.remove(at);
        self.pending = Items::from_vec(edits);
        done
    }

    /// Gives a cell a revision.
    fn raise(&mut self, cell: CellId, rev: u64)
        ensures { self.new ≡ record self.old { revs = raised cell rev self.old.revs } }
    {
        let mut revs = mem::replace(&mut self.revs, Items::new(self.alloc)).into_vec();
        raise(&mut revs, cell, rev);
        self.revs = Items::from_vec(revs);
    }

    /// Takes in that another's delta of a cell was applied, which made the revision `rev`: what is
    /// pending for the cell is moved over it, and it is done to the client's own text. One that
    /// doesn't fit, as each of the client's own history does, leaves the text.
    fn take_foreign(&mut self, cell: CellId, rev: u64, delta: &Delta) -> Result<(), AllocError>
        ensures { ForEachHolder self.old (λ n0 m. let n : Parts = (delivered n0 m).book in
            FitsBoth n self.old m cell delta.now →
            OnOk result (IsMovedOver n self.old self.new m cell rev delta.now)) }
    {
        self.raise(cell, rev);
        let shown = self.move_pending(cell, delta)?;
        edit_source(self.alloc, &mut self.book, cell, &shown)
    }

    /// Moves what is pending for a cell over another's delta, and gives the delta moved over what
    /// is pending.
    fn move_pending(&mut self, cell: CellId, delta: &Delta) -> Result<Delta, AllocError>
        ensures moved { ForItsEdits self.old (λ m. IfOk result (λ x.
            (x ≡ over_option delta.now (pending_of cell m.pending))
            × HoldsEdits self.new (record m { pending = all_moved cell delta.now m.pending }))) }
        ensures texts { (n : Parts) (m : Holder) → KeepsTexts n self.old → HoldsEdits self.old m →
            FitsCell n cell delta.now →
            IfOk result (λ _. KeepsTexts (book_after cell delta.now n) self.new) }
        ensures rest { self.new ≡ record self.old { pending = self.new.pending } }
    {
        match place_of(self.pending.as_slice(), cell) {
            None => delta.copy(self.alloc),
            Some(at) => move_over(self.alloc, self.pending.item_mut(at), delta),
        }
    }

    /// The client's number. Takes no memory.
    pub fn number(&self) -> u32
        ensures { result ≡ number_in self.now }
    {
        self.number
    }

    /// How many entries of the history the client has received. Takes no memory.
    pub fn cursor(&self) -> u64
        ensures { ForEachHolder self.now (λ n0 m. result ≡ length m.seen) }
    {
        self.cursor
    }

    /// What the client holds. Takes no memory.
    pub fn book(&self) -> &Notebook
        ensures { ForEachHolder self.now (λ n0 m. result.now ≡ held n0 m) }
    {
        &self.book
    }

    /// The client's own text of a cell; `None` exactly where the client has no such cell. Takes no
    /// memory.
    pub fn text(&self, cell: CellId) -> Option<&Text>
        ensures { ForEachHolder self.now (λ n0 m.
            option_copied result ≡ option_map source_of (found cell (cells (held n0 m)))) }
    {
        let own = self.book.find(cell)?;
        Some(&own.source)
    }

    /// The revision of a cell at the client's last delivery; `None` exactly where the client has no
    /// such cell. Takes no memory.
    pub fn rev(&self, cell: CellId) -> Option<u64>
        ensures { ForEachHolder self.now (λ n0 m. result ≡ live_revision (delivered n0 m) cell) }
    {
        rev_in(self.revs.as_slice(), cell)
    }

    /// The live cells with their revisions at the client's last delivery, in any order. Takes no
    /// memory.
    pub fn revs(&self) -> &[(CellId, u64)]
        ensures { ForEachHolder self.now (λ n0 m. HasRevisions (delivered n0 m) result.now) }
    {
        self.revs.as_slice()
    }

    /// What is pending for a cell; `None` exactly where the client has no such cell. Takes no
    /// memory.
    pub fn pending(&self, cell: CellId) -> Option<PendingEdits<'_>>
        ensures { ForEachHolder self.now (λ n0 m.
            IsPendingOf (found cell (cells (delivered n0 m).book)) result
            (pending_of cell m.pending)) }
    {
        self.book.find(cell)?;
        Some(self.pending_edits(cell))
    }

    /// What is pending for a cell, whether or not the client has it.
    fn pending_edits(&self, cell: CellId) -> PendingEdits<'_>
        ensures { self.now.nothing ≡ [] →
            IsViewOf result (pending_of cell (map pending_in self.now.pending)) }
    {
        let pending = self.pending.as_slice();
        match place_of(pending, cell) {
            None => PendingEdits {
                inflight: None,
                buffer: &self.nothing,
            },
            Some(at) => PendingEdits {
                inflight: Some(&pending[at].flight),
                buffer: &pending[at].buffer,
            },
        }
    }
}

/// A notebook keeps the rules.
fn keeps_rules(book: &Notebook)
    ensures { IsNotebook book.now }
{
    book.parts();
}

/// Moves pending edits, and the server's text under them, over another's delta, which goes first in
/// every tie, and gives the delta moved over what was in flight and then over what was buffered.
fn move_over(alloc: Global, edits: &mut Unconfirmed, delta: &Delta) -> Result<Delta, AllocError>
    ensures moved { IfOk result (λ x. (x ≡ over_pending delta.now (pending_in edits.old))
        × (edits.new ≡ moved_over delta.now edits.new.server edits.old)) }
    ensures server { FitsText delta.now edits.old.server →
        IfOk result (λ _. edits.new.server ≡ text_after delta.now edits.old.server) }
{
    let over_flight = transformed(alloc, &edits.flight, delta, Side::Right)?;
    let flight = transformed(alloc, delta, &edits.flight, Side::Left)?;
    let shown = transformed(alloc, &edits.buffer, &over_flight, Side::Right)?;
    let buffer = transformed(alloc, &over_flight, &edits.buffer, Side::Left)?;
    move_text(alloc, &mut edits.server, delta)?;
    edits.flight = flight;
    edits.buffer = buffer;
    Ok(shown)
}

/// Does a delta to a text. One that doesn't fit, as each of the client's own history does, leaves
/// it.
fn move_text(alloc: Global, text: &mut Text, delta: &Delta) -> Result<(), AllocError>
    ensures { FitsText delta.now text.old → OnOk result (text.new ≡ text_after delta.now text.old) }
{
    match delta.apply(alloc, text) {
        Ok(made) => {
            *text = made;
            Ok(())
        }
        Err(ApplyError::OutOfMemory) => Err(AllocError),
        Err(ApplyError::PastEnd { .. } | ApplyError::SplitsPair { .. }) => Ok(()),
    }
}
