//! What an entry did to the notebook, and doing it to a notebook.
ghost use Rattle.std.specs.Prelude.{◌≡◌, Some, IfOk, OnErr, OnOk};
ghost use Rattle.delta.specs.Moves.{FitsText, text_after};
ghost use Rattle.notebook.specs.declared.parts.Cell.{Cell};
ghost use Rattle.notebook.specs.Rules.{IsNotebook};
ghost use Rattle.notebook.specs.Book.{cells, found};
ghost use Rattle.session_ops.specs.Deeds.{CanBeDone, Changes, FitsCell, book_after, deed, deed_in, noted};
ghost use Rattle.session_ops.specs.Next.{IsNextOf};
ghost use Rattle.session_ops.specs.State.{State, after};

use crate::entry::{Call, Entry, Op, Reply};
use delta::{ApplyError, Delta};
use notebook::{CellId, Change, NoteError, Notebook};
use std::alloc::{AllocError, Global};
use utf16_text::Text;

/// A client's delta that a cell's source took: as it was applied, and the revision that it made.
#[derive(Clone, Copy, Debug)]
pub struct CellEdit<'a> {
    pub client: u32,
    pub cell: CellId,
    pub rev: u64,
    pub delta: &'a Delta,
}

/// What an entry did to the notebook.
#[derive(Debug, Drop)]
pub enum Deed<'a> {
    /// It left the notebook alone.
    Nothing,
    /// It edited a cell's source.
    Edits(CellEdit<'a>),
    /// It changed the structure.
    Changes(Change),
}

impl Entry {
    /// What the entry did to the notebook.
    pub fn deed(&self) -> Result<Deed<'_>, AllocError>
        ensures { IfOk result (λ did. deed_in did ≡ deed self.now.call self.now.reply) }
    {
        match (&self.call, &self.reply) {
            (Call::Client { .. }, Reply::Refused(_)) => Ok(Deed::Nothing),
            (
                Call::Client {
                    client,
                    op: Op::Delta { cell, .. },
                },
                Reply::Applied { rev, delta },
            ) => Ok(Deed::Edits(CellEdit {
                client: *client,
                cell: *cell,
                rev: *rev,
                delta,
            })),
            (Call::Client { op, .. }, _) => match op.change()? {
                None => Ok(Deed::Nothing),
                Some(asked) => Ok(Deed::Changes(asked)),
            },
            _ => Ok(Deed::Nothing),
        }
    }

    /// Does to the notebook before this entry what the entry did: it is the notebook after it then. After
    /// want of memory the notebook is as it was.
    pub fn note(&self, alloc: Global, book: &mut Notebook) -> Result<(), AllocError>
        ensures noted { (s : State) → IsNextOf s book.old self.now →
            OnOk result (book.new ≡ (after s self.now).book) }
        ensures err { OnErr result (book.new ≡ book.old) }
    {
        self.deed()?.note(alloc, book)
    }
}

impl Deed<'_> {
    /// Does it to a notebook. What can't be done, as each deed of a session's next entry can, leaves it,
    /// and so does want of memory.
    pub fn note(self, alloc: Global, book: &mut Notebook) -> Result<(), AllocError>
        ensures noted { CanBeDone (deed_in self.entry) book.old →
            OnOk result (book.new ≡ noted (deed_in self.entry) book.old) }
        ensures err { OnErr result (book.new ≡ book.old) }
    {
        match self {
            Deed::Nothing => Ok(()),
            Deed::Edits(edit) => edit_source(alloc, book, edit.cell, edit.delta),
            Deed::Changes(asked) => change(alloc, book, asked),
        }
    }
}

/// Does a delta to a cell's source. One that doesn't fit leaves it, and so does want of memory.
pub fn edit_source(
    alloc: Global,
    book: &mut Notebook,
    cell: CellId,
    delta: &Delta,
) -> Result<(), AllocError>
    ensures edited { FitsCell book.old cell delta.now →
        OnOk result (book.new ≡ book_after cell delta.now book.old) }
    ensures err { OnErr result (book.new ≡ book.old) }
{
    keeps_rules(book);
    let Some(text) = edited(alloc, book, cell, delta)? else {
        return Ok(());
    };
    book.set_source(cell, text);
    Ok(())
}

/// What a delta makes of a cell's source; `None` where there is no such cell or the delta doesn't fit.
fn edited(
    alloc: Global,
    book: &Notebook,
    cell: CellId,
    delta: &Delta,
) -> Result<Option<Text>, AllocError>
    ensures { (own : Cell) → found cell (cells book.now) ≡ Some own → FitsText delta.now own.source
        →
        IfOk result (λ text. text ≡ Some (text_after delta.now own.source)) }
{
    let Some(own) = book.find(cell) else {
        return Ok(None);
    };
    match delta.apply(alloc, &own.source) {
        Ok(text) => Ok(Some(text)),
        Err(ApplyError::OutOfMemory) => Err(AllocError),
        Err(ApplyError::PastEnd { .. } | ApplyError::SplitsPair { .. }) => Ok(None),
    }
}

/// Makes a change of the structure. One that is refused leaves the notebook, and so does want of memory.
fn change(alloc: Global, book: &mut Notebook, asked: Change) -> Result<(), AllocError>
    ensures made { OnOk result (book.new ≡ noted (Changes asked) book.old) }
    ensures err { OnErr result (book.new ≡ book.old) }
{
    if !book.has_numbers() {
        return Err(AllocError);
    }
    match book.change(alloc, asked) {
        Ok(_) => Ok(()),
        Err(NoteError::OutOfMemory) => Err(AllocError),
        Err(_) => Ok(()),
    }
}

/// A notebook keeps the rules.
fn keeps_rules(book: &Notebook)
    ensures { IsNotebook book.now }
{
    book.parts();
}
