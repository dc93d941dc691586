//! What a client is given when it joins.
ghost use Rattle.std.specs.Prelude.{◌≡◌};
ghost use Rattle.session_ops.specs.Snapshot.{ListsLiveCells};

use notebook::{CellId, Notebook};
use plain_list::Items;
use std::marker::Model;

/// A session's notebook at one moment, with the revision of each live cell, the setup cell among
/// them, each once and in any order; and the number of entries that the history had.
#[derive(Debug, Drop)]
pub struct Snapshot {
    book: Notebook,
    revs: Items<(CellId, u64)>,
    cursor: u64,
}

impl Model for Snapshot {
    ghost use Rattle.session_ops.specs.Snapshot.{ListsLiveCells, Snapshot as Moment};

    ghost Value = { Moment };

    ghost view = { λ x. record { book = x.book; revs = x.revs; cursor = x.cursor } };

    ghost invariant = { λ x. ListsLiveCells x.book x.revs };
}

impl Snapshot {
    /// The snapshot of a notebook, the revisions of its live cells, and the number of entries. Takes
    /// no memory.
    pub fn of(book: Notebook, revs: Items<(CellId, u64)>, cursor: u64) -> Snapshot
        requires { ListsLiveCells book revs }
        ensures { result ≡ record { book = book; revs = revs; cursor = cursor } }
    {
        Snapshot { book, revs, cursor }
    }

    /// The notebook. Takes no memory.
    pub fn book(&self) -> &Notebook
        ensures { result.now ≡ self.now.book }
    {
        &self.book
    }

    /// The live cells with their revisions, in any order. Takes no memory.
    pub fn revs(&self) -> &[(CellId, u64)]
        ensures revs { result.now ≡ self.now.revs }
        ensures live { ListsLiveCells self.now.book result.now }
    {
        self.revs.as_slice()
    }

    /// The number of entries. Takes no memory.
    pub fn cursor(&self) -> u64
        ensures { result ≡ self.now.cursor }
    {
        self.cursor
    }

    /// The notebook, the live cells with their revisions, and the number of entries. Takes no memory.
    pub fn into_parts(self) -> (Notebook, Items<(CellId, u64)>, u64)
        ensures parts { result ≡ (self.book, self.revs, self.cursor) }
        ensures live { ListsLiveCells self.book self.revs }
    {
        (self.book, self.revs, self.cursor)
    }
}
