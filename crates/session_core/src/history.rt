//! The history, with room for the answer of each evaluation that is out.
ghost use Rattle.std.specs.Prelude.{◌≡◌, ◌<◌, ◌+◌, ◌-◌, [], OnOk, length};
ghost use Rattle.session_core.specs.History.{Appends, HasRoom, KeepsEntries, entries_in};

use session_ops::Entry;
use std::alloc::{AllocError, Global};

/// All that was asked, with the answers, and how many answers are owed.
#[derive(Drop)]
pub(crate) struct History {
    pub(crate) entries: Vec<Entry>,
    pub(crate) owed: usize,
}

impl History {
    /// An empty history: no answer is owed. Takes no memory.
    pub(crate) fn new(alloc: Global) -> History
        ensures entries { entries_in result ≡ [] }
        ensures owed { result.owed ≡ 0 }
        ensures room { HasRoom 0 result }
    {
        History {
            entries: Vec::new(alloc),
            owed: 0,
        }
    }

    /// Makes room for `more` entries beside the answers that are owed.
    pub(crate) fn make_room(&mut self, more: usize) -> Result<(), AllocError>
        ensures kept { KeepsEntries self.old self.new }
        ensures room { OnOk result (HasRoom (self.new.owed + more) self.new) }
    {
        let Some(room) = self.owed.checked_add(more) else {
            return Err(AllocError);
        };
        self.entries.reserve(room)
    }

    /// Appends an entry that owes no answer and is none. Takes no memory.
    pub(crate) fn append(&mut self, entry: Entry)
        requires { HasRoom (self.old.owed + 1) self.old }
        ensures { Appends self.old entry self.old.owed self.new }
    {
        self.entries.push_reserved(entry);
    }

    /// Appends the start of an evaluation: one answer more is owed. Takes no memory.
    pub(crate) fn append_start(&mut self, entry: Entry)
        requires { HasRoom (self.old.owed + 2) self.old }
        ensures { Appends self.old entry (self.old.owed + 1) self.new }
    {
        self.owed += 1;
        self.append(entry);
    }

    /// Appends an answer that is owed, for which there is room. Takes no memory.
    pub(crate) fn append_answer(&mut self, entry: Entry)
        requires owed { 0 < self.old.owed }
        requires room { HasRoom self.old.owed self.old }
        ensures { Appends self.old entry (self.old.owed - 1) self.new }
    {
        self.owed -= 1;
        self.append(entry);
    }

    /// The entries, in order. Takes no memory.
    pub(crate) fn as_slice(&self) -> &[Entry]
        ensures { result.now ≡ entries_in self.now }
    {
        self.entries.as_slice()
    }

    /// How many entries there are. Takes no memory.
    pub(crate) fn len(&self) -> usize
        ensures { result ≡ length (entries_in self.now) }
    {
        self.entries.len()
    }

    /// The entries, when the session is done. Takes no memory.
    pub(crate) fn into_entries(self) -> Vec<Entry>
        ensures { result.items ≡ entries_in self }
    {
        let History { entries, owed: _ } = self;
        entries
    }
}
