//! A shelf and two sinks in memory, for tests and tools.
ghost use Rattle.std.specs.Prelude.{◌≡◌, ◌↔◌, ℕ, List, [], ◌++◌, Option, Some, ◌≤◌, ◌⊎◌, map, take, is_ok, if◌then◌else◌, IfOk, OnOk, OnErr, IsErrOf, IsTrue};
ghost use Rattle.std.specs.Option.{option_copied};
ghost use Rattle.book_outside.specs.Outside.{held_under, one_more, IsListed, IsReadOf, Rose};
ghost use Rattle.book_outside.specs.Memory.{OnShelf, OnSink, OnPlainSink, entry_of, is_listed, found_by, read_fails, after_read, write_fails, after_write};

use crate::outside::{Shelf, ShelfError, Sink, SinkError};
use crate::readings::{NamedRead, fail_last, list_read};
use std::alloc::{AllocError, Global};
use std::marker::Model;

/// A shelf in memory. Of two books of one name the first is held.
#[derive(Debug, Drop)]
pub struct MemoryShelf {
    books: Vec<(String, Vec<u8>)>,
    fail: Vec<u64>,
    reads: Vec<NamedRead>,
    calls: u64,
    faults: u64,
}

impl Model for MemoryShelf {
    ghost use Rattle.std.specs.Prelude.{map};
    ghost use Rattle.book_outside.specs.Memory.{OnShelf, entry_of};
    ghost use Rattle.book_outside.specs.Readings.{readings_of};

    ghost Value = { OnShelf };

    ghost view = { λ s.
        record {
          books = map entry_of s.books.items;
          fail = s.fail.items;
          readings = readings_of s.reads.items;
          calls = s.calls;
          faults = s.faults;
        } };
}

impl MemoryShelf {
    /// A shelf that holds these books. The calls of `read` that `fail` lists, counted from 1, fail.
    /// It was asked for nothing and has not failed yet. Takes no memory.
    pub fn new(books: Vec<(String, Vec<u8>)>, fail: Vec<u64>) -> MemoryShelf
        ensures { result
            ≡ record {
              books = map entry_of books.items;
              fail = fail.items;
              readings = [];
              calls = 0;
              faults = 0;
            } }
    {
        let reads = Vec::new(*books.allocator());
        MemoryShelf {
            books,
            fail,
            reads,
            calls: 0,
            faults: 0,
        }
    }
}

impl Shelf for MemoryShelf {
    ghost held = { λ s. Some s.books };

    ghost reads = { λ s. s.readings };

    ghost faults = { λ s. s.faults };

    /// Fails exactly at the calls to fail and where no book has the name, and counts just these; but
    /// where there is no memory to list the read, it answers so and leaves all as it was.
    fn read(&mut self, alloc: Global, name: &str, most: u64) -> Result<Vec<u8>, ShelfError>
        ensures after { (self.new ≡ after_read self.old name.now)
            ⊎ ((self.new ≡ self.old) × IsErrOf result ShelfError.OutOfMemory) }
        ensures fails { IsTrue (read_fails self.old name.now)
            → IsErrOf result ShelfError.Failed
            ⊎ ((self.new ≡ self.old) × IsErrOf result ShelfError.OutOfMemory) }
        ensures only { IsErrOf result ShelfError.Failed → IsTrue (read_fails self.old name.now) }
        ensures front { IfOk result (IsReadOf (Some self.old.books) name.now most) }
        ensures same { self.new.books ≡ self.old.books }
        ensures listed { IsListed self.old.readings name.now self.new.readings result }
        ensures counts { self.old.faults ≤ self.new.faults }
        ensures failed { IsErrOf result ShelfError.Failed → Rose self.old.faults self.new.faults }
    {
        list_read(&mut self.reads, alloc, name)?;
        self.calls = self.calls.saturating_add(1);
        match unless_listed(&self.books, &self.fail, self.calls, name) {
            Some(bytes) => Ok(front_of(bytes, most).to_vec(alloc)?),
            None => {
                fail_last(&mut self.reads);
                self.faults = self.faults.saturating_add(1);
                Err(ShelfError::Failed)
            }
        }
    }
}

/// The bytes of the first book that has the name, unless the call is listed.
fn unless_listed<'a>(
    books: &'a [(String, Vec<u8>)],
    fail: &[u64],
    call: u64,
    name: &str,
) -> Option<&'a [u8]>
    ensures { option_copied result ≡ found_by fail.now call name.now (map entry_of books.now) }
{
    if is_listed(fail, call) {
        return None;
    }
    book_of(books, name)
}

/// Whether the call of that number is one that fails.
fn is_listed(fail: &[u64], call: u64) -> bool
    ensures { result ≡ is_listed fail.now call }
{
    fail.contains(&call)
}

/// The bytes of the first book that has the name.
fn book_of<'a>(books: &'a [(String, Vec<u8>)], name: &str) -> Option<&'a [u8]>
    ensures { option_copied result ≡ held_under name.now (map entry_of books.now) }
{
    for (held, bytes) in books {
        if held.as_str() == name {
            return Some(bytes.as_slice());
        }
    }
    None
}

/// The first `most` of the bytes, or all where there are fewer.
fn front_of(bytes: &[u8], most: u64) -> &[u8]
    ensures { result.now ≡ take most bytes.now }
{
    if (bytes.len() as u64) < most {
        bytes
    } else {
        &bytes[..most as usize]
    }
}

/// A sink in memory that keeps what was written.
#[derive(Debug, Drop)]
pub struct MemorySink {
    bytes: Vec<u8>,
    fail: Vec<u64>,
    calls: u64,
    faults: u64,
}

impl Model for MemorySink {
    ghost use Rattle.book_outside.specs.Memory.{OnSink};

    ghost Value = { OnSink };

    ghost view = { λ s. record { bytes = s.bytes.items; fail = s.fail.items; calls = s.calls; faults = s.faults } };
}

impl MemorySink {
    /// An empty sink. The calls of `write` that `fail` lists, counted from 1, fail and write
    /// nothing. It has not failed yet. Takes no memory.
    pub fn new(alloc: Global, fail: Vec<u64>) -> MemorySink
        ensures { result ≡ record { bytes = []; fail = fail.items; calls = 0; faults = 0 } }
    {
        MemorySink {
            bytes: Vec::new(alloc),
            fail,
            calls: 0,
            faults: 0,
        }
    }

    /// The bytes that were written.
    pub fn bytes(&self) -> &[u8]
        ensures { result.now ≡ self.now.bytes }
    {
        self.bytes.as_slice()
    }
}

impl Sink for MemorySink {
    ghost written = { λ s. Some s.bytes };

    ghost writes = { λ s. s.calls };

    ghost faults = { λ s. s.faults };

    /// Fails exactly at the listed calls, counts just these, and then writes nothing.
    fn write(&mut self, bytes: &[u8]) -> Result<(), SinkError>
        ensures after { self.new ≡ after_write self.old (if is_ok result then bytes.now else []) }
        ensures fails { IsTrue (write_fails self.old) → IsErrOf result SinkError.Failed }
        ensures only { IsErrOf result SinkError.Failed → IsTrue (write_fails self.old) }
        ensures appended { OnOk result (self.new.bytes ≡ self.old.bytes ++ bytes.now) }
        ensures nothing { OnErr result (self.new.bytes ≡ self.old.bytes) }
        ensures asked { self.new.calls ≡ one_more self.old.calls }
        ensures counts { self.old.faults ≤ self.new.faults }
        ensures failed { IsErrOf result SinkError.Failed → Rose self.old.faults self.new.faults }
    {
        self.calls = self.calls.saturating_add(1);
        if is_listed(&self.fail, self.calls) {
            self.faults = self.faults.saturating_add(1);
            return Err(SinkError::Failed);
        }
        self.bytes.extend_from_slice(bytes)?;
        Ok(())
    }
}

/// A sink in memory that never fails.
#[derive(Debug, Drop)]
pub struct NoFaultSink {
    bytes: Vec<u8>,
    calls: u64,
}

impl Model for NoFaultSink {
    ghost use Rattle.book_outside.specs.Memory.{OnPlainSink};

    ghost Value = { OnPlainSink };

    ghost view = { λ s. record { bytes = s.bytes.items; calls = s.calls } };
}

impl NoFaultSink {
    /// An empty sink. Takes no memory.
    pub fn new(alloc: Global) -> NoFaultSink
        ensures { result ≡ record { bytes = []; calls = 0 } }
    {
        NoFaultSink {
            bytes: Vec::new(alloc),
            calls: 0,
        }
    }

    /// The bytes that were written.
    pub fn bytes(&self) -> &[u8]
        ensures { result.now ≡ self.now.bytes }
    {
        self.bytes.as_slice()
    }
}

impl Sink for NoFaultSink {
    ghost written = { λ s. Some s.bytes };

    ghost writes = { λ s. s.calls };

    ghost faults = { λ _. 0 };

    /// Only want of memory is an error.
    fn write(&mut self, bytes: &[u8]) -> Result<(), SinkError>
        ensures appended { OnOk result (self.new.bytes ≡ self.old.bytes ++ bytes.now) }
        ensures nothing { OnErr result (self.new.bytes ≡ self.old.bytes) }
        ensures memory_only { OnErr result (IsErrOf result SinkError.OutOfMemory) }
        ensures asked { self.new.calls ≡ one_more self.old.calls }
    {
        self.calls = self.calls.saturating_add(1);
        self.bytes.extend_from_slice(bytes)?;
        Ok(())
    }
}
