//! Files and the standard output. Of their content no meaning is told: that they behave so isn't
//! proved.
ghost use Rattle.std.specs.Prelude.{◌≡◌, ◌≤◌, [], None, IfOk, OnOk, OnErr, IsErrOf};
ghost use Rattle.book_outside.specs.Outside.{one_more, faults_after, Rose, IsListed, IsReadOf, AppendsAll};
ghost use Rattle.book_outside.specs.Readings.{readings_of};

use crate::outside::{Shelf, ShelfError, Sink, SinkError};
use crate::readings::{NamedRead, fail_last, list_read};
use std::alloc::Global;
use std::fs::File;
use std::io;
use std::io::{ErrorKind, Print, Read};
use std::marker::Model;
use std::rt::Files;

/// The files that the program can open, by their paths. Each error is counted as a fault.
#[derive(Drop)]
pub struct HostShelf<'a, R: Files> {
    rt: &'a R,
    reads: Vec<NamedRead>,
    faults: u64,
}

impl<'a, R: Files> Model for HostShelf<'a, R> {
    ghost use Rattle.book_outside.specs.Host.{OnFiles};
    ghost use Rattle.book_outside.specs.Readings.{readings_of};

    ghost Value = { OnFiles };

    ghost view = { λ s. record { readings = readings_of s.reads.items; faults = s.faults } };
}

impl<'a, R: Files + AllocGlobal> HostShelf<'a, R> {
    /// A shelf that was asked for nothing and has not failed yet. Takes no memory.
    pub fn new(rt: &'a R) -> HostShelf<'a, R>
        ensures { result ≡ record { readings = []; faults = 0 } }
    {
        HostShelf {
            rt,
            reads: Vec::new(rt.alloc()),
            faults: 0,
        }
    }
}

impl<R: Files> Shelf for HostShelf<'_, R> {
    ghost held = { λ _. None };

    ghost reads = { λ s. s.readings };

    ghost faults = { λ s. s.faults };

    /// Reads the file of that path. A missing file, a folder and a file that can't be read are
    /// faults. Where there is no memory to list the read, no file is touched.
    fn read(&mut self, alloc: Global, name: &str, most: u64) -> Result<Vec<u8>, ShelfError>
        // It isn't told what is held, so nothing is said of the bytes.
        ensures untold { IfOk result (IsReadOf None name.now most) }
        ensures listed { IsListed self.old.readings name.now self.new.readings result }
        ensures faults { self.new.faults ≡ faults_after result self.old.faults }
        ensures counts { self.old.faults ≤ self.new.faults }
        ensures failed { IsErrOf result ShelfError.Failed → Rose self.old.faults self.new.faults }
    {
        match listed_front(self.rt, &mut self.reads, alloc, name, most) {
            Ok(bytes) => Ok(bytes),
            Err(error) => {
                self.faults = self.faults.saturating_add(1);
                Err(error)
            }
        }
    }
}

/// Lists the read of a file, and gives its first `most` bytes, or all where there are fewer.
fn listed_front<R: Files>(
    rt: &R,
    reads: &mut Vec<NamedRead>,
    alloc: Global,
    path: &str,
    most: u64,
) -> Result<Vec<u8>, ShelfError>
    ensures { IsListed (readings_of reads.old.items) path.now (readings_of reads.new.items) result }
{
    list_read(reads, alloc, path)?;
    match file_front(rt, alloc, path, most) {
        Ok(bytes) => Ok(bytes),
        Err(error) => {
            if error.kind() == ErrorKind::OutOfMemory {
                return Err(ShelfError::OutOfMemory);
            }
            fail_last(reads);
            Err(ShelfError::Failed)
        }
    }
}

/// The first `most` bytes of a file, or all where there are fewer.
fn file_front<R: Files>(rt: &R, alloc: Global, path: &str, most: u64) -> io::Result<Vec<u8>> {
    let mut bytes = Vec::new(alloc);
    File::open(rt, path)?.take(most).read_to_end(&mut bytes)?;
    Ok(bytes)
}

/// The standard output. Each error is counted as a fault.
#[derive(Drop)]
pub struct HostSink<'a, R: Print> {
    rt: &'a R,
    calls: u64,
    faults: u64,
}

impl<'a, R: Print> Model for HostSink<'a, R> {
    ghost use Rattle.book_outside.specs.Host.{OnOutput};

    ghost Value = { OnOutput };

    ghost view = { λ s. record { calls = s.calls; faults = s.faults } };
}

impl<'a, R: Print> HostSink<'a, R> {
    /// A sink that was asked for nothing and has not failed yet.
    pub fn new(rt: &'a R) -> HostSink<'a, R>
        ensures { result ≡ record { calls = 0; faults = 0 } }
    {
        HostSink {
            rt,
            calls: 0,
            faults: 0,
        }
    }
}

impl<R: Print> Sink for HostSink<'_, R> {
    ghost written = { λ _. None };

    ghost writes = { λ s. s.calls };

    ghost faults = { λ s. s.faults };

    /// Writes to the standard output. A closed one and a full disk are faults.
    fn write(&mut self, bytes: &[u8]) -> Result<(), SinkError>
        // It isn't told what is written, so nothing is said of the bytes.
        ensures untold { OnOk result (AppendsAll None bytes.now None) }
        ensures asked { self.new.calls ≡ one_more self.old.calls }
        ensures faults { self.new.faults ≡ faults_after result self.old.faults }
        ensures never_memory { OnErr result (IsErrOf result SinkError.Failed) }
        ensures counts { self.old.faults ≤ self.new.faults }
        ensures failed { IsErrOf result SinkError.Failed → Rose self.old.faults self.new.faults }
    {
        self.calls = self.calls.saturating_add(1);
        match self.rt.write_all(bytes) {
            Ok(()) => Ok(()),
            Err(_) => {
                self.faults = self.faults.saturating_add(1);
                Err(SinkError::Failed)
            }
        }
    }
}
