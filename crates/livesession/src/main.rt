//! The program over real files and the standard output: `livesession play BOOK SCRIPT` and
//! `livesession format BOOK`.
//!
//! It makes the real shelf, sink and gate, calls `driver::program`, tells a fault in one line on
//! standard error and ends with the status. Everything else is `driver`'s.
#![tactic(auto)]

ghost use Rattle.std.specs.Prelude.{◌≡◌};

mod fault;

use book_outside::{HostShelf, HostSink, PlainGate};
use driver::{Outcome, RunFault, program};
use fault::Told;
use std::env;
use std::env::Env;
use std::io::ErrorKind;
use std::process::ExitCode;

fn main(rt: HostRuntime) -> ExitCode {
    let outcome = match words(&rt) {
        Ok(words) => program(
            &rt,
            rt.alloc(),
            &words,
            &mut HostShelf::new(&rt),
            &mut HostSink::new(&rt),
            &PlainGate,
        ),
        Err(fault) => ended(fault),
    };
    if let Some(fault) = outcome.fault {
        // The status stands whether the line can be written or not.
        let _ = eprintln!(rt; "livesession: {}", Told { fault });
    }
    ExitCode::from(outcome.status)
}

/// The words after the program's own name. Words that aren't text are a faulty command line.
fn words(rt: &(impl Env + AllocGlobal)) -> Result<Vec<String>, RunFault> {
    match env::args(rt) {
        Ok(all) => match all.skip(1).collect(rt.alloc()) {
            Ok(words) => Ok(words),
            Err(_) => Err(RunFault::OutOfMemory),
        },
        Err(error) if error.kind() == ErrorKind::OutOfMemory => Err(RunFault::OutOfMemory),
        Err(_) => Err(RunFault::Usage),
    }
}

/// A run that ended before it began, for want of memory or by words that aren't text.
fn ended(fault: RunFault) -> Outcome
    ensures fault { result.fault ≡ Some fault }
    ensures report { result.report ≡ None }
{
    let status = if fault == RunFault::OutOfMemory { 7 } else { 1 };
    Outcome {
        status,
        fault: Some(fault),
        report: None,
    }
}
