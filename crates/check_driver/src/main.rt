//! Plays runs of the whole program over files in memory, some of which fail, and looks at status and report.
//!
//! It prints a line a table: `runs are told: ok`, the number of the first row that isn't as wanted, or that a call was
//! refused. The file `stdout` beside it has what it must print. What a book and a script can tell stands in the tables of
//! `scripts/`, which the built program plays; here stands what they can't.
#![tactic(auto)]

mod answer;
mod runs;

use answer::{Answer, first_wrong};
use std::io;

fn main(rt: HostRuntime) -> io::Result<()> {
    let alloc = rt.alloc();
    tell(&rt, "runs are told", runs::tried(&rt, alloc))?;
    tell(
        &rt,
        "a delta is moved",
        first_wrong(&[runs::moved(&rt, alloc)]),
    )
}

/// Prints what came of a table.
fn tell(rt: &impl Print, name: &str, answer: Answer) -> io::Result<()> {
    match answer {
        Answer::Right => println!(rt; "{name}: ok"),
        Answer::Wrong { row } => println!(rt; "{name}: row {row}"),
        Answer::Refused => println!(rt; "{name}: a call was refused"),
    }
}
