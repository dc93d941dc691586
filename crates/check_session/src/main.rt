//! Plays tables of steps and scripts through the public calls of sessions, and of worlds with their clients.
//!
//! It prints a line a table: `sessions go on: ok`, the number of the first row that isn't as wanted, or that a call was
//! refused. The file `stdout` beside it has what it must print. What a book and a script can tell stands in the tables of
//! `scripts/`, which the built program plays; here stands what they can't.
#![tactic(auto)]

mod answer;
mod books;
mod calls;
mod events;
mod stories;
mod worlds;

use answer::{Answer, first_wrong};
use std::io;

fn main(rt: HostRuntime) -> io::Result<()> {
    let alloc = rt.alloc();
    tell(&rt, "sessions go on", calls::tried(alloc))?;
    tell(
        &rt,
        "a history is given",
        first_wrong(&[calls::history(alloc)]),
    )?;
    tell(&rt, "worlds come out", worlds::tried(alloc))
}

/// Prints what came of a table.
fn tell(rt: &impl Print, name: &str, answer: Answer) -> io::Result<()> {
    match answer {
        Answer::Right => println!(rt; "{name}: ok"),
        Answer::Wrong { row } => println!(rt; "{name}: row {row}"),
        Answer::Refused => println!(rt; "{name}: a call was refused"),
    }
}
