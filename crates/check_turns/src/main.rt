//! Plays stories of the turn lock through its public calls, on one thread and on four, and prints a
//! line for each: `ok`, `not as wanted`, or that a call was refused. What is wanted was worked out by
//! hand, and is the same whatever the threads' order.
#![tactic(auto)]

mod log;
mod stories;
mod strokes;

use std::io;

fn main(rt: HostRuntime) -> io::Result<()> {
    let alloc = rt.alloc();
    tell(
        &rt,
        "two passes take a turn each",
        stories::one_turn_each(&rt, alloc),
    )?;
    tell(
        &rt,
        "four threads take a thousand turns each",
        stories::many_turns(&rt, alloc),
    )?;
    tell(&rt, "the newest needs no turn", stories::newest(&rt, alloc))?;
    tell(
        &rt,
        "a lock stays open while a pass is missing",
        stories::missing_pass(&rt, alloc),
    )
}

/// Prints what came of a story.
fn tell<R: Print>(rt: &R, name: &str, answer: Option<bool>) -> io::Result<()> {
    match answer {
        Some(true) => println!(rt; "{name}: ok"),
        Some(false) => println!(rt; "{name}: not as wanted"),
        None => println!(rt; "{name}: a call was refused"),
    }
}
