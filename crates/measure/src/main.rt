//! What applying, composing and transforming deltas, reading sources and taking turns cost: `scripts/bench` starts this program with growing numbers.
//!
//! Without words it does each once at a small size, and prints only what comes out, which is the same at every run.
//! `edits TIMES` applies an insert in the middle of the text of standard input that many times, and copies the text as often.
//! `deltas PAIRS` composes and transforms two deltas of that many pairs of steps. `turns THREADS TURNS` takes that many
//! turns on each thread, at the turn lock and at a mutex. `source` reads a source of a cell from standard input as trees.
//! These four print microseconds too.
#![tactic(auto)]

mod deltas;
mod edits;
mod measured;
mod sources;
mod turns;
mod words;

use measured::tell;
use sources::Reading;
use std::alloc::Global;
use std::process::ExitCode;
use std::sync::Wait;
use std::thread::Threads;
use std::time::Clock;
use std::{env, io};
use words::{Crew, Task, task_of};

fn main(rt: HostRuntime) -> io::Result<ExitCode> {
    let alloc = rt.alloc();
    let words: Vec<String> = env::args(&rt)?.collect(alloc)?;
    match task_of(&words) {
        Some(task) => {
            run(&rt, alloc, task)?;
            Ok(ExitCode::from(0))
        }
        None => {
            eprintln!(rt;
                "usage: measure [edits TIMES | deltas PAIRS | source | turns THREADS TURNS]"
            )?;
            Ok(ExitCode::from(1))
        }
    }
}

fn run<R: Threads + Wait + Sync + Clock + Print + Input>(
    rt: &R,
    alloc: Global,
    task: Task,
) -> io::Result<()> {
    match task {
        Task::Small { crew } => {
            run_edits(rt, alloc, "a text", 10, false)?;
            run_deltas(rt, alloc, 500, false)?;
            run_source(rt, alloc, "x = [1, 2]; Enum.sum(x)", false)?;
            run_turns(rt, alloc, crew, false)?;
            Ok(())
        }
        Task::Edits { times } => {
            let text = io::read_to_string(alloc, rt.reader())?;
            run_edits(rt, alloc, text.as_str(), times, true)
        }
        Task::Deltas { pairs } => run_deltas(rt, alloc, pairs, true),
        Task::Source => {
            let source = io::read_to_string(alloc, rt.reader())?;
            run_source(rt, alloc, source.as_str(), true)
        }
        Task::Turns { crew } => run_turns(rt, alloc, crew, true),
    }
}

fn run_edits<R: Clock + Print>(
    rt: &R,
    alloc: Global,
    text: &str,
    times: u64,
    timed: bool,
) -> io::Result<()> {
    let written = edits::measure(rt, alloc, text, times)?;
    tell(rt, "bytes made by an insert", &written.applied, timed)?;
    tell(rt, "bytes copied", &written.copied, timed)?;
    Ok(())
}

fn run_deltas<R: Clock + Print>(rt: &R, alloc: Global, pairs: u64, timed: bool) -> io::Result<()> {
    let steps = deltas::measure(rt, alloc, pairs)?;
    tell(rt, "composed steps", &steps.composed, timed)?;
    tell(rt, "transformed steps", &steps.transformed, timed)?;
    Ok(())
}

fn run_source<R: Threads + Wait + Sync + Clock + Print>(
    rt: &R,
    alloc: Global,
    source: &str,
    timed: bool,
) -> io::Result<()> {
    match sources::measure(rt, alloc, source)? {
        Reading::Read(nodes) => tell(rt, "nodes", &nodes, timed),
        Reading::Refused(at) => tell(rt, "refused at byte", &at, timed),
    }
}

fn run_turns<R: Threads + Wait + Sync + Clock + Print>(
    rt: &R,
    alloc: Global,
    crew: Crew,
    timed: bool,
) -> io::Result<()> {
    let turn_lock = turns::at_the_turn_lock(rt, alloc, crew)?;
    tell(rt, "turns at the turn lock", &turn_lock, timed)?;
    let mutex = turns::at_a_mutex(rt, alloc, crew)?;
    tell(rt, "turns at a mutex", &mutex, timed)?;
    Ok(())
}
