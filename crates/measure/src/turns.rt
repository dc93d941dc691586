//! Turns of several threads at the turn lock, and the same loop at a mutex.
ghost use Rattle.std.specs.Prelude.{◌≡◌, ◌++◌, ◌∷◌, [], All, MatchResult};
ghost use Rattle.turn.specs.Passes.{Belongs};

use crate::measured::{Measured, micros_since};
use crate::words::Crew;
use std::alloc::{AllocError, Global};
use std::sync::{Mutex, Wait};
use std::thread::Threads;
use std::time::{Clock, Instant};
use std::{io, thread};
use turn::{Act, Kept, Pass, Turns};

/// Each entry is the number of the thread whose turn it was.
#[derive(Drop)]
struct Tally {
    entries: Vec<u32>,
}

impl Kept for Tally {
    type Opening = ();

    type Entry = u32;

    ghost opening = { λ _. tt };

    ghost list = { λ t. t.entries.items };

    ghost number_of = { λ e. e };

    fn count(&self) -> u64 {
        self.entries.len() as u64
    }
}

/// Adds one entry.
#[derive(Clone, Copy)]
struct Strike;

impl Act<Tally> for Strike {
    type Answer = Result<(), AllocError>;

    ghost condition = { λ _ _ _ _. Unit {0} };

    ghost relation = { λ _ by log _ _ answer log'. MatchResult answer (λ _. log' ≡ log ++ by ∷ []) (λ _. log' ≡ log) };

    fn act(&mut self, by: u32, state: &mut Tally) -> Result<(), AllocError> {
        state.entries.push(by)?;
        Ok(())
    }
}

fn take_turns<R: Wait>(rt: &R, lock: &Turns<Tally>, pass: &mut Pass<Tally>, turns: u32)
    requires { Belongs pass.old lock.now }
    ensures { Belongs pass.new lock.now }
{
    for _ in 0..turns {
        let _ = lock.with_turn(rt, pass, &mut Strike);
    }
}

fn take_all_turns<R: Threads + Wait + Sync>(
    rt: &R,
    lock: &Turns<Tally>,
    passes: &mut [Pass<Tally>],
    crew: Crew,
)
    requires belong { All (λ p. Belongs p lock.now) passes.old }
    ensures { All (λ p. Belongs p lock.now) passes.new }
{
    thread::for_each_mut(
        rt,
        passes,
        crew.threads as usize,
        &|_, pass: &mut Pass<Tally>|
            requires { Belongs pass.old lock.now }
            ensures { Belongs pass.new lock.entry.now }
        { take_turns(rt, lock, pass, crew.turns) },
    );
}

/// The turns of all threads at the turn lock.
pub fn at_the_turn_lock<R: Threads + Wait + Sync + Clock>(
    rt: &R,
    alloc: Global,
    crew: Crew,
) -> io::Result<Measured> {
    let tally = Tally {
        entries: Vec::new(alloc),
    };
    let (lock, mut passes) = Turns::new(alloc, tally, crew.threads)?;
    let begin = Instant::now(rt)?;
    take_all_turns(rt, &lock, passes.as_mut_slice(), crew);
    let micros = micros_since(rt, begin)?;
    let Ok(tally) = lock.close(passes) else {
        unreachable!()
    };
    Ok(Measured {
        count: tally.count(),
        micros,
    })
}

fn lock_often<R: Wait>(rt: &R, entries: &Mutex<Vec<u32>>, by: u32, turns: u32) {
    for _ in 0..turns {
        let _ = entries.lock(rt).push(by);
    }
}

/// The same at a mutex.
pub fn at_a_mutex<R: Threads + Wait + Sync + Clock>(
    rt: &R,
    alloc: Global,
    crew: Crew,
) -> io::Result<Measured> {
    let mut numbers = Vec::new(alloc);
    for number in 0..crew.threads {
        numbers.push(number)?;
    }
    let entries = Mutex::new(Vec::new(alloc));
    let begin = Instant::now(rt)?;
    thread::for_each_mut(
        rt,
        numbers.as_mut_slice(),
        crew.threads as usize,
        &|_, number: &mut u32| lock_often(rt, &entries, *number, crew.turns),
    );
    let micros = micros_since(rt, begin)?;
    Ok(Measured {
        count: entries.into_inner().len() as u64,
        micros,
    })
}
