//! Stories of passes that take turns. Each gives whether all came out as wanted; none where a call
//! was refused.
ghost use Rattle.std.specs.Prelude.{All};
ghost use Rattle.turn.specs.Passes.{Belongs};

use crate::log::{Log, Strike, strokes_in_order};
use crate::strokes::strike_all;
use std::alloc::Global;
use std::sync::Wait;
use std::thread::Threads;
use turn::{Pass, StillOpen, Turns};

/// Whether a log has so many strokes, as many of each of the numbers from 0 on, each in its order.
fn has_strokes(log: &Log, title: u8, numbers: u32, each: u32) -> bool {
    if log.title != title || log.strokes.len() as u64 != numbers as u64 * each as u64 {
        return false;
    }
    for by in 0..numbers {
        if strokes_in_order(log.strokes.as_slice(), by) != each {
            return false;
        }
    }
    true
}

/// Closes the lock, and looks at what is left.
fn closes_with(
    turns: Turns<Log>,
    passes: Vec<Pass<Log>>,
    title: u8,
    numbers: u32,
    each: u32,
) -> Option<bool>
    requires { All (λ p. Belongs p turns) passes.items }
{
    match turns.close(passes) {
        Ok(log) => Some(has_strokes(&log, title, numbers, each)),
        Err(_) => Some(false),
    }
}

pub fn one_turn_each<R: Threads + Wait + Sync>(rt: &R, alloc: Global) -> Option<bool> {
    let (turns, mut passes) = Turns::new(alloc, Log::titled(alloc, 7), 2).ok()?;
    strike_all(rt, &turns, passes.as_mut_slice(), 1);
    let numbered = are_numbered(passes.as_slice());
    Some(closes_with(turns, passes, 7, 2, 1)? && numbered)
}

/// Whether there are two passes, with the numbers 0 and 1, of which one has seen both strokes.
fn are_numbered(passes: &[Pass<Log>]) -> bool {
    match passes {
        [a, b] => a.number() == 0 && b.number() == 1 && a.count().max(b.count()) == 2,
        _ => false,
    }
}

pub fn many_turns<R: Threads + Wait + Sync>(rt: &R, alloc: Global) -> Option<bool> {
    let (turns, mut passes) = Turns::new(alloc, Log::titled(alloc, 1), 4).ok()?;
    strike_all(rt, &turns, passes.as_mut_slice(), 1000);
    closes_with(turns, passes, 1, 4, 1000)
}

/// The first strikes once. What the second is told then, and the length of what it has seen.
fn told_of_a_stroke<R: Wait>(
    rt: &R,
    turns: &Turns<Log>,
    first: &mut Pass<Log>,
    second: &mut Pass<Log>,
) -> (u64, u64)
    requires first { Belongs first.old turns.now }
    requires second { Belongs second.old turns.now }
{
    let _ = turns.with_turn(rt, first, &mut Strike { turn: 0 });
    (turns.newest(second), second.count())
}

pub fn newest<R: Wait>(rt: &R, alloc: Global) -> Option<bool> {
    let (turns, mut passes) = Turns::new(alloc, Log::titled(alloc, 3), 2).ok()?;
    let mut second = passes.pop()?;
    let mut first = passes.pop()?;
    Some(told_of_a_stroke(rt, &turns, &mut first, &mut second) == (1, 0))
}

pub fn missing_pass<R: Threads + Wait + Sync>(rt: &R, alloc: Global) -> Option<bool> {
    let (turns, mut passes) = Turns::new(alloc, Log::titled(alloc, 2), 2).ok()?;
    let kept = passes.pop()?;
    let Err(
        StillOpen {
            turns,
            passes,
            missing,
        },
    ) = turns.close(passes)
    else {
        return Some(false);
    };
    if missing != 1 || passes.len() != 1 || passes[0].number() != 0 {
        return Some(false);
    }
    closes_again(rt, turns, passes, kept)
}

/// With the pass that was missing the lock closes, and each pass has struck once.
fn closes_again<R: Threads + Wait + Sync>(
    rt: &R,
    turns: Turns<Log>,
    passes: Vec<Pass<Log>>,
    kept: Pass<Log>,
) -> Option<bool>
    requires others { All (λ p. Belongs p turns) passes.items }
    requires last { Belongs kept turns }
{
    let mut passes = passes;
    passes.push(kept).ok()?;
    strike_all(rt, &turns, passes.as_mut_slice(), 1);
    closes_with(turns, passes, 2, 2, 1)
}
