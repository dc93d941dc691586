//! Strokes at the lock, by one pass and by all side by side.
ghost use Rattle.std.specs.Prelude.{All};
ghost use Rattle.turn.specs.Passes.{Belongs};

use crate::log::{Log, Strike};
use std::sync::Wait;
use std::thread;
use std::thread::Threads;
use turn::{Pass, Turns};

pub fn strike_often<R: Wait>(rt: &R, turns: &Turns<Log>, pass: &mut Pass<Log>, strokes: u32)
    requires { Belongs pass.old turns.now }
    ensures { Belongs pass.new turns.now }
{
    for turn in 0..strokes {
        let _ = turns.with_turn(rt, pass, &mut Strike { turn });
    }
}

/// Each pass strikes so often, on a thread of its own where there is one.
pub fn strike_all<R: Threads + Wait + Sync>(
    rt: &R,
    turns: &Turns<Log>,
    passes: &mut [Pass<Log>],
    strokes: u32,
)
    requires { All (λ p. Belongs p turns.now) passes.old }
    ensures { All (λ p. Belongs p turns.now) passes.new }
{
    thread::for_each_mut(
        rt,
        passes,
        4,
        &|_, pass: &mut Pass<Log>|
            requires { Belongs pass.old turns.now }
            ensures { Belongs pass.new turns.entry.now }
        { strike_often(rt, turns, pass, strokes) },
    );
}
