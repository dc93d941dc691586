//! A small log behind the lock: each entry tells who struck.
ghost use Rattle.std.specs.Prelude.{◌≡◌, ◌++◌, ◌∷◌, [], length, MatchResult};

use std::alloc::{AllocError, Global};
use turn::{Act, Kept};

/// Who struck, and which of its strokes it was.
#[derive(Clone, Copy)]
pub struct Stroke {
    pub by: u32,
    pub turn: u32,
}

#[derive(Drop)]
pub struct Log {
    pub title: u8,
    pub strokes: Vec<Stroke>,
}

impl Log {
    /// A log without strokes.
    pub fn titled(alloc: Global, title: u8) -> Log
        ensures { result.strokes.items ≡ [] }
    {
        Log {
            title,
            strokes: Vec::new(alloc),
        }
    }
}

impl Kept for Log {
    type Opening = u8;

    type Entry = Stroke;

    ghost opening = { λ l. l.title };

    ghost list = { λ l. l.strokes.items };

    ghost number_of = { λ s. s.by };

    fn count(&self) -> u64 {
        self.strokes.len() as u64
    }
}

/// Adds one stroke.
#[derive(Clone, Copy)]
pub struct Strike {
    pub turn: u32,
}

impl Act<Log> for Strike {
    type Answer = Result<u64, AllocError>;

    ghost condition = { λ _ _ _ _. Unit {0} };

    ghost relation = { λ _ by log before _ answer log'. MatchResult answer (λ n. (log' ≡ log ++ record { by = by; turn = before.turn } ∷ []) × (n ≡ length log')) (λ _. log' ≡ log) };

    fn act(&mut self, by: u32, state: &mut Log) -> Result<u64, AllocError> {
        state.strokes.push(Stroke {
            by,
            turn: self.turn,
        })?;
        Ok(state.count())
    }
}

/// How many strokes stand under the number, or 0 where they are out of order.
pub fn strokes_in_order(strokes: &[Stroke], by: u32) -> u32 {
    let mut next = 0u32;
    for stroke in strokes {
        if stroke.by == by {
            if stroke.turn != next {
                return 0;
            }
            next = next.wrapping_add(1);
        }
    }
    next
}
