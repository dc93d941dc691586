//! Composing and transforming two long deltas.
use crate::measured::{Measured, micros_since};
use delta::{Delta, Side, Step, compose, have_room, transform};
use std::alloc::{AllocError, Global};
use std::io;
use std::time::{Clock, Instant};
use utf16_text::Text;

/// The steps of the composition and of the transformed delta.
#[derive(Clone, Copy)]
pub struct Steps {
    pub composed: Measured,
    pub transformed: Measured,
}

/// As many pairs of a retain of one unit and an insert of a text.
fn long_steps(alloc: Global, pairs: u64, text: &str) -> Result<Vec<Step>, AllocError> {
    let mut steps = Vec::new(alloc);
    for _ in 0..pairs {
        steps.push(Step::Retain(1))?;
        steps.push(Step::Insert(Text::of(alloc, text)?))?;
    }
    Ok(steps)
}

/// Composes and transforms two deltas of so many pairs of steps. Their making isn't measured.
pub fn measure<R: Clock>(rt: &R, alloc: Global, pairs: u64) -> io::Result<Steps> {
    let first = Delta::from_compact(long_steps(alloc, pairs, "x")?);
    let second = Delta::from_compact(long_steps(alloc, pairs, "y")?);
    if let (Ok(a), Ok(b)) = (first, second) {
        if have_room(&a, &b) {
            let begin = Instant::now(rt)?;
            let composed = compose(alloc, &a, &b)?;
            let composed = Measured {
                count: composed.to_compact().len() as u64,
                micros: micros_since(rt, begin)?,
            };
            let begin = Instant::now(rt)?;
            let moved = transform(alloc, &a, &b, Side::Left)?;
            let transformed = Measured {
                count: moved.to_compact().len() as u64,
                micros: micros_since(rt, begin)?,
            };
            return Ok(Steps {
                composed,
                transformed,
            });
        }
    }
    Err(io::Error::from(io::ErrorKind::InvalidInput))
}
