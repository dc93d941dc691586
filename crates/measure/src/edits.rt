//! Applying a small insert in the middle of a text, beside copying the text.
use crate::measured::{Measured, micros_since};
use delta::{Delta, Step};
use std::alloc::{AllocError, Global};
use std::io;
use std::time::{Clock, Instant};
use utf16_text::Text;

/// How many bytes the applied insert made, and the copies.
#[derive(Clone, Copy)]
pub struct Written {
    pub applied: Measured,
    pub copied: Measured,
}

/// Applies an insert of a letter in the middle of a text so many times, and copies the text as often.
pub fn measure<R: Clock>(rt: &R, alloc: Global, text: &str, times: u64) -> io::Result<Written> {
    let text = Text::of(alloc, text)?;
    let Ok(insert) = Delta::from_compact(insert_at(alloc, text.unit_len() / 4 * 2)?) else {
        return Err(unfit());
    };
    let copied = copy(rt, &text, times)?;
    let applied = apply(rt, alloc, &insert, &text, times)?;
    Ok(Written { applied, copied })
}

/// The steps that put a letter in at a place.
fn insert_at(alloc: Global, at: u64) -> Result<Vec<Step>, AllocError> {
    let mut steps = Vec::new(alloc);
    if at > 0 {
        steps.push(Step::Retain(at))?;
    }
    steps.push(Step::Insert(Text::of(alloc, "x")?))?;
    Ok(steps)
}

fn apply<R: Clock>(
    rt: &R,
    alloc: Global,
    delta: &Delta,
    text: &Text,
    times: u64,
) -> io::Result<Measured> {
    let begin = Instant::now(rt)?;
    let mut count: u64 = 0;
    for _ in 0..times {
        let Ok(made) = delta.apply(alloc, text) else {
            return Err(unfit());
        };
        count = count.saturating_add(made.as_str().len() as u64);
    }
    let micros = micros_since(rt, begin)?;
    Ok(Measured { count, micros })
}

fn copy<R: Clock>(rt: &R, text: &Text, times: u64) -> io::Result<Measured> {
    let begin = Instant::now(rt)?;
    let mut count: u64 = 0;
    for _ in 0..times {
        count = count.saturating_add(text.copy()?.as_str().len() as u64);
    }
    let micros = micros_since(rt, begin)?;
    Ok(Measured { count, micros })
}

/// The insert can't be made or doesn't fit: the place is inside a pair, or there is no memory.
fn unfit() -> io::Error {
    io::Error::from(io::ErrorKind::InvalidInput)
}
