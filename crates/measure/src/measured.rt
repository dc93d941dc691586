//! What came out, and in which time.
use std::io;
use std::time::{Clock, Instant};

/// How many steps or turns came out, and how long that took.
#[derive(Clone, Copy)]
pub struct Measured {
    pub count: u64,
    /// In microseconds.
    pub micros: u64,
}

/// The microseconds since the instant.
pub fn micros_since<R: Clock>(rt: &R, begin: Instant) -> io::Result<u64> {
    let passed = begin.elapsed(rt)?;
    Ok(
        passed
            .as_secs()
            .saturating_mul(1_000_000)
            .saturating_add(passed.subsec_micros() as u64),
    )
}

/// Prints what came out, and the time only where it is wanted.
pub fn tell<R: Print>(rt: &R, what: &str, measured: &Measured, timed: bool) -> io::Result<()> {
    if timed {
        println!(rt; "{what}: {} in {} us", measured.count, measured.micros)
    } else {
        println!(rt; "{what}: {}", measured.count)
    }
}
