//! What tables share: the first row that is wrong, and long sources.
use std::alloc::Global;

/// The first row that isn't as wanted, counted from 1; 0 where there is none.
pub fn first_wrong(rows: &[bool]) -> usize {
    for at in 0..rows.len() {
        if !rows[at] {
            return at + 1;
        }
    }
    0
}

/// A text so many times.
pub fn repeated(alloc: Global, text: &str, times: usize) -> Option<String> {
    let mut line = String::new(alloc);
    for _ in 0..times {
        line.push_str(text).ok()?;
    }
    Some(line)
}

/// A text so many times, another, and a third as many times.
pub fn around(
    alloc: Global,
    before: &str,
    inside: &str,
    after: &str,
    times: usize,
) -> Option<String> {
    let mut line = repeated(alloc, before, times)?;
    line.push_str(inside).ok()?;
    for _ in 0..times {
        line.push_str(after).ok()?;
    }
    Some(line)
}
