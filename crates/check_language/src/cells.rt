//! Cells evaluated by `ex_machine`.
use crate::bindings::outcome_text;
use crate::rows::{around, first_wrong};
use ex_machine::run;
use ex_model::{Bindings, Ran};
use ex_value::{Value, Word};
use std::alloc::Global;

/// Sources with the limit of steps, the value or fault, and the steps.
const CELLS: &[(&str, u64, &str, u64)] = &[
    ("1 + 2", 6, "3", 6),
    ("1 + 2", 5, "too many steps", 5),
    ("", 0, "nil", 0),
    ("x = 2\n(x = x * x) - x", 200_000, "0", 16),
    ("x = 1; y", 200_000, "unbound variable: y", 4),
    (
        "170141183460469231731687303715884105727 + 1",
        200_000,
        "integer too wide",
        3,
    ),
    ("[x]", 200_000, "unbuilt", 0),
];

/// A text some times over, another, a third the same times over, with the limit of steps, the value or
/// fault, and the steps.
const LONG: &[(&str, &str, &str, usize, u64, &str, u64)] = &[
    ("(", "1", ")", 256, 1, "1", 1),
    ("(", "1", ")", 257, 1, "unbuilt", 0),
    (" ", "", "", 1_048_576, 200_000, "nil", 0),
    ("(", "", "", 1_048_576, 200_000, "unbuilt", 0),
    (" ", "", "", 1_048_577, 200_000, "source too long", 0),
    ("9", "", "", 10_000, 200_000, "unbuilt", 0),
    ("1;", "", "", 200_000, 200_000, "1", 200_000),
    ("1;", "", "", 200_001, 200_000, "too many steps", 200_000),
];

/// What a source gives over bindings.
fn ran(alloc: Global, source: &str, base: &Bindings, limit: u64) -> Option<Ran> {
    run(alloc, source, base, limit).ok()
}

/// Whether an evaluation ended so, after so many steps.
fn ended(alloc: Global, ran: &Ran, wanted: &str, steps: u64) -> Option<bool> {
    let text = outcome_text(alloc, &ran.shown.outcome)?;
    Some(text.as_str() == wanted && ran.shown.steps == steps)
}

/// Whether a source ends so over no bindings, after so many steps.
fn ends(alloc: Global, source: &str, limit: u64, wanted: &str, steps: u64) -> Option<bool> {
    let base = Bindings::new(alloc);
    let ran = ran(alloc, source, &base, limit)?;
    ended(alloc, &ran, wanted, steps)
}

pub fn short(alloc: Global) -> Option<usize> {
    for at in 0..CELLS.len() {
        let (source, limit, wanted, steps) = CELLS[at];
        if !ends(alloc, source, limit, wanted, steps)? {
            return Some(at + 1);
        }
    }
    Some(0)
}

pub fn long(alloc: Global) -> Option<usize> {
    for at in 0..LONG.len() {
        let (before, inside, after, times, limit, wanted, steps) = LONG[at];
        let source = around(alloc, before, inside, after, times)?;
        if !ends(alloc, source.as_str(), limit, wanted, steps)? {
            return Some(at + 1);
        }
    }
    Some(0)
}

/// The bindings that a source makes over none.
fn made_by(alloc: Global, source: &str) -> Option<Bindings> {
    let start = Bindings::new(alloc);
    let ran = ran(alloc, source, &start, 200_000)?;
    start.with(&ran.made).ok()
}

/// `n` with the value `nil`.
fn n_is_nil(alloc: Global) -> Option<Bindings> {
    let mut base = Bindings::new(alloc);
    let name = Word::of(alloc, "n").ok()?;
    base.put(name, Value::nil(alloc).ok()?).ok()?;
    Some(base)
}

/// Whether a source ends so over bindings, and binds nothing.
fn ends_over(alloc: Global, base: Bindings, source: &str, wanted: &str) -> Option<bool> {
    let ran = ran(alloc, source, &base, 200_000)?;
    let text = outcome_text(alloc, &ran.shown.outcome)?;
    Some(text.as_str() == wanted && ran.made.as_slice().is_empty())
}

pub fn over_bindings(alloc: Global) -> Option<usize> {
    let rows = [
        ends_over(alloc, made_by(alloc, "x = 2")?, "x * 21", "42")?,
        ends_over(alloc, n_is_nil(alloc)?, "y = 1\nn + 1", "bad argument: +/2")?,
    ];
    Some(first_wrong(rows.as_slice()))
}
