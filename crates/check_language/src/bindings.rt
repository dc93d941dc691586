//! Bindings, faults and what an evaluation shows, of `ex_model`.
use crate::rows::first_wrong;
use ex_model::{Bindings, Fault, Outcome, Shown, fault_text};
use ex_value::{Value, Word};
use std::alloc::Global;

/// The value or the fault, as text.
pub fn outcome_text(alloc: Global, outcome: &Outcome) -> Option<Word> {
    match outcome {
        Outcome::Value(value) => value.inspect_text(alloc).ok(),
        Outcome::Fault(fault) => fault_text(alloc, fault).ok(),
    }
}

/// Binds a name to a number.
fn bind(alloc: Global, bindings: &mut Bindings, name: &str, number: i128) -> Option<()> {
    let name = Word::of(alloc, name).ok()?;
    bindings.put(name, Value::Int(number)).ok()
}

/// Whether a name is bound to a number.
fn is_bound(bindings: &Bindings, name: &str, number: i128) -> bool {
    match bindings.get(name) {
        Some(value) => value.equal(&Value::Int(number)),
        None => false,
    }
}

/// `x` and `y`, of which `x` was bound twice.
fn base(alloc: Global) -> Option<Bindings> {
    let mut base = Bindings::new(alloc);
    bind(alloc, &mut base, "x", 1)?;
    bind(alloc, &mut base, "y", 2)?;
    bind(alloc, &mut base, "x", 3)?;
    Some(base)
}

/// These bindings with another value of `y`, copied.
fn with_another(alloc: Global, base: &Bindings) -> Option<Bindings> {
    let mut made = Bindings::new(alloc);
    bind(alloc, &mut made, "y", 4)?;
    let all = base.with(&made).ok()?;
    all.copy().ok()
}

pub fn bound(alloc: Global) -> Option<usize> {
    let base = base(alloc)?;
    let all = with_another(alloc, &base)?;
    let rows = [
        all.as_slice().len() == 2,
        is_bound(&all, "x", 3),
        is_bound(&all, "y", 4),
        all.get("z").is_none(),
    ];
    Some(first_wrong(rows.as_slice()))
}

/// What an evaluation of three steps shows that ends with a fault.
fn faulty(alloc: Global, fault: Fault) -> Option<Shown> {
    Some(Shown {
        printed: Word::of(alloc, "").ok()?,
        outcome: Outcome::Fault(fault),
        steps: 3,
    })
}

/// Whether what an evaluation shows keeps its steps and says its fault so when it is copied.
fn says(alloc: Global, fault: Fault, text: &str) -> Option<bool> {
    let shown = faulty(alloc, fault)?;
    let copy = shown.copy().ok()?;
    let outcome = outcome_text(alloc, &copy.outcome)?;
    Some(outcome.as_str() == text && copy.steps == 3)
}

fn bad_argument(alloc: Global) -> Option<Fault> {
    let name = Word::of(alloc, "+").ok()?;
    Some(Fault::BadArgument { name, arity: 2 })
}

fn unbound_variable(alloc: Global) -> Option<Fault> {
    Some(Fault::UnboundVariable(Word::of(alloc, "y").ok()?))
}

pub fn faults(alloc: Global) -> Option<usize> {
    let rows = [
        says(alloc, bad_argument(alloc)?, "bad argument: +/2")?,
        says(alloc, unbound_variable(alloc)?, "unbound variable: y")?,
    ];
    Some(first_wrong(rows.as_slice()))
}
