//! Integers and atoms of `ex_value`.
use crate::rows::first_wrong;
use ex_value::{Value, Word};
use std::alloc::Global;
use std::cmp::Ordering;

fn atom(alloc: Global, text: &str) -> Option<Value> {
    Some(Value::Atom(Word::of(alloc, text).ok()?.copy().ok()?))
}

fn nil(alloc: Global) -> Option<Value> {
    Value::nil(alloc).ok()
}

/// Whether the copy of a value is written in sources and shown to readers as these.
fn is_shown(alloc: Global, value: Value, written: &str, shown: &str) -> Option<bool> {
    let copy = value.copy().ok()?;
    let inspected = copy.inspect_text(alloc).ok()?;
    let displayed = copy.display_text(alloc).ok()?;
    Some(inspected.as_str() == written && displayed.as_str() == shown)
}

pub fn shown(alloc: Global) -> Option<usize> {
    let least = "-170141183460469231731687303715884105728";
    let rows = [
        is_shown(alloc, Value::Int(i128::MIN), least, least)?,
        is_shown(alloc, Value::Int(7), "7", "7")?,
        is_shown(alloc, nil(alloc)?, "nil", "")?,
        is_shown(alloc, atom(alloc, "ok")?, ":ok", "ok")?,
    ];
    Some(first_wrong(rows.as_slice()))
}

/// Whether two values stand so to each other, and are equal only where they stand at one place.
fn stand(left: Value, right: Value, order: Ordering) -> bool {
    left.order(&right) == order && left.equal(&right) == (order == Ordering::Equal)
}

/// An atom of 16 bytes.
const LONG: &str = "nilnilnilnilnil!";

pub fn ordered(alloc: Global) -> Option<usize> {
    let rows = [
        stand(Value::Int(1), nil(alloc)?, Ordering::Less),
        long_stands_behind_nil(alloc)?,
        nils_are_equal(alloc)?,
        stand(Value::Int(1), Value::Int(1), Ordering::Equal),
    ];
    Some(first_wrong(rows.as_slice()))
}

fn long_stands_behind_nil(alloc: Global) -> Option<bool> {
    let long = atom(alloc, LONG)?;
    Some(stand(long, nil(alloc)?, Ordering::Greater))
}

fn nils_are_equal(alloc: Global) -> Option<bool> {
    let first = nil(alloc)?;
    Some(stand(first, nil(alloc)?, Ordering::Equal))
}

fn has_size(value: Value, size: u64) -> bool {
    value.size() == size
}

pub fn sized(alloc: Global) -> Option<usize> {
    let rows = [
        has_size(Value::Int(1), 1),
        has_size(nil(alloc)?, 1),
        has_size(atom(alloc, LONG)?, 2),
    ];
    Some(first_wrong(rows.as_slice()))
}
