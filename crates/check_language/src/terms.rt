//! Whole values of `ex_terms`: their order, sizes and copies.
use crate::rows::{first_wrong, repeated};
use crate::written::{Written, value};
use ex_terms::{Items, Value};
use std::alloc::Global;
use std::cmp::Ordering;

/// Values, and others that stand behind them.
const PAIRS: &[(Written, Written)] = &[
    (Written::Int(9), Written::Atom("a")),
    (Written::Atom("a"), Written::Tuple(&[])),
    (Written::Tuple(&[]), Written::List(&[])),
    (Written::List(&[]), Written::Text("")),
    (Written::Tuple(&[2]), Written::Tuple(&[1, 1])),
    (Written::Tuple(&[1, 2]), Written::Tuple(&[1, 3])),
    (Written::List(&[1, 1]), Written::List(&[2])),
    (Written::List(&[1]), Written::List(&[1, 1])),
];

/// Whether the first value stands before the second, and they are told apart.
fn is_before(first: &Value, second: &Value) -> bool {
    let less = first.order(second) == Ordering::Less;
    let greater = second.order(first) == Ordering::Greater;
    less && greater && !first.equal(second)
}

fn are_in_order(alloc: Global, first: Written, second: Written) -> Option<bool> {
    let first = value(alloc, first)?;
    let second = value(alloc, second)?;
    Some(is_before(&first, &second))
}

pub fn ordered(alloc: Global) -> Option<usize> {
    for at in 0..PAIRS.len() {
        let (first, second) = PAIRS[at];
        if !are_in_order(alloc, first, second)? {
            return Some(at + 1);
        }
    }
    Some(0)
}

/// The items of two values.
fn pair(alloc: Global, first: Value, second: Value) -> Option<Items> {
    let values = Vec::from_array(alloc, [first, second]).ok()?;
    Items::of(alloc, values).ok()
}

/// The tuple of a list of numbers and a text of 32 bytes.
pub fn mixed(alloc: Global) -> Option<Value> {
    let list = value(alloc, Written::List(&[1, 2, 3]))?;
    let text = value(alloc, Written::Text("0123456789abcdef0123456789abcdef"))?;
    Some(Value::Tuple(pair(alloc, list, text)?))
}

/// Whether a value and its copy are equal and have this size.
fn is_copied(value: &Value, size: u64) -> Option<bool> {
    let copy = value.copy().ok()?;
    Some(value.equal(&copy) && value.size() == size && copy.size() == size)
}

/// How many bytes a text has, and its size.
const TEXTS: &[(usize, u64)] = &[(0, 1), (15, 1), (16, 2), (17, 2), (31, 2), (32, 3)];

fn size_of_text(alloc: Global, bytes: usize) -> Option<u64> {
    let text = repeated(alloc, "a", bytes)?;
    let word = ex_word::Word::of(alloc, text.as_str()).ok()?;
    Some(Value::Str(word).size())
}

pub fn texts_sized(alloc: Global) -> Option<usize> {
    for at in 0..TEXTS.len() {
        let (bytes, size) = TEXTS[at];
        if size_of_text(alloc, bytes)? != size {
            return Some(at + 1);
        }
    }
    Some(0)
}

/// How often a list is doubled, and its size, which ends at the largest number.
const DOUBLED: &[(usize, u64)] = &[
    (2, 7),
    (62, 9_223_372_036_854_775_807),
    (63, u64::MAX),
    (64, u64::MAX),
    (90, u64::MAX),
];

/// A list that has a value twice.
fn twice(alloc: Global, value: Value) -> Option<Value> {
    let copy = value.copy().ok()?;
    Some(Value::List(pair(alloc, copy, value)?))
}

/// The size of a list that has the one before it twice, and so on, so many times.
fn size_of_doubled(alloc: Global, times: usize) -> Option<u64> {
    let mut list = value(alloc, Written::List(&[]))?;
    for _ in 0..times {
        list = twice(alloc, list)?;
    }
    Some(list.size())
}

pub fn doubled_sized(alloc: Global) -> Option<usize> {
    for at in 0..DOUBLED.len() {
        let (times, size) = DOUBLED[at];
        if size_of_doubled(alloc, times)? != size {
            return Some(at + 1);
        }
    }
    Some(0)
}

/// A list that has a value alone.
fn within(alloc: Global, value: Value) -> Option<Value> {
    let values = Vec::from_array(alloc, [value]).ok()?;
    Some(Value::List(Items::of(alloc, values).ok()?))
}

/// A list in a list, and so on, so many times.
fn nested(alloc: Global, levels: usize) -> Option<Value> {
    let mut list = value(alloc, Written::List(&[]))?;
    for _ in 0..levels {
        list = within(alloc, list)?;
    }
    Some(list)
}

/// Whether two lists are equal, and a third stands behind them and has a unit more.
fn is_deeper(first: &Value, same: &Value, deeper: &Value) -> bool {
    let more = deeper.size() == first.size().saturating_add(1);
    first.equal(same) && is_before(first, deeper) && more
}

/// Whether two lists with so many levels, and one with more, are told apart.
fn levels_count(alloc: Global, levels: usize, more: usize) -> Option<bool> {
    let first = nested(alloc, levels)?;
    let same = nested(alloc, levels)?;
    let deeper = nested(alloc, more)?;
    Some(is_deeper(&first, &same, &deeper))
}

/// Whether the tuple of a list and a text is equal to its copy, and both have eight units.
fn mixed_is_copied(alloc: Global) -> Option<bool> {
    let value = mixed(alloc)?;
    is_copied(&value, 8)
}

pub fn copied_and_deep(alloc: Global) -> Option<usize> {
    let rows = [mixed_is_copied(alloc)?, levels_count(alloc, 1_000, 1_001)?];
    Some(first_wrong(rows.as_slice()))
}
