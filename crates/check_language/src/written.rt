//! Whole values, as tables write them.
use ex_terms::{Items, Value};
use ex_word::Word;
use std::alloc::Global;

/// A value: a number, an atom, a text, or a tuple or a list of numbers.
#[derive(Clone, Copy)]
pub enum Written {
    Int(i128),
    Atom(&'static str),
    Text(&'static str),
    Tuple(&'static [i128]),
    List(&'static [i128]),
}

/// The items of some numbers.
fn numbers(alloc: Global, numbers: &[i128]) -> Option<Items> {
    let mut values = Vec::new(alloc);
    for number in numbers {
        values.push(Value::Int(*number)).ok()?;
    }
    Items::of(alloc, values).ok()
}

/// The value that is written so.
pub fn value(alloc: Global, written: Written) -> Option<Value> {
    match written {
        Written::Int(number) => Some(Value::Int(number)),
        Written::Atom(text) => Some(Value::Atom(Word::of(alloc, text).ok()?)),
        Written::Text(text) => Some(Value::Str(Word::of(alloc, text).ok()?)),
        Written::Tuple(items) => Some(Value::Tuple(numbers(alloc, items)?)),
        Written::List(items) => Some(Value::List(numbers(alloc, items)?)),
    }
}

/// The values that are written so.
pub fn values(alloc: Global, written: &[Written]) -> Option<Vec<Value>> {
    let mut values = Vec::new(alloc);
    for each in written {
        values.push(value(alloc, *each)?).ok()?;
    }
    Some(values)
}
