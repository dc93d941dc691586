//! The texts of whole values of `ex_terms`: as they are written in sources, and for readers.
use crate::terms::mixed;
use crate::written::{Written, value};
use ex_terms::{DisplayError, Value};
use ex_word::Word;
use std::alloc::Global;

/// Values, and how they stand in a source.
const WRITTEN: &[(Written, &str)] = &[
    (Written::Atom("nil"), "nil"),
    (Written::Atom("true"), "true"),
    (Written::Atom("end"), ":end"),
    (Written::Atom("ok?"), ":ok?"),
    (Written::Atom("_é1!"), ":_é1!"),
    (Written::Atom("Enum"), ":Enum"),
    (Written::Atom(""), ":\"\""),
    (Written::Atom("a b"), ":\"a b\""),
    (Written::Atom("a?b"), ":\"a?b\""),
    (Written::Atom("1"), ":\"1\""),
    (Written::Atom("É"), ":É"),
    (Written::Atom("Éa-b"), ":\"Éa-b\""),
    (Written::Text(""), "\"\""),
    (Written::Text("a\n\t\r\"\\é"), "\"a\\n\\t\\r\\\"\\\\é\""),
    (Written::Text("#{a} # {"), "\"\\#{a} # {\""),
    (Written::Text("##{"), "\"#\\#{\""),
    (Written::Text("#"), "\"#\""),
    (
        Written::Text("\u{0}\u{1f}\u{7f}"),
        "\"\\u0000\\u001F\u{7f}\"",
    ),
    (Written::Tuple(&[]), "{}"),
    (
        Written::List(&[i128::MIN]),
        "[-170141183460469231731687303715884105728]",
    ),
];

/// Whether a value stands in a source as this.
fn stands(alloc: Global, value: &Value, wanted: &str) -> Option<bool> {
    let inspected = value.inspect_text(alloc).ok()?;
    Some(inspected.as_str() == wanted)
}

fn is_written(alloc: Global, written: Written, wanted: &str) -> Option<bool> {
    let value = value(alloc, written)?;
    stands(alloc, &value, wanted)
}

pub fn written(alloc: Global) -> Option<usize> {
    for at in 0..WRITTEN.len() {
        let (written, wanted) = WRITTEN[at];
        if !is_written(alloc, written, wanted)? {
            return Some(at + 1);
        }
    }
    let value = mixed(alloc)?;
    let wanted = "{[1, 2, 3], \"0123456789abcdef0123456789abcdef\"}";
    if stands(alloc, &value, wanted)? {
        Some(0)
    } else {
        Some(WRITTEN.len() + 1)
    }
}

/// Values, and how they are shown to readers.
const SHOWN: &[(Written, &str)] = &[
    (Written::Int(-7), "-7"),
    (Written::Atom("nil"), ""),
    (Written::Atom("ok"), "ok"),
    (Written::Text("a\"b"), "a\"b"),
    (Written::Tuple(&[1]), "NoText"),
];

/// A value as it is shown to readers, or that it isn't.
fn for_readers(alloc: Global, written: Written) -> Option<Word> {
    let value = value(alloc, written)?;
    match value.display_text(alloc) {
        Ok(text) => Some(text),
        Err(DisplayError::NoText) => Word::of(alloc, "NoText").ok(),
        Err(DisplayError::OutOfMemory) => None,
    }
}

pub fn shown(alloc: Global) -> Option<usize> {
    for at in 0..SHOWN.len() {
        let (written, wanted) = SHOWN[at];
        if for_readers(alloc, written)?.as_str() != wanted {
            return Some(at + 1);
        }
    }
    Some(0)
}
