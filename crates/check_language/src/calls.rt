//! Calls of `ex_prims` with what they show, counted by hand.
use crate::written::{Written, values};
use ex_faults::fault_text;
use ex_prims::{CallError, call};
use ex_terms::Value;
use ex_word::Word;
use std::alloc::Global;

/// A name with its arguments, and what the call shows: its value as it is written in a source, or its
/// fault. There are 1000 steps, and room for 100 bytes of print.
type Row = (&'static str, &'static [Written], &'static str);

pub const CALCULATING: &[Row] = &[
    (
        "+",
        &[Written::Int(i128::MAX), Written::Int(1)],
        "integer too wide",
    ),
    ("div", &[Written::Int(-7), Written::Int(2)], "-3"),
    ("rem", &[Written::Int(i128::MIN), Written::Int(-1)], "0"),
    ("rem", &[Written::Int(-7), Written::Int(2)], "-1"),
    (
        "div",
        &[Written::Int(1), Written::Int(0)],
        "division by zero",
    ),
    ("Integer.mod", &[Written::Int(-7), Written::Int(3)], "2"),
    ("Integer.mod", &[Written::Int(7), Written::Int(-3)], "-2"),
    (
        "Integer.pow",
        &[Written::Int(2), Written::Int(126)],
        "85070591730234615865843651857942052864",
    ),
    (
        "Integer.pow",
        &[Written::Int(2), Written::Int(127)],
        "integer too wide",
    ),
    (
        "Integer.pow",
        &[Written::Int(-2), Written::Int(127)],
        "-170141183460469231731687303715884105728",
    ),
    (
        "Integer.pow",
        &[Written::Int(-1), Written::Int(i128::MAX)],
        "-1",
    ),
    (
        "Integer.pow",
        &[Written::Int(3), Written::Int(-1)],
        "bad argument: Integer.pow/2",
    ),
];

pub const NUMERALS: &[Row] = &[
    ("String.to_integer", &[Written::Text("+00012")], "12"),
    (
        "String.to_integer",
        &[Written::Text("-170141183460469231731687303715884105728")],
        "-170141183460469231731687303715884105728",
    ),
    (
        "String.to_integer",
        &[Written::Text("170141183460469231731687303715884105728")],
        "integer too wide",
    ),
    (
        "String.to_integer",
        &[Written::Text("+-1")],
        "bad argument: String.to_integer/1",
    ),
    (
        "String.to_integer",
        &[Written::Text("")],
        "bad argument: String.to_integer/1",
    ),
];

pub const LISTS: &[Row] = &[
    (
        "Enum.sum",
        &[Written::List(&[i128::MAX, 1, -1])],
        "170141183460469231731687303715884105727",
    ),
    ("Enum.sort", &[Written::List(&[2, 3, 1, 2])], "[1, 2, 2, 3]"),
    ("Enum.uniq", &[Written::List(&[2, 1, 2, 1])], "[2, 1]"),
    (
        "Enum.at",
        &[Written::List(&[1, 2, 3]), Written::Int(-1)],
        "3",
    ),
    ("Enum.at", &[Written::List(&[1]), Written::Int(-2)], "nil"),
    (
        "Enum.zip",
        &[Written::List(&[1, 2]), Written::List(&[3])],
        "[{1, 3}]",
    ),
    ("Enum.with_index", &[Written::List(&[7])], "[{7, 0}]"),
    ("hd", &[Written::List(&[])], "bad argument: hd/1"),
    ("List.first", &[Written::List(&[])], "nil"),
    (
        "Enum.take",
        &[Written::List(&[1, 2]), Written::Int(5)],
        "[1, 2]",
    ),
    (
        "elem",
        &[Written::Tuple(&[4]), Written::Int(1)],
        "bad argument: elem/2",
    ),
    ("in", &[Written::Int(2), Written::List(&[1, 2])], "true"),
    ("max", &[Written::Int(9), Written::Atom("a")], ":a"),
];

pub const TEXTS: &[Row] = &[
    (
        "String.split",
        &[Written::Text("a,b,,c"), Written::Text(",")],
        "[\"a\", \"b\", \"\", \"c\"]",
    ),
    (
        "String.split",
        &[Written::Text("aaa"), Written::Text("aa")],
        "[\"\", \"a\"]",
    ),
    (
        "Enum.join",
        &[Written::List(&[1, 2]), Written::Text("-")],
        "\"1-2\"",
    ),
    (
        "String.contains?",
        &[Written::Text("abc"), Written::Text("bc")],
        "true",
    ),
    ("to_string", &[Written::Tuple(&[1])], "no text: {1}"),
    ("byte_size", &[Written::Text("é")], "2"),
];

pub const REFUSED: &[Row] = &[
    ("max", &[Written::Int(1)], "unknown function: max/1"),
    (
        "length",
        &[Written::Int(1), Written::Int(2)],
        "unknown function: length/2",
    ),
    ("not", &[Written::Atom("nil")], "not a boolean: nil"),
];

/// A name with its arguments, the steps left, the room for print, and what the call shows.
const LIMITS: &[(&str, &[Written], u64, u64, &str)] = &[
    (
        "String.duplicate",
        &[Written::Text("ab"), Written::Int(3)],
        3,
        0,
        "\"ababab\"",
    ),
    (
        "String.duplicate",
        &[Written::Text("ab"), Written::Int(3)],
        2,
        0,
        "too many steps",
    ),
    (
        "String.duplicate",
        &[Written::Text("ab"), Written::Int(i128::MAX)],
        200_000,
        0,
        "too many steps",
    ),
    ("IO.puts", &[Written::Text("ab")], 100, 3, ":ok"),
    ("IO.puts", &[Written::Text("ab")], 100, 2, "too much output"),
];

/// What a call shows.
fn shown(alloc: Global, name: &str, args: &[Value], left: u64, room: u64) -> Option<Word> {
    match call(alloc, name, args, left, room) {
        Ok(called) => called.value.inspect_text(alloc).ok(),
        Err(CallError::Faulted(fault)) => fault_text(alloc, &fault).ok(),
        Err(CallError::OutOfMemory) => None,
    }
}

/// Whether a call shows this.
fn shows(
    alloc: Global,
    name: &str,
    args: &[Written],
    left: u64,
    room: u64,
    wanted: &str,
) -> Option<bool> {
    let args = values(alloc, args)?;
    let shown = shown(alloc, name, args.as_slice(), left, room)?;
    Some(shown.as_str() == wanted)
}

/// The first row that isn't as wanted.
pub fn misanswered(alloc: Global, rows: &[Row]) -> Option<usize> {
    for at in 0..rows.len() {
        let (name, args, wanted) = rows[at];
        if !shows(alloc, name, args, 1000, 100, wanted)? {
            return Some(at + 1);
        }
    }
    Some(0)
}

pub fn limited(alloc: Global) -> Option<usize> {
    for at in 0..LIMITS.len() {
        let (name, args, left, room, wanted) = LIMITS[at];
        if !shows(alloc, name, args, left, room, wanted)? {
            return Some(at + 1);
        }
    }
    Some(0)
}
