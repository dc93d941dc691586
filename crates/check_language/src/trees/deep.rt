//! How deep a source may nest, and long sources: none takes a stack.
use super::{reading, tree};
use crate::rows::{around, first_wrong, repeated};
use std::alloc::Global;

/// A text some times over, another, and a third the same times over, with their tree.
const LEVELS: &[(&str, &str, &str, usize, &str)] = &[
    ("(", "1", ")", 256, "1"),
    ("(", "1", ")", 257, "DepthLimit 256"),
    ("\"#{", "1", "}\"", 257, "DepthLimit 769"),
    ("1 + ", "1", "", 257, "DepthLimit 1026"),
    ("x = ", "1", "", 257, "DepthLimit 1026"),
    ("- ", "1", "", 257, "DepthLimit 512"),
    ("if a do ", "1", " end", 257, "DepthLimit 2053"),
    (")", "", "", 300, "Syntax 0"),
];

/// The same, with whether they are read.
const DEEP: &[(&str, &str, &str, usize, &str)] = &[
    ("\"#{", "1", "}\"", 256, "read"),
    ("[{", "1", "}]", 128, "read"),
    ("1 + ", "1", "", 256, "read"),
    ("if a do ", "1", " end", 256, "read"),
    ("(1 + 1); ", "1", "", 2_000, "read"),
    ("[1 + 2, ", "3]", "", 1, "read"),
    ("if 1,do: ", "1", "", 20_000, "read"),
    ("if ", "1", ", do: 1", 20_000, "read"),
    ("if 1, do: 1, else: ", "1", "", 20_000, "read"),
    ("for x <- ", "l", ", do: x", 20_000, "read"),
    ("for x <- l, do: ", "x", "", 20_000, "read"),
    ("for x <- ", "", "", 20_000, "Syntax 0"),
    ("\"#{", "1", "}\"", 20_000, "DepthLimit 769"),
    ("\"#{", "", "", 20_000, "OpenText 59997"),
    ("(", "1", ")", 20_000, "DepthLimit 256"),
    ("(", "", "", 20_000, "DepthLimit 256"),
    ("- ", "1", "", 20_000, "DepthLimit 512"),
];

/// What stands before a piece, the piece, which stands there 20,000 times, and what stands behind it.
const LONG: &[(&str, &str, &str)] = &[
    ("\"", "text ", "\""),
    ("1 # ", "comment ", ""),
    ("\"", "#{a}b", "\""),
    ("[", "1, ", "2]"),
    ("f(", "a: 1, ", "b: 2)"),
    ("case 1 do ", "1 -> 2; ", "3 -> 4 end"),
    ("x = 1", "; x = x + 1", ""),
];

pub fn levels(alloc: Global) -> Option<usize> {
    for at in 0..LEVELS.len() {
        let (before, inside, after, times, wanted) = LEVELS[at];
        let source = around(alloc, before, inside, after, times)?;
        if tree(alloc, source.as_str())?.as_str() != wanted {
            return Some(at + 1);
        }
    }
    Some(0)
}

/// Whether a source is read, or refused for this cause.
fn is_read(alloc: Global, source: &str, wanted: &str) -> Option<bool> {
    Some(reading(alloc, source)?.as_str() == wanted)
}

pub fn deep(alloc: Global) -> Option<usize> {
    for at in 0..DEEP.len() {
        let (before, inside, after, times, wanted) = DEEP[at];
        let source = around(alloc, before, inside, after, times)?;
        if !is_read(alloc, source.as_str(), wanted)? {
            return Some(at + 1);
        }
    }
    Some(0)
}

/// A piece 20,000 times, between two texts.
fn between(alloc: Global, before: &str, piece: &str, after: &str) -> Option<String> {
    let pieces = repeated(alloc, piece, 20_000)?;
    around(alloc, before, pieces.as_str(), after, 1)
}

pub fn long(alloc: Global) -> Option<usize> {
    for at in 0..LONG.len() {
        let (before, piece, after) = LONG[at];
        let source = between(alloc, before, piece, after)?;
        if !is_read(alloc, source.as_str(), "read")? {
            return Some(at + 1);
        }
    }
    Some(0)
}

/// Whether a long list within many is read, and refused where a pattern is to stand.
pub fn no_pattern(alloc: Global) -> Option<usize> {
    let items = between(alloc, "", "x + 1, ", "2")?;
    let list = around(alloc, "[", items.as_str(), "]", 255)?;
    let matched = around(alloc, "", list.as_str(), " = 1", 1)?;
    let rows = [
        is_read(alloc, list.as_str(), "read")?,
        is_read(alloc, matched.as_str(), "Syntax 0")?,
    ];
    Some(first_wrong(rows.as_slice()))
}
