//! Sources of the part of the language that is built, read by `ex_source`.
use crate::rows::around;
use ex_source::read;
use std::alloc::Global;

/// What is wanted of a source that isn't read.
const UNREAD: usize = usize::MAX;

/// Sources, and how many expressions each reads as.
const SOURCES: &[(&str, usize)] = &[
    ("", 0),
    (" # nothing", 0),
    ("; ;\n", 0),
    ("x = y = 2\n\nx * y # both", 2),
    ("1 - 2 -\n3\n* 4; (1\n)", 2),
    ("170141183460469231731687303715884105727", 1),
    ("1 2", UNREAD),
    ("1\n+ 2", UNREAD),
    ("1 +\n;\n2", UNREAD),
    ("1)", UNREAD),
    ("(1", UNREAD),
    ("-1", UNREAD),
    ("1a", UNREAD),
    ("x == 1", UNREAD),
    ("nil", UNREAD),
    ("1 = 2", UNREAD),
    ("a\rb", UNREAD),
    ("170141183460469231731687303715884105728", UNREAD),
];

/// A text some times over, another, a third the same times over, and how many expressions they are.
const LONG: &[(&str, &str, &str, usize, usize)] = &[
    ("(", "1", ")", 256, 1),
    ("(", "1", ")", 257, UNREAD),
    ("1 + ", "1", "", 256, 1),
    ("1 + ", "1", "", 257, UNREAD),
    ("(", "", "", 1_048_576, UNREAD),
    ("9", "", "", 10_000, UNREAD),
    ("x\n", "", "", 500_000, 500_000),
];

/// How many expressions a source reads as.
fn expressions(alloc: Global, source: &str) -> Option<usize> {
    match read(alloc, source).ok()? {
        None => Some(UNREAD),
        Some(ast) => Some(ast.parts().roots.len()),
    }
}

pub fn short(alloc: Global) -> Option<usize> {
    for at in 0..SOURCES.len() {
        let (source, wanted) = SOURCES[at];
        if expressions(alloc, source)? != wanted {
            return Some(at + 1);
        }
    }
    Some(0)
}

pub fn long(alloc: Global) -> Option<usize> {
    for at in 0..LONG.len() {
        let (before, inside, after, times, wanted) = LONG[at];
        let source = around(alloc, before, inside, after, times)?;
        if expressions(alloc, source.as_str())? != wanted {
            return Some(at + 1);
        }
    }
    Some(0)
}
