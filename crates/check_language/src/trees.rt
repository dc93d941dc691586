//! Sources with the trees that `ex_parser` reads, worked out by hand from the grammar.
pub mod blocks;
pub mod brackets;
pub mod deep;
pub mod operators;
pub mod places;
pub mod primaries;
mod printed;

use crate::tokens::refusal;
use ex_parser::{ParseError, parse};
use printed::tree_text;
use std::alloc::Global;

/// Why a source can't be read, and where.
fn cause(alloc: Global, error: ParseError) -> Option<String> {
    match error {
        ParseError::Syntax { at } => format!(in alloc; "Syntax {at}").ok(),
        ParseError::DepthLimit { at } => format!(in alloc; "DepthLimit {at}").ok(),
        ParseError::Lex { at, kind } => refusal(alloc, at, kind),
        ParseError::OutOfMemory => None,
    }
}

/// What a source is read as, or why it can't be.
fn tree(alloc: Global, source: &str) -> Option<String> {
    match parse(alloc, source) {
        Ok(tree) => tree_text(alloc, &tree),
        Err(error) => cause(alloc, error),
    }
}

/// That a source is read, or why it can't be.
fn reading(alloc: Global, source: &str) -> Option<String> {
    match parse(alloc, source) {
        Ok(_) => String::from_str(alloc, "read").ok(),
        Err(error) => cause(alloc, error),
    }
}

/// The first row whose source isn't read so.
pub fn misread(alloc: Global, rows: &[(&str, &str)]) -> Option<usize> {
    for at in 0..rows.len() {
        let (source, wanted) = rows[at];
        if tree(alloc, source)?.as_str() != wanted {
            return Some(at + 1);
        }
    }
    Some(0)
}
