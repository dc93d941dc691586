//! The trees of a source.
#![tactic(auto)]

ghost use Rattle.std.specs.Prelude.{MatchResult};
ghost use Rattle.ex_parser.specs.Parsed.{IsReading, IsCauseOf};

mod blocks;
mod brackets;
mod firsts;
mod follow;
mod nesting;
mod operators;
mod parser;
mod tree;

use crate::parser::Parsed;
pub use crate::tree::{Ast, Choice, Clause, Head, Hole, Node, Part};
use ex_grammar::LexErrorKind;
use ex_lexer::LexError;
use std::alloc::Global;
use thiserror::Error;

/// Why a source can't be read. Places are bytes, counted from 0.
#[derive(Debug, Drop, Error)]
pub enum ParseError {
    /// No token stands at this place: place 2 of `1 &`.
    #[error("no token at byte {at}")]
    Lex { at: u64, kind: LexErrorKind },
    /// The token at this place opens the 257th level.
    #[error("more than 256 levels at byte {at}")]
    DepthLimit { at: u64 },
    /// The expression that begins at this place can't be read: place 3 of `1; 2 3`.
    #[error("no expression at byte {at}")]
    Syntax { at: u64 },
    /// Memory ran out.
    #[error("out of memory")]
    OutOfMemory,
}

/// The expressions that a source reads as. No depth of nesting takes stack, and its time is linear in
/// the source, which is measured.
pub fn parse(alloc: Global, source: &str) -> Result<Ast, ParseError>
    ensures { MatchResult result (IsReading source.now) (IsCauseOf source.now) }
{
    let tokens = match ex_lexer::tokens(alloc, source) {
        Ok(tokens) => tokens,
        Err(LexError::Bad { at, kind }) => return Err(ParseError::Lex { at, kind }),
        Err(LexError::OutOfMemory) => return Err(ParseError::OutOfMemory),
    };
    match nesting::first_too_deep(alloc, tokens.as_slice()) {
        Ok(None) => {}
        Ok(Some(at)) => return Err(ParseError::DepthLimit { at }),
        Err(_) => return Err(ParseError::OutOfMemory),
    }
    match parser::parse(alloc, tokens.as_slice()) {
        Ok(Parsed::Trees(tree)) => Ok(tree),
        Ok(Parsed::Syntax(at)) => Err(ParseError::Syntax { at }),
        Err(_) => Err(ParseError::OutOfMemory),
    }
}
