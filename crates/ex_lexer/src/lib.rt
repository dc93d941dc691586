//! The tokens of a source.
//!
//! The layer above may rely on this: [`tokens`] gives the tokens of a source exactly where it has
//! some, by `Lexes` of `ex_grammar`, and a source has one list of tokens at most. Otherwise the answer
//! is the first place at which no token stands, and why, by `IsRefused`. Places are bytes from 0.
//! Nothing here recurses, and the time that it takes is linear in the source.
#![tactic(auto)]

ghost use Rattle.std.specs.Prelude.{◌≡◌, List, MatchResult};
ghost use Rattle.ex_lexer.specs.Lexed.{HasTokens, IsCauseOf};

mod front;
mod lexer;
mod names;
mod numbers;
mod settled;
mod signs;
mod texts;

use crate::lexer::Lexed;
pub use ex_grammar::LexErrorKind;
use ex_grammar::Token;
use std::alloc::Global;
use thiserror::Error;

/// Why a source has no tokens.
#[derive(Debug, Drop, Error)]
pub enum LexError {
    /// No token stands at byte `at`, counted from 0: place 2 of `1 &`.
    #[error("no token at byte {at}")]
    Bad { at: u64, kind: LexErrorKind },
    /// Memory ran out.
    #[error("out of memory")]
    OutOfMemory,
}

/// The tokens of a source, with settled newlines: a newline that separates nothing has no token.
///
/// It answers `Bad` exactly where the source has none, with the first place at which no token stands:
/// that of the character or the number, and within a text that of its `"`, unless the fault lies in
/// what stands between a `#{` and its `}`.
pub fn tokens(alloc: Global, source: &str) -> Result<Vec<Token>, LexError>
    ensures { MatchResult result (λ v. HasTokens source.now v.items) (IsCauseOf source.now) }
{
    match lexer::lex(alloc, source) {
        Ok(Lexed::Tokens(tokens)) => Ok(tokens),
        Ok(Lexed::Refused(at, kind)) => Err(LexError::Bad { at, kind }),
        Err(_) => Err(LexError::OutOfMemory),
    }
}
