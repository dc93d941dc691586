//! The tokens, trees and grammar of the language of cells.
//!
//! `specs/` has the definitions that lexer and parser are proved against: `Lexing` and `Newlines` say
//! which tokens a source has, `Refusals` where it has none, `Grammar` which tokens derive which tree,
//! `Nests` how many levels are open at each token, and `Reading` what a source is read as.
//!
//! Tokens are flat: `#{` and the `}` that ends it are tokens of their own, so no text, however deep
//! its inner texts are, needs a walk that recurses.
#![tactic(auto)]

mod operators;
mod token;

pub use operators::{Infix, Operator, Prefix};
pub use token::{Keyword, LexErrorKind, Sign, Token, TokenKind, WordValue};
