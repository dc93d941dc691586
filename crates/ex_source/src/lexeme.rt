//! Tokens as the code keeps them, flat.
use ex_model::Operator;
use ex_value::Word;

/// A token.
#[derive(Debug, Drop)]
pub(crate) enum Lexeme {
    /// An integer, from 0 to 2^127 - 1: `42`.
    Integer(i128),
    /// A name: `x`.
    Name(Word),
    /// A sign.
    Mark(Mark),
    /// What stands between expressions: a newline or `;`, or several.
    Separator,
}

/// A token of one byte.
#[derive(Clone, Copy, Debug, PartialEq, Eq)]
pub(crate) enum Mark {
    /// `+`, `-` or `*`.
    Sign(Operator),
    /// `=`
    Equals,
    /// `(`
    Opening,
    /// `)`
    Closing,
}

/// What a source consists of, before its newlines are settled.
#[derive(Debug, Drop)]
pub(crate) enum Part {
    /// A blank or a comment.
    Blank,
    /// A LF, with a CR before it or without.
    Newline,
    /// A `;`.
    Semicolon,
    /// A token.
    Whole(Lexeme),
}
