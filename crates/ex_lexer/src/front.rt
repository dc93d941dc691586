//! What stands at the front of a source.
ghost use Rattle.std.specs.Prelude.{◌≡◌, ◌+◌, ◌<◌, ◌^◌, IfOk, length, take};
ghost use Rattle.std.specs.Str.{IsCharBoundary};
ghost use Rattle.std.specs.List.{prefix_len};
ghost use Rattle.ex_grammar.specs.Tokens.{Atom, signs, keyword_of};
ghost use Rattle.ex_grammar.specs.Texts.{first_is};
ghost use Rattle.ex_grammar.specs.Names.{is_alias_byte, is_capital};
ghost use Rattle.ex_grammar.specs.Lexing.{Whole, is_in_line, sign_in};
ghost use Rattle.ex_grammar.specs.Coded.{IsToken};
ghost use Rattle.ex_lexer.specs.Runs.{Run, run};
ghost use Rattle.ex_lexer.specs.Front.{Takes, class_of, front, return_by, digit_by, alias_by, name_by, named_by, word_by, key_len, atom_by, quoted_by, signed_by};
ghost use Rattle.ex_lexer.specs.Parts.{IsFront};

use crate::names::{keyword_of, letter_first, name_first, name_len};
use crate::numbers::read_digits;
use crate::signs::sign_at;
use crate::texts::{Stop, begins_with, read_run};
use ex_grammar::{LexErrorKind, TokenKind};
use ex_word::Word;
use std::alloc::{AllocError, Global};

/// What a source consists of, before its newlines are settled.
#[derive(Debug, Drop)]
pub(crate) enum Part {
    /// A blank or a comment.
    Blank,
    /// A LF, with a CR before it or without.
    Newline,
    /// A `;`.
    Semicolon,
    /// A token.
    Whole(TokenKind),
}

/// What stands at a front.
#[derive(Debug, Drop)]
pub(crate) enum Front {
    /// A part of so many bytes.
    Takes(Part, usize),
    /// No token, so many bytes from there.
    Fails(usize, LexErrorKind),
}

/// What a byte begins.
#[derive(Clone, Copy, Debug)]
enum Class {
    /// A blank.
    Blank,
    /// A comment.
    Hash,
    /// A newline.
    Feed,
    /// A newline, where a LF follows.
    Return,
    /// A `;`.
    Semicolon,
    /// An atom.
    Colon,
    /// An integer.
    Digit,
    /// An alias.
    Capital,
    /// A name or a word.
    Name,
    /// A sign, or nothing.
    Other,
}

/// What a byte begins, where a name begins with it or doesn't.
fn class_of(b: u8, name: bool) -> Class
    ensures { result ≡ class_of b name }
{
    match b {
        b' ' | b'\t' => Class::Blank,
        b'#' => Class::Hash,
        b'\n' => Class::Feed,
        b'\r' => Class::Return,
        b';' => Class::Semicolon,
        b':' => Class::Colon,
        b'0'..=b'9' => Class::Digit,
        b'A'..=b'Z' => Class::Capital,
        _ if name => Class::Name,
        _ => Class::Other,
    }
}

/// What stands at the front of a source that no `"` begins.
pub(crate) fn read_front(alloc: Global, rest: &str) -> Result<Front, AllocError>
    ensures { IfOk result (λ f. IsFront f (front rest.now)) }
{
    let bytes = rest.as_bytes();
    let [first, after @ ..] = bytes else {
        return Ok(Front::Fails(0, LexErrorKind::BadChar));
    };
    match class_of(*first, name_first(rest)) {
        Class::Blank => Ok(Front::Takes(Part::Blank, 1)),
        Class::Hash => Ok(Front::Takes(Part::Blank, line_len(bytes))),
        Class::Feed => Ok(Front::Takes(Part::Newline, 1)),
        Class::Return => Ok(return_front(after)),
        Class::Semicolon => Ok(Front::Takes(Part::Semicolon, 1)),
        Class::Colon => atom_front(alloc, &rest[1..]),
        Class::Digit => Ok(number_front(rest)),
        Class::Capital => alias_front(alloc, rest),
        Class::Name => name_front(alloc, rest),
        Class::Other => Ok(sign_front(bytes)),
    }
}

/// How many bytes stand before the first LF, or all where there is none.
fn line_len(bytes: &[u8]) -> usize
    ensures { result ≡ prefix_len is_in_line bytes.now }
{
    let mut len = 0;
    while len < bytes.len() && bytes[len] != b'\n' {
        len += 1;
    }
    len
}

/// A CR, where these follow it.
fn return_front(after: &[u8]) -> Front
    ensures { IsFront result (return_by after.now) }
{
    if begins_with(after, b'\n') {
        Front::Takes(Part::Newline, 2)
    } else {
        Front::Fails(0, LexErrorKind::BadChar)
    }
}

/// An integer.
fn number_front(rest: &str) -> Front
    ensures { IsFront result (digit_by rest.now) }
{
    let digits = read_digits(rest.as_bytes());
    if letter_first(&rest[digits.len..]) {
        return Front::Fails(0, LexErrorKind::BadNumber);
    }
    match digits.value {
        Some(n) if n < 1 << 127 => {
            Front::Takes(Part::Whole(TokenKind::Integer(n as i128)), digits.len)
        }
        _ => Front::Fails(0, LexErrorKind::TooWide),
    }
}

/// How many bytes at the front may stand in an alias.
fn alias_len(bytes: &[u8]) -> usize
    ensures { result ≡ prefix_len is_alias_byte bytes.now }
{
    let mut len = 0;
    while len < bytes.len() && is_alias_byte(bytes[len]) {
        len += 1;
    }
    len
}

/// Whether a byte may stand in an alias after its capital.
fn is_alias_byte(b: u8) -> bool
    ensures { result ≡ is_alias_byte b }
{
    matches!(b, b'a'..=b'z' | b'A'..=b'Z' | b'0'..=b'9' | b'_')
}

/// An alias.
fn alias_front(alloc: Global, rest: &str) -> Result<Front, AllocError>
    ensures { IfOk result (λ f. IsFront f (alias_by rest.now)) }
{
    let len = alias_len(rest.as_bytes());
    let alias = Word::of(alloc, &rest[..len])?;
    Ok(Front::Takes(Part::Whole(TokenKind::Alias(alias)), len))
}

/// A name, a word or a key.
fn name_front(alloc: Global, rest: &str) -> Result<Front, AllocError>
    ensures { IfOk result (λ f. IsFront f (name_by rest.now)) }
{
    let len = name_len(rest);
    named(alloc, &rest[..len], &rest.as_bytes()[len..])
}

/// A name, a word or a key, where these bytes follow it.
fn named(alloc: Global, name: &str, after: &[u8]) -> Result<Front, AllocError>
    ensures { IfOk result (λ f. IsFront f (named_by name.now after.now (length name.now))) }
{
    let len = name.len();
    match key_len(after) {
        Some(more) => {
            let key = Word::of(alloc, name)?;
            Ok(Front::Takes(Part::Whole(TokenKind::Key(key)), len + more))
        }
        None => {
            let kind = word_kind(alloc, name, begins_with(after, b'('))?;
            Ok(Front::Takes(Part::Whole(kind), len))
        }
    }
}

/// A word or a name, where a `(` follows it or doesn't.
fn word_kind(alloc: Global, name: &str, called: bool) -> Result<TokenKind, AllocError>
    ensures { IfOk result (λ k. IsToken k (word_by (keyword_of name.now) name.now called)) }
{
    match keyword_of(name) {
        Some(word) => Ok(TokenKind::Word(word)),
        None if called => Ok(TokenKind::Called(Word::of(alloc, name)?)),
        None => Ok(TokenKind::Name(Word::of(alloc, name)?)),
    }
}

/// How many bytes the `:` and the blank of a key take: none where these bytes are none of a key.
fn key_len(after: &[u8]) -> Option<usize>
    ensures { result ≡ key_len after.now }
{
    match after {
        [b':', b' ' | b'\t' | b'\n', ..] => Some(2),
        [b':', b'\r', b'\n', ..] => Some(3),
        _ => None,
    }
}

/// An atom, after its `:`.
fn atom_front(alloc: Global, rest: &str) -> Result<Front, AllocError>
    ensures { IfOk result (λ f. IsFront f (atom_by rest.now)) }
{
    let bytes = rest.as_bytes();
    if begins_with(bytes, b'"') {
        return quoted(alloc, &rest[1..]);
    }
    if capital_first(bytes) {
        return atom(alloc, rest, alias_len(bytes));
    }
    if name_first(rest) {
        return atom(alloc, rest, name_len(rest));
    }
    Ok(Front::Fails(0, LexErrorKind::BadChar))
}

/// An atom whose text is so many bytes long.
fn atom(alloc: Global, rest: &str, len: usize) -> Result<Front, AllocError>
    requires boundary { IsCharBoundary rest.now len }
    ensures { IfOk result (λ f. IsFront f (Takes (Whole (Atom (take len rest.now))) (1 + len))) }
{
    let atom = Word::of(alloc, &rest[..len])?;
    Ok(Front::Takes(Part::Whole(TokenKind::Atom(atom)), 1 + len))
}

/// Whether a capital of ASCII stands first.
fn capital_first(bytes: &[u8]) -> bool
    ensures { result ≡ first_is is_capital bytes.now }
{
    matches!(bytes, [b'A'..=b'Z', ..])
}

/// An atom's text, after its `"`.
fn quoted(alloc: Global, text: &str) -> Result<Front, AllocError>
    ensures { IfOk result (λ f. IsFront f (quoted_by (run 0 text.now) (run 0 text.now).stop)) }
{
    let run = read_run(alloc, text)?;
    Ok(quoted_front(run.said, run.len, run.stop))
}

/// An atom whose text says this, in so many bytes.
fn quoted_front(said: Word, len: usize, stop: Stop) -> Front
    requires { len < 2 ^ 63 }
    ensures { (r : Run) → said ≡ r.bytes → len ≡ r.len → stop ≡ r.stop → IsFront result (quoted_by r r.stop) }
{
    match stop {
        Stop::Quote => Front::Takes(Part::Whole(TokenKind::Atom(said)), 2 + (len + 1)),
        Stop::Hole => Front::Fails(0, LexErrorKind::BadChar),
        Stop::End => Front::Fails(1, LexErrorKind::OpenText),
        Stop::Escape => Front::Fails(1, LexErrorKind::BadEscape),
    }
}

/// A sign.
fn sign_front(bytes: &[u8]) -> Front
    ensures { IsFront result (signed_by (sign_in signs bytes.now)) }
{
    match sign_at(bytes) {
        None => Front::Fails(0, LexErrorKind::BadChar),
        Some((sign, len)) => Front::Takes(Part::Whole(TokenKind::Sign(sign)), len),
    }
}
