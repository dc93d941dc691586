//! The characters of a text.
ghost use Rattle.std.specs.Prelude.{◌≡◌, ◌<◌, ◌≤◌, ◌+◌, ◌*◌, ◌∷◌, ◌==◌, ◌&&◌, MatchOption, IfOk, IfSome, Some, None, true, false};
ghost use Rattle.std.specs.String.{string_bytes};
ghost use Rattle.std.specs.Char.{encode_utf8, digit_value, is_ascii_hexdigit};
ghost use Rattle.std.specs.Str.{IsUtf8};
ghost use Rattle.ex_grammar.specs.Texts.{escape_in, escapes, is_plain, first_is, are_hexdigits, hex_value};
ghost use Rattle.ex_lexer.specs.Runs.{run, GoesOn, escape_at, short_escape, coded_escape, plain_len};

use ex_word::Word;
use std::alloc::{AllocError, Global};

/// Where the characters of a text end.
#[derive(Clone, Copy, Debug, PartialEq, Eq)]
pub(crate) enum Stop {
    /// At the `"` that ends the text.
    Quote,
    /// At a `#{`.
    Hole,
    /// At the source's end.
    End,
    /// At a `\` that begins no escape.
    Escape,
}

/// The characters of a text up to a stop: what they say, and how many bytes of the source they take.
#[derive(Debug, Drop)]
pub(crate) struct Run {
    pub said: Word,
    pub len: usize,
    pub stop: Stop,
}

/// How a text goes on at its front.
#[derive(Clone, Copy, Debug)]
enum Bit {
    /// After so many bytes.
    Goes(usize),
    /// Not at all.
    Stops(Stop),
}

/// Reads the characters of a text.
pub(crate) fn read_run(alloc: Global, text: &str) -> Result<Run, AllocError>
    ensures { IfOk result (λ r. (r.said ≡ (run 0 text.now).bytes) × (r.len ≡ (run 0 text.now).len) × (r.stop ≡ (run 0 text.now).stop)) }
{
    let mut said = String::new(alloc);
    let mut rest = text;
    while !rest.is_empty() {
        let len = match say(&mut said, rest)? {
            Bit::Goes(len) => len,
            Bit::Stops(stop) => {
                let run = Run {
                    said: Word::of(alloc, said.as_str())?,
                    len: text.len() - rest.len(),
                    stop,
                };
                return Ok(run);
            }
        };
        rest = &rest[len..];
    }
    Ok(Run {
        said: Word::of(alloc, said.as_str())?,
        len: text.len(),
        stop: Stop::End,
    })
}

/// Adds what the front of a text says: its plain characters, or else an escape.
fn say(said: &mut String, rest: &str) -> Result<Bit, AllocError>
    ensures { IfOk result (λ b. GoesOn (string_bytes said.old) (string_bytes said.new) rest.now b) }
{
    let bytes = rest.as_bytes();
    let len = plain_len(bytes);
    if len > 0 {
        said.push_str(&rest[..len])?;
        return Ok(Bit::Goes(len));
    }
    let [first, after @ ..] = bytes else {
        return Ok(Bit::Stops(Stop::End));
    };
    if *first == b'"' {
        return Ok(Bit::Stops(Stop::Quote));
    }
    if *first == b'\\' {
        return say_escape(said, after);
    }
    Ok(Bit::Stops(Stop::Hole))
}

/// Adds what an escape says, where this follows the `\`.
fn say_escape(said: &mut String, after: &[u8]) -> Result<Bit, AllocError>
    ensures { IfOk result (λ b. IsUtf8 (92 ∷ after.now) → GoesOn (string_bytes said.old) (string_bytes said.new) (92 ∷ after.now) b) }
{
    match escape_at(after) {
        None => Ok(Bit::Stops(Stop::Escape)),
        Some((c, len)) => {
            said.push(c)?;
            Ok(Bit::Goes(1 + len))
        }
    }
}

/// How many bytes at the front stand for themselves.
fn plain_len(bytes: &[u8]) -> usize
    ensures { result ≡ plain_len bytes.now }
{
    let mut len = 0;
    while len < bytes.len() && is_plain(bytes[len], &bytes[len + 1..]) {
        len += 1;
    }
    len
}

/// Whether a byte stands for itself, where these follow it.
fn is_plain(b: u8, next: &[u8]) -> bool
    ensures { result ≡ is_plain b next.now }
{
    b != b'"' && b != b'\\' && !(b == b'#' && begins_with(next, b'{'))
}

/// Whether a byte stands first.
pub(crate) fn begins_with(bytes: &[u8], b: u8) -> bool
    ensures { result ≡ first_is (λ c. c == b) bytes.now }
{
    bytes.first() == Some(&b)
}

/// The escape after a `\`: its character, and how many bytes it has.
fn escape_at(bytes: &[u8]) -> Option<(char, usize)>
    ensures len { IfSome result (λ e. e.1 ≤ 5) }
    ensures value { MatchOption result (escape_at bytes.now ≡ None) (λ e. escape_at bytes.now ≡ Some (e.1, encode_utf8 e.0)) }
{
    let [first, after @ ..] = bytes else {
        return None;
    };
    if *first == b'u' {
        coded_escape(after)
    } else {
        short_escape(*first)
    }
}

/// The character of an escape of one letter.
fn short_escape(letter: u8) -> Option<(char, usize)>
    ensures len { IfSome result (λ e. e.1 ≤ 5) }
    ensures value { MatchOption result (short_escape (escape_in escapes letter) ≡ None) (λ e. short_escape (escape_in escapes letter) ≡ Some (e.1, encode_utf8 e.0)) }
{
    match letter {
        b'n' => Some(('\n', 1)),
        b't' => Some(('\t', 1)),
        b'r' => Some(('\r', 1)),
        b'"' => Some(('"', 1)),
        b'\\' => Some(('\\', 1)),
        b'#' => Some(('#', 1)),
        b's' => Some((' ', 1)),
        _ => None,
    }
}

/// The character of four hexadecimal digits.
fn coded_escape(digits: &[u8]) -> Option<(char, usize)>
    ensures len { IfSome result (λ e. e.1 ≤ 5) }
    ensures value { MatchOption result (coded_escape digits.now ≡ None) (λ e. coded_escape digits.now ≡ Some (e.1, encode_utf8 e.0)) }
{
    let [a, b, c, d, ..] = digits else {
        return None;
    };
    let Some(code) = hex_value(*a, *b, *c, *d) else {
        return None;
    };
    match char::from_u32(code) {
        None => None,
        Some(c) => Some((c, 5)),
    }
}

/// The number that four hexadecimal digits write.
fn hex_value(a: u8, b: u8, c: u8, d: u8) -> Option<u32>
    ensures { MatchOption result (are_hexdigits a b c d ≡ false) (λ n. (are_hexdigits a b c d ≡ true) × (n ≡ hex_value a b c d) × (n < 65536)) }
{
    let Some(high) = hex_pair(a, b) else {
        return None;
    };
    match hex_pair(c, d) {
        None => None,
        Some(low) => Some(high * 256 + low),
    }
}

/// The number that two hexadecimal digits write.
fn hex_pair(a: u8, b: u8) -> Option<u32>
    ensures { MatchOption result ((is_ascii_hexdigit a && is_ascii_hexdigit b) ≡ false) (λ n. ((is_ascii_hexdigit a && is_ascii_hexdigit b) ≡ true) × (n ≡ digit_value a * 16 + digit_value b) × (n < 256)) }
{
    let Some(high) = hex_digit(a) else {
        return None;
    };
    match hex_digit(b) {
        None => None,
        Some(low) => Some(high * 16 + low),
    }
}

/// The value of a hexadecimal digit.
fn hex_digit(b: u8) -> Option<u32>
    ensures { MatchOption result (is_ascii_hexdigit b ≡ false) (λ n. (is_ascii_hexdigit b ≡ true) × (n ≡ digit_value b) × (n < 16)) }
{
    match b {
        b'0'..=b'9' => Some((b - b'0') as u32),
        b'a'..=b'f' => Some((b - b'a') as u32 + 10),
        b'A'..=b'F' => Some((b - b'A') as u32 + 10),
        _ => None,
    }
}
