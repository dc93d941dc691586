//! Signs.
ghost use Rattle.std.specs.Prelude.{◌≡◌, ◌∷◌, ◌==◌, if◌then◌else◌, Some};
ghost use Rattle.ex_grammar.specs.Tokens.{signs};
ghost use Rattle.ex_grammar.specs.Lexing.{sign_in};
ghost use Rattle.ex_grammar.specs.Texts.{first_is};
ghost use Rattle.ex_lexer.specs.Front.{sign_len, single_sign};

use crate::texts::begins_with;
use ex_grammar::Sign;

/// The longest sign at the front, and how many bytes it has.
pub(crate) fn sign_at(bytes: &[u8]) -> Option<(Sign, usize)>
    ensures { result ≡ sign_len (sign_in signs bytes.now) }
{
    let [first, after @ ..] = bytes else {
        return None;
    };
    match *first {
        b'=' => Some(equals_sign(after)),
        b'!' => Some(bang_sign(after)),
        b'<' => Some(less_sign(after)),
        b'|' => Some(bar_sign(after)),
        b'+' => Some(either(after, b'+', Sign::PlusPlus, Sign::Plus)),
        b'-' => Some(either(after, b'>', Sign::RightArrow, Sign::Minus)),
        b'>' => Some(either(after, b'=', Sign::GreaterEqual, Sign::Greater)),
        b'&' => and_sign(after),
        b => match single_sign(b) {
            None => None,
            Some(sign) => Some((sign, 1)),
        },
    }
}

/// The longer of two signs where a byte follows, and else the shorter, of one byte.
fn either(after: &[u8], b: u8, longer: Sign, shorter: Sign) -> (Sign, usize)
    ensures { result ≡ (if first_is (λ c. c == b) after.now then (longer, 2) else (shorter, 1)) }
{
    if begins_with(after, b) {
        (longer, 2)
    } else {
        (shorter, 1)
    }
}

/// The sign that begins with `=`, where these follow it.
fn equals_sign(after: &[u8]) -> (Sign, usize)
    ensures { Some result ≡ sign_len (sign_in signs (61 ∷ after.now)) }
{
    match after {
        [b'=', b'=', ..] => (Sign::TripleEqual, 3),
        [b'=', ..] => (Sign::EqualEqual, 2),
        _ => (Sign::Equals, 1),
    }
}

/// The sign that begins with `!`.
fn bang_sign(after: &[u8]) -> (Sign, usize)
    ensures { Some result ≡ sign_len (sign_in signs (33 ∷ after.now)) }
{
    match after {
        [b'=', b'=', ..] => (Sign::BangEqualEqual, 3),
        [b'=', ..] => (Sign::BangEqual, 2),
        _ => (Sign::Bang, 1),
    }
}

/// The sign that begins with `<`.
fn less_sign(after: &[u8]) -> (Sign, usize)
    ensures { Some result ≡ sign_len (sign_in signs (60 ∷ after.now)) }
{
    match after {
        [b'>', ..] => (Sign::LessGreater, 2),
        [b'=', ..] => (Sign::LessEqual, 2),
        [b'-', ..] => (Sign::LeftArrow, 2),
        _ => (Sign::Less, 1),
    }
}

/// The sign that begins with `|`.
fn bar_sign(after: &[u8]) -> (Sign, usize)
    ensures { Some result ≡ sign_len (sign_in signs (124 ∷ after.now)) }
{
    match after {
        [b'>', ..] => (Sign::Pipe, 2),
        [b'|', ..] => (Sign::OrOr, 2),
        _ => (Sign::Bar, 1),
    }
}

/// `&&`.
fn and_sign(after: &[u8]) -> Option<(Sign, usize)>
    ensures { result ≡ sign_len (sign_in signs (38 ∷ after.now)) }
{
    if begins_with(after, b'&') {
        Some((Sign::AndAnd, 2))
    } else {
        None
    }
}

/// A sign that no other begins with.
fn single_sign(b: u8) -> Option<Sign>
    ensures { result ≡ single_sign b }
{
    match b {
        b'*' => Some(Sign::Star),
        b'^' => Some(Sign::Caret),
        b',' => Some(Sign::Comma),
        b'(' => Some(Sign::OpenParen),
        b')' => Some(Sign::CloseParen),
        b'[' => Some(Sign::OpenBracket),
        b']' => Some(Sign::CloseBracket),
        b'{' => Some(Sign::OpenBrace),
        b'}' => Some(Sign::CloseBrace),
        b'.' => Some(Sign::Dot),
        _ => None,
    }
}
