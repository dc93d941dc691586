//! Integers.
ghost use Rattle.std.specs.Prelude.{◌≡◌, ◌≤◌, ◌<◌, ◌^◌, ◌+◌, ◌*◌, ◌==◌, ◌&&◌, ◌||◌, ◌++◌, List, ℕ, MatchOption};
ghost use Rattle.ex_grammar.specs.Texts.{first_is};
ghost use Rattle.ex_grammar.specs.Names.{is_digit};
ghost use Rattle.ex_lexer.specs.Runs.{digits_at, digit_in, Counts};

/// The digits at the front of a source: how many bytes they take with the `_` between them, and the
/// number that they write: none where it is 2^128 or more.
#[derive(Clone, Copy, Debug)]
pub(crate) struct Digits {
    pub len: usize,
    pub value: Option<u128>,
}

/// The digits at the front.
pub(crate) fn read_digits(bytes: &[u8]) -> Digits
    ensures len { result.len ≡ (digits_at bytes.now).0 }
    ensures value { Counts result.value (digits_at bytes.now).1 }
{
    let mut value = Some(0);
    let mut len = 0;
    while len < bytes.len() && goes_on(bytes[len], &bytes[len + 1..]) {
        value = grown(value, bytes[len]);
        len += 1;
    }
    Digits { len, value }
}

/// Whether digits go on with a byte, where these follow it.
fn goes_on(b: u8, next: &[u8]) -> bool
    ensures { result ≡ (is_digit b || (b == 95 && first_is is_digit next.now)) }
{
    is_digit(b) || (b == b'_' && digit_first(next))
}

/// Whether a byte is a digit.
fn is_digit(b: u8) -> bool
    ensures { result ≡ is_digit b }
{
    b.is_ascii_digit()
}

/// Whether a digit stands first.
fn digit_first(bytes: &[u8]) -> bool
    ensures { result ≡ first_is is_digit bytes.now }
{
    matches!(bytes, [b'0'..=b'9', ..])
}

/// A number with a digit more; a `_` changes nothing.
fn grown(value: Option<u128>, b: u8) -> Option<u128>
    ensures { (ds : List ℕ) → Counts value ds → Counts result (ds ++ digit_in b) }
{
    if !is_digit(b) {
        return value;
    }
    match value {
        None => None,
        Some(n) => with_digit(n, b - b'0'),
    }
}

/// A number with a digit after it: none where that is 2^128 or more.
fn with_digit(n: u128, digit: u8) -> Option<u128>
    requires { digit < 10 }
    ensures { MatchOption result (2 ^ 128 ≤ n * 10 + digit) (λ m. m ≡ n * 10 + digit) }
{
    match n.checked_mul(10) {
        None => None,
        Some(tens) => tens.checked_add(digit as u128),
    }
}
