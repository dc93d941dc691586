//! Texts between quotes.
ghost use Rattle.std.specs.Prelude.{◌≡◌, ◌++◌, ◌∷◌, ◌<◌, false, None, Some, List, ℕ, OnOk, IfOk, MatchOption, chars, string_bytes, encode_utf8_all};
ghost use Rattle.ex_terms.specs.Printed.{escaped, hex_digit, inner, pending, plain_char, quoted, short_escape, waiting};

use std::alloc::AllocError;

/// Puts a text in quotes behind another.
pub(crate) fn push_quoted(out: &mut String, text: &str) -> Result<(), AllocError>
    ensures { OnOk result (string_bytes out.new ≡ string_bytes out.old ++ quoted text.now) }
{
    out.push('"')?;
    push_inner(out, text)?;
    out.push('"')?;
    Ok(())
}

/// Puts the characters of a text behind another, as they stand between quotes.
fn push_inner(out: &mut String, text: &str) -> Result<(), AllocError>
    ensures { OnOk result (string_bytes out.new ≡ string_bytes out.old ++ encode_utf8_all (inner (chars text.now))) }
{
    let mut waits = false;
    for c in text.chars() {
        waits = push_char(out, waits, c)?;
    }
    push_waiting(out, waits, false)?;
    Ok(())
}

/// Puts a character behind a text, and before it the `#` that waited, if one did. A `#` waits itself.
fn push_char(out: &mut String, waits: bool, c: char) -> Result<bool, AllocError>
    ensures { IfOk result (λ after. (back : List ℕ) → string_bytes out.new ++ encode_utf8_all (pending after back) ≡ string_bytes out.old ++ encode_utf8_all (pending waits (c ∷ back))) }
{
    push_waiting(out, waits, c == '{')?;
    if c == '#' {
        return Ok(true);
    }
    push_escaped(out, c)?;
    Ok(false)
}

/// Puts the `#` behind a text that waited, if one did, by whether a `{` follows it.
fn push_waiting(out: &mut String, waits: bool, brace: bool) -> Result<(), AllocError>
    ensures { OnOk result (string_bytes out.new ≡ string_bytes out.old ++ encode_utf8_all (waiting waits brace)) }
{
    if !waits {
        return Ok(());
    }
    if brace {
        out.push('\\')?;
    }
    out.push('#')?;
    Ok(())
}

/// Puts a character behind a text as it stands between quotes, where no `{` follows it.
fn push_escaped(out: &mut String, c: char) -> Result<(), AllocError>
    ensures { OnOk result (string_bytes out.new ≡ string_bytes out.old ++ encode_utf8_all (escaped c false)) }
{
    match short_escape(c) {
        Some(escape) => {
            out.push_str(escape)?;
            Ok(())
        }
        None => {
            push_plain(out, c)?;
            Ok(())
        }
    }
}

/// The short escape of a character, if it has one.
fn short_escape(c: char) -> Option<&'static str>
    ensures { MatchOption result (short_escape c ≡ None) (λ escape. short_escape c ≡ Some escape.now) }
{
    match c {
        '\n' => Some("\\n"),
        '\t' => Some("\\t"),
        '\r' => Some("\\r"),
        '"' => Some("\\\""),
        '\\' => Some("\\\\"),
        _ => None,
    }
}

/// Puts a character behind a text, one below 32 by its number.
fn push_plain(out: &mut String, c: char) -> Result<(), AllocError>
    ensures { OnOk result (string_bytes out.new ≡ string_bytes out.old ++ encode_utf8_all (plain_char c)) }
{
    if c < ' ' {
        out.push_str("\\u00")?;
        out.push(hex_digit(c as u8 / 16))?;
        out.push(hex_digit(c as u8 % 16))?;
        return Ok(());
    }
    out.push(c)?;
    Ok(())
}

/// A hexadecimal digit, in capitals.
fn hex_digit(value: u8) -> char
    requires { value < 16 }
    ensures { result ≡ hex_digit value }
{
    if value < 10 {
        (b'0' + value) as char
    } else {
        (b'A' + (value - 10)) as char
    }
}
