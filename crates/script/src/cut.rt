//! Lines, and what they say.
ghost use Rattle.std.specs.Prelude.{◌≡◌, ◌≢◌, ◌<◌, ◌==◌, [], ◌∷◌, length};
ghost use Rattle.std.specs.List.{position, position_or_len};
ghost use Rattle.script.specs.Lines.{lines, said, is_skipped};

use blanks::{without_crs, without_end_blanks, without_front_blanks};

/// The first line of bytes that aren't empty, and the bytes after it and its LF.
pub(crate) fn first_line(bytes: &[u8]) -> (&[u8], &[u8])
    requires { bytes.now ≢ [] }
    ensures lines { lines bytes.now ≡ result.0.now ∷ lines result.1.now }
    ensures shorter { length result.1.now < length bytes.now }
{
    let at = line_len(bytes);
    if at < bytes.len() {
        (&bytes[..at], &bytes[at + 1..])
    } else {
        (bytes, &[])
    }
}

/// How many bytes stand before the first LF, or all where there is none.
fn line_len(bytes: &[u8]) -> usize
    ensures { result ≡ position_or_len (λ b. b == 10) bytes.now }
{
    first_feed(bytes).unwrap_or(bytes.len())
}

/// The place of the first LF.
fn first_feed(bytes: &[u8]) -> Option<usize>
    ensures { result ≡ position (λ b. b == 10) bytes.now }
{
    bytes.iter().position(|b| *b == b'\n')
}

/// What a line says: without the CRs at its end, and then without outer blanks.
pub(crate) fn said(line: &str) -> &str
    ensures { result.now ≡ said line.now }
{
    without_front_blanks(without_end_blanks(without_crs(line)))
}

/// Whether a line that says this is skipped.
pub(crate) fn is_skipped(text: &str) -> bool
    ensures { result ≡ is_skipped text.now }
{
    matches!(text.as_bytes(), [] | [b'#', ..])
}
