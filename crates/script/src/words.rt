//! Words of a text, with blanks between them, and what they write.
ghost use Rattle.std.specs.Prelude.{◌≡◌, ℕ, MatchOption, slice_index};
ghost use Rattle.std.specs.List.{list_all, position, position_or_len};
ghost use Rattle.blanks.specs.Blanks.{is_space_or_tab};
ghost use Rattle.script.specs.Words.{first_word, after_word};
ghost use Rattle.script.specs.Name.{is_name, is_name_character, is_small_letter};
ghost use Rattle.script.specs.Number.{IsNumber};

use blanks::{is_space_or_tab, without_front_blanks};

/// The first word of a text, and what follows it and the blanks after it.
pub(crate) fn split_word(text: &str) -> (&str, &str)
    ensures word { result.0.now ≡ first_word text.now }
    ensures rest { result.1.now ≡ after_word text.now }
{
    let end = word_len(text.as_bytes());
    (&text[..end], without_front_blanks(&text[end..]))
}

/// How many bytes stand before the first blank, or all where there is none.
fn word_len(text: &[u8]) -> usize
    ensures { result ≡ position_or_len is_space_or_tab text.now }
{
    first_blank(text).unwrap_or(text.len())
}

/// The place of the first blank.
fn first_blank(text: &[u8]) -> Option<usize>
    ensures { result ≡ position is_space_or_tab text.now }
{
    text.iter().position(|b| is_space_or_tab(*b))
}

/// Whether a word is a client's name in its form: a small letter, then up to 15 small letters,
/// digits or `_`.
pub(crate) fn is_name(word: &str) -> bool
    ensures { result ≡ is_name word.now }
{
    let bytes = word.as_bytes();
    begins_with_letter(bytes) && are_name_characters(bytes) && bytes.len() <= 16
}

/// Whether all bytes may stand in a name.
fn are_name_characters(bytes: &[u8]) -> bool
    ensures { result ≡ list_all is_name_character bytes.now }
{
    bytes.iter().all(|b| is_name_character(*b))
}

/// Whether a small letter stands first.
fn begins_with_letter(bytes: &[u8]) -> bool
    ensures { result ≡ is_small_letter (slice_index bytes.now 0) }
{
    matches!(bytes, [b'a'..=b'z', ..])
}

/// Whether a byte may stand in a name.
fn is_name_character(byte: u8) -> bool
    ensures { result ≡ is_name_character byte }
{
    matches!(byte, b'a'..=b'z' | b'0'..=b'9' | b'_')
}

/// The number that a word writes in up to 20 decimal digits, below 2^64.
pub(crate) fn number_of(word: &str) -> Option<u64>
    ensures { MatchOption result ((n : ℕ) → ¬ (IsNumber word.now n)) (IsNumber word.now) }
{
    if word.len() > 20 || word.starts_with('+') {
        return None;
    }
    word.parse().ok()
}
