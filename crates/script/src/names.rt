//! The names of a script's clients.
ghost use Rattle.std.specs.Prelude.{◌≡◌, ◌≢◌, ℕ, ◌≤◌, length, slice_get, Some, MatchOption};
ghost use Rattle.std.specs.List.{position};
ghost use Rattle.std.specs.Str.{bytes_eq, encode_utf8_all};
ghost use Rattle.script.specs.Clients.{AreNames};
ghost use Rattle.script.specs.Next.{HasNumber};

use crate::words::is_name;
use utf16_text::Text;

/// How many names a script may have.
const MAX_NAMES: usize = 64;

/// The number that a name has among these, or gets as the next one. None where it is new and no name
/// in its form, or one too many.
pub(crate) fn number_in(names: &[Text], name: &str) -> Option<u32>
    requires forms { AreNames names.now }
    requires few { length names.now ≤ 64 }
    ensures { MatchOption result ((client : ℕ) → ¬ (HasNumber names.now name.now client))
        (HasNumber names.now name.now) }
{
    match place_in(names, name) {
        Some(place) => Some(place as u32),
        None => next_number(names, name),
    }
}

/// The number that a name gets which isn't among these.
fn next_number(names: &[Text], name: &str) -> Option<u32>
    requires few { length names.now ≤ 64 }
    requires new { (place : ℕ) → slice_get names.now place ≢ Some name.now }
    ensures { MatchOption result ((client : ℕ) → ¬ (HasNumber names.now name.now client))
        (HasNumber names.now name.now) }
{
    if names.len() < MAX_NAMES && is_name(name) {
        Some(names.len() as u32)
    } else {
        None
    }
}

/// The place of a name among names in their form.
fn place_in(names: &[Text], name: &str) -> Option<usize>
    requires { AreNames names.now }
    ensures { MatchOption result ((place : ℕ) → slice_get names.now place ≢ Some name.now)
        (λ place. slice_get names.now place ≡ Some name.now) }
{
    first_place(names, name)
}

/// The place of the first text that is the word.
fn first_place(texts: &[Text], word: &str) -> Option<usize>
    ensures { result ≡ position (λ text. bytes_eq (encode_utf8_all text) word.now) texts.now }
{
    texts.iter().position(|text| text.as_str() == word)
}
