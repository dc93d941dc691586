//! Texts, counted in UTF-16 units.
//!
//! A text is a list of characters, Unicode scalar values, and is kept as UTF-8. Places and lengths
//! of the layers above are counted in UTF-16 units, as browsers and Livebook count them: a character
//! up to U+FFFF is one unit, and any other is a pair of two.
//!
//! The layer above may rely on this: a contract sees a [`Text`] as its list of characters, each of
//! which is a scalar value; `units` gives the units of a list of characters, and `decoded` goes back.
//! No layer above has to know of bytes.
#![tactic(auto)]

ghost use Rattle.std.specs.Prelude.{◌≡◌, ◌==◌, ◌<◌, ◌≤◌, ◌↔◌, ◌+◌, [], ◌∷◌, ◌++◌, length, take, drop, true, IfOk, OnOk, OnErr, MatchResult};
ghost use Rattle.std.specs.Str.{chars, encode_utf8_all};
ghost use Rattle.utf16_text.specs.Units.{units, unit_count, decoded, begun_by, paired_with_next, is_high_half, AreScalars, CutsInto, IsPlaceOf, BeginsAt, IsInside, IsCauseOf};
ghost use Rattle.utf16_text.specs.Pieces.{characters_of};
ghost use Rattle.utf16_text.specs.Bytes.{begun_at, begun_in, IsFrontOf};

use std::alloc::{AllocError, Global};
use std::marker::Model;
use thiserror::Error;

/// Why a text has no cut at a place, which is counted in units.
#[derive(Clone, Copy, Debug, PartialEq, Eq, Error)]
pub enum UnitError {
    /// The place is past the text, which has `len` units: place 5 of `ab`.
    #[error("the text has {len} units")]
    PastEnd { len: u64 },
    /// The place stands between the two units of one character: place 1 of an emoji.
    #[error("place {at} is inside a surrogate pair")]
    SplitsPair { at: u64 },
}

/// An owned text. It keeps the number of its units, so asking for that costs nothing.
#[derive(Debug, Drop)]
pub struct Text {
    text: String,
    units: u64,
}

impl Model for Text {
    ghost use Rattle.std.specs.Prelude.{ℕ, List, ◌≡◌};
    ghost use Rattle.std.specs.Str.{chars};
    ghost use Rattle.std.specs.String.{string_bytes};
    ghost use Rattle.utf16_text.specs.Units.{unit_count};

    ghost Value = { List ℕ };

    ghost view = { λ t. chars (string_bytes t.text) };

    ghost invariant = { λ t. t.units ≡ unit_count (chars (string_bytes t.text)) };
}

impl Text {
    /// The empty text. It takes no memory; the text keeps the allocator for when it grows.
    pub fn new(alloc: Global) -> Text
        ensures { result ≡ [] }
    {
        Text {
            text: String::new(alloc),
            units: 0,
        }
    }

    /// The empty text with room for so many bytes of UTF-8, so that it takes no more memory while it
    /// has no more than these.
    pub fn with_room(alloc: Global, bytes: usize) -> Result<Text, AllocError>
        ensures { IfOk result (λ t. t ≡ []) }
    {
        Ok(Text {
            text: String::with_capacity(alloc, bytes)?,
            units: 0,
        })
    }

    /// A copy of a string.
    pub fn of(alloc: Global, s: &str) -> Result<Text, AllocError>
        ensures { IfOk result (λ t. t ≡ chars s.now) }
    {
        Ok(Text {
            text: String::from_str(alloc, s)?,
            units: unit_len(s),
        })
    }

    /// The number of the text's UTF-16 units. It takes no memory and no time.
    pub fn unit_len(&self) -> u64
        ensures { result ≡ unit_count self.now }
    {
        self.units
    }

    /// The text as a string slice. Each of its characters is a scalar value.
    pub fn as_str(&self) -> &str
        ensures bytes { result.now ≡ encode_utf8_all self.now }
        ensures characters { chars result.now ≡ self.now }
        ensures scalars { AreScalars self.now }
    {
        self.text.as_str()
    }

    /// Whether the text has no character.
    pub fn is_empty(&self) -> bool
        ensures { result ≡ (length self.now == 0) }
    {
        self.text.as_str().is_empty()
    }

    /// An equal text.
    pub fn copy(&self) -> Result<Text, AllocError>
        ensures { IfOk result (λ t. t ≡ self.now) }
    {
        Ok(Text {
            text: self.text.clone()?,
            units: self.units,
        })
    }

    /// The text that a list of units stands for. A half of a pair that does not stand directly
    /// beside its other half is left out.
    pub fn of_units(alloc: Global, units: &[u16]) -> Result<Text, AllocError>
        ensures { IfOk result (λ t. t ≡ decoded units.now) }
    {
        let mut made = Text::new(alloc);
        for (i, unit) in units.iter().enumerate() {
            if let Some(c) = begun_by(*unit, &units[i + 1..]) {
                made.push(c)?;
            }
        }
        Ok(made)
    }

    /// Adds a character at the end. After want of memory the text is as it was.
    pub fn push(&mut self, c: char) -> Result<(), AllocError>
        ensures ok { OnOk result (self.new ≡ self.old ++ c ∷ []) }
        ensures err { OnErr result (self.new ≡ self.old) }
    {
        self.text.push(c)?;
        self.units += c.len_utf16() as u64;
        Ok(())
    }

    /// Adds a string at the end. After want of memory the text is as it was.
    pub fn push_str(&mut self, s: &str) -> Result<(), AllocError>
        ensures ok { OnOk result (self.new ≡ self.old ++ chars s.now) }
        ensures err { OnErr result (self.new ≡ self.old) }
        ensures scalars { AreScalars self.new }
    {
        self.push_counted(s, unit_len(s))
    }

    /// Adds a string at the end, whose number of units is known. After want of memory the text is as
    /// it was.
    pub fn push_counted(&mut self, s: &str, units: u64) -> Result<(), AllocError>
        requires { units ≡ unit_count (chars s.now) }
        ensures ok { OnOk result (self.new ≡ self.old ++ chars s.now) }
        ensures err { OnErr result (self.new ≡ self.old) }
        ensures scalars { AreScalars self.new }
    {
        self.text.push_str(s)?;
        self.units += units;
        Ok(())
    }
}

/// How many bytes are counted together.
const BLOCK: usize = 64;

/// The number of UTF-16 units of a text. It takes no memory.
pub fn unit_len(s: &str) -> u64
    ensures { result ≡ unit_count (chars s.now) }
{
    let bytes = s.as_bytes();
    let front = front_within(bytes, u64::MAX);
    front.units + begun_after(bytes, front.bytes)
}

/// How many units begin in the bytes from a place on.
fn begun_after(bytes: &[u8], from: usize) -> u64
    requires { from ≤ length bytes.now }
    ensures { result ≡ begun_in (drop from bytes.now) }
{
    let mut count: u64 = 0;
    for byte in &bytes[from..] {
        count += begun_at(*byte) as u64;
    }
    count
}

/// How many units begin with a byte of UTF-8: those of the character that it is the first byte of,
/// and none where it continues one.
fn begun_at(byte: u8) -> u8
    ensures units { result ≡ begun_at byte }
    ensures few { result ≤ 2 }
{
    (byte < 0x80 || byte >= 0xC0) as u8 + (byte >= 0xF0) as u8
}

/// How many units begin in a block. The sum stays within a byte, so the compiler adds up many bytes
/// at once.
fn begun_in(block: &[u8]) -> u8
    requires { length block.now ≤ 64 }
    ensures { result ≡ begun_in block.now }
{
    let mut count: u8 = 0;
    for byte in block {
        count += begun_at(*byte);
    }
    count
}

/// Bytes at the front of a text, and how many units begin in them.
#[derive(Clone, Copy)]
struct Front {
    bytes: usize,
    units: u64,
}

/// Whole blocks at the front, in which no more than `most` units begin.
fn front_within(bytes: &[u8], most: u64) -> Front
    ensures { IsFrontOf bytes.now most result.bytes result.units }
{
    let mut front = Front { bytes: 0, units: 0 };
    while let Some((block, _)) = bytes[front.bytes..].split_at_checked(BLOCK) {
        let more = begun_in(block) as u64;
        if more > most - front.units {
            break;
        }
        front.units += more;
        front.bytes += BLOCK;
    }
    front
}

/// The UTF-16 units of a text.
pub fn units_of(alloc: Global, s: &str) -> Result<Vec<u16>, AllocError>
    ensures { IfOk result (λ v. v.items ≡ units (chars s.now)) }
{
    let mut made = Vec::new(alloc);
    for c in s.chars() {
        let mut pair = [0; 2];
        made.extend_from_slice(c.encode_utf16(&mut pair))?;
    }
    Ok(made)
}

/// The character that begins with a unit, where these follow it: none for a half of a pair that is a
/// low half, or that no low half follows.
fn begun_by(unit: u16, after: &[u16]) -> Option<char>
    ensures { characters_of result ≡ begun_by unit after.now }
{
    if (0xD800..0xDC00).contains(&unit) {
        paired_with_next(unit, after)
    } else {
        char::from_u32(unit as u32)
    }
}

/// The character of a high half and the unit that follows it.
fn paired_with_next(high: u16, after: &[u16]) -> Option<char>
    requires { is_high_half high ≡ true }
    ensures { characters_of result ≡ paired_with_next high after.now }
{
    let (low, _) = after.split_first()?;
    if !(0xDC00..0xE000).contains(low) {
        return None;
    }
    let above = ((high - 0xD800) as u32) * 0x400 + (*low - 0xDC00) as u32;
    char::from_u32(0x1_0000 + above)
}

/// The byte place of a place that is counted in units. It takes no memory.
///
/// It answers `PastEnd` exactly where the place is above the text's length, and else `SplitsPair`
/// exactly where it stands between the two units of one character.
pub fn byte_of_unit(s: &str, at: u64) -> Result<usize, UnitError>
    ensures { MatchResult result (IsPlaceOf (chars s.now) at) (IsCauseOf (chars s.now) at) }
{
    let bytes = s.as_bytes();
    let front = front_within(bytes, at);
    let mut unit = front.units;
    for byte in front.bytes..bytes.len() {
        let after = unit + begun_at(bytes[byte]) as u64;
        if at < after {
            return place_before(byte, unit, at);
        }
        unit = after;
    }
    if unit == at {
        return Ok(bytes.len());
    }
    Err(UnitError::PastEnd { len: unit })
}

/// The byte place `byte` of the place `at`, if it is that of the first unit of the character there,
/// which begins with the unit `unit`.
fn place_before(byte: usize, unit: u64, at: u64) -> Result<usize, UnitError>
    ensures { MatchResult result (BeginsAt byte unit at) (IsInside unit at) }
{
    if unit == at {
        Ok(byte)
    } else {
        Err(UnitError::SplitsPair { at })
    }
}

/// The text before a place that is counted in units, and the text after it. It takes no memory, and
/// answers as [`byte_of_unit`] where there is no such cut.
pub fn split_units(s: &str, at: u64) -> Result<(&str, &str), UnitError>
    ensures { MatchResult result
        (λ p. CutsInto (chars s.now) at (chars p.0.now) (chars p.1.now))
        (IsCauseOf (chars s.now) at) }
{
    let byte = byte_of_unit(s, at)?;
    Ok((&s[..byte], &s[byte..]))
}
