//! Texts that are counted in UTF-16 units (`utf16_text`).
use crate::tables::Row;
use std::alloc::Global;
use utf16_text::{Text, UnitError, byte_of_unit, split_units, unit_len, units_of};

const TEXT: &str = "a\u{1F600}é";

/// A text, and its units.
pub struct Counted(&'static str, &'static [u16]);

pub const COUNTED: &[Counted] = &[Counted(TEXT, &[0x61, 0xD83D, 0xDE00, 0xE9])];

impl Row for Counted {
    fn is_as_wanted(&self, alloc: Global) -> Option<bool> {
        let text = Text::of(alloc, self.0).ok()?;
        let units = units_of(alloc, text.as_str()).ok()?;
        Some(units.as_slice() == self.1 && unit_len(text.as_str()) == self.1.len() as u64)
    }
}

/// A place of units in the text, and its byte with what stands before and after it.
pub struct Cut(u64, &'static str);

pub const CUTS: &[Cut] = &[
    Cut(3, "5: a\u{1F600} | é"),
    Cut(2, "SplitsPair { at: 2 }"),
    Cut(5, "PastEnd { len: 4 }"),
];

fn cut_at(text: &str, at: u64) -> Result<(usize, &str, &str), UnitError> {
    let byte = byte_of_unit(text, at)?;
    let (before, after) = split_units(text, at)?;
    Ok((byte, before, after))
}

fn shown_cut(alloc: Global, at: u64) -> Option<String> {
    match cut_at(TEXT, at) {
        Ok((byte, before, after)) => format!(in alloc; "{byte}: {before} | {after}").ok(),
        Err(error) => format!(in alloc; "{error:?}").ok(),
    }
}

impl Row for Cut {
    fn is_as_wanted(&self, alloc: Global) -> Option<bool> {
        Some(shown_cut(alloc, self.0)?.as_str() == self.1)
    }
}

fn grown(alloc: Global) -> Option<Text> {
    let mut text = Text::new(alloc);
    text.push('a').ok()?;
    text.push_str("\u{1F600}").ok()?;
    text.copy().ok()
}

pub fn growth(alloc: Global) -> Option<bool> {
    let text = grown(alloc)?;
    Some(Text::new(alloc).is_empty() && text.as_str() == "a\u{1F600}")
}

/// Units, and the text that they stand for.
pub struct Halves(&'static [u16], &'static str);

pub const HALVES: &[Halves] = &[Halves(
    &[
        0xDE00, 0x61, 0xD83D, 0xD83D, 0xDE00, 0xDE00, 0x62, 0xFFFF, 0xD83D,
    ],
    "a\u{1F600}b\u{FFFF}",
)];

impl Row for Halves {
    fn is_as_wanted(&self, alloc: Global) -> Option<bool> {
        Some(Text::of_units(alloc, self.0).ok()?.as_str() == self.1)
    }
}
