//! Deltas: made, applied, packed, transformed and composed (`delta`).
use crate::parts::{Part, delta_of, sealed, shown};
use crate::tables::Row;
use Part::{Cut, Keep, Put};
use delta::{ApplyError, Delta, Side, Step, compose, have_room, transform};
use std::alloc::Global;
use utf16_text::Text;

/// Steps, and the delta that they are, or the step that breaks a rule.
pub struct Sealed(&'static [Part], &'static str);

pub const SEALED: &[Sealed] = &[
    Sealed(&[], ""),
    Sealed(&[Keep(1), Cut(2), Put("x")], "BadDelta { at: 2 }"),
    Sealed(&[Keep(3)], "BadDelta { at: 0 }"),
    Sealed(&[Keep(0)], "BadDelta { at: 0 }"),
];

fn shown_sealed(alloc: Global, parts: &[Part]) -> Option<String> {
    match sealed(alloc, parts)? {
        Ok(delta) => shown(alloc, &delta),
        Err(bad) => format!(in alloc; "{bad:?}").ok(),
    }
}

impl Row for Sealed {
    fn is_as_wanted(&self, alloc: Global) -> Option<bool> {
        Some(shown_sealed(alloc, self.0)?.as_str() == self.1)
    }
}

/// Steps, how many old units they reach over and how many they put in, how often they are applied to
/// the text, and what that makes.
pub struct Applied {
    parts: &'static [Part],
    reach: u64,
    inserted: u64,
    times: u64,
    made: &'static str,
}

pub const APPLIED: &[Applied] = &[
    Applied {
        parts: &[Keep(3), Put("X")],
        reach: 3,
        inserted: 1,
        times: 1,
        made: "a\u{1F600}Xb",
    },
    Applied {
        parts: &[Keep(3), Put("X")],
        reach: 3,
        inserted: 1,
        times: 2,
        made: "a\u{1F600}XXb",
    },
    Applied {
        parts: &[Keep(2), Put("Y")],
        reach: 2,
        inserted: 1,
        times: 1,
        made: "SplitsPair { at: 2 }",
    },
    Applied {
        parts: &[Keep(2), Cut(3)],
        reach: 5,
        inserted: 0,
        times: 1,
        made: "PastEnd { len: 4 }",
    },
];

fn apply_often(alloc: Global, delta: &Delta, text: Text, times: u64) -> Result<Text, ApplyError> {
    let mut made = text;
    for _ in 0..times {
        made = delta.apply(alloc, &made)?;
    }
    Ok(made)
}

fn shown_applied(alloc: Global, delta: &Delta, times: u64) -> Option<String> {
    let text = Text::of(alloc, "a\u{1F600}b").ok()?;
    match apply_often(alloc, delta, text, times) {
        Ok(made) => format!(in alloc; "{}", made.as_str()).ok(),
        Err(error) => format!(in alloc; "{error:?}").ok(),
    }
}

impl Row for Applied {
    fn is_as_wanted(&self, alloc: Global) -> Option<bool> {
        let delta = delta_of(alloc, self.parts)?.copy(alloc).ok()?;
        let made = shown_applied(alloc, &delta, self.times)?;
        Some(
            delta.reach() == self.reach
                && delta.inserted() == self.inserted
                && made.as_str() == self.made,
        )
    }
}

fn pack(alloc: Global) -> Option<Delta> {
    let text = Text::of(alloc, "x").ok()?;
    if text.unit_len() != 1 {
        return None;
    }
    let steps = vec![in alloc; Step::Retain(1), Step::Delete(2), Step::Insert(text)].ok()?;
    Delta::pack(alloc, steps).ok()
}

pub fn packed(alloc: Global) -> Option<bool> {
    Some(shown(alloc, &pack(alloc)?)?.as_str() == "1 'x' -2 ")
}

/// Two deltas of one text, the side that is first in a tie, and the right one after the left.
pub struct Transformed {
    left: &'static [Part],
    right: &'static [Part],
    first: Side,
    moved: &'static str,
}

pub const TRANSFORMED: &[Transformed] = &[
    Transformed {
        left: &[Put("A")],
        right: &[Put("B")],
        first: Side::Left,
        moved: "1 'B' ",
    },
    Transformed {
        left: &[Put("A")],
        right: &[Put("B")],
        first: Side::Right,
        moved: "'B' ",
    },
];

fn moved(alloc: Global, row: &Transformed) -> Option<Delta> {
    let left = delta_of(alloc, row.left)?;
    let right = delta_of(alloc, row.right)?;
    if have_room(&left, &right) {
        transform(alloc, &left, &right, row.first).ok()
    } else {
        None
    }
}

impl Row for Transformed {
    fn is_as_wanted(&self, alloc: Global) -> Option<bool> {
        Some(shown(alloc, &moved(alloc, self)?)?.as_str() == self.moved)
    }
}

/// A delta, one of what it makes, and both as one.
pub struct Composed(&'static [Part], &'static [Part], &'static str);

pub const COMPOSED: &[Composed] = &[
    Composed(&[Put("xy")], &[Cut(1)], "'y' "),
    Composed(&[Put("x")], &[Cut(1)], ""),
    Composed(&[Put("\u{1F600}")], &[Cut(1)], ""),
    Composed(
        &[Put("\u{1F600}\u{1F601}")],
        &[Keep(1), Cut(2)],
        "'\u{1F601}' ",
    ),
];

fn as_one(alloc: Global, first: &[Part], second: &[Part]) -> Option<Delta> {
    let first = delta_of(alloc, first)?;
    let second = delta_of(alloc, second)?;
    if have_room(&first, &second) {
        compose(alloc, &first, &second).ok()
    } else {
        None
    }
}

impl Row for Composed {
    fn is_as_wanted(&self, alloc: Global) -> Option<bool> {
        Some(shown(alloc, &as_one(alloc, self.0, self.1)?)?.as_str() == self.2)
    }
}
