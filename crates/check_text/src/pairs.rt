//! All pairs of short edits of one text: both orders, and two deltas as one, against a text that is
//! merged place by place (`delta_laws`).
use crate::laws::{orders_make, two_make};
use crate::parts::{Part, delta_of};
use delta::{Delta, Side, have_room, transform};
use std::alloc::Global;
use utf16_text::Text;

/// Three characters, the second of two units.
const TEXT: &str = "a\u{1F600}b";

/// What stands at each place of the text, and nothing behind it. Places count characters.
const CHARACTERS: [&str; 4] = ["a", "\u{1F600}", "b", ""];

/// How many units stand before each place.
const UNITS_BEFORE: [u64; 4] = [0, 1, 3, 4];

/// All two stretches of the text of which the second begins behind the first: their places.
const STRETCHES: [[u64; 4]; 15] = [
    [0, 0, 1, 1],
    [0, 0, 1, 2],
    [0, 0, 1, 3],
    [0, 0, 2, 2],
    [0, 0, 2, 3],
    [0, 0, 3, 3],
    [0, 1, 2, 2],
    [0, 1, 2, 3],
    [0, 1, 3, 3],
    [0, 2, 3, 3],
    [1, 1, 2, 2],
    [1, 1, 2, 3],
    [1, 1, 3, 3],
    [1, 2, 3, 3],
    [2, 2, 3, 3],
];

/// How many edits there are.
const EDITS: u64 = 90;

/// A part of an edit: it takes the characters between two places away, and puts a text in before them.
#[derive(Drop)]
struct Change {
    from: u64,
    to: u64,
    put: &'static str,
}

/// Two parts, the second behind the first.
#[derive(Drop)]
struct Edit {
    first: Change,
    second: Change,
}

/// The edit of a number: each of the stretches, and each of what is put in.
fn edit_of(number: u64) -> Edit {
    let [from, to, later_from, later_to] = STRETCHES[(number / 6 % 15) as usize];
    Edit {
        first: Change {
            from,
            to,
            put: ["", "x", "\u{1F601}"][(number % 3) as usize],
        },
        second: Change {
            from: later_from,
            to: later_to,
            put: ["", "y"][(number / 3 % 2) as usize],
        },
    }
}

fn units_before(place: u64) -> u64 {
    UNITS_BEFORE[(place % 4) as usize]
}

/// Adds the steps of a part, from a place of units on, and gives the place after it.
fn push_change(parts: &mut Vec<Part>, at: u64, change: &Change) -> Option<u64> {
    if change.put.is_empty() && change.from == change.to {
        return Some(at);
    }
    let from = units_before(change.from);
    let to = units_before(change.to);
    if from > at {
        parts.push(Part::Keep(from - at)).ok()?;
    }
    if !change.put.is_empty() {
        parts.push(Part::Put(change.put)).ok()?;
    }
    if to > from {
        parts.push(Part::Cut(to - from)).ok()?;
    }
    Some(to)
}

fn edit_delta(alloc: Global, edit: &Edit) -> Option<Delta> {
    let mut parts = Vec::new(alloc);
    let at = push_change(&mut parts, 0, &edit.first)?;
    push_change(&mut parts, at, &edit.second)?;
    delta_of(alloc, &parts)
}

/// What an edit puts in before a place.
fn put_at(edit: &Edit, place: u64) -> &'static str {
    if edit.first.from == place {
        edit.first.put
    } else if edit.second.from == place {
        edit.second.put
    } else {
        ""
    }
}

fn cuts(edit: &Edit, place: u64) -> bool {
    (edit.first.from <= place && place < edit.first.to)
        || (edit.second.from <= place && place < edit.second.to)
}

/// What stays of the text at a place.
fn left_at(a: &Edit, b: &Edit, place: u64) -> &'static str {
    if cuts(a, place) || cuts(b, place) {
        ""
    } else {
        CHARACTERS[(place % 4) as usize]
    }
}

/// The text of both edits, place by place, that of `a` first.
fn merged(alloc: Global, a: &Edit, b: &Edit) -> Option<String> {
    let mut made = String::new(alloc);
    for place in 0..4 {
        made.push_str(put_at(a, place)).ok()?;
        made.push_str(put_at(b, place)).ok()?;
        made.push_str(left_at(a, b, place)).ok()?;
    }
    Some(made)
}

/// The second of two deltas of one text as it goes after the first, which is first in a tie.
fn after_first(alloc: Global, first: &Delta, second: &Delta) -> Option<Delta> {
    if have_room(first, second) {
        transform(alloc, first, second, Side::Left).ok()
    } else {
        None
    }
}

fn deltas_agree(
    alloc: Global,
    text: &Text,
    first: &Delta,
    second: &Delta,
    wanted: &str,
) -> Option<bool> {
    let later = after_first(alloc, first, second)?;
    Some(
        orders_make(alloc, text, first, second, wanted)?
            && two_make(alloc, text, first, &later, wanted)?,
    )
}

/// Whether two edits make the merged text in both orders, and also as one.
fn agree(alloc: Global, text: &Text, a: &Edit, b: &Edit) -> Option<bool> {
    let wanted = merged(alloc, a, b)?;
    let first = edit_delta(alloc, a)?;
    let second = edit_delta(alloc, b)?;
    deltas_agree(alloc, text, &first, &second, wanted.as_str())
}

pub fn all(alloc: Global) -> Option<usize> {
    let text = Text::of(alloc, TEXT).ok()?;
    for pair in 0..EDITS * EDITS {
        if !agree(alloc, &text, &edit_of(pair / EDITS), &edit_of(pair % EDITS))? {
            return Some(pair as usize + 1);
        }
    }
    Some(0)
}
