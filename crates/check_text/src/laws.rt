//! The laws of deltas (`delta_laws`).
use crate::parts::{Part, delta_of};
use crate::tables::Row;
use Part::{Cut, Keep, Put};
use delta::Delta;
use delta_laws::{Pair, both_orders, in_two, nothing, reaches_past};
use std::alloc::Global;
use utf16_text::Text;

/// Both orders of two deltas, where both fit the text.
fn both(alloc: Global, text: &Text, a: &Delta, b: &Delta) -> Option<Pair> {
    match a.apply(alloc, text) {
        Err(_) => None,
        Ok(_) => match b.apply(alloc, text) {
            Err(_) => None,
            Ok(_) => both_orders(alloc, text, a, b).ok(),
        },
    }
}

/// Two deltas one by one and as one, where they fit one after the other.
fn two(alloc: Global, text: &Text, a: &Delta, b: &Delta) -> Option<Pair> {
    match a.apply(alloc, text) {
        Err(_) => None,
        Ok(after) => match b.apply(alloc, &after) {
            Err(_) => None,
            Ok(_) => in_two(alloc, text, a, b).ok(),
        },
    }
}

/// Whether both texts are the wanted one.
fn are(pair: &Pair, wanted: &str) -> bool {
    pair.one.as_str() == wanted && pair.other.as_str() == wanted
}

/// Whether two deltas that both fit a text make the wanted one in both orders.
pub fn orders_make(alloc: Global, text: &Text, a: &Delta, b: &Delta, wanted: &str) -> Option<bool> {
    Some(are(&both(alloc, text, a, b)?, wanted))
}

/// Whether a delta that fits a text, and one that fits what it makes, make the wanted text one by one
/// and as one.
pub fn two_make(alloc: Global, text: &Text, a: &Delta, b: &Delta, wanted: &str) -> Option<bool> {
    Some(are(&two(alloc, text, a, b)?, wanted))
}

/// A text, two deltas of it, and what both make of it.
pub struct Orders(&'static str, &'static [Part], &'static [Part], &'static str);

pub const ORDERS: &[Orders] = &[Orders("abcd", &[Keep(1), Cut(2)], &[Keep(2), Put("X")], "aXd")];

impl Row for Orders {
    fn is_as_wanted(&self, alloc: Global) -> Option<bool> {
        let text = Text::of(alloc, self.0).ok()?;
        let first = delta_of(alloc, self.1)?;
        orders_make(alloc, &text, &first, &delta_of(alloc, self.2)?, self.3)
    }
}

/// A text, a delta of it, one of what that makes, and what both make of it.
pub struct Joined(&'static str, &'static [Part], &'static [Part], &'static str);

pub const JOINED: &[Joined] = &[Joined("ab", &[Put("X")], &[Keep(1), Cut(1)], "Xb")];

impl Row for Joined {
    fn is_as_wanted(&self, alloc: Global) -> Option<bool> {
        let text = Text::of(alloc, self.0).ok()?;
        let first = delta_of(alloc, self.1)?;
        two_make(alloc, &text, &first, &delta_of(alloc, self.2)?, self.3)
    }
}

/// A delta, and whether it reaches past `ab`.
pub struct Reach(&'static [Part], bool);

pub const REACHES: &[Reach] = &[
    Reach(&[Keep(2), Cut(1)], true),
    Reach(&[Keep(1), Cut(1)], false),
];

impl Row for Reach {
    fn is_as_wanted(&self, alloc: Global) -> Option<bool> {
        let text = Text::of(alloc, "ab").ok()?;
        Some(reaches_past(&delta_of(alloc, self.0)?, &text) == self.1)
    }
}

pub fn is_nothing_empty(alloc: Global) -> bool {
    nothing(alloc).is_empty()
}
