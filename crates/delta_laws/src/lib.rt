//! The laws of deltas, as calls whose contracts are the laws.
//!
//! Two edits of one text that know nothing of each other can be made in either order: each, as it
//! goes after the other, fits what the other makes, and both orders make one text. An edit and one of
//! what it makes can be joined: as one they fit the first text and make the same of it.
//!
//! The layer above may rely on `DeltaLaws`, one record of all laws over the definitions, which
//! `delta_laws` of `proofs/` gives: it is the only lemma on deltas that clients and servers need.
#![tactic(auto)]

ghost use Rattle.std.specs.Prelude.{◌≡◌, ◌<◌, ◌↔◌, [], true, false, length, IsTrue, IfOk};
ghost use Rattle.utf16_text.specs.Units.{unit_count};
ghost use Rattle.delta.specs.Canonical.{is_proper, is_retain};
ghost use Rattle.delta.specs.Steps.{reach_of};
ghost use Rattle.delta.specs.Moves.{FitsText, text_after, composed};
ghost use Rattle.delta_laws.specs.Ends.{is_felt, ends_felt};
ghost use Rattle.delta_laws.specs.Laws.{IsNothing};
ghost use Rattle.delta_laws.specs.Pairs.{IsBothOrders, IsInTwo, text_in_order};

mod room;

use delta::{ApplyError, Delta, Side, Step};
pub use room::{composed, transformed};
use std::alloc::{AllocError, Global};
use utf16_text::{Text, unit_len};

/// Two texts that a law says are equal.
#[derive(Debug, Drop)]
pub struct Pair {
    pub one: Text,
    pub other: Text,
}

/// `a` and then `b` as it goes after `a`, and `b` and then `a` as it goes after `b`; where both put
/// something in at one place, that of `a` comes first. Both deltas fit the text.
pub fn both_orders(alloc: Global, text: &Text, a: &Delta, b: &Delta) -> Result<Pair, AllocError>
    requires a_fits { FitsText a.now text.now }
    requires b_fits { FitsText b.now text.now }
    ensures { IfOk result (IsBothOrders text.now a.now b.now) }
{
    let one = a_first(alloc, text, a, b)?;
    let other = b_first(alloc, text, a, b)?;
    Ok(Pair { one, other })
}

/// `a` and then `b`, one by one, and as one delta. `a` fits the text, and `b` what `a` makes of it.
pub fn in_two(alloc: Global, text: &Text, a: &Delta, b: &Delta) -> Result<Pair, AllocError>
    requires a_fits { FitsText a.now text.now }
    requires b_fits { FitsText b.now (text_after a.now text.now) }
    ensures { IfOk result (IsInTwo text.now a.now b.now) }
{
    let after = applied(alloc, a, text)?;
    let one = applied(alloc, b, &after)?;
    let other = applied_at_once(alloc, text, a, b)?;
    Ok(Pair { one, other })
}

/// The delta that does nothing. It takes no memory.
pub fn nothing(alloc: Global) -> Delta
    ensures steps { result ≡ [] }
    ensures laws { IsNothing result }
{
    match Delta::from_compact(Vec::new(alloc)) {
        Ok(delta) => delta,
        Err(_) => unreachable!(),
    }
}

/// Whether a delta reaches past a text: then it fits neither this text nor, moved over them, what any
/// other deltas make of it. It takes no memory.
pub fn reaches_past(delta: &Delta, text: &Text) -> bool
    ensures past { IsTrue result ↔ (unit_count text.now < reach_of delta.now) }
    ensures felt { IsTrue result → IsTrue (ends_felt delta.now) }
{
    unit_len(text.as_str()) < delta.reach() && ends_felt(delta)
}

/// Whether the last step puts a unit in or drops one, as that of every delta does that is not empty.
fn ends_felt(delta: &Delta) -> bool
    ensures value { result ≡ ends_felt delta.now }
    ensures some { 0 < length delta.now → result ≡ true }
{
    match delta.to_compact().last() {
        None => false,
        Some(step) => is_felt(step),
    }
}

/// Whether a step puts a unit in or drops one.
fn is_felt(step: &Step) -> bool
    ensures value { result ≡ is_felt step.now }
    ensures some { is_proper step.now ≡ true → is_retain step.now ≡ false
        → result ≡ true }
{
    match step {
        Step::Retain(_) => false,
        Step::Insert(text) => unit_len(text.as_str()) >= 1,
        Step::Delete(n) => *n >= 1,
    }
}

fn a_first(alloc: Global, text: &Text, a: &Delta, b: &Delta) -> Result<Text, AllocError>
    requires a_fits { FitsText a.now text.now }
    requires b_fits { FitsText b.now text.now }
    ensures { IfOk result (λ t. t ≡ text_in_order false a.now b.now text.now) }
{
    let after = applied(alloc, a, text)?;
    let moved = transformed(alloc, a, b, Side::Left)?;
    applied(alloc, &moved, &after)
}

fn b_first(alloc: Global, text: &Text, a: &Delta, b: &Delta) -> Result<Text, AllocError>
    requires a_fits { FitsText a.now text.now }
    requires b_fits { FitsText b.now text.now }
    ensures { IfOk result (λ t. t ≡ text_in_order true b.now a.now text.now) }
{
    let after = applied(alloc, b, text)?;
    let moved = transformed(alloc, b, a, Side::Right)?;
    applied(alloc, &moved, &after)
}

fn applied_at_once(alloc: Global, text: &Text, a: &Delta, b: &Delta) -> Result<Text, AllocError>
    requires a_fits { FitsText a.now text.now }
    requires b_fits { FitsText b.now (text_after a.now text.now) }
    ensures { IfOk result (λ t. t ≡ text_after (composed a.now b.now) text.now) }
{
    let both = composed(alloc, a, b)?;
    applied(alloc, &both, text)
}

/// What a delta makes of a text that it fits.
fn applied(alloc: Global, delta: &Delta, text: &Text) -> Result<Text, AllocError>
    requires { FitsText delta.now text.now }
    ensures { IfOk result (λ t. t ≡ text_after delta.now text.now) }
{
    match delta.apply(alloc, text) {
        Ok(made) => Ok(made),
        Err(ApplyError::OutOfMemory) => Err(AllocError),
        Err(ApplyError::PastEnd { .. } | ApplyError::SplitsPair { .. }) => unreachable!(),
    }
}
