//! Deltas that were moved to the present text.
ghost use Rattle.std.specs.Prelude.{◌≡◌, ◌<◌, ◌↔◌, List, ℕ, drop, IsTrue, MatchResult};
ghost use Rattle.delta.specs.Steps.{reach_of};
ghost use Rattle.delta_laws.specs.Ends.{ends_felt};
ghost use Rattle.revisions.specs.Kept.{over_kept, IfTheyLead};
ghost use Rattle.revisions.specs.Moved.{BecomesMove, IsMoveCause};

use crate::errors::RevError;
use crate::kept::KeptDeltas;
use delta::{ApplyError, Delta};
use delta_laws::reaches_past;
use std::alloc::Global;
use utf16_text::{Text, unit_len};

/// A delta that was moved to the present text of the log that made this, and the text that it makes
/// of it.
#[derive(Drop)]
pub struct Move {
    pub(crate) delta: Delta,
    pub(crate) text: Text,
}

impl Move {
    /// The delta, as it would be applied. Takes no memory.
    pub fn delta(&self) -> &Delta
        ensures { result.now ≡ self.now.delta }
    {
        &self.delta
    }

    /// The text that it would make. Takes no memory.
    pub fn text(&self) -> &Text
        ensures { result.now ≡ self.now.text }
    {
        &self.text
    }
}

/// `delta`, which was made before the kept delta at the place `from`, moved to the present text and
/// applied to it. A delta that reaches past the text on which it was made is told before anything is
/// moved.
pub(crate) fn move_on(
    alloc: Global,
    delta: &Delta,
    kept: &KeptDeltas,
    from: usize,
    text: &Text,
) -> Result<Move, RevError>
    ensures { (t : List ℕ) → IfTheyLead t (drop from kept.now) text.now (MatchResult result
        (BecomesMove delta.now (over_kept delta.now from kept.now) t text.now)
        (IsMoveCause delta.now (over_kept delta.now from kept.now) t text.now)) }
{
    let len = kept.len_at(from, text);
    if reaches_past_len(alloc, delta, len) {
        return Err(RevError::PastEnd {
            len: unit_len(text.as_str()),
        });
    }
    let moved = match kept.moved_over(alloc, delta, from) {
        Ok(moved) => moved,
        Err(_) => return Err(RevError::OutOfMemory),
    };
    match moved.apply(alloc, text) {
        Ok(text) => Ok(Move { delta: moved, text }),
        Err(ApplyError::PastEnd { len }) => Err(RevError::PastEnd { len }),
        Err(ApplyError::SplitsPair { at }) => Err(RevError::SplitsPair { at }),
        Err(ApplyError::OutOfMemory) => Err(RevError::OutOfMemory),
    }
}

/// Whether a delta reaches past a text of `len` units. A delta that reaches over anything ends in a
/// step that is felt, so it reaches past the text however it is moved.
fn reaches_past_len(alloc: Global, delta: &Delta, len: u64) -> bool
    ensures past { IsTrue result ↔ (len < reach_of delta.now) }
    ensures felt { IsTrue result → IsTrue (ends_felt delta.now) }
{
    len < delta.reach() && reaches_past(delta, &Text::new(alloc))
}
