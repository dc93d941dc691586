//! The deltas that a client may still build on.
ghost use Rattle.std.specs.Prelude.{◌≡◌, ◌++◌, ◌∷◌, [], List, ℕ, drop, false, OnOk, OnErr, IfOk};
ghost use Rattle.utf16_text.specs.Units.{unit_count};
ghost use Rattle.delta.specs.Moves.{transformed};
ghost use Rattle.revisions.specs.Kept.{over_kept, IfTheyLead};

use delta::{Delta, Side};
use delta_laws::transformed;
use std::alloc::{AllocError, Global};
use std::collections::VecDeque;
use std::marker::Model;
use utf16_text::{Text, unit_len};

/// A delta that the source took. `len` is the length of the text before it, in UTF-16 units.
#[derive(Drop)]
pub(crate) struct Kept {
    pub(crate) len: u64,
    pub(crate) delta: Delta,
}

/// The deltas that are kept, the oldest first. Contracts see their list.
#[derive(Drop)]
pub(crate) struct KeptDeltas {
    kept: VecDeque<Kept>,
}

impl Model for KeptDeltas {
    ghost use Rattle.std.specs.Prelude.{List};
    ghost use Rattle.revisions.specs.declared.kept.Kept.{Kept};

    ghost Value = { List Kept };

    ghost view = { λ k. k.kept.items };
}

impl KeptDeltas {
    /// None. Takes no memory.
    pub(crate) fn new(alloc: Global) -> KeptDeltas
        ensures { result ≡ [] }
    {
        KeptDeltas {
            kept: VecDeque::new(alloc),
        }
    }

    /// Keeps one more. After want of memory nothing is changed.
    pub(crate) fn push(&mut self, kept: Kept) -> Result<(), AllocError>
        ensures ok { OnOk result (self.new ≡ self.old ++ kept ∷ []) }
        ensures err { OnErr result (self.new ≡ self.old) }
    {
        self.kept.push_back(kept)?;
        Ok(())
    }

    /// Drops the first `count`.
    pub(crate) fn drop_first(&mut self, count: u64)
        ensures { self.new ≡ drop count self.old }
    {
        drop_first(&mut self.kept, count);
    }

    /// The length of the text before the kept delta at a place, in UTF-16 units; behind the last one
    /// that of the present text.
    pub(crate) fn len_at(&self, at: usize, text: &Text) -> u64
        ensures { (t : List ℕ) → IfTheyLead t (drop at self.now) text.now
            (result ≡ unit_count t) }
    {
        match self.kept.get(at) {
            Some(kept) => kept.len,
            None => unit_len(text.as_str()),
        }
    }

    /// `delta` moved over the kept deltas from the place `from` on, each of which goes first in a tie.
    pub(crate) fn moved_over(
        &self,
        alloc: Global,
        delta: &Delta,
        from: usize,
    ) -> Result<Delta, AllocError>
        ensures { IfOk result (λ moved. moved ≡ over_kept delta.now from self.now) }
    {
        moved_over(alloc, delta, &self.kept, from)
    }
}

fn moved_over(
    alloc: Global,
    delta: &Delta,
    kept: &VecDeque<Kept>,
    from: usize,
) -> Result<Delta, AllocError>
    ensures { IfOk result (λ moved. moved ≡ over_kept delta.now from kept.now.items) }
{
    let mut moved = delta.copy(alloc)?;
    for at in from..kept.len() {
        moved = moved_over_one(alloc, &moved, &kept[at].delta)?;
    }
    Ok(moved)
}

/// `delta` moved over a delta that was taken, which goes first in a tie.
fn moved_over_one(alloc: Global, delta: &Delta, taken: &Delta) -> Result<Delta, AllocError>
    ensures { IfOk result (λ moved. moved ≡ transformed false taken.now delta.now) }
{
    transformed(alloc, taken, delta, Side::Left)
}

fn drop_first(kept: &mut VecDeque<Kept>, count: u64)
    ensures { kept.new.items ≡ drop count kept.old.items }
{
    for _ in 0..count {
        kept.pop_front();
    }
}
