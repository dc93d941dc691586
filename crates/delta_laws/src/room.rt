//! Composing and transforming any two deltas.
ghost use Rattle.std.specs.Prelude.{◌≡◌, IfOk};
ghost use Rattle.delta.specs.Moves.{composed, transformed};
ghost use Rattle.delta.specs.Sides.{is_right};

use delta::{Delta, Side, compose, have_room, transform};
use std::alloc::{AllocError, Global};

/// First `a` and then `b`, as one delta. Two deltas without [room](have_room) beside each other, which no
/// machine holds, are answered by want of memory.
pub fn composed(alloc: Global, a: &Delta, b: &Delta) -> Result<Delta, AllocError>
    ensures { IfOk result (λ d. d ≡ composed a.now b.now) }
{
    if !have_room(a, b) {
        return Err(AllocError);
    }
    compose(alloc, a, b)
}

/// `right` as it goes after `left`. Where both put something in at one place, that of the side `first`
/// comes first. Two deltas without [room](have_room) beside each other, which no machine holds, are
/// answered by want of memory.
pub fn transformed(
    alloc: Global,
    left: &Delta,
    right: &Delta,
    first: Side,
) -> Result<Delta, AllocError>
    ensures { IfOk result (λ d. d ≡ transformed (is_right first) left.now right.now) }
{
    if !have_room(left, right) {
        return Err(AllocError);
    }
    transform(alloc, left, right, first)
}
