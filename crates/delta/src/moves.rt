// Deltas packed, one after another as one, and one as it goes after another.
ghost use Rattle.std.specs.Prelude.{◌≡◌, ◌+◌, ◌^◌, ◌≤◌, ◌↔◌, None, IsTrue, IfOk};
ghost use Rattle.delta.specs.Spread.{small_reach};
ghost use Rattle.delta.specs.Steps.{reach_of, inserted_by, all_small};
ghost use Rattle.delta.specs.Canonical.{bad_step};
ghost use Rattle.delta.specs.Pack.{packed};
ghost use Rattle.delta.specs.Moves.{composed, transformed, HaveRoom};
ghost use Rattle.delta.specs.Fronts.{head_small};
ghost use Rattle.delta.specs.Runs.{all_runs, run_small};
ghost use Rattle.delta.specs.Sides.{is_right};

use crate::composing::compose_runs;
use crate::front::{Head, Run, runs_of};
use crate::packer::Packer;
use crate::transforming::transform_runs;
use crate::{Delta, Step};
use std::alloc::{AllocError, Global};

/// Whose insert comes first where both put something in at one place.
#[derive(Clone, Copy, Debug, PartialEq, Eq)]
pub enum Side {
    Left,
    Right,
}

impl Delta {
    /// The canonical delta of any steps: in each stretch without a retain the inserts come first, in
    /// their order, and then the deletes; retains at the end fall away, and neighbours of one kind are
    /// joined. Each sum, of what they pass and of what they put in, is at most 2^62 units.
    pub fn pack(alloc: Global, steps: Vec<Step>) -> Result<Delta, AllocError>
        requires reach { reach_of steps.items ≤ 2 ^ 62 }
        requires inserted { inserted_by steps.items ≤ 2 ^ 62 }
        ensures { IfOk result (λ delta. delta ≡ packed (all_small steps.items)) }
    {
        let runs = runs_of(alloc, &steps)?;
        let packed = pack_runs(alloc, &runs)?;
        Ok(sealed(packed))
    }
}

/// Whether the reaches and the inserted lengths of two deltas sum to at most 2^62 units: only then
/// they are composed or transformed. It takes no memory.
pub fn have_room(a: &Delta, b: &Delta) -> bool
    ensures { IsTrue result ↔ HaveRoom a.now b.now }
{
    let sum = a.reach() as u128 + a.inserted() as u128 + b.reach() as u128 + b.inserted() as u128;
    sum <= 1 << 62
}

/// First `a` and then `b`, as one delta. A half of a pair that is left without its other half is left
/// out. Both must [have room](have_room).
pub fn compose(alloc: Global, a: &Delta, b: &Delta) -> Result<Delta, AllocError>
    requires { HaveRoom a.now b.now }
    ensures { IfOk result (λ delta. delta ≡ composed a.now b.now) }
{
    let first = runs_of(alloc, a.to_compact())?;
    let second = runs_of(alloc, b.to_compact())?;
    let steps = compose_runs(alloc, &first, &second)?;
    Ok(sealed(steps))
}

/// `right` as it goes after `left`. Where both put something in at one place, that of the side
/// `first` comes first. Both must [have room](have_room).
pub fn transform(
    alloc: Global,
    left: &Delta,
    right: &Delta,
    first: Side,
) -> Result<Delta, AllocError>
    requires { HaveRoom left.now right.now }
    ensures { IfOk result (λ delta. delta ≡ transformed (is_right first) left.now right.now) }
{
    let lefts = runs_of(alloc, left.to_compact())?;
    let rights = runs_of(alloc, right.to_compact())?;
    let steps = transform_runs(alloc, &lefts, &rights, is_right(first))?;
    Ok(sealed(steps))
}

fn is_right(side: Side) -> bool
    ensures { result ≡ is_right side }
{
    match side {
        Side::Left => false,
        Side::Right => true,
    }
}

/// The packed steps of some runs.
fn pack_runs(alloc: Global, runs: &[Run]) -> Result<Vec<Step>, AllocError>
    requires { small_reach (all_runs runs.now) ≤ 2 ^ 62 }
    ensures { IfOk result (λ steps. steps.items ≡ packed (all_runs runs.now)) }
{
    let mut packer = Packer::new(alloc);
    for run in runs {
        packer.take(&head_of(run))?;
    }
    packer.finish()
}

fn head_of(run: &Run) -> Head<'_>
    ensures { head_small result ≡ run_small run.now }
{
    match run {
        Run::Kept(n) => Head::Kept(*n),
        Run::Gone(n) => Head::Gone(*n),
        Run::New(units) => Head::New(units.as_slice()),
    }
}

/// The delta of packed steps.
fn sealed(steps: Vec<Step>) -> Delta
    requires { bad_step steps.items ≡ None }
    ensures { result ≡ steps.items }
{
    match Delta::from_compact(steps) {
        Ok(delta) => delta,
        Err(_) => unreachable!(),
    }
}
