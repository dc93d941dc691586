// Two deltas, one after the other, as one.
ghost use Rattle.std.specs.Prelude.{◌≡◌, ◌^◌, ◌≤◌, [], true, false, IfOk};
ghost use Rattle.delta.specs.Spread.{small_reach};
ghost use Rattle.delta.specs.Pack.{packed};
ghost use Rattle.delta.specs.Runs.{AllRuns, composed_runs};
ghost use Rattle.delta.specs.Fronts.{IsFront, HasRun, is_new, is_gone};
ghost use Rattle.delta.specs.Turns.{IsJoinTurn, IsJoined};
ghost use Rattle.delta.specs.declared.front.Head.TheVariants.{End};

use crate::Step;
use crate::front::{Front, Head, Run, front_of, is_gone, is_more, is_new, joint_run, past};
use crate::packer::Packer;
use std::alloc::{AllocError, Global};

/// What one turn puts out, and the fronts after it.
#[derive(Clone, Copy)]
struct Turn<'a> {
    piece: Head<'a>,
    first: Front<'a>,
    second: Front<'a>,
}

/// The canonical steps of the first and then the second.
pub fn compose_runs(alloc: Global, first: &[Run], second: &[Run]) -> Result<Vec<Step>, AllocError>
    requires first_runs { AllRuns first.now }
    requires second_runs { AllRuns second.now }
    requires reach { small_reach (composed_runs first.now second.now) ≤ 2 ^ 62 }
    ensures { IfOk result (λ steps. steps.items
        ≡ packed (composed_runs first.now second.now)) }
{
    let mut packer = Packer::new(alloc);
    let mut a = front_of(first);
    let mut b = front_of(second);
    while is_more(&a.head, &b.head) {
        let turn = next_turn(&a, &b);
        packer.take(&turn.piece)?;
        a = turn.first;
        b = turn.second;
    }
    packer.finish()
}

/// The next turn: what the first drops, what the second puts in, or units of the first's result.
fn next_turn<'a>(a: &Front<'a>, b: &Front<'a>) -> Turn<'a>
    requires first_front { IsFront a.now }
    requires second_front { IsFront b.now }
    requires more { (a.now.head ≡ End) → (b.now.head ≡ End) → ⊥ }
    ensures { IsJoinTurn a.now b.now result.piece result.first result.second }
{
    if is_gone(&a.head) {
        return drop_first(a, b);
    }
    if is_new(&b.head) {
        return put_second(a, b);
    }
    join_runs(a, b)
}

/// The turn at units that the first drops.
fn drop_first<'a>(a: &Front<'a>, b: &Front<'a>) -> Turn<'a>
    requires first_front { IsFront a.now }
    requires second_front { IsFront b.now }
    requires gone { is_gone a.now.head ≡ true }
    ensures { IsJoinTurn a.now b.now result.piece result.first result.second }
{
    Turn {
        piece: a.head,
        first: front_of(a.rest),
        second: *b,
    }
}

/// The turn at an insert of the second.
fn put_second<'a>(a: &Front<'a>, b: &Front<'a>) -> Turn<'a>
    requires first_front { IsFront a.now }
    requires second_front { IsFront b.now }
    requires stays { is_gone a.now.head ≡ false }
    requires new { is_new b.now.head ≡ true }
    ensures { IsJoinTurn a.now b.now result.piece result.first result.second }
{
    Turn {
        piece: b.head,
        first: *a,
        second: front_of(b.rest),
    }
}

/// The turn at units of the first's result, which the second keeps or drops.
fn join_runs<'a>(a: &Front<'a>, b: &Front<'a>) -> Turn<'a>
    requires first_front { IsFront a.now }
    requires second_front { IsFront b.now }
    requires stays { is_gone a.now.head ≡ false }
    requires old { is_new b.now.head ≡ false }
    requires more { (a.now.head ≡ End) → (b.now.head ≡ End) → ⊥ }
    ensures { IsJoinTurn a.now b.now result.piece result.first result.second }
{
    let m = joint_run(&a.head, &b.head);
    Turn {
        piece: joined_piece(&a.head, &b.head, m),
        first: past(a, m),
        second: past(b, m),
    }
}

/// What becomes of the first `m` units of the first's result.
fn joined_piece<'a>(a: &Head<'a>, b: &Head<'_>, m: u64) -> Head<'a>
    requires { HasRun a.now m }
    ensures { IsJoined a.now b.now m result }
{
    match (a, b) {
        (Head::New(_), Head::Gone(_)) => Head::End,
        (Head::New(units), _) => Head::New(&units[..m as usize]),
        (_, Head::Gone(_)) => Head::Gone(m),
        _ => Head::Kept(m),
    }
}
