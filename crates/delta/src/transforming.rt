// The right's runs as they go after the left's.
ghost use Rattle.std.specs.Prelude.{◌≡◌, ◌^◌, ◌≤◌, [], true, false, not, ◌&&◌, ◌||◌, IfOk};
ghost use Rattle.delta.specs.Spread.{small_reach};
ghost use Rattle.delta.specs.Pack.{packed};
ghost use Rattle.delta.specs.Runs.{AllRuns, transformed_runs};
ghost use Rattle.delta.specs.Fronts.{IsFront, is_new};
ghost use Rattle.delta.specs.Turns.{IsMoveTurn, moved_piece};
ghost use Rattle.delta.specs.declared.front.Head.TheVariants.{End};

use crate::Step;
use crate::front::{Front, Head, Run, front_of, is_more, is_new, joint_run, past, run_len};
use crate::packer::Packer;
use std::alloc::{AllocError, Global};

/// What one turn puts out, and the fronts after it.
#[derive(Clone, Copy)]
struct Turn<'a> {
    piece: Head<'a>,
    left: Front<'a>,
    right: Front<'a>,
}

/// The canonical steps of the right, as it goes after the left.
pub fn transform_runs(
    alloc: Global,
    left: &[Run],
    right: &[Run],
    right_first: bool,
) -> Result<Vec<Step>, AllocError>
    requires left_runs { AllRuns left.now }
    requires right_runs { AllRuns right.now }
    requires reach { small_reach (transformed_runs right_first left.now right.now) ≤ 2 ^ 62 }
    ensures { IfOk result (λ steps. steps.items
        ≡ packed (transformed_runs right_first left.now right.now)) }
{
    let mut packer = Packer::new(alloc);
    let mut l = front_of(left);
    let mut r = front_of(right);
    while is_more(&l.head, &r.head) {
        let turn = next_turn(right_first, &l, &r);
        packer.take(&turn.piece)?;
        l = turn.left;
        r = turn.right;
    }
    packer.finish()
}

/// The next turn: an insert of the one that goes first, of the other, or the runs of both.
fn next_turn<'a>(right_first: bool, l: &Front<'a>, r: &Front<'a>) -> Turn<'a>
    requires left_front { IsFront l.now }
    requires right_front { IsFront r.now }
    requires more { (l.now.head ≡ End) → (r.now.head ≡ End) → ⊥ }
    ensures { IsMoveTurn right_first l.now r.now result.piece result.left result.right }
{
    if is_rights_turn(right_first, &l.head, &r.head) {
        return put_right(right_first, l, r);
    }
    if is_new(&l.head) {
        return pass_left(right_first, l, r);
    }
    turn_runs(right_first, l, r)
}

/// Whether the right's insert is next.
fn is_rights_turn(right_first: bool, l: &Head<'_>, r: &Head<'_>) -> bool
    ensures { result ≡ (is_new r.now && (right_first || not (is_new l.now))) }
{
    is_new(r) && (right_first || !is_new(l))
}

/// The turn at an insert of the right.
fn put_right<'a>(right_first: bool, l: &Front<'a>, r: &Front<'a>) -> Turn<'a>
    requires left_front { IsFront l.now }
    requires right_front { IsFront r.now }
    requires turn { (is_new r.now.head && (right_first || not (is_new l.now.head))) ≡ true }
    ensures { IsMoveTurn right_first l.now r.now result.piece result.left result.right }
{
    Turn {
        piece: r.head,
        left: *l,
        right: front_of(r.rest),
    }
}

/// The turn at an insert of the left, whose units the right keeps.
fn pass_left<'a>(right_first: bool, l: &Front<'a>, r: &Front<'a>) -> Turn<'a>
    requires left_front { IsFront l.now }
    requires right_front { IsFront r.now }
    requires new { is_new l.now.head ≡ true }
    requires turn { (is_new r.now.head && (right_first || not (is_new l.now.head))) ≡ false }
    ensures { IsMoveTurn right_first l.now r.now result.piece result.left result.right }
{
    Turn {
        piece: Head::Kept(run_len(&l.head)),
        left: front_of(l.rest),
        right: *r,
    }
}

/// The turn at old units.
fn turn_runs<'a>(right_first: bool, l: &Front<'a>, r: &Front<'a>) -> Turn<'a>
    requires left_front { IsFront l.now }
    requires right_front { IsFront r.now }
    requires left_old { is_new l.now.head ≡ false }
    requires right_old { is_new r.now.head ≡ false }
    requires more { (l.now.head ≡ End) → (r.now.head ≡ End) → ⊥ }
    ensures { IsMoveTurn right_first l.now r.now result.piece result.left result.right }
{
    let m = joint_run(&l.head, &r.head);
    Turn {
        piece: moved_piece(&l.head, &r.head, m),
        left: past(l, m),
        right: past(r, m),
    }
}

/// What the right does with the units that the left keeps.
fn moved_piece<'a>(l: &Head<'_>, r: &Head<'_>, m: u64) -> Head<'a>
    ensures { result ≡ moved_piece l.now r.now m }
{
    match (l, r) {
        (Head::Gone(_), _) => Head::End,
        (_, Head::Gone(_)) => Head::Gone(m),
        _ => Head::Kept(m),
    }
}
