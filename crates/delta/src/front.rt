// The steps of a delta as runs over units, and their front, of which the first run may be used in part.
ghost use Rattle.std.specs.Prelude.{◌≡◌, ◌+◌, ◌<◌, ◌≤◌, ◌++◌, ◌↔◌, [], true, false, length, IsTrue, IfOk, OnOk};
ghost use Rattle.delta.specs.Steps.{small_steps, all_small};
ghost use Rattle.delta.specs.Runs.{AllRuns, IsRun, AppendsRun, run_small, all_runs};
ghost use Rattle.delta.specs.Fronts.{IsFront, IsHead, HasRun, IsPast, IsLongest, HasMore, IsShorter, left, is_new, is_gone};
ghost use Rattle.delta.specs.declared.front.Head.TheVariants.{End};

use crate::Step;
use std::alloc::{AllocError, Global};
use utf16_text::units_of;

/// A step that does something: as many old units that stay or go, or new units.
#[derive(Drop)]
pub enum Run {
    Kept(u64),
    Gone(u64),
    New(Vec<u16>),
}

/// The first run of a front, or what is left of it.
#[derive(Clone, Copy)]
pub enum Head<'a> {
    End,
    Kept(u64),
    Gone(u64),
    New(&'a [u16]),
}

/// Runs that are still to come.
#[derive(Clone, Copy)]
pub struct Front<'a> {
    pub head: Head<'a>,
    pub rest: &'a [Run],
}

/// The runs of some steps.
pub fn runs_of(alloc: Global, steps: &[Step]) -> Result<Vec<Run>, AllocError>
    ensures same { IfOk result (λ v. all_runs v.items ≡ all_small steps.now) }
    ensures runs { IfOk result (λ v. AllRuns v.items) }
{
    let mut runs = Vec::new(alloc);
    for step in steps {
        push_run(alloc, &mut runs, step)?;
    }
    Ok(runs)
}

/// Adds the run of a step, if it does something.
fn push_run(alloc: Global, runs: &mut Vec<Run>, step: &Step) -> Result<(), AllocError>
    ensures { OnOk result (AppendsRun runs.old.items runs.new.items step.now) }
{
    let run = run_of_step(alloc, step)?;
    if is_proper(&run) {
        runs.push(run)?;
    }
    Ok(())
}

fn run_of_step(alloc: Global, step: &Step) -> Result<Run, AllocError>
    ensures { IfOk result (λ run. run_small run ≡ small_steps step.now) }
{
    Ok(match step {
        Step::Retain(n) => Run::Kept(*n),
        Step::Delete(n) => Run::Gone(*n),
        Step::Insert(text) => Run::New(units_of(alloc, text.as_str())?),
    })
}

/// Whether a run is not empty.
fn is_proper(run: &Run) -> bool
    ensures { IsTrue result ↔ IsRun run.now }
{
    match run {
        Run::Kept(n) | Run::Gone(n) => *n > 0,
        Run::New(units) => units.len() > 0,
    }
}

/// The front of whole runs.
pub fn front_of(runs: &[Run]) -> Front<'_>
    requires { AllRuns runs.now }
    ensures same { left result ≡ all_runs runs.now }
    ensures front { IsFront result }
{
    match runs.split_first() {
        None => Front {
            head: Head::End,
            rest: runs,
        },
        Some((Run::Kept(n), rest)) => Front {
            head: Head::Kept(*n),
            rest,
        },
        Some((Run::Gone(n), rest)) => Front {
            head: Head::Gone(*n),
            rest,
        },
        Some((Run::New(units), rest)) => Front {
            head: Head::New(units.as_slice()),
            rest,
        },
    }
}

/// What is left without the first `m` units of the head.
pub fn past<'a>(front: &Front<'a>, m: u64) -> Front<'a>
    requires run { HasRun front.now.head m }
    requires front { IsFront front.now }
    ensures { IsPast front.now m result }
{
    if m >= run_len(&front.head) {
        return front_of(front.rest);
    }
    Front {
        head: shorter(&front.head, m),
        rest: front.rest,
    }
}

/// A head without its first `m` units, of which it has more.
fn shorter<'a>(head: &Head<'a>, m: u64) -> Head<'a>
    requires { HasMore head.now m }
    ensures { IsShorter head.now m result }
{
    match head {
        Head::Kept(n) => Head::Kept(*n - m),
        Head::Gone(n) => Head::Gone(*n - m),
        Head::New(units) => Head::New(&units[m as usize..]),
        Head::End => Head::End,
    }
}

/// How many units of two heads go together.
pub fn joint_run(l: &Head<'_>, r: &Head<'_>) -> u64
    ensures left_run { HasRun l.now result }
    ensures right_run { HasRun r.now result }
    ensures some { IsHead l.now [] → IsHead r.now [] → 0 < result }
{
    run_len(l).min(run_len(r))
}

/// How long the run of a head is: there is no end to what follows the last one.
pub fn run_len(head: &Head<'_>) -> u64
    ensures { IsLongest head.now result }
{
    match head {
        Head::Kept(n) | Head::Gone(n) => *n,
        Head::New(units) => units.len() as u64,
        Head::End => u64::MAX,
    }
}

/// Whether either side has something left.
pub fn is_more(l: &Head<'_>, r: &Head<'_>) -> bool
    ensures more { result ≡ true → l.now ≡ End → r.now ≡ End → ⊥ }
    ensures ended { result ≡ false → (l.now ≡ End) × (r.now ≡ End) }
{
    !(is_end(l) && is_end(r))
}

fn is_end(head: &Head<'_>) -> bool
    ensures { IsTrue result ↔ (head.now ≡ End) }
{
    matches!(head, Head::End)
}

pub fn is_new(head: &Head<'_>) -> bool
    ensures { result ≡ is_new head.now }
{
    matches!(head, Head::New(_))
}

pub fn is_gone(head: &Head<'_>) -> bool
    ensures { result ≡ is_gone head.now }
{
    matches!(head, Head::Gone(_))
}
