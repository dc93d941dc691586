//! The evaluator of cells.
//!
//! The layer above may rely on this: [`evaluate`] gives what its body means by `ex_model`, the steps
//! included, and [`run`] what its source means. Both are a loop over a stack of frames in a `Vec`: no
//! depth of nesting can exhaust a thread's stack, and the bindings that a cell starts from are read
//! where they stand, and copied at no step.
#![tactic(auto)]

mod machine;
mod operators;

ghost use Rattle.std.specs.Prelude.{◌≡◌, ℕ, ◌+◌, ◌∷◌, [], List, IfOk, nat_lt};
ghost use Rattle.ex_value.specs.Values.{nil, size_of};
ghost use Rattle.ex_model.specs.Tree.{Tree};
ghost use Rattle.ex_model.specs.At.{IsAt, AreAt};
ghost use Rattle.ex_model.specs.Meaning.{meaning, meaning_of, made_size, and_then, in_turn, kept_small, ran_of};
ghost use Rattle.ex_model.specs.Means.{Means};
ghost use Rattle.ex_machine.specs.Evaluations.{evaluated};

use crate::machine::{Ended, evaluate_at};
use ex_model::{Ast, Bindings, Fault, Node, Outcome, Ran, Shown};
use ex_source::read;
use ex_value::{Value, Word};
use std::alloc::{AllocError, Global};

/// The largest number of bytes of a source.
const MOST_BYTES: usize = 1_048_576;

/// The largest number of units of a value together with the values that its cell bound.
const MOST_UNITS: u64 = 8192;

/// What a body means over bindings, within a limit of steps. The bindings stay as they are.
pub fn evaluate(alloc: Global, ast: &Ast, base: &Bindings, limit: u64) -> Result<Ran, AllocError>
    ensures { IfOk result (λ ran. ran ≡ meaning ast.now base.now limit) }
{
    let parts = ast.parts();
    let ended = evaluate_in_turn(alloc, parts.nodes, parts.roots, base, limit)?;
    ran_of(alloc, kept_small(ended), limit)
}

/// What a source means over bindings, within a limit of steps. The bindings stay as they are.
pub fn run(alloc: Global, source: &str, base: &Bindings, limit: u64) -> Result<Ran, AllocError>
    ensures { IfOk result (λ ran. Means source.now base.now limit ran) }
{
    if source.len() > MOST_BYTES {
        let ran = failed(alloc, Fault::SourceTooLong, 0)?;
        return Ok(ran);
    }
    match read(alloc, source)? {
        Some(ast) => {
            let ran = evaluate(alloc, &ast, base, limit)?;
            Ok(ran)
        }
        None => {
            let ran = failed(alloc, Fault::Unbuilt, 0)?;
            Ok(ran)
        }
    }
}

/// Evaluates expressions one after the other, up to the first fault.
fn evaluate_in_turn(
    alloc: Global,
    nodes: &[Node],
    roots: &[usize],
    base: &Bindings,
    limit: u64,
) -> Result<Ended, AllocError>
    requires { (trees : List Tree) × AreAt nodes.now roots.now trees }
    ensures { IfOk result (λ ended. (trees : List Tree) → AreAt nodes.now roots.now trees →
        evaluated ended.outcome ended.made ended.left ≡ in_turn base.now trees nil [] limit) }
{
    let mut ended = Ended {
        outcome: Outcome::Value(Value::nil(alloc)?),
        made: Bindings::new(alloc),
        left: limit,
    };
    for root in roots {
        ended = go_on(alloc, nodes, *root, base, ended)?;
    }
    Ok(ended)
}

/// Evaluates the next expression, unless there was a fault.
fn go_on(
    alloc: Global,
    nodes: &[Node],
    root: usize,
    base: &Bindings,
    ended: Ended,
) -> Result<Ended, AllocError>
    requires { (t : Tree) × IsAt nodes.now root t }
    ensures { IfOk result (λ next. (t : Tree) → IsAt nodes.now root t →
        evaluated next.outcome next.made next.left ≡ and_then (evaluated ended.outcome ended.made ended.left) (λ _ made left. meaning_of base.now t made left)) }
{
    match ended.outcome {
        Outcome::Value(_) => evaluate_at(alloc, nodes, root, base, ended.made, ended.left),
        Outcome::Fault(_) => Ok(ended),
    }
}

/// The end, with a fault where the value is too large together with what was bound.
fn kept_small(ended: Ended) -> Ended
    ensures { evaluated result.outcome result.made result.left ≡ and_then (evaluated ended.outcome ended.made ended.left) kept_small }
{
    let Ended {
        outcome,
        made,
        left,
    } = ended;
    let outcome = small_outcome(outcome, &made);
    Ended {
        outcome,
        made,
        left,
    }
}

/// An outcome beside what was bound, with a fault where its value is too large.
fn small_outcome(outcome: Outcome, made: &Bindings) -> Outcome
    ensures { (left : ℕ) → evaluated result made.now left ≡ and_then (evaluated outcome made.now left) kept_small }
{
    match outcome {
        Outcome::Value(value) => {
            if is_too_large(&value, made) {
                return Outcome::Fault(Fault::ValueTooLarge);
            }
            Outcome::Value(value)
        }
        Outcome::Fault(fault) => Outcome::Fault(fault),
    }
}

/// Whether a value and the values that were bound have too many units together.
fn is_too_large(value: &Value, made: &Bindings) -> bool
    ensures { result ≡ nat_lt 8192 (size_of value.now + made_size made.now) }
{
    let mut size = value.size();
    for binding in made.as_slice() {
        if size > MOST_UNITS {
            return true;
        }
        size += binding.value.size();
    }
    size > MOST_UNITS
}

/// What is shown and made in the end.
fn ran_of(alloc: Global, ended: Ended, limit: u64) -> Result<Ran, AllocError>
    ensures { IfOk result (λ ran. ran ≡ ran_of limit (evaluated ended.outcome ended.made ended.left)) }
{
    let Ended {
        outcome,
        made,
        left,
    } = ended;
    let steps = limit.saturating_sub(left);
    match outcome {
        Outcome::Value(value) => {
            let shown = shown(alloc, Outcome::Value(value), steps)?;
            Ok(Ran { shown, made })
        }
        Outcome::Fault(fault) => failed(alloc, fault, steps),
    }
}

/// A fault after some steps, after which nothing is made.
fn failed(alloc: Global, fault: Fault, steps: u64) -> Result<Ran, AllocError>
    ensures { IfOk result (λ ran. ran ≡ record {
      shown = record { printed = []; outcome = Outcome.Fault fault; steps = steps };
      made = [];
    }) }
{
    let shown = shown(alloc, Outcome::Fault(fault), steps)?;
    Ok(Ran {
        shown,
        made: Bindings::new(alloc),
    })
}

/// An outcome after some steps, with nothing printed.
fn shown(alloc: Global, outcome: Outcome, steps: u64) -> Result<Shown, AllocError>
    ensures { IfOk result (λ shown. shown ≡ record { printed = []; outcome = outcome; steps = steps }) }
{
    Ok(Shown {
        printed: Word::of(alloc, "")?,
        outcome,
        steps,
    })
}
