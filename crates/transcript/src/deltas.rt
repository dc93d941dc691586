//! The printed text of deltas.
ghost use Rattle.std.specs.Prelude.{OnOk};
ghost use Rattle.std.specs.List.{flat_map};
ghost use Rattle.transcript.specs.Deltas.{step_text, next_step_text, steps_text, delta_text};
ghost use Rattle.transcript.specs.Printed.{Appends};

use crate::words::{push_named, push_number, push_plain, push_text};
use delta::{Delta, Step};
use std::alloc::AllocError;

/// Puts a delta as a compact JSON array after a text: `[2,"X",-1]`. An insert is a text, a retain a
/// positive number of units and a delete a negative one. The empty delta is `[]`.
pub fn push_delta(out: &mut String, delta: &Delta) -> Result<(), AllocError>
    ensures { OnOk result (Appends (delta_text delta.now) out.old out.new) }
{
    push_plain(out, "[")?;
    push_steps(out, delta.to_compact())?;
    push_plain(out, "]")
}

/// Puts steps after a text, with a comma between two.
fn push_steps(out: &mut String, steps: &[Step]) -> Result<(), AllocError>
    ensures { OnOk result (Appends (steps_text steps.now) out.old out.new) }
{
    match steps.split_first() {
        None => Ok(()),
        Some((first, others)) => {
            push_step(out, first)?;
            push_next_steps(out, others)
        }
    }
}

/// Puts steps after a text, each with a comma before it.
fn push_next_steps(out: &mut String, steps: &[Step]) -> Result<(), AllocError>
    ensures { OnOk result (Appends (flat_map next_step_text steps.now) out.old out.new) }
{
    for step in steps {
        push_plain(out, ",")?;
        push_step(out, step)?;
    }
    Ok(())
}

/// Puts one step after a text.
fn push_step(out: &mut String, step: &Step) -> Result<(), AllocError>
    ensures { OnOk result (Appends (step_text step.now) out.old out.new) }
{
    match step {
        Step::Retain(units) => push_number(out, *units),
        Step::Insert(text) => push_text(out, text.as_str()),
        Step::Delete(units) => push_named(out, "-", *units),
    }
}
