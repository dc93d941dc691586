//! Deltas as they are written in a script.
ghost use Rattle.std.specs.Prelude.{◌≡◌, List, Option, IfOk, MatchOption, option_map};
ghost use Rattle.serde_json.specs.View.{view, items_view};
ghost use Rattle.delta.specs.declared.Step.{Step};
ghost use Rattle.script.specs.Delta.{IsDelta, step_of, steps_of, step_of_integer};

use delta::{Delta, Step};
use serde_json::Value;
use std::alloc::{AllocError, Global};
use utf16_text::Text;

/// The delta that a text writes as a JSON array of texts and whole numbers, or none.
pub(crate) fn delta_of(alloc: Global, text: &str) -> Result<Option<Delta>, AllocError>
    ensures { IfOk result
        (λ o. MatchOption o ((delta : List Step) → ¬ (IsDelta text.now delta)) (IsDelta text.now)) }
{
    let value = match Value::from_str(alloc, text) {
        Ok(value) => value,
        Err(error) if error.is_memory() => return Err(AllocError),
        Err(_) => return Ok(None),
    };
    let Value::Array(items) = value else {
        return Ok(None);
    };
    match steps_of(alloc, &items)? {
        Some(steps) => Ok(Delta::from_compact(steps).ok()),
        None => Ok(None),
    }
}

/// The steps that the items are, where each is one.
fn steps_of(alloc: Global, items: &[Value]) -> Result<Option<Vec<Step>>, AllocError>
    ensures { IfOk result
        (λ o. option_map (λ steps. steps.items) o ≡ steps_of (items_view items.now)) }
{
    let mut steps = Vec::new(alloc);
    for item in items {
        match step_of(alloc, item)? {
            Some(step) => steps.push(step)?,
            None => return Ok(None),
        }
    }
    Ok(Some(steps))
}

/// The step that an item is: a text is put in, a positive number keeps units and a negative one
/// deletes them.
fn step_of(alloc: Global, item: &Value) -> Result<Option<Step>, AllocError>
    ensures { IfOk result (λ o. o ≡ step_of (view item.now)) }
{
    if let Value::String(text) = item {
        return Ok(Some(Step::Insert(Text::of(alloc, text.as_str())?)));
    }
    Ok(item.as_i64().and_then(step_of_integer))
}

/// The step that a whole number is.
fn step_of_integer(number: i64) -> Option<Step>
    ensures { result ≡ step_of_integer number }
{
    let units = number.unsigned_abs();
    if number > 0 {
        Some(Step::Retain(units))
    } else if number < 0 {
        Some(Step::Delete(units))
    } else {
        None
    }
}
