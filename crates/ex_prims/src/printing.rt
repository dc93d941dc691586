//! Calls that print.
ghost use Rattle.std.specs.Prelude.{[], ◌∷◌, ◌++◌};
ghost use Rattle.ex_prims.specs.Answers.{Prints};
ghost use Rattle.ex_prims.specs.Bodies.{IsGiven};
ghost use Rattle.ex_prims.specs.Rows.{given_one};
ghost use Rattle.ex_prims.specs.declared.functions.Unary.TheVariants as U;

use crate::arguments::ok;
use crate::limits::Limits;
use crate::refused::Refused;
use crate::rows::Given;
use crate::texting::displayed;
use ex_faults::Fault;
use ex_terms::Value;
use ex_word::Word;
use std::alloc::Global;

/// `IO.puts(v)`: the text for readers and a line feed; the value is `:ok`.
pub(crate) fn puts(alloc: Global, value: &Value, limits: &Limits) -> Result<Given, Refused>
    ensures { IsGiven limits.now result (given_one U.Puts value.now) }
{
    match displayed(alloc, value)? {
        Some(text) => printed(alloc, text.as_str(), ok(alloc)?, limits),
        None => Err(Refused::Faulted(Fault::NoText(value.copy()?))),
    }
}

/// `IO.inspect(v)`: the value as it is written in a source, and a line feed; the value is `v`. A text
/// that has no room isn't made.
pub(crate) fn show(alloc: Global, value: &Value, limits: &Limits) -> Result<Given, Refused>
    ensures { IsGiven limits.now result (given_one U.Show value.now) }
{
    if value.size() >= limits.room {
        return Err(Refused::TooMuchOutput);
    }
    let text = value.inspect_text(alloc)?;
    printed(alloc, text.as_str(), value.copy()?, limits)
}

/// A text is printed with a line feed behind it, and a value given.
fn printed(alloc: Global, text: &str, value: Value, limits: &Limits) -> Result<Given, Refused>
    ensures { IsGiven limits.now result (Prints (text.now ++ 10 ∷ []) value) }
{
    if text.len() as u64 >= limits.room {
        return Err(Refused::TooMuchOutput);
    }
    let mut line = String::from_str(alloc, text)?;
    line.push('\n')?;
    Ok(Given::Printed(Word::of(alloc, line.as_str())?, value))
}
