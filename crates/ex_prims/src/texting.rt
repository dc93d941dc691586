//! Texts: their bytes, and what is made of them.
ghost use Rattle.std.specs.Prelude.{◌≡◌, ◌<◌, ◌+◌, ◌*◌, ◌/◌, if◌then◌else◌, IfOk, OnOk, None, option_copied, [], ◌∷◌, ◌++◌, length, map, string_bytes};
ghost use Rattle.std.specs.List.{find, repeat};
ghost use Rattle.ex_prims.specs.Bodies.{has_no_text};
ghost use Rattle.ex_terms.specs.declared.values.Value.TheVariants.{Str};
ghost use Rattle.ex_terms.specs.Seen.{term_of};
ghost use Rattle.ex_terms.specs.Sizes.{capped};
ghost use Rattle.ex_terms.specs.Printed.{displayed};
ghost use Rattle.ex_prims.specs.Answers.{Gives, list};
ghost use Rattle.ex_prims.specs.Texts.{joined, pieces_past, texts_of};
ghost use Rattle.ex_prims.specs.Bodies.{IsAnswer, IsWithin};
ghost use Rattle.ex_prims.specs.Rows.{given_one, given_two};
ghost use Rattle.ex_prims.specs.declared.functions.Unary.TheVariants as U;
ghost use Rattle.ex_prims.specs.declared.functions.Binary.TheVariants as B;

use crate::arguments::{integer, list, text, truth};
use crate::limits::Limits;
use crate::refused::Refused;
use ex_faults::Fault;
use ex_terms::{DisplayError, Items, Value};
use ex_word::Word;
use std::alloc::{AllocError, Global};

/// The text of a value for readers, if it has one: a tuple or a list has none.
pub(crate) fn displayed(alloc: Global, value: &Value) -> Result<Option<Word>, AllocError>
    ensures { IfOk result (λ text. text ≡ displayed (term_of value.now)) }
{
    match value.display_text(alloc) {
        Ok(text) => Ok(Some(text)),
        Err(DisplayError::NoText) => Ok(None),
        Err(DisplayError::OutOfMemory) => Err(AllocError),
    }
}

/// `byte_size(s)`.
pub(crate) fn byte_size(value: &Value) -> Result<Value, Refused>
    ensures { IsAnswer result (given_one U.ByteSize value.now) }
{
    let bytes = text(value)?;
    Ok(Value::Int(bytes.len() as i128))
}

/// `to_string(v)`: the text for readers; [`Fault::NoText`] for a tuple or a list.
pub(crate) fn to_string(alloc: Global, value: &Value) -> Result<Value, Refused>
    ensures { IsAnswer result (given_one U.ToString value.now) }
{
    match displayed(alloc, value)? {
        Some(text) => Ok(Value::Str(text)),
        None => Err(Refused::Faulted(Fault::NoText(value.copy()?))),
    }
}

/// `inspect(v)`: the value as it is written in a source.
pub(crate) fn inspect(alloc: Global, value: &Value, limits: &Limits) -> Result<Value, Refused>
    ensures { IsWithin limits.now result (given_one U.Inspect value.now) }
{
    limits.cover(1)?;
    Ok(Value::Str(value.inspect_text(alloc)?))
}

/// `s <> t`.
pub(crate) fn concat(alloc: Global, left: &Value, right: &Value) -> Result<Value, Refused>
    ensures { IsAnswer result (given_two B.Concat left.now right.now) }
{
    let front = text(left)?;
    let back = text(right)?;
    let mut out = String::from_str(alloc, front)?;
    out.push_str(back)?;
    Ok(Value::Str(Word::of(alloc, out.as_str())?))
}

/// `Enum.join(l, s)`: the items' texts for readers with `s` between; [`Fault::NoText`] of the first that has none. A text that is too dear isn't made.
pub(crate) fn join(
    alloc: Global,
    left: &Value,
    right: &Value,
    limits: &Limits,
) -> Result<Value, Refused>
    ensures { IsWithin limits.now result (given_two B.Join left.now right.now) }
{
    let items = list(left)?;
    let between = text(right)?;
    match first_without_text(items) {
        Some(item) => Err(Refused::Faulted(Fault::NoText(item.copy()?))),
        None => joined_within(alloc, items, between, limits),
    }
}

/// The first of some values that has no text for readers.
fn first_without_text(items: &[Value]) -> Option<&Value>
    ensures { option_copied result ≡ find has_no_text items.now }
{
    items.iter().find(|item| has_no_text(item))
}

/// Whether a value has no text for readers: a tuple or a list has none.
fn has_no_text(value: &Value) -> bool
    ensures { result ≡ has_no_text value.now }
{
    matches!(value, Value::Tuple(_) | Value::List(_))
}

/// The texts in a row of values that have one, with a text between each two, unless what stands between
/// them alone is too dear.
fn joined_within(
    alloc: Global,
    items: &[Value],
    between: &str,
    limits: &Limits,
) -> Result<Value, Refused>
    requires { find has_no_text items.now ≡ None }
    ensures { IsWithin limits.now result (joined between.now (texts_of items.now)) }
{
    let gaps = items.len().saturating_sub(1) as u128;
    match limits.cover(repeated_size(between.len(), gaps)) {
        Ok(()) => joined(alloc, items, between),
        Err(refused) => Err(refused),
    }
}

/// The texts of values for readers in a row, with a text between each two.
fn joined(alloc: Global, items: &[Value], between: &str) -> Result<Value, Refused>
    ensures { IsAnswer result (joined between.now (texts_of items.now)) }
{
    let mut out = String::new(alloc);
    let mut is_first = true;
    for item in items {
        match displayed(alloc, item)? {
            Some(text) => push_next(&mut out, between, text.as_str(), is_first)?,
            None => return Err(Refused::Faulted(Fault::NoText(item.copy()?))),
        }
        is_first = false;
    }
    Ok(Value::Str(Word::of(alloc, out.as_str())?))
}

/// Puts a text behind another, and a third between them unless nothing stands before.
fn push_next(out: &mut String, between: &str, text: &str, is_first: bool) -> Result<(), AllocError>
    ensures { OnOk result (string_bytes out.new ≡ string_bytes out.old ++ ((if is_first then [] else between.now) ++ text.now)) }
{
    if !is_first {
        out.push_str(between)?;
    }
    out.push_str(text)?;
    Ok(())
}

/// `String.split(s, t)`: the pieces between the occurrences of `t` from the left; `t` isn't empty.
pub(crate) fn split(alloc: Global, left: &Value, right: &Value) -> Result<Value, Refused>
    ensures { IsAnswer result (given_two B.Split left.now right.now) }
{
    let whole = text(left)?;
    let mark = text(right)?;
    if mark.is_empty() {
        return Err(Refused::Wrong);
    }
    Ok(pieces(alloc, whole, mark)?)
}

/// The pieces of a text between the occurrences of another, as a list.
fn pieces(alloc: Global, whole: &str, mark: &str) -> Result<Value, AllocError>
    requires { 0 < length mark.now }
    ensures { IfOk result (λ v. v ≡ list (map Str (pieces_past mark.now 0 whole.now))) }
{
    let mut pieces = Vec::new(alloc);
    let mut rest = whole;
    while let Some((piece, after)) = rest.split_once(mark) {
        push_text(alloc, &mut pieces, piece)?;
        rest = after;
    }
    push_text(alloc, &mut pieces, rest)?;
    Ok(Value::List(Items::of(alloc, pieces)?))
}

/// Puts a text behind other values.
fn push_text(alloc: Global, values: &mut Vec<Value>, text: &str) -> Result<(), AllocError>
    ensures { OnOk result (values.new.items ≡ values.old.items ++ Str text.now ∷ []) }
{
    let value = Value::Str(Word::of(alloc, text)?);
    match values.push(value) {
        Ok(()) => Ok(()),
        Err(_) => Err(AllocError),
    }
}

/// `String.contains?(s, t)`.
pub(crate) fn contains(alloc: Global, left: &Value, right: &Value) -> Result<Value, Refused>
    ensures { IsAnswer result (given_two B.Contains left.now right.now) }
{
    let whole = text(left)?;
    let part = text(right)?;
    Ok(truth(alloc, whole.contains(part))?)
}

/// `String.starts_with?(s, t)`.
pub(crate) fn starts_with(alloc: Global, left: &Value, right: &Value) -> Result<Value, Refused>
    ensures { IsAnswer result (given_two B.StartsWith left.now right.now) }
{
    let whole = text(left)?;
    let part = text(right)?;
    Ok(truth(alloc, whole.starts_with(part))?)
}

/// `String.ends_with?(s, t)`.
pub(crate) fn ends_with(alloc: Global, left: &Value, right: &Value) -> Result<Value, Refused>
    ensures { IsAnswer result (given_two B.EndsWith left.now right.now) }
{
    let whole = text(left)?;
    let part = text(right)?;
    Ok(truth(alloc, whole.ends_with(part))?)
}

/// `String.duplicate(s, i)`; `i` isn't below 0. A text that is too dear isn't made.
pub(crate) fn duplicate(
    alloc: Global,
    left: &Value,
    right: &Value,
    limits: &Limits,
) -> Result<Value, Refused>
    ensures { IsWithin limits.now result (given_two B.Duplicate left.now right.now) }
{
    let text = text(left)?;
    let number = integer(right)?;
    match u128::try_from(number) {
        Ok(times) => repeated(alloc, text, times, limits),
        Err(_) => Err(Refused::Wrong),
    }
}

/// A text so many times. A text that is too dear isn't made.
fn repeated(alloc: Global, text: &str, times: u128, limits: &Limits) -> Result<Value, Refused>
    ensures { IsWithin limits.now result (Gives (Str (repeat times text.now))) }
{
    match limits.cover(repeated_size(text.len(), times)) {
        Ok(()) => Ok(Value::Str(copies(alloc, text, times)?)),
        Err(refused) => Err(refused),
    }
}

/// The size of a text of so many bytes so many times, or the largest number of 64 bits where that is greater.
fn repeated_size(bytes: usize, times: u128) -> u64
    ensures { result ≡ capped (1 + times * bytes / 16) }
{
    let units = times.saturating_mul(bytes as u128) / 16;
    u64::try_from(units + 1).unwrap_or(u64::MAX)
}

/// A text so many times.
fn copies(alloc: Global, text: &str, times: u128) -> Result<Word, AllocError>
    ensures { IfOk result (λ w. w ≡ repeat times text.now) }
{
    if text.is_empty() {
        return Word::of(alloc, "");
    }
    match usize::try_from(times) {
        Ok(times) => Word::of(alloc, text.repeat(alloc, times)?.as_str()),
        Err(_) => Err(AllocError),
    }
}
