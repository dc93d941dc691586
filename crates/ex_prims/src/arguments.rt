//! Arguments of the kinds that calls take, and values that many calls give.
ghost use Rattle.std.specs.Prelude.{◌≡◌, IfOk};
ghost use Rattle.ex_prims.specs.Bodies.{IsArgument, IsLent};
ghost use Rattle.ex_prims.specs.Answers.{boolean_of, is_falsy, nil, of_integer, of_list, of_text, of_tuple, ok, truth};

use crate::refused::Refused;
use ex_terms::Value;
use ex_word::Word;
use std::alloc::{AllocError, Global};

/// The integer that an argument is. [`Refused::Wrong`] exactly where it is none.
pub(crate) fn integer(value: &Value) -> Result<i128, Refused>
    ensures { IsArgument result (of_integer value.now) }
{
    match value {
        Value::Int(number) => Ok(*number),
        Value::Atom(_) | Value::Str(_) | Value::Tuple(_) | Value::List(_) => Err(Refused::Wrong),
    }
}

/// The text that an argument is. [`Refused::Wrong`] exactly where it is none.
pub(crate) fn text(value: &Value) -> Result<&str, Refused>
    ensures { IsLent result (of_text value.now) }
{
    match value {
        Value::Str(text) => Ok(text.as_str()),
        Value::Int(_) | Value::Atom(_) | Value::Tuple(_) | Value::List(_) => Err(Refused::Wrong),
    }
}

/// The items of the tuple that an argument is. [`Refused::Wrong`] exactly where it is none.
pub(crate) fn tuple(value: &Value) -> Result<&[Value], Refused>
    ensures { IsLent result (of_tuple value.now) }
{
    match value {
        Value::Tuple(items) => Ok(items.as_slice()),
        Value::Int(_) | Value::Atom(_) | Value::Str(_) | Value::List(_) => Err(Refused::Wrong),
    }
}

/// The items of the list that an argument is. [`Refused::Wrong`] exactly where it is none.
pub(crate) fn list(value: &Value) -> Result<&[Value], Refused>
    ensures { IsLent result (of_list value.now) }
{
    match value {
        Value::List(items) => Ok(items.as_slice()),
        Value::Int(_) | Value::Atom(_) | Value::Str(_) | Value::Tuple(_) => Err(Refused::Wrong),
    }
}

/// The value `nil`.
pub(crate) fn nil(alloc: Global) -> Result<Value, AllocError>
    ensures { IfOk result (λ v. v ≡ nil) }
{
    Ok(Value::Atom(Word::of(alloc, "nil")?))
}

/// The value `:ok`.
pub(crate) fn ok(alloc: Global) -> Result<Value, AllocError>
    ensures { IfOk result (λ v. v ≡ ok) }
{
    Ok(Value::Atom(Word::of(alloc, "ok")?))
}

/// A truth value.
pub(crate) fn truth(alloc: Global, holds: bool) -> Result<Value, AllocError>
    ensures { IfOk result (λ v. v ≡ truth holds) }
{
    let word = if holds { "true" } else { "false" };
    Ok(Value::Atom(Word::of(alloc, word)?))
}

/// Whether a value counts as false: `nil` and `false` do.
pub(crate) fn is_falsy(value: &Value) -> bool
    ensures { result ≡ is_falsy value.now }
{
    match value {
        Value::Atom(word) => word.as_str() == "nil" || word.as_str() == "false",
        Value::Int(_) | Value::Str(_) | Value::Tuple(_) | Value::List(_) => false,
    }
}

/// The truth value that a value is, if it is one.
pub(crate) fn boolean(value: &Value) -> Option<bool>
    ensures { result ≡ boolean_of value.now }
{
    match value {
        Value::Atom(word) => match word.as_str() {
            "true" => Some(true),
            "false" => Some(false),
            _ => None,
        },
        Value::Int(_) | Value::Str(_) | Value::Tuple(_) | Value::List(_) => None,
    }
}
