// What operators give of values.
ghost use Rattle.std.specs.Prelude.{◌≡◌, ℤ, IfOk, FitsSigned};
ghost use Rattle.std.specs.Int.{w128};
ghost use Rattle.std.specs.Option.{SomeIff};
ghost use Rattle.ex_model.specs.Meaning.{operated, calculated, in_range, operator_name};

use ex_model::{Fault, Operator};
use ex_value::{Value, Word};
use std::alloc::{AllocError, Global};

/// The result of an operator, or its own fault.
pub fn operated(
    alloc: Global,
    operator: Operator,
    first: &Value,
    second: &Value,
) -> Result<Result<Value, Fault>, AllocError>
    ensures { IfOk result (λ r. r ≡ operated operator first.now second.now) }
{
    match (first, second) {
        (Value::Int(first), Value::Int(second)) => {
            Ok(in_range(calculated(operator, *first, *second)))
        }
        _ => {
            let name = Word::of(alloc, operator_name(operator))?;
            Ok(Err(Fault::BadArgument { name, arity: 2 }))
        }
    }
}

/// The result of an operator on integers: none where it doesn't fit 128 bits.
fn calculated(operator: Operator, first: i128, second: i128) -> Option<i128>
    ensures { let z = calculated operator first second in SomeIff result (FitsSigned w128 z) z }
{
    match operator {
        Operator::Add => first.checked_add(second),
        Operator::Subtract => first.checked_sub(second),
        Operator::Multiply => first.checked_mul(second),
    }
}

/// An integer as a value, unless it was too wide.
fn in_range(number: Option<i128>) -> Result<Value, Fault>
    ensures { (z : ℤ) → SomeIff number (FitsSigned w128 z) z → result ≡ in_range z }
{
    match number {
        Some(number) => Ok(Value::Int(number)),
        None => Err(Fault::IntegerTooWide),
    }
}

/// What an operator is called in faults.
fn operator_name(operator: Operator) -> &'static str
    ensures { result.now ≡ operator_name operator }
{
    match operator {
        Operator::Add => "+",
        Operator::Subtract => "-",
        Operator::Multiply => "*",
    }
}
