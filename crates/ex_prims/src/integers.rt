//! Calculating with integers of 128 bits.
ghost use Rattle.std.specs.Prelude.{◌≡◌, ◌^◌, ℤ, pos, negsuc, ◌+ℤ◌, ◌*ℤ◌, ◌≤ℤ◌, is_some, IfOk, FitsSigned};
ghost use Rattle.std.specs.Option.{SomeIff};
ghost use Rattle.std.specs.Str.Parse.{without_leading_sign};
ghost use Rattle.std.specs.Int.{IsNonZero, int_pow, w128};
ghost use Rattle.std.specs.Fmt.{signed_decimal};
ghost use Rattle.ex_prims.specs.Bodies.{IsAnswer};
ghost use Rattle.ex_prims.specs.Integers.{all_integers, in_range, integer_in, modulo, number_in, summed};
ghost use Rattle.ex_prims.specs.Rows.{given_one, given_two};
ghost use Rattle.ex_prims.specs.declared.functions.Unary.TheVariants as U;
ghost use Rattle.ex_prims.specs.declared.functions.Binary.TheVariants as B;

use crate::arguments::{integer, list, text};
use crate::refused::Refused;
use ex_faults::Fault;
use ex_terms::Value;
use ex_word::Word;
use itoa::Buffer;
use std::alloc::{AllocError, Global};

/// The integer of 128 bits, where there is one.
fn fitting(number: Option<i128>) -> Result<Value, Refused>
    ensures { (z : ℤ) → SomeIff number (FitsSigned w128 z) z → IsAnswer result (in_range z) }
{
    match number {
        Some(number) => Ok(Value::Int(number)),
        None => Err(Refused::Faulted(Fault::IntegerTooWide)),
    }
}

/// An integer in decimal.
fn decimal(alloc: Global, number: i128) -> Result<Word, AllocError>
    ensures { IfOk result (λ w. w ≡ signed_decimal number) }
{
    let mut buffer = Buffer::new();
    Word::of(alloc, buffer.format(number))
}

/// `-i`; [`Fault::IntegerTooWide`] for the least integer.
pub(crate) fn negate(value: &Value) -> Result<Value, Refused>
    ensures { IsAnswer result (given_one U.Negate value.now) }
{
    let number = integer(value)?;
    fitting(number.checked_neg())
}

/// `+i`.
pub(crate) fn keep(value: &Value) -> Result<Value, Refused>
    ensures { IsAnswer result (given_one U.Keep value.now) }
{
    let number = integer(value)?;
    Ok(Value::Int(number))
}

/// `abs(i)`.
pub(crate) fn absolute(value: &Value) -> Result<Value, Refused>
    ensures { IsAnswer result (given_one U.Absolute value.now) }
{
    let number = integer(value)?;
    fitting(number.checked_abs())
}

/// `Integer.to_string(i)`: the integer in decimal.
pub(crate) fn integer_to_string(alloc: Global, value: &Value) -> Result<Value, Refused>
    ensures { IsAnswer result (given_one U.IntegerToString value.now) }
{
    let number = integer(value)?;
    Ok(Value::Str(decimal(alloc, number)?))
}

/// The bytes of a text behind its sign, if it has one.
fn behind_sign(bytes: &[u8]) -> &[u8]
    ensures { result.now ≡ without_leading_sign bytes.now }
{
    match bytes {
        [b'-' | b'+', rest @ ..] => rest,
        _ => bytes,
    }
}

/// Whether bytes are digits, at least one.
fn are_digits(bytes: &[u8]) -> bool
    ensures { result ≡ is_some (number_in bytes.now) }
{
    for byte in bytes {
        if !byte.is_ascii_digit() {
            return false;
        }
    }
    !bytes.is_empty()
}

/// The integer that a text is. [`Fault::IntegerTooWide`] where it has more than 128 bits.
fn integer_of(text: &str) -> Result<Value, Refused>
    ensures { IsAnswer result (integer_in text.now) }
{
    match text.parse::<i128>() {
        Ok(number) => Ok(Value::Int(number)),
        Err(_) => {
            if are_digits(behind_sign(text.as_bytes())) {
                Err(Refused::Faulted(Fault::IntegerTooWide))
            } else {
                Err(Refused::Wrong)
            }
        }
    }
}

/// `String.to_integer(s)`: one sign or none, and at least one digit.
pub(crate) fn string_to_integer(value: &Value) -> Result<Value, Refused>
    ensures { IsAnswer result (given_one U.StringToInteger value.now) }
{
    match text(value) {
        Ok(text) => integer_of(text),
        Err(refused) => Err(refused),
    }
}

/// The sum of two integers, cut to 128 bits, and how many times 2^128 is missing in it.
fn added(sum: i128, number: i128) -> (i128, i128)
    ensures whole { sum +ℤ number ≡ result.0 +ℤ (result.1 *ℤ pos (2 ^ 128)) }
    ensures least { negsuc 0 ≤ℤ result.1 }
    ensures most { result.1 ≤ℤ pos 1 }
{
    let (cut, wrapped) = sum.overflowing_add(number);
    if !wrapped {
        (cut, 0)
    } else if number < 0 {
        (cut, -1)
    } else {
        (cut, 1)
    }
}

/// The sum of values, all of which have to be integers.
fn sum_of_items(items: &[Value]) -> Result<Value, Refused>
    ensures { IsAnswer result (summed (all_integers items.now)) }
{
    let mut sum: i128 = 0;
    let mut wraps: i128 = 0;
    for item in items {
        let number = integer(item)?;
        let (cut, missing) = added(sum, number);
        sum = cut;
        wraps += missing;
    }
    if wraps == 0 {
        Ok(Value::Int(sum))
    } else {
        Err(Refused::Faulted(Fault::IntegerTooWide))
    }
}

/// `Enum.sum(l)`: 0 where the list is empty. Only the sum has to fit 128 bits, not what is summed up on the way.
pub(crate) fn sum(value: &Value) -> Result<Value, Refused>
    ensures { IsAnswer result (given_one U.Sum value.now) }
{
    match list(value) {
        Ok(items) => sum_of_items(items),
        Err(refused) => Err(refused),
    }
}

/// `i + j`.
pub(crate) fn add(left: &Value, right: &Value) -> Result<Value, Refused>
    ensures { IsAnswer result (given_two B.Add left.now right.now) }
{
    let first = integer(left)?;
    let second = integer(right)?;
    fitting(first.checked_add(second))
}

/// `i - j`.
pub(crate) fn subtract(left: &Value, right: &Value) -> Result<Value, Refused>
    ensures { IsAnswer result (given_two B.Subtract left.now right.now) }
{
    let first = integer(left)?;
    let second = integer(right)?;
    fitting(first.checked_sub(second))
}

/// `i * j`.
pub(crate) fn multiply(left: &Value, right: &Value) -> Result<Value, Refused>
    ensures { IsAnswer result (given_two B.Multiply left.now right.now) }
{
    let first = integer(left)?;
    let second = integer(right)?;
    fitting(first.checked_mul(second))
}

/// `div(i, j)`, towards zero.
pub(crate) fn divide(left: &Value, right: &Value) -> Result<Value, Refused>
    ensures { IsAnswer result (given_two B.Divide left.now right.now) }
{
    let number = integer(left)?;
    let divisor = integer(right)?;
    if divisor == 0 {
        return Err(Refused::Faulted(Fault::DivisionByZero));
    }
    fitting(number.checked_div(divisor))
}

/// `rem(i, j)`, with the sign of `i`.
pub(crate) fn remainder(left: &Value, right: &Value) -> Result<Value, Refused>
    ensures { IsAnswer result (given_two B.Remainder left.now right.now) }
{
    let number = integer(left)?;
    let divisor = integer(right)?;
    if divisor == 0 {
        return Err(Refused::Faulted(Fault::DivisionByZero));
    }
    Ok(Value::Int(number.wrapping_rem(divisor)))
}

/// The remainder with the divisor's sign.
fn modulo_of(number: i128, divisor: i128) -> i128
    requires { IsNonZero w128 divisor }
    ensures { result ≡ modulo number divisor }
{
    let rest = number.wrapping_rem(divisor);
    if rest != 0 && (rest < 0) != (divisor < 0) {
        rest + divisor
    } else {
        rest
    }
}

/// `Integer.mod(i, j)`: the remainder with the sign of `j`.
pub(crate) fn modulo(left: &Value, right: &Value) -> Result<Value, Refused>
    ensures { IsAnswer result (given_two B.Modulo left.now right.now) }
{
    let number = integer(left)?;
    let divisor = integer(right)?;
    if divisor == 0 {
        return Err(Refused::Faulted(Fault::DivisionByZero));
    }
    Ok(Value::Int(modulo_of(number, divisor)))
}

/// An exponent below 130 that makes the same answer: from 128 on all powers but those of 0, 1 and -1 are too wide.
fn short_exponent(exponent: u128) -> u32
    ensures { (base : ℤ) → in_range (int_pow base result) ≡ in_range (int_pow base exponent) }
{
    if exponent < 128 {
        exponent as u32
    } else {
        128 + (exponent % 2) as u32
    }
}

/// `Integer.pow(i, j)`; `j` isn't below 0.
pub(crate) fn power(left: &Value, right: &Value) -> Result<Value, Refused>
    ensures { IsAnswer result (given_two B.Power left.now right.now) }
{
    let base = integer(left)?;
    let exponent = integer(right)?;
    if exponent < 0 {
        return Err(Refused::Wrong);
    }
    fitting(base.checked_pow(short_exponent(exponent.unsigned_abs())))
}
