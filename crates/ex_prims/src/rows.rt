//! The tables of the built-in calls and operators: what each answers for its arguments.
ghost use Rattle.ex_prims.specs.declared.limits.Limits.{Limits};
ghost use Rattle.ex_prims.specs.Answers.{Answer, Gives, ok};
ghost use Rattle.ex_prims.specs.Bodies.{IsAnswer, IsGiven, IsWithin};
ghost use Rattle.ex_prims.specs.Rows.{given_one, given_two};

use crate::arguments::ok;
use crate::functions::{Binary, Unary};
use crate::limits::Limits;
use crate::printing::{puts, show};
use crate::refused::Refused;
use crate::{comparing, integers, listing, texting};
use ex_terms::Value;
use ex_word::Word;
use std::alloc::Global;

/// What a row gives.
#[derive(Drop)]
pub(crate) enum Given {
    /// A value.
    Quiet(Value),
    /// A value, and what is printed beside it.
    Printed(Word, Value),
}

/// What a call of one argument gives.
pub(crate) fn one(
    alloc: Global,
    function: Unary,
    value: &Value,
    limits: &Limits,
) -> Result<Given, Refused>
    ensures { IsGiven limits.now result (given_one function value.now) }
{
    match function {
        Unary::Negate => quiet(integers::negate(value)),
        Unary::Keep => quiet(integers::keep(value)),
        Unary::Not => quiet(comparing::not(alloc, value)),
        Unary::StrictNot => quiet(comparing::strict_not(alloc, value)),
        Unary::Absolute => quiet(integers::absolute(value)),
        Unary::IntegerToString => quiet(integers::integer_to_string(alloc, value)),
        Unary::StringToInteger => quiet(integers::string_to_integer(value)),
        Unary::Length => quiet(listing::length(value)),
        Unary::TupleSize => quiet(listing::tuple_size(value)),
        Unary::ByteSize => quiet(texting::byte_size(value)),
        Unary::Head => quiet(listing::head(value)),
        Unary::Tail => quiet(listing::tail(alloc, value)),
        Unary::ToString => quiet(texting::to_string(alloc, value)),
        Unary::Inspect => quiet(texting::inspect(alloc, value, limits)),
        Unary::IsInteger => quiet(comparing::is_integer(alloc, value)),
        Unary::IsAtom => quiet(comparing::is_atom(alloc, value)),
        Unary::IsBinary => quiet(comparing::is_binary(alloc, value)),
        Unary::IsList => quiet(comparing::is_list(alloc, value)),
        Unary::IsTuple => quiet(comparing::is_tuple(alloc, value)),
        Unary::IsBoolean => quiet(comparing::is_boolean(alloc, value)),
        Unary::IsNil => quiet(comparing::is_nil(alloc, value)),
        Unary::Sum => quiet(integers::sum(value)),
        Unary::Reverse => quiet(listing::reverse(alloc, value)),
        Unary::Sort => quiet(comparing::sort(alloc, value, limits)),
        Unary::Unique => quiet(comparing::unique(alloc, value, limits)),
        Unary::WithIndex => quiet(listing::with_index(alloc, value)),
        Unary::Greatest => quiet(comparing::greatest(alloc, value, limits)),
        Unary::Least => quiet(comparing::least(alloc, value, limits)),
        Unary::First => quiet(listing::first(alloc, value)),
        Unary::Last => quiet(listing::last(alloc, value)),
        Unary::ListToTuple => quiet(listing::list_to_tuple(value)),
        Unary::TupleToList => quiet(listing::tuple_to_list(value)),
        Unary::Puts => puts(alloc, value, limits),
        Unary::Show => show(alloc, value, limits),
        Unary::Install => installed(alloc),
    }
}

/// What a call of two arguments gives.
pub(crate) fn two(
    alloc: Global,
    function: Binary,
    left: &Value,
    right: &Value,
    limits: &Limits,
) -> Result<Given, Refused>
    ensures { IsGiven limits.now result (given_two function left.now right.now) }
{
    match function {
        Binary::Add => quiet(integers::add(left, right)),
        Binary::Subtract => quiet(integers::subtract(left, right)),
        Binary::Multiply => quiet(integers::multiply(left, right)),
        Binary::Append => quiet(listing::append(alloc, left, right)),
        Binary::Concat => quiet(texting::concat(alloc, left, right)),
        Binary::In => quiet(comparing::is_in(alloc, left, right, limits)),
        Binary::Equal => quiet(comparing::equal(alloc, left, right, limits)),
        Binary::NotEqual => quiet(comparing::not_equal(alloc, left, right, limits)),
        Binary::Less => quiet(comparing::less(alloc, left, right, limits)),
        Binary::Greater => quiet(comparing::greater(alloc, left, right, limits)),
        Binary::LessOrEqual => quiet(comparing::less_or_equal(alloc, left, right, limits)),
        Binary::GreaterOrEqual => quiet(comparing::greater_or_equal(alloc, left, right, limits)),
        Binary::Max => quiet(comparing::max(alloc, left, right, limits)),
        Binary::Min => quiet(comparing::min(alloc, left, right, limits)),
        Binary::Divide => quiet(integers::divide(left, right)),
        Binary::Remainder => quiet(integers::remainder(left, right)),
        Binary::Modulo => quiet(integers::modulo(left, right)),
        Binary::Power => quiet(integers::power(left, right)),
        Binary::Element => quiet(listing::element(left, right)),
        Binary::HasMember => quiet(comparing::has_member(alloc, left, right, limits)),
        Binary::At => quiet(listing::at(alloc, left, right)),
        Binary::Take => quiet(listing::take(alloc, left, right)),
        Binary::Drop => quiet(listing::drop_first(alloc, left, right)),
        Binary::Join => quiet(texting::join(alloc, left, right, limits)),
        Binary::Zip => quiet(listing::zip(alloc, left, right)),
        Binary::Duplicate => quiet(texting::duplicate(alloc, left, right, limits)),
        Binary::Split => quiet(texting::split(alloc, left, right)),
        Binary::Contains => quiet(texting::contains(alloc, left, right)),
        Binary::StartsWith => quiet(texting::starts_with(alloc, left, right)),
        Binary::EndsWith => quiet(texting::ends_with(alloc, left, right)),
        Binary::Install => installed(alloc),
    }
}

/// What a row gives that prints nothing.
fn quiet(outcome: Result<Value, Refused>) -> Result<Given, Refused>
    ensures plain { (limits : Limits) (a : Answer) → IsAnswer outcome a → IsGiven limits result a }
    ensures within { (limits : Limits) (a : Answer) → IsWithin limits outcome a → IsGiven limits result a }
{
    match outcome {
        Ok(value) => Ok(Given::Quiet(value)),
        Err(refused) => Err(refused),
    }
}

/// `Mix.install(v)` and `Mix.install(v, w)`: `:ok`, and nothing is installed.
fn installed(alloc: Global) -> Result<Given, Refused>
    ensures { (limits : Limits) → IsGiven limits result (Gives ok) }
{
    match ok(alloc) {
        Ok(value) => Ok(Given::Quiet(value)),
        Err(_) => Err(Refused::OutOfMemory),
    }
}
