//! The text of each fault of `ex_faults`, and of its copy.
use crate::rows::first_wrong;
use crate::written::{Written, value, values};
use ex_faults::{Fault, fault_text};
use ex_terms::{Items, Value};
use ex_word::Word;
use std::alloc::Global;

/// Whether a fault is printed as this.
fn is_printed(alloc: Global, fault: &Fault, wanted: &str) -> Option<bool> {
    let text = fault_text(alloc, fault).ok()?;
    Some(text.as_str() == wanted)
}

/// Whether a fault's copy is printed as this.
fn copy_is_printed(alloc: Global, fault: &Fault, wanted: &str) -> Option<bool> {
    let copy = fault.copy().ok()?;
    is_printed(alloc, &copy, wanted)
}

/// Whether a fault and its copy are printed as this.
fn are_printed(alloc: Global, fault: &Fault, wanted: &str) -> Option<bool> {
    Some(is_printed(alloc, fault, wanted)? && copy_is_printed(alloc, fault, wanted)?)
}

fn says(alloc: Global, fault: Fault, wanted: &str) -> Option<bool> {
    are_printed(alloc, &fault, wanted)
}

pub fn words_alone(alloc: Global) -> Option<usize> {
    let rows = [
        says(alloc, Fault::SourceTooLong, "source too long")?,
        says(alloc, Fault::NoCond, "no cond")?,
        says(alloc, Fault::DivisionByZero, "division by zero")?,
        says(alloc, Fault::IntegerTooWide, "integer too wide")?,
        says(alloc, Fault::TooManySteps, "too many steps")?,
        says(alloc, Fault::ValueTooLarge, "value too large")?,
        says(alloc, Fault::TooMuchOutput, "too much output")?,
    ];
    Some(first_wrong(rows.as_slice()))
}

pub fn places(alloc: Global) -> Option<usize> {
    let rows = [
        says(alloc, Fault::Character(0), "character at 0")?,
        says(alloc, Fault::Nesting(256), "nesting at 256")?,
        says(alloc, Fault::Syntax(1_048_575), "syntax at 1048575")?,
    ];
    Some(first_wrong(rows.as_slice()))
}

/// `{-7, "a"}`.
fn pair(alloc: Global) -> Option<Value> {
    let items = values(alloc, &[Written::Int(-7), Written::Text("a")])?;
    Some(Value::Tuple(Items::of(alloc, items).ok()?))
}

fn no_match_says(alloc: Global) -> Option<bool> {
    let fault = Fault::NoMatch(value(alloc, Written::Text("a\"b"))?);
    says(alloc, fault, "no match: \"a\\\"b\"")
}

fn no_case_says(alloc: Global) -> Option<bool> {
    let fault = Fault::NoCase(value(alloc, Written::Atom("ok"))?);
    says(alloc, fault, "no case: :ok")
}

fn not_a_boolean_says(alloc: Global) -> Option<bool> {
    let fault = Fault::NotABoolean(value(alloc, Written::Atom("nil"))?);
    says(alloc, fault, "not a boolean: nil")
}

fn no_text_says(alloc: Global) -> Option<bool> {
    says(alloc, Fault::NoText(pair(alloc)?), "no text: {-7, \"a\"}")
}

pub fn of_values(alloc: Global) -> Option<usize> {
    let rows = [
        no_match_says(alloc)?,
        no_case_says(alloc)?,
        not_a_boolean_says(alloc)?,
        no_text_says(alloc)?,
    ];
    Some(first_wrong(rows.as_slice()))
}

fn bad_argument_says(alloc: Global) -> Option<bool> {
    let name = Word::of(alloc, "+").ok()?;
    says(
        alloc,
        Fault::BadArgument { name, arity: 2 },
        "bad argument: +/2",
    )
}

fn unknown_function_says(alloc: Global) -> Option<bool> {
    let name = Word::of(alloc, "Enum.map").ok()?;
    let fault = Fault::UnknownFunction { name, arity: 10 };
    says(alloc, fault, "unknown function: Enum.map/10")
}

fn unbound_variable_says(alloc: Global) -> Option<bool> {
    let name = Word::of(alloc, "é").ok()?;
    says(alloc, Fault::UnboundVariable(name), "unbound variable: é")
}

pub fn of_names(alloc: Global) -> Option<usize> {
    let rows = [
        bad_argument_says(alloc)?,
        unknown_function_says(alloc)?,
        unbound_variable_says(alloc)?,
    ];
    Some(first_wrong(rows.as_slice()))
}
