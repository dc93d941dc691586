//! Faults and their texts.
ghost use Rattle.std.specs.Prelude.{◌≡◌, ◌++◌, IfOk, codes, decimal};
ghost use Rattle.ex_terms.specs.Printed.{inspected};
ghost use Rattle.ex_terms.specs.Seen.{term_of};
ghost use Rattle.ex_faults.specs.Faults.{text_of};

use ex_terms::Value;
use ex_word::Word;
use itoa::Buffer;
use std::alloc::{AllocError, Global};

/// Why a cell gives no value. Places are bytes of the source, counted from 0.
#[derive(Drop)]
pub enum Fault {
    /// The source has more than 1,048,576 bytes.
    SourceTooLong,
    /// The lexer refuses the source at this place: `1 & 2`, at 2.
    Character(u64),
    /// The parser refuses the source at this place, where more than 256 levels are open: 257 times `(`,
    /// at 256.
    Nesting(u64),
    /// The parser refuses the source at this place, where the first expression begins that can't be
    /// read: `x = 1; (2`, at 7.
    Syntax(u64),
    /// A value doesn't match the pattern left of `=`: `{a, b} = 1`, with 1.
    NoMatch(Value),
    /// A value matches no clause of a `case`: `case 3 do 1 -> 2 end`, with 3.
    NoCase(Value),
    /// No condition of a `cond` holds: `cond do 1 > 2 -> 3 end`.
    NoCond,
    /// A value that is neither `true` nor `false` stands left of `and` or `or`, or behind `not`:
    /// `1 and true`, with 1.
    NotABoolean(Value),
    /// A call or an operator, by its name and its number of arguments, got one of another kind or out of
    /// range: `1 + :a`, with `+` and 2.
    BadArgument { name: Word, arity: u64 },
    /// No built-in call has this name and number of arguments: `length()`, with `length` and 0.
    UnknownFunction { name: Word, arity: u64 },
    /// A divisor is 0: `div(1, 0)`.
    DivisionByZero,
    /// A result doesn't fit 128 bits: `170141183460469231731687303715884105727 + 1`.
    IntegerTooWide,
    /// A name, here given, has no binding: `x`, where nothing has bound it.
    UnboundVariable(Word),
    /// A tuple or a list, here given, is to be shown as a text: `to_string({1, 2})`.
    NoText(Value),
    /// The steps reach the limit and more are wanted: `1 + 2` where the limit is 5.
    TooManySteps,
    /// The value and the values of the names that the cell bound have more than 8,192 units:
    /// `String.duplicate("a", 200_000)`.
    ValueTooLarge,
    /// Printing would take the printed text above 65,536 bytes:
    /// `IO.puts(String.duplicate("a", 65_536))`, since a line feed follows.
    TooMuchOutput,
}

impl Fault {
    /// An equal fault.
    pub fn copy(&self) -> Result<Fault, AllocError>
        ensures { IfOk result (λ f. f ≡ self.now) }
    {
        match self {
            Fault::SourceTooLong => Ok(Fault::SourceTooLong),
            Fault::Character(place) => Ok(Fault::Character(*place)),
            Fault::Nesting(place) => Ok(Fault::Nesting(*place)),
            Fault::Syntax(place) => Ok(Fault::Syntax(*place)),
            Fault::NoMatch(value) => Ok(Fault::NoMatch(value.copy()?)),
            Fault::NoCase(value) => Ok(Fault::NoCase(value.copy()?)),
            Fault::NoCond => Ok(Fault::NoCond),
            Fault::NotABoolean(value) => Ok(Fault::NotABoolean(value.copy()?)),
            Fault::BadArgument { name, arity } => Ok(Fault::BadArgument {
                name: name.copy()?,
                arity: *arity,
            }),
            Fault::UnknownFunction { name, arity } => Ok(Fault::UnknownFunction {
                name: name.copy()?,
                arity: *arity,
            }),
            Fault::DivisionByZero => Ok(Fault::DivisionByZero),
            Fault::IntegerTooWide => Ok(Fault::IntegerTooWide),
            Fault::UnboundVariable(name) => Ok(Fault::UnboundVariable(name.copy()?)),
            Fault::NoText(value) => Ok(Fault::NoText(value.copy()?)),
            Fault::TooManySteps => Ok(Fault::TooManySteps),
            Fault::ValueTooLarge => Ok(Fault::ValueTooLarge),
            Fault::TooMuchOutput => Ok(Fault::TooMuchOutput),
        }
    }
}

/// The fault as it is printed.
pub fn fault_text(alloc: Global, fault: &Fault) -> Result<Word, AllocError>
    ensures { IfOk result (λ w. w ≡ text_of fault.now) }
{
    match fault {
        Fault::SourceTooLong => Word::of(alloc, "source too long"),
        Fault::Character(place) => with_place(alloc, "character at ", *place),
        Fault::Nesting(place) => with_place(alloc, "nesting at ", *place),
        Fault::Syntax(place) => with_place(alloc, "syntax at ", *place),
        Fault::NoMatch(value) => with_value(alloc, "no match: ", value),
        Fault::NoCase(value) => with_value(alloc, "no case: ", value),
        Fault::NoCond => Word::of(alloc, "no cond"),
        Fault::NotABoolean(value) => with_value(alloc, "not a boolean: ", value),
        Fault::BadArgument { name, arity } => with_call(
            alloc,
            "bad argument: ",
            name.as_str(),
            *arity,
        ),
        Fault::UnknownFunction { name, arity } => with_call(
            alloc,
            "unknown function: ",
            name.as_str(),
            *arity,
        ),
        Fault::DivisionByZero => Word::of(alloc, "division by zero"),
        Fault::IntegerTooWide => Word::of(alloc, "integer too wide"),
        Fault::UnboundVariable(name) => joined(alloc, "unbound variable: ", name.as_str()),
        Fault::NoText(value) => with_value(alloc, "no text: ", value),
        Fault::TooManySteps => Word::of(alloc, "too many steps"),
        Fault::ValueTooLarge => Word::of(alloc, "value too large"),
        Fault::TooMuchOutput => Word::of(alloc, "too much output"),
    }
}

/// Words and what follows them.
fn joined(alloc: Global, words: &str, rest: &str) -> Result<Word, AllocError>
    ensures { IfOk result (λ w. w ≡ words.now ++ rest.now) }
{
    let mut text = String::from_str(alloc, words)?;
    text.push_str(rest)?;
    Word::of(alloc, text.as_str())
}

/// Words and a place in decimal.
fn with_place(alloc: Global, words: &str, place: u64) -> Result<Word, AllocError>
    ensures { IfOk result (λ w. w ≡ words.now ++ decimal place) }
{
    let mut buffer = Buffer::new();
    joined(alloc, words, buffer.format(place))
}

/// Words and a value as it is written in a source.
fn with_value(alloc: Global, words: &str, value: &Value) -> Result<Word, AllocError>
    ensures { IfOk result (λ w. w ≡ words.now ++ inspected (term_of value.now)) }
{
    let shown = value.inspect_text(alloc)?;
    joined(alloc, words, shown.as_str())
}

/// Words and a call by its name and its number of arguments: `+/2`.
fn with_call(alloc: Global, words: &str, name: &str, arity: u64) -> Result<Word, AllocError>
    ensures { IfOk result (λ w. w ≡ words.now ++ name.now ++ codes "/" ++ decimal arity) }
{
    let mut buffer = Buffer::new();
    let mut text = String::from_str(alloc, words)?;
    text.push_str(name)?;
    text.push_str("/")?;
    text.push_str(buffer.format(arity))?;
    Word::of(alloc, text.as_str())
}
