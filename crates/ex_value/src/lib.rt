//! The values of cells: integers and atoms.
//!
//! The layer above may rely on this: a contract sees a [`Word`] as the list of its bytes, UTF-8, and a
//! [`Value`] as plain data over such lists, so equal values are equal in every contract. Sizes and the
//! order of words count bytes. Nothing here changes a value after it is made.
#![tactic(auto)]

ghost use Rattle.std.specs.Prelude.{◌≡◌, ◌≤◌, ◌^◌, ◌↔◌, IsTrue, IfOk};
ghost use Rattle.std.specs.Fmt.{signed_decimal};
ghost use Rattle.ex_value.specs.Values.{nil, size_of, order_of, inspected, atom_inspected, is_value_word, displayed};

use itoa::Buffer;
use std::alloc::{AllocError, Global};
use std::cmp::Ordering;
use std::marker::Model;

/// A text that doesn't change. Its length counts bytes.
#[derive(Debug, Drop)]
pub struct Word {
    text: String,
}

impl Model for Word {
    ghost use Rattle.std.specs.Prelude.{ℕ, List};
    ghost use Rattle.std.specs.String.{string_bytes};

    ghost Value = { List ℕ };

    ghost view = { λ w. string_bytes w.text };
}

impl Word {
    /// A word of a string.
    pub fn of(alloc: Global, s: &str) -> Result<Word, AllocError>
        ensures { IfOk result (λ w. w ≡ s.now) }
    {
        Ok(Word {
            text: String::from_str(alloc, s)?,
        })
    }

    /// The word as a string slice. Takes no memory.
    pub fn as_str(&self) -> &str
        ensures { result.now ≡ self.now }
    {
        self.text.as_str()
    }

    /// An equal word.
    pub fn copy(&self) -> Result<Word, AllocError>
        ensures { IfOk result (λ w. w ≡ self.now) }
    {
        Ok(Word {
            text: self.text.clone()?,
        })
    }
}

/// What an expression gives.
#[derive(Debug, Drop)]
pub enum Value {
    /// An integer of 128 bits: `42`.
    Int(i128),
    /// An atom, by its text: `nil`.
    Atom(Word),
}

impl Value {
    /// The value `nil`.
    pub fn nil(alloc: Global) -> Result<Value, AllocError>
        ensures { IfOk result (λ v. v ≡ nil) }
    {
        Ok(Value::Atom(Word::of(alloc, "nil")?))
    }

    /// An equal value.
    pub fn copy(&self) -> Result<Value, AllocError>
        ensures { IfOk result (λ v. v ≡ self.now) }
    {
        match self {
            Value::Int(number) => Ok(Value::Int(*number)),
            Value::Atom(text) => Ok(Value::Atom(text.copy()?)),
        }
    }

    /// Whether two values are equal. Takes no memory.
    pub fn equal(&self, other: &Value) -> bool
        ensures { IsTrue result ↔ (self.now ≡ other.now) }
    {
        match (self, other) {
            (Value::Int(left), Value::Int(right)) => left == right,
            (Value::Atom(left), Value::Atom(right)) => left.as_str() == right.as_str(),
            _ => false,
        }
    }

    /// How two values stand in the order of terms: a number before an atom, numbers by value, atoms
    /// by their bytes. Takes no memory.
    pub fn order(&self, other: &Value) -> Ordering
        ensures { result ≡ order_of self.now other.now }
    {
        match (self, other) {
            (Value::Int(left), Value::Int(right)) => left.cmp(right),
            (Value::Int(_), Value::Atom(_)) => Ordering::Less,
            (Value::Atom(_), Value::Int(_)) => Ordering::Greater,
            (Value::Atom(left), Value::Atom(right)) => left.as_str().cmp(right.as_str()),
        }
    }

    /// The size in units, by which evaluations are charged and limited: 1 for an integer, and for an
    /// atom 1 and a unit for each 16 bytes. Takes no memory.
    pub fn size(&self) -> u64
        ensures size { result ≡ size_of self.now }
        ensures small { result ≤ 2 ^ 60 }
    {
        match self {
            Value::Int(_) => 1,
            Value::Atom(text) => 1 + (text.as_str().len() / 16) as u64,
        }
    }

    /// The value as an expression that gives it.
    pub fn inspect_text(&self, alloc: Global) -> Result<Word, AllocError>
        ensures { IfOk result (λ w. w ≡ inspected self.now) }
    {
        match self {
            Value::Int(number) => decimal_text(alloc, *number),
            Value::Atom(text) => atom_text(alloc, text.as_str()),
        }
    }

    /// The value as a text for readers: `nil` is empty, and any other atom is its own text.
    pub fn display_text(&self, alloc: Global) -> Result<Word, AllocError>
        ensures { IfOk result (λ w. w ≡ displayed self.now) }
    {
        match self {
            Value::Int(number) => decimal_text(alloc, *number),
            Value::Atom(text) if text.as_str() == "nil" => Word::of(alloc, ""),
            Value::Atom(text) => text.copy(),
        }
    }
}

/// An integer in decimal.
fn decimal_text(alloc: Global, number: i128) -> Result<Word, AllocError>
    ensures { IfOk result (λ w. w ≡ signed_decimal number) }
{
    let mut buffer = Buffer::new();
    Word::of(alloc, buffer.format(number))
}

/// An atom as it stands in a source.
fn atom_text(alloc: Global, text: &str) -> Result<Word, AllocError>
    ensures { IfOk result (λ w. w ≡ atom_inspected text.now) }
{
    if is_value_word(text) {
        return Word::of(alloc, text);
    }
    let mut quoted = String::from_str(alloc, ":")?;
    quoted.push_str(text)?;
    Ok(Word { text: quoted })
}

/// Whether an atom's text is a word that stands for it in a source.
fn is_value_word(text: &str) -> bool
    ensures { result ≡ is_value_word text.now }
{
    text == "nil" || text == "true" || text == "false"
}
