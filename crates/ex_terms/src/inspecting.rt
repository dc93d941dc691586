//! Values as texts.
ghost use Rattle.std.specs.Prelude.{◌≡◌, ◌++◌, ◌↔◌, None, Some, Err, IfOk, OnOk, string_bytes};
ghost use Rattle.ex_terms.specs.declared.error.DisplayError.TheVariants.{NoText};
ghost use Rattle.std.specs.Fmt.{signed_decimal};
ghost use Rattle.ex_terms.specs.Printed.{all_inspected, atom_displayed, atom_inspected, atom_text, comma, displayed, inspected, is_value_word};
ghost use Rattle.ex_terms.specs.Seen.{term_of, terms_of};

use crate::error::DisplayError;
use crate::names::{is_alias, is_name};
use crate::quoting::push_quoted;
use crate::values::Value;
use ex_word::Word;
use itoa::Buffer;
use std::alloc::{AllocError, Global};

impl Value {
    /// The value as it is written in a source: `{:a, "b"}`.
    pub fn inspect_text(&self, alloc: Global) -> Result<Word, AllocError>
        ensures { IfOk result (λ w. w ≡ inspected (term_of self.now)) }
    {
        let mut out = String::new(alloc);
        push_value(&mut out, self)?;
        Word::of(alloc, out.as_str())
    }

    /// The value as a text for readers: an integer in decimal, an atom's text, of which `nil` has
    /// none, and a text itself. [`DisplayError::NoText`] exactly for a tuple or a list.
    pub fn display_text(&self, alloc: Global) -> Result<Word, DisplayError>
        ensures text { IfOk result (λ w. displayed (term_of self.now) ≡ Some w) }
        ensures no_text { (result ≡ Err NoText) ↔ (displayed (term_of self.now) ≡ None) }
    {
        match self {
            Value::Int(number) => Ok(integer_text(alloc, *number)?),
            Value::Atom(text) => Ok(atom_display(alloc, text)?),
            Value::Str(text) => Ok(text.copy()?),
            Value::Tuple(_) | Value::List(_) => Err(DisplayError::NoText),
        }
    }
}

/// An integer in decimal.
fn integer_text(alloc: Global, number: i128) -> Result<Word, AllocError>
    ensures { IfOk result (λ w. w ≡ signed_decimal number) }
{
    let mut buffer = Buffer::new();
    Word::of(alloc, buffer.format(number))
}

/// An atom as a text for readers.
fn atom_display(alloc: Global, text: &Word) -> Result<Word, AllocError>
    ensures { IfOk result (λ w. w ≡ atom_displayed text.now) }
{
    if text.as_str() == "nil" {
        return Word::of(alloc, "");
    }
    text.copy()
}

/// Puts a value behind a text, as it is written in a source.
#[cycle(inspect)]
fn push_value(out: &mut String, value: &Value) -> Result<(), AllocError>
    ensures { OnOk result (string_bytes out.new ≡ string_bytes out.old ++ inspected (term_of value.now)) }
{
    match value {
        Value::Int(number) => {
            push_integer(out, *number)?;
            Ok(())
        }
        Value::Atom(text) => {
            push_atom(out, text.as_str())?;
            Ok(())
        }
        Value::Str(text) => {
            push_quoted(out, text.as_str())?;
            Ok(())
        }
        Value::Tuple(items) => {
            out.push('{')?;
            push_items(out, items.as_slice())?;
            out.push('}')?;
            Ok(())
        }
        Value::List(items) => {
            out.push('[')?;
            push_items(out, items.as_slice())?;
            out.push(']')?;
            Ok(())
        }
    }
}

/// Puts values behind a text, with commas between them.
#[cycle(inspect)]
fn push_items(out: &mut String, values: &[Value]) -> Result<(), AllocError>
    ensures { OnOk result (string_bytes out.new ≡ string_bytes out.old ++ all_inspected (terms_of values.now)) }
{
    let mut is_first = true;
    for value in values {
        push_comma(out, is_first)?;
        push_value(out, value)?;
        is_first = false;
    }
    Ok(())
}

/// Puts a comma and a blank behind a text, unless nothing stands before.
fn push_comma(out: &mut String, is_first: bool) -> Result<(), AllocError>
    ensures { OnOk result (string_bytes out.new ≡ string_bytes out.old ++ comma is_first) }
{
    if !is_first {
        out.push_str(", ")?;
    }
    Ok(())
}

/// Puts an integer behind a text, in decimal.
fn push_integer(out: &mut String, number: i128) -> Result<(), AllocError>
    ensures { OnOk result (string_bytes out.new ≡ string_bytes out.old ++ signed_decimal number) }
{
    let mut buffer = Buffer::new();
    out.push_str(buffer.format(number))?;
    Ok(())
}

/// Puts an atom behind a text: a word that stands for itself, or a colon and its text, in quotes
/// unless it is a name or an alias.
fn push_atom(out: &mut String, text: &str) -> Result<(), AllocError>
    ensures { OnOk result (string_bytes out.new ≡ string_bytes out.old ++ atom_inspected text.now) }
{
    if is_value_word(text) {
        out.push_str(text)?;
        return Ok(());
    }
    out.push(':')?;
    push_atom_text(out, text)?;
    Ok(())
}

/// Puts an atom's text behind another, in quotes unless it is a name or an alias.
fn push_atom_text(out: &mut String, text: &str) -> Result<(), AllocError>
    ensures { OnOk result (string_bytes out.new ≡ string_bytes out.old ++ atom_text text.now) }
{
    if is_name(text) || is_alias(text) {
        out.push_str(text)?;
        return Ok(());
    }
    push_quoted(out, text)?;
    Ok(())
}

/// Whether an atom's text is a word that stands for it in a source.
fn is_value_word(text: &str) -> bool
    ensures { result ≡ is_value_word text.now }
{
    text == "nil" || text == "true" || text == "false"
}
