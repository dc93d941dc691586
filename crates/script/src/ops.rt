//! Operations as they are written in a script: a word and its operands.
ghost use Rattle.std.specs.Prelude.{◌≡◌, ℕ, codes, IfOk, MatchOption};
ghost use Rattle.script.specs.Words.{first_word, after_word};
ghost use Rattle.script.specs.Number.{IsNumber};
ghost use Rattle.script.specs.Text.{IsText};
ghost use Rattle.script.specs.Ops.{kind_word, IsNumberAnd, IsOperation};
ghost use Rattle.script.specs.Next.{Tells};

use crate::delta_text::delta_of;
use crate::texts::text_of;
use crate::words::{number_of, split_word};
use notebook::CellKind;
use session_ops::Op;
use std::alloc::{AllocError, Global};
use utf16_text::Text;

/// The operation that a word and what follows it write, if they write one.
pub(crate) fn operation_of(alloc: Global, word: &str, rest: &str) -> Result<Option<Op>, AllocError>
    ensures { IfOk result (Tells (IsOperation word.now rest.now)) }
{
    match word {
        "set_name" => set_name(alloc, rest),
        "insert_section" => insert_section(alloc, rest),
        "set_section_name" => set_section_name(alloc, rest),
        "delete_section" => Ok(delete_section(rest)),
        "move_section" => Ok(move_section(rest)),
        "set_parent" => Ok(set_parent(rest)),
        "insert_cell" => Ok(insert_cell(rest)),
        "delete_cell" => Ok(delete_cell(rest)),
        "restore_cell" => Ok(restore_cell(rest)),
        "move_cell" => Ok(move_cell(rest)),
        "delta" => delta(alloc, rest),
        "report" => Ok(report(rest)),
        "queue" => Ok(queue(rest)),
        "cancel" => Ok(cancel(rest)),
        _ => Ok(None),
    }
}

/// `set_name TEXT`.
fn set_name(alloc: Global, rest: &str) -> Result<Option<Op>, AllocError>
    ensures { IfOk result (Tells (IsOperation (codes "set_name") rest.now)) }
{
    let Some(name) = text_of(alloc, rest)? else {
        return Ok(None);
    };
    Ok(Some(Op::SetName { name }))
}

/// `insert_section INDEX TEXT`.
fn insert_section(alloc: Global, rest: &str) -> Result<Option<Op>, AllocError>
    ensures { IfOk result (Tells (IsOperation (codes "insert_section") rest.now)) }
{
    let Some((index, name)) = number_and_text(alloc, rest)? else {
        return Ok(None);
    };
    Ok(Some(Op::InsertSection { index, name }))
}

/// `set_section_name SECTION TEXT`.
fn set_section_name(alloc: Global, rest: &str) -> Result<Option<Op>, AllocError>
    ensures { IfOk result (Tells (IsOperation (codes "set_section_name") rest.now)) }
{
    let Some((section, name)) = number_and_text(alloc, rest)? else {
        return Ok(None);
    };
    Ok(Some(Op::SetSectionName { section, name }))
}

/// `delete_section SECTION`.
fn delete_section(rest: &str) -> Option<Op>
    ensures { Tells (IsOperation (codes "delete_section") rest.now) result }
{
    let section = number_of(rest)?;
    Some(Op::DeleteSection { section })
}

/// `move_section SECTION INDEX`.
fn move_section(rest: &str) -> Option<Op>
    ensures { Tells (IsOperation (codes "move_section") rest.now) result }
{
    let (section, index) = two_numbers(rest)?;
    Some(Op::MoveSection { section, index })
}

/// `set_parent SECTION PARENT` and `set_parent SECTION none`.
fn set_parent(rest: &str) -> Option<Op>
    ensures { Tells (IsOperation (codes "set_parent") rest.now) result }
{
    let (section, rest) = number_and_rest(rest)?;
    if rest == "none" {
        return Some(Op::SetParent {
            section,
            parent: None,
        });
    }
    let parent = number_of(rest)?;
    Some(Op::SetParent {
        section,
        parent: Some(parent),
    })
}

/// `insert_cell SECTION INDEX KIND`.
fn insert_cell(rest: &str) -> Option<Op>
    ensures { Tells (IsOperation (codes "insert_cell") rest.now) result }
{
    let (section, rest) = number_and_rest(rest)?;
    let (index, rest) = number_and_rest(rest)?;
    let kind = kind_of(rest)?;
    Some(Op::InsertCell {
        section,
        index,
        kind,
    })
}

/// `delete_cell CELL`.
fn delete_cell(rest: &str) -> Option<Op>
    ensures { Tells (IsOperation (codes "delete_cell") rest.now) result }
{
    let cell = number_of(rest)?;
    Some(Op::DeleteCell { cell })
}

/// `restore_cell CELL SECTION INDEX`.
fn restore_cell(rest: &str) -> Option<Op>
    ensures { Tells (IsOperation (codes "restore_cell") rest.now) result }
{
    let (cell, section, index) = three_numbers(rest)?;
    Some(Op::RestoreCell {
        cell,
        section,
        index,
    })
}

/// `move_cell CELL SECTION INDEX`.
fn move_cell(rest: &str) -> Option<Op>
    ensures { Tells (IsOperation (codes "move_cell") rest.now) result }
{
    let (cell, section, index) = three_numbers(rest)?;
    Some(Op::MoveCell {
        cell,
        section,
        index,
    })
}

/// `delta CELL BASE DELTA`.
fn delta(alloc: Global, rest: &str) -> Result<Option<Op>, AllocError>
    ensures { IfOk result (Tells (IsOperation (codes "delta") rest.now)) }
{
    let Some((cell, rest)) = number_and_rest(rest) else {
        return Ok(None);
    };
    let Some((base, rest)) = number_and_rest(rest) else {
        return Ok(None);
    };
    let Some(delta) = delta_of(alloc, rest)? else {
        return Ok(None);
    };
    Ok(Some(Op::Delta { cell, base, delta }))
}

/// `report CELL REV`.
fn report(rest: &str) -> Option<Op>
    ensures { Tells (IsOperation (codes "report") rest.now) result }
{
    let (cell, rev) = two_numbers(rest)?;
    Some(Op::Report { cell, rev })
}

/// `queue CELL`.
fn queue(rest: &str) -> Option<Op>
    ensures { Tells (IsOperation (codes "queue") rest.now) result }
{
    let cell = number_of(rest)?;
    Some(Op::Queue { cell })
}

/// `cancel CELL`.
fn cancel(rest: &str) -> Option<Op>
    ensures { Tells (IsOperation (codes "cancel") rest.now) result }
{
    let cell = number_of(rest)?;
    Some(Op::Cancel { cell })
}

/// The kind of a cell that a word names.
fn kind_of(word: &str) -> Option<CellKind>
    ensures { Tells (λ kind. word.now ≡ kind_word kind) result }
{
    match word {
        "code" => Some(CellKind::Code),
        "markdown" => Some(CellKind::Markdown),
        _ => None,
    }
}

/// The number with which a text begins, and what follows it.
fn number_and_rest(text: &str) -> Option<(u64, &str)>
    ensures { MatchOption result ((number : ℕ) → ¬ (IsNumber (first_word text.now) number))
        (λ found. IsNumber (first_word text.now) found.0 × (found.1.now ≡ after_word text.now)) }
{
    let (word, rest) = split_word(text);
    let number = number_of(word)?;
    Some((number, rest))
}

/// The two numbers of which a text consists.
fn two_numbers(text: &str) -> Option<(u64, u64)>
    ensures { Tells (λ found. IsNumberAnd text.now found.0 (λ rest. IsNumber rest found.1)) result }
{
    let (first, rest) = number_and_rest(text)?;
    let second = number_of(rest)?;
    Some((first, second))
}

/// The three numbers of which a text consists.
fn three_numbers(text: &str) -> Option<(u64, u64, u64)>
    ensures { Tells
        (λ found. IsNumberAnd text.now found.0
        (λ rest. IsNumberAnd rest found.1 (λ rest. IsNumber rest found.2))) result }
{
    let (first, rest) = number_and_rest(text)?;
    let (second, third) = two_numbers(rest)?;
    Some((first, second, third))
}

/// The number and the text of which a text consists.
fn number_and_text(alloc: Global, text: &str) -> Result<Option<(u64, Text)>, AllocError>
    ensures { IfOk result
        (Tells (λ found. IsNumberAnd text.now found.0 (λ rest. IsText rest found.1))) }
{
    let Some((number, rest)) = number_and_rest(text) else {
        return Ok(None);
    };
    let Some(written) = text_of(alloc, rest)? else {
        return Ok(None);
    };
    Ok(Some((number, written)))
}
