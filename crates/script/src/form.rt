//! Texts as lines of a script.
ghost use Rattle.std.specs.Prelude.{◌≡◌, ◌≢◌, ◌≤◌, [], length, codes, IfOk, MatchOption};
ghost use Rattle.script.specs.Line.{IsCount};
ghost use Rattle.script.specs.Clients.{AreNames, Differ};
ghost use Rattle.script.specs.Next.{Tells, IsNextLine, IsPlainLine, IsClientLine};

use crate::delta_text::delta_of;
use crate::line::{Count, ScriptLine};
use crate::names::number_in;
use crate::ops::operation_of;
use crate::words::{number_of, split_word};
use std::alloc::{AllocError, Global};
use utf16_text::Text;

/// The line that a word and what follows it are after lines with these names, if they are one.
pub(crate) fn next_line(
    alloc: Global,
    names: &[Text],
    word: &str,
    rest: &str,
) -> Result<Option<ScriptLine>, AllocError>
    requires forms { AreNames names.now }
    requires differ { Differ names.now }
    requires few { length names.now ≤ 64 }
    ensures { IfOk result (Tells (IsNextLine names.now word.now rest.now)) }
{
    if let Some(line) = plain_line(word, rest) {
        return Ok(Some(line));
    }
    let (name, rest) = split_word(rest);
    let Some(client) = number_in(names, name) else {
        return Ok(None);
    };
    client_line(alloc, word, client, rest)
}

/// The line without a client that begins with a word and ends with the rest.
fn plain_line(word: &str, rest: &str) -> Option<ScriptLine>
    ensures { Tells (IsPlainLine word.now rest.now) result }
{
    if !rest.is_empty() {
        return None;
    }
    if word == "sync" {
        return Some(ScriptLine::Sync);
    }
    if word == "settle" {
        return Some(ScriptLine::Settle);
    }
    if word == "cells" {
        return Some(ScriptLine::Cells);
    }
    if word == "book" {
        return Some(ScriptLine::Book);
    }
    None
}

/// The line of a client that begins with a word and ends with the rest.
fn client_line(
    alloc: Global,
    word: &str,
    client: u32,
    rest: &str,
) -> Result<Option<ScriptLine>, AllocError>
    ensures { IfOk result (Tells (IsClientLine word.now client rest.now)) }
{
    match word {
        "join" => Ok(alone(ScriptLine::Join { client }, rest)),
        "leave" => Ok(alone(ScriptLine::Leave { client }, rest)),
        "edit" => edit_line(alloc, client, rest),
        "post" => post_line(alloc, client, rest),
        "send" => Ok(send_line(client, rest)),
        "recv" => Ok(recv_line(client, rest)),
        "show" => Ok(alone(ScriptLine::Show { client }, rest)),
        "pending" => Ok(pending_line(client, rest)),
        "rawjoin" => Ok(alone(ScriptLine::RawJoin { client }, rest)),
        "raw" => raw_line(alloc, client, rest),
        _ => Ok(None),
    }
}

/// The line, where nothing follows its client's name.
fn alone(line: ScriptLine, rest: &str) -> Option<ScriptLine>
    ensures { MatchOption result (rest.now ≢ []) (λ same. (same ≡ line) × (rest.now ≡ [])) }
{
    if rest.is_empty() { Some(line) } else { None }
}

/// The line of a client that begins with `send` and ends with the rest: a count.
fn send_line(client: u32, rest: &str) -> Option<ScriptLine>
    ensures { Tells (IsClientLine (codes "send") client rest.now) result }
{
    let count = count_of(rest)?;
    Some(ScriptLine::Send { client, count })
}

/// The line of a client that begins with `recv` and ends with the rest: a count.
fn recv_line(client: u32, rest: &str) -> Option<ScriptLine>
    ensures { Tells (IsClientLine (codes "recv") client rest.now) result }
{
    let count = count_of(rest)?;
    Some(ScriptLine::Recv { client, count })
}

/// The line of a client that begins with `pending` and ends with the rest: a cell's number.
fn pending_line(client: u32, rest: &str) -> Option<ScriptLine>
    ensures { Tells (IsClientLine (codes "pending") client rest.now) result }
{
    let cell = number_of(rest)?;
    Some(ScriptLine::Pending { client, cell })
}

/// The line of a client that begins with `edit` and ends with the rest: a cell's number and a delta.
fn edit_line(alloc: Global, client: u32, rest: &str) -> Result<Option<ScriptLine>, AllocError>
    ensures { IfOk result (Tells (IsClientLine (codes "edit") client rest.now)) }
{
    let (number, rest) = split_word(rest);
    let Some(cell) = number_of(number) else {
        return Ok(None);
    };
    let Some(delta) = delta_of(alloc, rest)? else {
        return Ok(None);
    };
    Ok(Some(ScriptLine::Edit {
        client,
        cell,
        delta,
    }))
}

/// The line of a client that begins with `post` and ends with the rest: an operation that may be
/// posted, or a report of a cell.
fn post_line(alloc: Global, client: u32, rest: &str) -> Result<Option<ScriptLine>, AllocError>
    ensures { IfOk result (Tells (IsClientLine (codes "post") client rest.now)) }
{
    let (word, operands) = split_word(rest);
    if word == "report" {
        let Some(cell) = number_of(operands) else {
            return Ok(None);
        };
        return Ok(Some(ScriptLine::PostReport { client, cell }));
    }
    let Some(op) = operation_of(alloc, word, operands)? else {
        return Ok(None);
    };
    if !op.is_postable() {
        return Ok(None);
    }
    Ok(Some(ScriptLine::Post { client, op }))
}

/// The line of a client that begins with `raw` and ends with the rest: any operation.
fn raw_line(alloc: Global, client: u32, rest: &str) -> Result<Option<ScriptLine>, AllocError>
    ensures { IfOk result (Tells (IsClientLine (codes "raw") client rest.now)) }
{
    let (word, operands) = split_word(rest);
    let Some(op) = operation_of(alloc, word, operands)? else {
        return Ok(None);
    };
    Ok(Some(ScriptLine::Raw { client, op }))
}

/// The count that a text writes: a number or `all`.
fn count_of(text: &str) -> Option<Count>
    ensures { Tells (IsCount text.now) result }
{
    if text == "all" {
        return Some(Count::All);
    }
    let most = number_of(text)?;
    Some(Count::AtMost(most))
}
