//! What metadata lines mean.
ghost use Rattle.std.specs.Prelude.{◌≡◌, ◌==◌, codes, option_map, IfOk};
ghost use Rattle.serde_json.specs.Find.{get_member};
ghost use Rattle.serde_json.specs.View.{view, members_view};
ghost use Rattle.livemd_lines.specs.Meanings.{behind, before, between, member_count, only, parent_index, is_set, other_meaning, set_meaning, meaning, meaning_in, metadata_of};

use blanks::without_end_blanks;
use serde_json::{Map, Value};
use std::alloc::{AllocError, Global};

/// What a metadata line means, by its object.
#[derive(Clone, Copy, Debug, PartialEq)]
pub enum Metadata {
    /// The next section branches from the section with this index, counted from 0:
    /// `{"branch_parent_index":0}`.
    BranchParentIndex(u64),
    /// It ends a Markdown cell: `{"break_markdown":true}`.
    BreakMarkdown,
    /// The next line is text, whatever it looks like: `{"force_markdown":true}`.
    ForceMarkdown,
    /// The fence after it is a saved output: `{"output":true}`.
    Output,
    /// Another object with a member `stamp`: a stamp where only blank lines follow it, and
    /// unknown elsewhere.
    Stamp,
    /// Every other object.
    Unknown,
}

/// What stands behind the front of a text, if it has that.
fn behind<'a>(front: &str, text: &'a str) -> Option<&'a str>
    ensures { option_map (λ t. t.now) result ≡ behind front.now text.now }
{
    text.strip_prefix(front)
}

/// What stands before the end of a text, if it has that.
fn before<'a>(back: &str, text: &'a str) -> Option<&'a str>
    ensures { option_map (λ t. t.now) result ≡ before back.now text.now }
{
    text.strip_suffix(back)
}

/// What stands between the marks of a metadata line, if the line has them.
fn between(line: &str) -> Option<&str>
    ensures { option_map (λ t. t.now) result ≡ between line.now }
{
    before(" -->", behind("<!-- livebook:", without_end_blanks(line))?)
}

/// The value of the member of this name.
fn member<'a>(members: &'a Map<String, Value>, name: &str) -> Option<&'a Value>
    ensures { option_map (λ v. view v.now) result ≡ get_member name.now
        (members_view members.now.entries) }
{
    members.get(name)
}

/// Whether an object has exactly one member.
fn has_one(members: &Map<String, Value>) -> bool
    ensures { result ≡ (member_count (members_view members.now.entries) == 1) }
{
    members.len() == 1
}

/// The value of the member of this name, where the object has no other member.
fn only<'a>(members: &'a Map<String, Value>, name: &str) -> Option<&'a Value>
    ensures { option_map (λ v. view v.now) result ≡ only name.now
        (members_view members.now.entries) }
{
    if has_one(members) {
        member(members, name)
    } else {
        None
    }
}

/// The index of the section from which an object says that the next one branches.
fn parent_index(members: &Map<String, Value>) -> Option<u64>
    ensures { result ≡ parent_index (members_view members.now.entries) }
{
    only(members, "branch_parent_index").and_then(Value::as_u64)
}

/// Whether the only member has this name and is true.
fn is_set(members: &Map<String, Value>, name: &str) -> bool
    ensures { result ≡ is_set name.now (members_view members.now.entries) }
{
    only(members, name)
        .and_then(Value::as_bool)
        .unwrap_or(false)
}

/// What an object means that is none of the four that are known.
fn other_meaning(members: &Map<String, Value>) -> Metadata
    ensures { result ≡ other_meaning (members_view members.now.entries) }
{
    if member(members, "stamp").is_some() {
        Metadata::Stamp
    } else {
        Metadata::Unknown
    }
}

/// What an object means that has no index of a section.
fn set_meaning(members: &Map<String, Value>) -> Metadata
    ensures { result ≡ set_meaning (members_view members.now.entries) }
{
    if is_set(members, "break_markdown") {
        Metadata::BreakMarkdown
    } else if is_set(members, "force_markdown") {
        Metadata::ForceMarkdown
    } else if is_set(members, "output") {
        Metadata::Output
    } else {
        other_meaning(members)
    }
}

/// What an object means.
fn meaning(members: &Map<String, Value>) -> Metadata
    ensures { result ≡ meaning (members_view members.now.entries) }
{
    match parent_index(members) {
        Some(index) => Metadata::BranchParentIndex(index),
        None => set_meaning(members),
    }
}

/// What a text means that is read as a JSON object; `None` where it is none.
fn meaning_in(alloc: Global, text: &str) -> Result<Option<Metadata>, AllocError>
    ensures { IfOk result (λ o. o ≡ meaning_in text.now) }
{
    let value = match Value::from_str(alloc, text) {
        Ok(value) => value,
        Err(error) if error.is_memory() => return Err(AllocError),
        Err(_) => return Ok(None),
    };
    Ok(value.as_object().map(meaning))
}

/// What a line means; `None` where it is no metadata line.
pub(crate) fn metadata_of(alloc: Global, line: &str) -> Result<Option<Metadata>, AllocError>
    ensures { IfOk result (λ o. o ≡ metadata_of line.now) }
{
    match between(line) {
        Some(text) => meaning_in(alloc, text),
        None => Ok(None),
    }
}
