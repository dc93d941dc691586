//! Scripts that are read, and scripts that are refused.
use crate::answer::{Answer, first_wrong};
use crate::pieces::{joined, numbered, push, push_both};
use crate::tables::is_told;
use delta::Delta;
use notebook::{CellKind, SectionId};
use script::{Count, LineFault, Script, ScriptError, ScriptLine, read_script};
use session_ops::Op;
use std::alloc::{AllocError, Global};
use transcript::push_delta;

/// How many lines a script has.
fn line_count(alloc: Global, bytes: &[u8]) -> Result<usize, ScriptError> {
    match read_script(alloc, bytes) {
        Ok(script) => Ok(script.content().lines.len()),
        Err(fault) => Err(fault),
    }
}

/// How many lines a script has, the line that isn't built as `bad 2`, or another fault.
pub fn outcome(alloc: Global, bytes: &[u8]) -> Option<String> {
    match line_count(alloc, bytes) {
        Ok(count) => numbered(alloc, "", count as u64),
        Err(ScriptError::At { line, kind }) => match kind {
            LineFault::Unbuilt => numbered(alloc, "bad ", line),
            LineFault::NotUtf8 => numbered(alloc, "no text in line ", line),
        },
        Err(ScriptError::TooLarge) => joined(alloc, &["TooLarge"]),
        Err(ScriptError::OutOfMemory) => None,
    }
}

/// The outcome of a script that posts an operation, and asks for it raw.
pub fn operation(alloc: Global, op: &str) -> Option<String> {
    let text = joined(alloc, &["post ann ", op, "\nraw bob ", op, "\n"])?;
    outcome(alloc, text.as_bytes())
}

/// The outcome of a script in which a client joins before these lines.
pub fn edits(alloc: Global, lines: &str) -> Option<String> {
    let text = joined(alloc, &["join ann\n", lines, "\n"])?;
    outcome(alloc, text.as_bytes())
}

/// Puts the number of a section or none behind a text.
fn push_parent(out: &mut String, parent: Option<SectionId>) -> Result<(), AllocError> {
    match parent {
        Some(parent) => push(out, " ", parent),
        None => out.push_str(" none"),
    }
}

fn push_kind(out: &mut String, kind: CellKind) -> Result<(), AllocError> {
    match kind {
        CellKind::Code => out.push_str(" code"),
        CellKind::Markdown => out.push_str(" markdown"),
    }
}

/// An operation as its word and its operands, for those that rows have.
fn push_op(out: &mut String, op: &Op) -> Result<(), AllocError> {
    match op {
        Op::InsertSection { index, name } => {
            push(out, " insert_section ", *index)?;
            push_both(out, " ", name)
        }
        Op::MoveSection { section, index } => {
            push(out, " move_section ", *section)?;
            push(out, " ", *index)
        }
        Op::SetParent { section, parent } => {
            push(out, " set_parent ", *section)?;
            push_parent(out, *parent)
        }
        Op::InsertCell {
            section,
            index,
            kind,
        } => {
            push(out, " insert_cell ", *section)?;
            push(out, " ", *index)?;
            push_kind(out, *kind)
        }
        Op::RestoreCell {
            cell,
            section,
            index,
        } => {
            push(out, " restore_cell ", *cell)?;
            push(out, " ", *section)?;
            push(out, " ", *index)
        }
        Op::MoveCell {
            cell,
            section,
            index,
        } => {
            push(out, " move_cell ", *cell)?;
            push(out, " ", *section)?;
            push(out, " ", *index)
        }
        Op::Delta { cell, base, delta } => {
            push(out, " delta ", *cell)?;
            push(out, " ", *base)?;
            push_edit(out, delta)
        }
        Op::Report { cell, rev } => {
            push(out, " report ", *cell)?;
            push(out, " ", *rev)
        }
        _ => out.push_str(" another operation"),
    }
}

fn push_edit(out: &mut String, delta: &Delta) -> Result<(), AllocError> {
    out.push_str(" ")?;
    push_delta(out, delta)
}

fn push_count(out: &mut String, count: Count) -> Result<(), AllocError> {
    match count {
        Count::AtMost(count) => push(out, " ", count),
        Count::All => out.push_str(" all"),
    }
}

/// A line as its word, the number of its client and its operands, for those that rows have.
fn push_line(out: &mut String, line: &ScriptLine) -> Result<(), AllocError> {
    match line {
        ScriptLine::Join { client } => push(out, "join ", *client as u64),
        ScriptLine::Leave { client } => push(out, "leave ", *client as u64),
        ScriptLine::RawJoin { client } => push(out, "rawjoin ", *client as u64),
        ScriptLine::Show { client } => push(out, "show ", *client as u64),
        ScriptLine::Sync => out.push_str("sync"),
        ScriptLine::Edit {
            client,
            cell,
            delta,
        } => {
            push(out, "edit ", *client as u64)?;
            push(out, " ", *cell)?;
            push_edit(out, delta)
        }
        ScriptLine::Send { client, count } => {
            push(out, "send ", *client as u64)?;
            push_count(out, *count)
        }
        ScriptLine::Recv { client, count } => {
            push(out, "recv ", *client as u64)?;
            push_count(out, *count)
        }
        ScriptLine::PostReport { client, cell } => {
            push(out, "report ", *client as u64)?;
            push(out, " ", *cell)
        }
        ScriptLine::Post { client, op } => {
            push(out, "post ", *client as u64)?;
            push_op(out, op)
        }
        ScriptLine::Raw { client, op } => {
            push(out, "raw ", *client as u64)?;
            push_op(out, op)
        }
        _ => out.push_str("another line"),
    }
}

/// Lines, one behind the other.
fn push_lines(out: &mut String, lines: &[ScriptLine]) -> Result<(), AllocError> {
    for line in lines {
        push_line(out, line)?;
        out.push_str(";")?;
    }
    Ok(())
}

/// The lines of a script.
pub fn lines(alloc: Global, text: &str) -> Option<String> {
    let script = read_script(alloc, text.as_bytes()).ok()?;
    let mut out = String::new(alloc);
    push_lines(&mut out, script.content().lines.as_slice()).ok()?;
    Some(out)
}

/// Puts the number of a client behind a text, or that there is none.
fn push_client(out: &mut String, client: Option<u32>) -> Result<(), AllocError> {
    match client {
        Some(client) => push(out, " ", client as u64),
        None => out.push_str(" -"),
    }
}

/// Names, each with a blank after it, and then the clients of lines.
fn push_names(out: &mut String, script: &Script) -> Result<(), AllocError> {
    let content = script.content();
    for name in content.names.as_slice() {
        push_both(out, "", name)?;
        out.push_str(" ")?;
    }
    for line in content.lines.as_slice() {
        push_client(out, line.client())?;
    }
    Ok(())
}

/// The names of a script, and the client of each line.
pub fn names(alloc: Global, text: &str) -> Option<String> {
    let script = read_script(alloc, text.as_bytes()).ok()?;
    let mut out = String::new(alloc);
    push_names(&mut out, &script).ok()?;
    Some(out)
}

/// Lines that are no text.
pub fn are_no_text(alloc: Global) -> Answer {
    first_wrong(&[
        is_told(
            outcome(alloc, b"join ann\n#\xff\nfly\n"),
            "no text in line 2",
        ),
        is_told(outcome(alloc, b"fly\n#\xff\n"), "bad 1"),
    ])
}

/// Puts lines by which so many clients join behind a text, and then lines that show the first and the last.
fn push_joins(out: &mut String, clients: u64) -> Result<(), AllocError> {
    for client in 0..clients {
        push(out, "join c", client)?;
        out.push_str("\n")?;
    }
    out.push_str("show c0\nshow c63\n")
}

/// The outcome of a script in which so many clients join.
fn joins(alloc: Global, clients: u64) -> Option<String> {
    let mut text = String::new(alloc);
    push_joins(&mut text, clients).ok()?;
    outcome(alloc, text.as_bytes())
}

/// As many names as there may be, and one more.
pub fn have_names(alloc: Global) -> Answer {
    first_wrong(&[
        is_told(joins(alloc, 64), "66"),
        is_told(joins(alloc, 65), "bad 65"),
    ])
}
