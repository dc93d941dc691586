//! Texts and the kinds of their lines.
use crate::answer::Answer;
use crate::pieces::{numbered, push, push_all};
use crate::tables::{Call, tried, tried_often};
use livemd_lines::{Fence, Line, LineKind, Mark, Metadata, lines};
use std::alloc::{AllocError, Global};

/// What a metadata line means, as one word, and with the index where it is one of a section.
fn push_metadata(out: &mut String, metadata: Metadata) -> Result<(), AllocError> {
    match metadata {
        Metadata::BranchParentIndex(index) => push(out, "branch ", index),
        Metadata::BreakMarkdown => out.push_str("break"),
        Metadata::ForceMarkdown => out.push_str("force"),
        Metadata::Output => out.push_str("output"),
        Metadata::Stamp => out.push_str("stamp"),
        Metadata::Unknown => out.push_str("unknown"),
    }
}

/// A fence as its mark and how often that stands there.
fn push_fence(out: &mut String, fence: Fence) -> Result<(), AllocError> {
    match fence.mark {
        Mark::Backtick => push(out, "`", fence.count as u64),
        Mark::Tilde => push(out, "~", fence.count as u64),
    }
}

/// A kind of line, with what stands in it between quotes.
fn push_kind(out: &mut String, kind: LineKind) -> Result<(), AllocError> {
    match kind {
        LineKind::Opens { fence, info } => {
            push_fence(out, fence)?;
            push_all(out, &[" '", info, "'"])
        }
        LineKind::Inside => out.push_str("inside"),
        LineKind::Closes => out.push_str("closes"),
        LineKind::Metadata(metadata) => push_metadata(out, metadata),
        LineKind::Heading1(name) => push_all(out, &["# '", name, "'"]),
        LineKind::Heading2(name) => push_all(out, &["## '", name, "'"]),
        LineKind::Text => out.push_str("text"),
    }
}

/// The kinds of lines, one behind the other.
fn push_kinds(out: &mut String, lines: &[Line]) -> Result<(), AllocError> {
    for line in lines {
        push_kind(out, line.kind)?;
        out.push_str(";")?;
    }
    Ok(())
}

/// The kinds of a text's lines, one behind the other.
pub fn kinds(alloc: Global, text: &str) -> Option<String> {
    let lines = lines(alloc, text).ok()?;
    let mut out = String::new(alloc);
    push_kinds(&mut out, &lines).ok()?;
    Some(out)
}

/// How many lines a text has.
pub fn line_count(alloc: Global, text: &str) -> Option<String> {
    let lines = lines(alloc, text).ok()?;
    numbered(alloc, "", lines.len() as u64)
}

const KINDS: &[(&str, &str)] = &[
    ("", ""),
    ("\n\r", "text;text;"),
    ("#  é \r\n## \n #", "# 'é';## '';text;"),
    (
        "~~~\t é \t\n# T\n~~~~ \n```a`",
        "~3 'é';inside;closes;text;",
    ),
    ("````\n```\n<!-- livebook:{} -->", "`4 '';inside;inside;"),
    (
        "<!-- livebook:{\"branch_parent_index\":7} -->\n<!-- livebook:{\"branch_parent_index\":7.0} --> \t",
        "branch 7;unknown;",
    ),
    (
        "<!-- livebook:{\"break_markdown\":true} -->\n<!-- livebook:{ \"force_markdown\" : true }  -->",
        "break;force;",
    ),
    (
        "<!-- livebook:{\"output\":true} -->\n<!-- livebook:{\"output\":true,\"x\":1} -->\n<!-- livebook:{\"output\":false} -->",
        "output;unknown;unknown;",
    ),
    (
        "<!-- livebook:{\"offset\":3,\"stamp\":\"a\"} -->\n<!-- livebook:[] -->\n<!-- livebook:{} -->x",
        "stamp;text;text;",
    ),
];

/// Lines of each kind.
pub fn have_kinds(alloc: Global) -> Answer {
    tried(alloc, Call::Kinds, KINDS)
}

const FENCED: &[(&str, &str)] = &[
    ("```\n## S\n```\n## S", "`3 '';inside;closes;## 'S';"),
    ("```\n~~~\n# T", "`3 '';inside;inside;"),
    ("~~~~\n~~~\n~~~~~\n# T", "~4 '';inside;closes;# 'T';"),
];

/// Lines in a fence that stays open until it is closed.
pub fn are_fenced(alloc: Global) -> Answer {
    tried(alloc, Call::Kinds, FENCED)
}

const LARGE: &[(Call, &str, u64, &str)] = &[
    (Call::LineCount, "`", 8_388_608, "1"),
    (Call::LineCount, "\n", 1_000_000, "1000000"),
];

/// The lines of the largest texts.
pub fn are_counted(alloc: Global) -> Answer {
    tried_often(alloc, LARGE)
}
