//! Books that are read, and books that are refused.
use crate::answer::{Answer, first_wrong};
use crate::pieces::{joined, numbered, push, push_both, push_many};
use crate::tables::{Call, is_told, tried, tried_often};
use livemd_read::{BookError, Notice, NoticeKind, Read, read};
use notebook::{Cell, Saved, Section, SectionId};
use plain_list::Items;
use std::alloc::{AllocError, Global};
use utf16_text::Text;

/// Puts so many `+` behind a text as there are kept lines.
fn push_kept(out: &mut String, kept: &Items<Text>) -> Result<(), AllocError> {
    push_many(out, "+", kept.len() as u64)
}

/// An output as `{info text}`.
fn push_saved(out: &mut String, saved: &Saved) -> Result<(), AllocError> {
    push_both(out, "{", &saved.info)?;
    push_both(out, " ", &saved.text)?;
    out.push_str("}")
}

/// A cell as `[number source]` or `(number source)` for code, behind its kept lines, with `{info text}`
/// for each output.
fn push_cell(out: &mut String, cell: &Cell) -> Result<(), AllocError> {
    let code = cell.is_code();
    push_kept(out, &cell.before)?;
    push(out, if code { "(" } else { "[" }, cell.id)?;
    push_both(out, " ", &cell.source)?;
    out.push_str(if code { ")" } else { "]" })?;
    for saved in cell.saved.as_slice() {
        push_saved(out, saved)?;
    }
    Ok(())
}

fn push_parent(out: &mut String, parent: Option<SectionId>) -> Result<(), AllocError> {
    match parent {
        Some(parent) => push(out, "<", parent),
        None => Ok(()),
    }
}

/// A section as `number name:`, with `<parent` for a branch, and its cells.
fn push_section(out: &mut String, section: &Section) -> Result<(), AllocError> {
    push_kept(out, &section.before)?;
    push(out, "", section.id)?;
    push_both(out, " ", &section.name)?;
    push_parent(out, section.parent)?;
    out.push_str(":")?;
    for cell in section.cells.as_slice() {
        push_cell(out, cell)?;
    }
    out.push_str("|")
}

/// A notice as `line!` where it is misplaced, and `line?` otherwise.
fn push_notice(out: &mut String, notice: &Notice) -> Result<(), AllocError> {
    push(out, "", notice.line)?;
    out.push_str(match notice.kind {
        NoticeKind::Misplaced => "!",
        NoticeKind::BadBranch => "?",
    })
}

/// A book as its name, the setup cell, its sections, what stands after them, and its notices.
fn push_read(out: &mut String, read: &Read) -> Result<(), AllocError> {
    let parts = read.notebook.parts();
    push_kept(out, &parts.before)?;
    push_both(out, "", &parts.name)?;
    push_cell(out, &parts.setup)?;
    for section in parts.sections.as_slice() {
        push_section(out, section)?;
    }
    push_kept(out, &parts.after)?;
    for notice in read.notices.as_slice() {
        push_notice(out, notice)?;
    }
    Ok(())
}

fn opened(alloc: Global, book: &str) -> Option<Read> {
    read(alloc, book.as_bytes()).ok()
}

/// The book that is read, as it is shown.
pub fn book(alloc: Global, book: &str) -> Option<String> {
    let read = opened(alloc, book)?;
    let mut out = String::new(alloc);
    push_read(&mut out, &read).ok()?;
    Some(out)
}

/// Why the book is refused; none where it is read.
fn refusal(alloc: Global, book: &[u8]) -> Option<BookError> {
    match read(alloc, book) {
        Ok(_) => None,
        Err(fault) => Some(fault),
    }
}

/// Why the book is refused, or that it is read.
pub fn fault(alloc: Global, book: &[u8]) -> Option<String> {
    match refusal(alloc, book) {
        None => joined(alloc, &["read"]),
        Some(BookError::TooLarge) => joined(alloc, &["TooLarge"]),
        Some(BookError::NotUtf8 { at }) => numbered(alloc, "NotUtf8 ", at),
        Some(BookError::TooManySections) => joined(alloc, &["TooManySections"]),
        Some(BookError::TooManyCells) => joined(alloc, &["TooManyCells"]),
        Some(BookError::OutOfMemory) => None,
    }
}

/// How many notices a book has.
pub fn notice_count(alloc: Global, book: &str) -> Option<String> {
    let read = opened(alloc, book)?;
    numbered(alloc, "", read.notices.len() as u64)
}

const BOOKS: &[(&str, &str)] = &[
    ("", "Untitled notebook[0 ]"),
    ("# T\n\n## S\n\nab\n", "T[0 ]1 S:[1 ab]|"),
    (
        "\n#  T \r\n\n a\n\t\n\nb\n \n## S\n",
        "T[0 ]1 Section:[1  a\n\t\n\nb]|2 S:|",
    ),
    (
        "# T\n```elixir\nx\n```\na\n~~~elixir\n## A\n~~~\n````elixir\n\n## A\n```\n````\nb",
        "T[0 x]1 Section:[1 a\n~~~elixir\n## A\n~~~](2 \n## A\n```)[3 b]|",
    ),
    (
        "## A\n<!-- livebook:{\"force_markdown\":true} -->\n\n```elixir\nx\n```\n<!-- livebook:{\"break_markdown\":true} -->\ny",
        "Untitled notebook[0 ]1 A:[1 ```elixir\nx\n```][2 y]|",
    ),
    (
        "## A\n```elixir\n```\n\n<!-- livebook:{\"output\":true} -->\n\n```text\nz\n```\nw\n",
        "Untitled notebook[0 ]1 A:(1 ){text z}[2 w]|",
    ),
    (
        "## A\n<!-- livebook:{\"branch_parent_index\":0} -->\n<!-- livebook:{\"x\":1} -->\n## B\n<!-- livebook:{\"branch_parent_index\":1} -->\n## C\n<!-- livebook:{\"stamp\":1} -->\n",
        "Untitled notebook[0 ]1 A:|+2 B<1:|3 C:|5?",
    ),
    (
        "<!-- livebook:{\"x\":1} -->\n# T\n<!-- livebook:{\"y\":1} -->\n```elixir\n```\n<!-- livebook:{\"output\":true} -->\na\n<!-- livebook:{\"stamp\":1} -->\n<!-- livebook:{} -->",
        "+T+[0 ]1 Section:[1 a]|++6!",
    ),
];

/// Books as they are read.
pub fn are_read(alloc: Global) -> Answer {
    tried(alloc, Call::Book, BOOKS)
}

/// Bytes that are no text.
pub fn are_no_text(alloc: Global) -> Answer {
    first_wrong(&[
        is_told(fault(alloc, b"\xff"), "NotUtf8 0"),
        is_told(fault(alloc, b"a\xc3"), "NotUtf8 1"),
    ])
}

/// Books of many bytes, sections, cells, code cells (the first is the setup cell) and lines that look ahead.
const LARGE: &[(Call, &str, u64, &str)] = &[
    (Call::BookFault, "a", 8_388_608, "read"),
    (Call::BookFault, "a", 8_388_609, "TooLarge"),
    (Call::BookFault, "## S\n", 1_000, "read"),
    (Call::BookFault, "## S\n", 1_001, "TooManySections"),
    (
        Call::BookFault,
        "a\n<!-- livebook:{\"break_markdown\":true} -->\n",
        4_000,
        "read",
    ),
    (
        Call::BookFault,
        "a\n<!-- livebook:{\"break_markdown\":true} -->\n",
        4_001,
        "TooManyCells",
    ),
    (Call::BookFault, "```elixir\n```\n", 1_001, "read"),
    (Call::BookFault, "```elixir\n```\n", 1_002, "TooManyCells"),
    (
        Call::NoticeCount,
        "<!-- livebook:{\"branch_parent_index\":0} -->\n",
        10_000,
        "10000",
    ),
    (
        Call::NoticeCount,
        "<!-- livebook:{\"stamp\":0} -->\n",
        10_000,
        "0",
    ),
    (
        Call::NoticeCount,
        "<!-- livebook:{\"output\":true} -->\n",
        10_000,
        "10000",
    ),
];

pub fn have_limits(alloc: Global) -> Answer {
    tried_often(alloc, LARGE)
}
