//! The printed texts of replies, notebooks and deltas.
use crate::answer::{Answer, first_wrong};
use crate::changes::{branch, cell, delete, rename, section, source};
use crate::tables::{Call, is_told, tried};
use delta::Delta;
use notebook::{CellId, CellKind, Notebook};
use session_ops::{Refusal, Reply};
use std::alloc::{AllocError, Global};
use transcript::{
    book_text, push_book, push_number, push_refusal, push_reply, push_text, reply_text, rev_in,
};

/// What is printed of a reply.
fn reply(alloc: Global, reply: &Reply) -> Option<String> {
    reply_text(alloc, reply).ok()
}

/// Whether this is what is printed of the refusal.
fn is_refused_as(alloc: Global, refusal: Refusal, wanted: &str) -> Option<bool> {
    is_told(reply(alloc, &Reply::Refused(refusal)), wanted)
}

const REFUSALS: &[(Refusal, &str)] = &[
    (Refusal::NotJoined, "refused NotJoined"),
    (Refusal::AlreadyJoined, "refused AlreadyJoined"),
    (Refusal::NoCell, "refused NoCell"),
    (Refusal::NoSection, "refused NoSection"),
    (Refusal::NotCode, "refused NotCode"),
    (Refusal::BadIndex { len: 3 }, "refused BadIndex 3"),
    (Refusal::BadParent, "refused BadParent"),
    (Refusal::HasBranches, "refused HasBranches"),
    (Refusal::TooManyCells, "refused TooManyCells"),
    (Refusal::TooManySections, "refused TooManySections"),
    (Refusal::TooNew { now: 0 }, "refused TooNew 0"),
    (Refusal::TooOld { kept: 2 }, "refused TooOld 2"),
    (Refusal::PastEnd { len: 4 }, "refused PastEnd 4"),
    (Refusal::SplitsPair { at: 2 }, "refused SplitsPair 2"),
    (
        Refusal::AncestorFailed { cell: 9 },
        "refused AncestorFailed 9",
    ),
    (Refusal::NotQueued, "refused NotQueued"),
];

/// Each refusal.
pub fn refusals_are_printed(alloc: Global) -> Answer {
    for (at, (refusal, wanted)) in REFUSALS.iter().enumerate() {
        match is_refused_as(alloc, *refusal, wanted) {
            Some(true) => {}
            Some(false) => return Answer::Wrong { row: at + 1 },
            None => return Answer::Refused,
        }
    }
    Answer::Right
}

/// Whether this is what is printed of the reply.
fn is_replied_as(alloc: Global, answer: Reply, wanted: &str) -> Option<bool> {
    is_told(reply(alloc, &answer), wanted)
}

/// A reply, a refusal and a number behind a text.
fn push_three(out: &mut String) -> Result<(), AllocError> {
    push_reply(out, &Reply::Accepted)?;
    push_refusal(out, &Refusal::NoCell)?;
    push_number(out, 907)
}

fn three(alloc: Global) -> Option<String> {
    let mut out = String::from_str(alloc, "ann sent: ").ok()?;
    push_three(&mut out).ok()?;
    Some(out)
}

/// What is printed of a delta that was applied.
fn applied(alloc: Global, rev: u64) -> Option<String> {
    let delta = Delta::from_compact(Vec::new(alloc)).ok()?;
    reply(alloc, &Reply::Applied { rev, delta })
}

/// Replies behind a text, and replies with numbers.
pub fn replies_are_printed(alloc: Global) -> Answer {
    first_wrong(&[
        is_told(three(alloc), "ann sent: okNoCell907"),
        is_told(
            applied(alloc, u64::MAX),
            "accepted rev 18446744073709551615",
        ),
        is_replied_as(alloc, Reply::NewCell { cell: 12 }, "cell 12"),
        is_replied_as(alloc, Reply::NewSection { section: 3 }, "section 3"),
        is_replied_as(alloc, Reply::Started { eval: 3, cell: 2 }, "eval 3 cell 2"),
        is_replied_as(alloc, Reply::Stored { eval: 0 }, "stored 0"),
        is_replied_as(alloc, Reply::Late { eval: 7 }, "late 7"),
    ])
}

/// A text in quotes, behind another.
pub fn quoted(alloc: Global, text: &str) -> Option<String> {
    let mut out = String::from_str(alloc, "x ").ok()?;
    push_text(&mut out, text).ok()?;
    Some(out)
}

const TEXTS: &[(&str, &str)] = &[
    ("", "x \"\""),
    ("a😀Xb", "x \"a😀Xb\""),
    ("say \"hi\"\\ /", "x \"say \\\"hi\\\"\\\\ /\""),
    ("a\nb\r\tc", "x \"a\\nb\\r\\tc\""),
    (
        "\u{0}\u{8}\u{b}\u{c}\u{1f}\u{7f}é",
        "x \"\\u0000\\b\\u000b\\f\\u001f\u{7f}é\"",
    ),
];

/// Texts in quotes.
pub fn texts_are_printed(alloc: Global) -> Answer {
    tried(alloc, Call::Quoted, TEXTS)
}

const DELTAS: &[(&str, &str)] = &[
    ("edit ann 1 [ ]", "edit 0 1 [];"),
    (
        "edit ann 1 [ 907, \"a\\ud83d\\ude00\\u0022\\u000a\", -1 ]",
        "edit 0 1 [907,\"a😀\\\"\\n\",-1];",
    ),
];

/// Deltas, behind a text.
pub fn deltas_are_printed(alloc: Global) -> Answer {
    tried(alloc, Call::ScriptLines, DELTAS)
}

/// The sections 4 and 7 of seven.
fn have_sections(book: &mut Notebook, alloc: Global) -> bool {
    for index in 0..7 {
        let name = if index == 3 { "Main" } else { "Branch" };
        if !section(book, alloc, index, name) {
            return false;
        }
    }
    delete(book, alloc, 1)
        && delete(book, alloc, 2)
        && delete(book, alloc, 3)
        && delete(book, alloc, 5)
        && delete(book, alloc, 6)
}

/// A book with a section of cells 3 and 1, and a branch of it with cell 2.
fn is_filled(book: &mut Notebook, alloc: Global) -> bool {
    have_sections(book, alloc)
        && branch(book, alloc, 7, 4)
        && cell(book, alloc, 4, CellKind::Code, 1, "x = \"1\"\n")
        && cell(book, alloc, 7, CellKind::Code, 2, "")
        && cell(book, alloc, 4, CellKind::Markdown, 3, "a😀Xb")
}

const PLAIN: &str = "notebook \"Plain\"
section 4 \"Main\"
cell 3 markdown rev 5 \"a😀Xb\"
cell 1 code rev 1 \"x = \\\"1\\\"\\n\"
section 7 \"Branch\" from 4
cell 2 code rev 9 \"\"
";

const SET_UP: &str = "> notebook \"Set \\\"up\\\"\"
cell 0 setup rev 2 \"y\\n\"
section 4 \"Main\"
cell 3 markdown rev 5 \"a😀Xb\"
cell 1 code rev 0 \"x = \\\"1\\\"\\n\"
section 7 \"Branch\" from 4
cell 2 code rev 9 \"\"
";

/// The lines of a book.
fn shown(alloc: Global, book: &Notebook, revs: &[(CellId, u64)]) -> Option<String> {
    book_text(alloc, book, revs).ok()
}

/// The lines of a book behind a text.
fn pushed(alloc: Global, book: &Notebook, revs: &[(CellId, u64)]) -> Option<String> {
    let mut out = String::from_str(alloc, "> ").ok()?;
    push_book(&mut out, book, revs).ok()?;
    Some(out)
}

/// A book without a setup cell, with revisions in the order of its cells; and with one, with revisions out of order.
fn tried_on(book: &mut Notebook, alloc: Global) -> Answer {
    if !(is_filled(book, alloc) && rename(book, alloc, "Plain")) {
        return Answer::Refused;
    }
    let plain = shown(alloc, book, &[(0, 2), (3, 5), (1, 1), (2, 9), (3, 6)]);
    let plain = is_told(plain, PLAIN);
    if !(rename(book, alloc, "Set \"up\"") && source(book, alloc, 0, "y\n")) {
        return Answer::Refused;
    }
    let set_up = pushed(alloc, book, &[(2, 9), (8, 8), (0, 2), (3, 5), (3, 6)]);
    first_wrong(&[plain, is_told(set_up, SET_UP)])
}

/// Notebooks.
pub fn books_are_printed(alloc: Global) -> Answer {
    match Notebook::untitled(alloc) {
        Ok(mut book) => tried_on(&mut book, alloc),
        Err(_) => Answer::Refused,
    }
}

/// Revisions in a list that is out of order.
pub fn revisions_are_found() -> Answer {
    let revs = [(2, 9), (3, 5), (3, 6)];
    first_wrong(&[Some(rev_in(&revs, 3) == 5), Some(rev_in(&revs, 1) == 0)])
}
