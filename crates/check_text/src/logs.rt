//! Two clients of one cell, and what is refused (`revisions`).
use crate::parts::{Part, delta_of};
use Ask::{Accept, Join, Leave, Report};
use Part::{Cut, Keep, Put};
use revisions::SourceLog;
use std::alloc::Global;
use utf16_text::Text;

/// What a client asks: of a delta its base, of a report the revision.
enum Ask {
    Accept(u32, u64, &'static [Part]),
    Report(u32, u64),
    Join(u32),
    Leave(u32),
}

/// What is answered.
fn answer(alloc: Global, log: &mut SourceLog, ask: &Ask) -> Option<String> {
    match *ask {
        Accept(client, base, parts) => accepted(alloc, log, client, base, parts),
        Report(client, rev) => format!(in alloc; "{:?}", log.report(client, rev)).ok(),
        Join(client) => format!(in alloc; "{:?}", log.joined(client)).ok(),
        Leave(client) => {
            log.left(client);
            format!(in alloc; "Ok(())").ok()
        }
    }
}

fn accepted(
    alloc: Global,
    log: &mut SourceLog,
    client: u32,
    base: u64,
    parts: &[Part],
) -> Option<String> {
    let delta = delta_of(alloc, parts)?;
    match log.accept(alloc, client, base, &delta) {
        Ok(accepted) => format!(in alloc; "Ok({})", accepted.rev).ok(),
        Err(error) => format!(in alloc; "Err({error:?})").ok(),
    }
}

/// The text, the revision and the least floor.
fn shown(alloc: Global, log: &SourceLog) -> Option<String> {
    format!(in alloc; "'{}' {} {}", log.text().as_str(), log.rev(), log.least()).ok()
}

/// What is asked and answered, and the log then.
type Line = (Ask, &'static str, &'static str);

fn is_as_wanted(alloc: Global, log: &mut SourceLog, line: &Line) -> Option<bool> {
    let answer = answer(alloc, log, &line.0)?;
    Some(answer.as_str() == line.1 && shown(alloc, log)?.as_str() == line.2)
}

fn play(alloc: Global, log: &mut SourceLog, lines: &[Line]) -> Option<usize> {
    for (at, line) in lines.iter().enumerate() {
        if !is_as_wanted(alloc, log, line)? {
            return Some(at + 1);
        }
    }
    Some(0)
}

/// The lines over the log of a source that the clients 7 and 9 have.
fn first_wrong(alloc: Global, source: &str, lines: &[Line]) -> Option<usize> {
    let source = Text::of(alloc, source).ok()?;
    let mut log = SourceLog::new(alloc, source, &[7, 9]).ok()?;
    play(alloc, &mut log, lines)
}

pub fn at_one_place(alloc: Global) -> Option<usize> {
    first_wrong(
        alloc,
        "",
        &[
            (Accept(7, 0, &[Put("a")]), "Ok(1)", "'a' 1 0"),
            (Accept(9, 0, &[Put("b")]), "Ok(2)", "'ab' 2 1"),
            (Accept(7, 1, &[Put("c")]), "Ok(3)", "'cab' 3 2"),
            (Report(9, 3), "Ok(())", "'cab' 3 3"),
            (Join(5), "Ok(())", "'cab' 3 3"),
            (Accept(5, 3, &[Keep(1), Cut(1)]), "Ok(4)", "'cb' 4 3"),
            (Join(9), "Ok(())", "'cb' 4 3"),
            (Leave(8), "Ok(())", "'cb' 4 3"),
            (Join(7), "Ok(())", "'cb' 4 4"),
            (Leave(7), "Ok(())", "'cb' 4 4"),
            (Accept(5, 4, &[Cut(1)]), "Ok(5)", "'b' 5 4"),
            (Leave(9), "Ok(())", "'b' 5 5"),
        ],
    )
}

pub fn refused(alloc: Global) -> Option<usize> {
    first_wrong(
        alloc,
        "\u{1F600}",
        &[
            (Accept(7, 0, &[Put("a")]), "Ok(1)", "'a\u{1F600}' 1 0"),
            (
                Accept(9, 2, &[Keep(1), Put("b")]),
                "Err(TooNew { now: 1 })",
                "'a\u{1F600}' 1 0",
            ),
            (
                Accept(9, 0, &[Keep(1), Put("b")]),
                "Err(SplitsPair { at: 2 })",
                "'a\u{1F600}' 1 0",
            ),
            (
                Accept(9, 0, &[Keep((1 << 62) - 1), Cut(1)]),
                "Err(PastEnd { len: 3 })",
                "'a\u{1F600}' 1 0",
            ),
            (Report(9, 2), "Err(TooNew { now: 1 })", "'a\u{1F600}' 1 0"),
            (Report(9, 1), "Ok(())", "'a\u{1F600}' 1 1"),
            (
                Accept(9, 0, &[Keep(1), Put("b")]),
                "Err(TooOld { kept: 1 })",
                "'a\u{1F600}' 1 1",
            ),
        ],
    )
}
