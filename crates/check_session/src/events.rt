//! Worlds in memory, played from the lines of scripts.
use crate::books::read_book;
use script::{ScriptLine, read_script};
use session_ops::Op;
use std::alloc::Global;
use world::{Event, World, run};

/// The event of a line. Two lines that print nothing here stand for what no script can say: `show NAME` has the client
/// post a joining, `pending NAME CELL` has the number leave by a raw call.
fn event_of(alloc: Global, line: &ScriptLine) -> Option<Event> {
    match line {
        ScriptLine::Join { client } => Some(Event::Join { client: *client }),
        ScriptLine::Leave { client } => Some(Event::Leave { client: *client }),
        ScriptLine::Edit {
            client,
            cell,
            delta,
        } => Some(Event::Edit {
            client: *client,
            cell: *cell,
            delta: delta.copy(alloc).ok()?,
        }),
        ScriptLine::Post { client, op } => Some(Event::Post {
            client: *client,
            op: op.copy(alloc).ok()?,
        }),
        ScriptLine::PostReport { client, cell } => Some(Event::Report {
            client: *client,
            cell: *cell,
        }),
        ScriptLine::Send { client, .. } => Some(Event::Take { client: *client }),
        ScriptLine::Recv { client, .. } => Some(Event::Receive { client: *client }),
        ScriptLine::RawJoin { client } => Some(Event::RawJoin { client: *client }),
        ScriptLine::Raw { client, op } => Some(Event::Raw {
            client: *client,
            op: op.copy(alloc).ok()?,
        }),
        ScriptLine::Show { client } => Some(Event::Post {
            client: *client,
            op: Op::Join,
        }),
        ScriptLine::Pending { client, .. } => Some(Event::Raw {
            client: *client,
            op: Op::Leave,
        }),
        _ => None,
    }
}

/// Puts the events of lines at the end.
fn push_events(alloc: Global, events: &mut Vec<Event>, lines: &[ScriptLine]) -> Option<()> {
    for line in lines {
        events.push(event_of(alloc, line)?).ok()?;
    }
    Some(())
}

/// The events of a script's lines.
fn events(alloc: Global, script: &str) -> Option<Vec<Event>> {
    let script = read_script(alloc, script.as_bytes()).ok()?;
    let mut events = Vec::new(alloc);
    push_events(alloc, &mut events, script.content().lines.as_slice())?;
    Some(events)
}

/// The world of a script's events over a notebook whose cell 1 is the text `ab`.
pub fn ran(alloc: Global, script: &str) -> Option<World> {
    let events = events(alloc, script)?;
    let book = read_book(alloc, "## S\nab\n")?;
    run(alloc, book, events).ok()
}
