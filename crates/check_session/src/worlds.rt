//! What events make of a session and its clients.
use crate::answer::Answer;
use crate::events::ran;
use client_sync::Client;
use notebook::{CellId, Notebook};
use session_ops::{Op, Refusal, Reply};
use std::alloc::Global;
use world::World;

/// What stands in a world.
#[derive(Clone, Copy)]
enum Wanted {
    /// The session has so many entries.
    Entries(usize),
    /// The session's text of a cell.
    Served(CellId, &'static str),
    /// The entry at a place refuses.
    Refused(usize, Refusal),
    /// The number holds no client.
    Nobody(u32),
    /// The number's client is so.
    Is(u32, Look),
}

/// What is seen of a client.
#[derive(Clone, Copy)]
enum Look {
    /// It has received so many entries.
    At(u64),
    /// Its text of a cell, and its revision there.
    Shows(CellId, &'static str, u64),
    /// It has no such cell.
    Lacks(CellId),
    /// So many messages stand in the outbox, the first of which is this.
    Posts(u64, Front),
}

/// The message at an outbox's front.
#[derive(Clone, Copy, PartialEq, Eq)]
enum Front {
    /// There is none.
    Nothing,
    /// A delta over the revision.
    Delta(u64),
    /// A report of the revision.
    Report(u64),
    /// A cell is asked for.
    Queue,
    /// Another.
    Other,
}

use Look::{At, Lacks, Posts, Shows};
use Wanted::{Entries, Is, Nobody, Refused, Served};

/// A script of events, and what stands after them.
#[derive(Clone, Copy)]
struct Story {
    script: &'static str,
    wanted: &'static [Wanted],
}

const ONE_EDITS: Story = Story {
    script: "join ann\njoin bob\nedit ann 1 [\"X\"]\nsend ann 1\nrecv ann 1\nrecv ann 1\nsend bob 1\n",
    wanted: &[
        Entries(3),
        Served(1, "Xab"),
        Is(0, At(3)),
        Is(0, Shows(1, "Xab", 1)),
        Is(1, At(2)),
        Is(1, Shows(1, "ab", 0)),
    ],
};

/// All insert at one place before any hears of another; the last one edits on before its edit is back.
const THREE_EDIT: Story = Story {
    script: "join ann\njoin bob\njoin cid\nedit ann 1 [1,\"X\"]\nedit bob 1 [1,\"Y\"]\nedit cid 1 [1,\"Z\"]\nedit cid 1 [3,\"!\"]\nsend bob 1\nsend ann 1\nsend cid 1\nsend cid 1\nrecv cid 1\nrecv cid 1\nrecv cid 1\nsend cid 1\nrecv ann 1\nrecv ann 1\nrecv ann 1\nrecv ann 1\nrecv ann 1\nrecv ann 1\nrecv bob 1\nrecv bob 1\nrecv bob 1\nrecv bob 1\nrecv bob 1\nrecv cid 1\nrecv cid 1\n",
    wanted: &[
        Entries(7),
        Served(1, "aYXZb!"),
        Is(0, At(7)),
        Is(0, Shows(1, "aYXZb!", 4)),
        Is(1, At(7)),
        Is(1, Shows(1, "aYXZb!", 4)),
        Is(2, At(7)),
        Is(2, Shows(1, "aYXZb!", 4)),
    ],
};

/// Ann joins twice, edits past her text's end and posts a joining; Bob never joins.
const NOTHING_HAPPENS: Story = Story {
    script: "join ann\njoin ann\nedit bob 1 [\"X\"]\nedit ann 1 [9,\"X\"]\npost bob queue 1\nshow ann\npost ann queue 1\nsend bob 1\nsend ann 1\nsend ann 1\nrecv ann 1\n",
    wanted: &[
        Entries(3),
        Served(1, "ab"),
        Is(0, At(2)),
        Is(0, Shows(1, "ab", 0)),
        Nobody(1),
    ],
};

/// One deletes the cell that another edits; the edit comes too late.
const A_DELETE_CROSSES: Story = Story {
    script: "join ann\njoin bob\nedit bob 1 [\"Y\"]\npost ann delete_cell 1\nsend ann 1\nsend bob 1\nrecv bob 1\nrecv bob 1\n",
    wanted: &[
        Refused(3, Refusal::NoCell),
        Is(0, At(1)),
        Is(0, Shows(1, "ab", 0)),
        Is(1, At(4)),
        Is(1, Lacks(1)),
        Is(1, Lacks(2)),
    ],
};

/// The same, and the cell is restored under a new number.
const A_CELL_IS_RESTORED: Story = Story {
    script: "join ann\njoin bob\nedit bob 1 [\"Y\"]\npost ann delete_cell 1\nsend ann 1\nsend bob 1\nrecv bob 1\nrecv bob 1\npost bob restore_cell 1 1 0\nsend bob 1\nrecv bob 1\n",
    wanted: &[
        Is(1, At(5)),
        Is(1, Lacks(1)),
        Is(1, Shows(2, "ab", 0)),
        Served(2, "ab"),
    ],
};

/// Who left holds no client.
const ONE_LEAVES: Story = Story {
    script: "join ann\nedit ann 1 [\"X\"]\nleave ann\nsend ann 1\n",
    wanted: &[Nobody(0)],
};

/// What stood in the outbox of one who left is never taken.
const ONE_RETURNS: Story = Story {
    script: "join ann\nedit ann 1 [\"X\"]\nleave ann\nsend ann 1\njoin ann\nsend ann 1\nedit ann 1 [\"Y\"]\nsend ann 1\nrecv ann 1\n",
    wanted: &[
        Entries(4),
        Served(1, "Yab"),
        Is(0, At(4)),
        Is(0, Shows(1, "Yab", 1)),
    ],
};

/// Both report that they have revision 1 and 2. So a raw delta on revision 0 is too old, and the client's own on revision
/// 1 isn't. A raw call of a number with a client doesn't happen.
const REPORTS: Story = Story {
    script: "join ann\nrawjoin eve\nedit ann 1 [\"X\"]\nsend ann 1\nrecv ann 1\nrecv ann 1\npost ann report 1\nsend ann 1\nraw eve delta 1 0 [\"R\"]\nraw eve report 1 2\nraw eve delta 1 0 [\"Q\"]\npending ann 1\nedit ann 1 [\"Z\"]\nsend ann 1\n",
    wanted: &[
        Refused(6, Refusal::TooOld { kept: 1 }),
        Entries(8),
        Served(1, "ZXRab"),
        Is(0, At(3)),
        Is(0, Shows(1, "ZXab", 1)),
        Nobody(1),
    ],
};

/// What is typed while an edit is in flight waits in the buffer.
const TYPED: Story = Story {
    script: "join ann\nedit ann 1 [\"x\"]\nedit ann 1 [1,\"y\"]\n",
    wanted: &[Is(0, Shows(1, "xyab", 0)), Is(0, Posts(1, Front::Delta(0)))],
};

/// Once that is back, the buffer is posted at the new revision.
const POSTED_AT_THE_NEW_REVISION: Story = Story {
    script: "join ann\nedit ann 1 [\"x\"]\nedit ann 1 [1,\"y\"]\nsend ann 1\nrecv ann 1\n",
    wanted: &[Is(0, Shows(1, "xyab", 1)), Is(0, Posts(1, Front::Delta(1)))],
};

/// Messages stand in their order.
const ASKED_FIRST: Story = Story {
    script: "join ann\npost ann queue 1\nedit ann 1 [\"x\"]\n",
    wanted: &[Is(0, Posts(2, Front::Queue))],
};

const THEN_TYPED: Story = Story {
    script: "join ann\npost ann queue 1\nedit ann 1 [\"x\"]\nsend ann 1\n",
    wanted: &[Is(0, Posts(1, Front::Delta(0)))],
};

const ALL_SENT: Story = Story {
    script: "join ann\npost ann queue 1\nedit ann 1 [\"x\"]\nsend ann 1\nsend ann 1\n",
    wanted: &[Is(0, Shows(1, "xab", 0)), Is(0, Posts(0, Front::Nothing))],
};

/// A report tells the revision at the last delivery; of a cell that isn't there none is posted.
const REPORT_AFTER_A_DELTA: Story = Story {
    script: "join ann\njoin bob\nedit ann 1 [\"x\"]\nedit ann 1 [1,\"y\"]\npost ann report 9\nedit bob 1 [\"B\"]\nsend bob 1\nrecv ann 1\nrecv ann 1\npost ann report 1\n",
    wanted: &[Is(0, Posts(2, Front::Delta(0)))],
};

const REPORTED: Story = Story {
    script: "join ann\njoin bob\nedit ann 1 [\"x\"]\nedit ann 1 [1,\"y\"]\npost ann report 9\nedit bob 1 [\"B\"]\nsend bob 1\nrecv ann 1\nrecv ann 1\npost ann report 1\nsend ann 1\n",
    wanted: &[Is(0, Posts(1, Front::Report(1)))],
};

const STORIES: [Story; 15] = [
    ONE_EDITS,
    THREE_EDIT,
    NOTHING_HAPPENS,
    A_DELETE_CROSSES,
    A_CELL_IS_RESTORED,
    ONE_LEAVES,
    ONE_RETURNS,
    REPORTS,
    TYPED,
    POSTED_AT_THE_NEW_REVISION,
    ASKED_FIRST,
    THEN_TYPED,
    ALL_SENT,
    REPORT_AFTER_A_DELTA,
    REPORTED,
];

fn has_source(book: &Notebook, cell: CellId, source: &str) -> bool {
    match book.find(cell) {
        None => false,
        Some(cell) => cell.source.as_str() == source,
    }
}

fn entries(world: &World) -> usize {
    world.session().history().len()
}

fn serves(world: &World, cell: CellId, source: &str) -> bool {
    has_source(world.session().book(), cell, source)
}

/// Why the entry at a place refuses, if it does.
fn refusal(world: &World, at: usize) -> Option<Refusal> {
    match world.session().history().get(at) {
        None => None,
        Some(entry) => match &entry.reply {
            Reply::Refused(why) => Some(*why),
            _ => None,
        },
    }
}

fn client_of(world: &World, number: u32) -> Option<&Client> {
    world.client(number)
}

fn number(client: &Client) -> u32 {
    client.number()
}

fn cursor(client: &Client) -> u64 {
    client.cursor()
}

fn messages(client: &Client) -> u64 {
    client.outbox_len()
}

fn rev(client: &Client, cell: CellId) -> Option<u64> {
    client.rev(cell)
}

fn has_text(client: &Client, cell: CellId, text: &str) -> bool {
    match client.text(cell) {
        None => false,
        Some(own) => own.as_str() == text,
    }
}

fn lacks(client: &Client, cell: CellId) -> bool {
    client.text(cell).is_none() && client.rev(cell).is_none() && client.pending(cell).is_none()
}

fn front_of(client: &Client) -> Front {
    match client.outbox_front() {
        None => Front::Nothing,
        Some(Op::Delta { base, .. }) => Front::Delta(*base),
        Some(Op::Report { rev, .. }) => Front::Report(*rev),
        Some(Op::Queue { .. }) => Front::Queue,
        Some(_) => Front::Other,
    }
}

/// Whether that is seen of the client.
fn is_so(client: &Client, look: Look) -> bool {
    match look {
        At(count) => cursor(client) == count,
        Shows(cell, text, known) => {
            has_text(client, cell, text)
                && rev(client, cell) == Some(known)
                && has_source(client.book(), cell, text)
        }
        Lacks(cell) => lacks(client, cell),
        Posts(count, front) => messages(client) == count && front_of(client) == front,
    }
}

/// Whether that stands in the world.
fn stands(world: &World, wanted: Wanted) -> bool {
    match wanted {
        Entries(count) => entries(world) == count,
        Served(cell, source) => serves(world, cell, source),
        Refused(at, why) => refusal(world, at) == Some(why),
        Nobody(name) => client_of(world, name).is_none(),
        Is(name, look) => match client_of(world, name) {
            None => false,
            Some(client) => number(client) == name && is_so(client, look),
        },
    }
}

/// Whether each stands in the world.
fn all_stand(world: &World, wanted: &[Wanted]) -> bool {
    for wanted in wanted {
        if !stands(world, *wanted) {
            return false;
        }
    }
    true
}

/// Whether a story comes out as told.
fn comes_out(alloc: Global, story: &Story) -> Option<bool> {
    let world = ran(alloc, story.script)?;
    Some(all_stand(&world, story.wanted))
}

/// Plays each story.
pub fn tried(alloc: Global) -> Answer {
    for (at, story) in STORIES.iter().enumerate() {
        match comes_out(alloc, story) {
            Some(true) => {}
            Some(false) => return Answer::Wrong { row: at + 1 },
            None => return Answer::Refused,
        }
    }
    Answer::Right
}
