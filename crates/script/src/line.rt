//! One line of a script.
ghost use Rattle.std.specs.Prelude.{◌≡◌};
ghost use Rattle.script.specs.Line.{client_of};

use delta::Delta;
use session_ops::Op;

/// What one line of a script does. A client is named by a number: the place of its name, from 0,
/// in the order in which the names first stand in the script.
#[derive(Debug, Drop)]
pub enum ScriptLine {
    /// `join NAME`: the client joins the session.
    Join {
        client: u32,
    },
    /// `leave NAME`: the client leaves the session, and is gone with its outbox.
    Leave {
        client: u32,
    },
    /// `edit NAME CELL DELTA`: the client edits a cell of its own notebook.
    Edit {
        client: u32,
        cell: u64,
        delta: Delta,
    },
    /// `post NAME OP`: puts the operation at the end of the client's outbox. It is one that may be
    /// posted as it is.
    Post {
        client: u32,
        op: Op,
    },
    /// `post NAME report CELL`: puts a report of the client's revision of the cell at the end of its
    /// outbox.
    PostReport {
        client: u32,
        cell: u64,
    },
    /// `send NAME COUNT`: the server takes messages from the front of the client's outbox.
    Send {
        client: u32,
        count: Count,
    },
    /// `recv NAME COUNT`: the client receives entries that it hasn't received.
    Recv {
        client: u32,
        count: Count,
    },
    /// `sync`: messages and answers go to and fro until none is on its way.
    Sync,
    /// `show NAME`: prints what the client holds.
    Show {
        client: u32,
    },
    /// `pending NAME CELL`: prints what of the client's edits of a cell isn't acknowledged.
    Pending {
        client: u32,
        cell: u64,
    },
    /// `settle`: evaluates what is queued until nothing is.
    Settle,
    /// `cells`: prints the states of the setup and code cells.
    Cells,
    /// `book`: prints the server's notebook as a book.
    Book,
    /// `rawjoin NAME`: the name's number joins the session without a client.
    RawJoin {
        client: u32,
    },
    /// `raw NAME OP`: the server is asked for the operation at once, under the name's number.
    Raw {
        client: u32,
        op: Op,
    },
}

impl ScriptLine {
    /// The client whose name the line has: none for `sync`, `settle`, `cells` and `book`.
    pub fn client(&self) -> Option<u32>
        ensures { result ≡ client_of self.now }
    {
        match self {
            ScriptLine::Join { client }
            | ScriptLine::Leave { client }
            | ScriptLine::Edit { client, .. }
            | ScriptLine::Post { client, .. }
            | ScriptLine::PostReport { client, .. }
            | ScriptLine::Send { client, .. }
            | ScriptLine::Recv { client, .. }
            | ScriptLine::Show { client }
            | ScriptLine::Pending { client, .. }
            | ScriptLine::RawJoin { client }
            | ScriptLine::Raw { client, .. } => Some(*client),
            ScriptLine::Sync | ScriptLine::Settle | ScriptLine::Cells | ScriptLine::Book => None,
        }
    }
}

/// How many messages or entries a line is about.
#[derive(Clone, Copy, Debug, PartialEq, Eq)]
pub enum Count {
    /// So many, or all where there are fewer.
    AtMost(u64),
    /// `all`.
    All,
}
