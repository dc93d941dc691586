//! What may happen in a world.
use delta::Delta;
use notebook::CellId;
use session_ops::Op;

/// Something that happens. One that can't happen changes nothing.
#[derive(Debug, Drop)]
pub enum Event {
    /// The number joins; where it is accepted it holds a client from then on.
    Join {
        client: u32,
    },
    /// The number leaves; its client is gone, with its outbox.
    Leave {
        client: u32,
    },
    /// The number's client edits a cell of its own notebook.
    Edit {
        client: u32,
        cell: CellId,
        delta: Delta,
    },
    /// The number's client puts an operation into its outbox. Joins, leaves, deltas and reports can't
    /// be posted so.
    Post {
        client: u32,
        op: Op,
    },
    /// The number's client puts a report of its revision of a cell into its outbox.
    Report {
        client: u32,
        cell: CellId,
    },
    /// The session takes the message at the front of the outbox of the number's client.
    Take {
        client: u32,
    },
    /// The number's client receives the next entry of the history.
    Receive {
        client: u32,
    },
    /// The number joins without a client.
    RawJoin {
        client: u32,
    },
    /// A call of a number that holds no client.
    Raw {
        client: u32,
        op: Op,
    },
}
