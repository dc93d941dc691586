//! Stories of sessions: the books with which they open, and what is done step by step, with what stands then.

use notebook::{CellId, Lane, Status, Validity};
use session_ops::Refusal;

/// Sections `A` (cells 1 and 2) and `D` (cell 6) in the main lane, and two branches of `A`: `B` (cells 3 and 4) and `C`
/// (cell 5).
const LANES: &str =
    "## A\n```elixir\n\n```\n```elixir\n\n```\n<!-- livebook:{\"branch_parent_index\":0} -->\n## B\n```elixir\n\n```\n```elixir\n\n```\n<!-- livebook:{\"branch_parent_index\":0} -->\n## C\n```elixir\n\n```\n## D\n```elixir\n\n```\n";

/// The same, but cell 1 reads a name that nothing binds.
const FAULTY: &str =
    "## A\n```elixir\ny\n```\n```elixir\n\n```\n<!-- livebook:{\"branch_parent_index\":0} -->\n## B\n```elixir\n\n```\n```elixir\n\n```\n<!-- livebook:{\"branch_parent_index\":0} -->\n## C\n```elixir\n\n```\n## D\n```elixir\n\n```\n";

/// The same, but the setup cell and cell 3 are worth 1.
const WORTH_ONE: &str =
    "```elixir\n1\n```\n## A\n```elixir\n\n```\n```elixir\n\n```\n<!-- livebook:{\"branch_parent_index\":0} -->\n## B\n```elixir\n1\n```\n```elixir\n\n```\n<!-- livebook:{\"branch_parent_index\":0} -->\n## C\n```elixir\n\n```\n## D\n```elixir\n\n```\n";

/// In a notebook without a name: a section `A` with two code cells, 1 and 2, and a branch `B` of it with the code cell 3.
pub const PLAN: &str =
    "rawjoin ann\nraw ann insert_section 0 \"A\"\nraw ann insert_section 1 \"B\"\nraw ann set_parent 2 1\nraw ann insert_cell 1 0 code\nraw ann insert_cell 1 1 code\nraw ann insert_cell 2 0 code\n";

/// What is done, or what stands then.
#[derive(Clone, Copy)]
pub enum Step {
    /// The lines of a script are called, and none is refused.
    Call(&'static str),
    /// The line of a script is refused.
    Refuse(&'static str, Refusal),
    /// In the lane the cell is started, under the number, and its answer never comes.
    Start(Lane, u64, CellId),
    /// In the lane the cell is started, under the number, run as it was handed out, and the answer is stored.
    Run(Lane, u64, CellId),
    /// The same, but while it runs the lines of a script are called, and none is refused.
    RunWhile(Lane, u64, CellId, &'static str),
    /// The same, and after these lines the answer comes too late.
    RunLate(Lane, u64, CellId, &'static str),
    /// In the lane nothing may start, and no call is made.
    Waits(Lane),
    /// The first lane that may start.
    Ready(Lane),
    /// Whether nothing is queued and nothing runs.
    Idle(bool),
    Stands(CellId, Status, Validity),
    /// The notebook has no such setup or code cell.
    HasNoRow(CellId),
    /// So many calls were made.
    Calls(usize),
    /// A snapshot comes after so many calls, and has so many cells.
    Snapshot(u64, usize),
}

use Step::{
    Call, Calls, HasNoRow, Idle, Ready, Refuse, Run, RunLate, RunWhile, Snapshot, Stands, Start,
    Waits,
};

/// The book with which a session opens, and what is done.
#[derive(Clone, Copy)]
pub struct Story {
    pub book: &'static str,
    pub steps: &'static [Step],
}

pub const STORIES: [Story; 11] = [
    // The first due cell is started.
    Story {
        book: LANES,
        steps: &[
            Call("rawjoin ann\nraw ann queue 4\nraw ann queue 6\n"),
            Idle(false),
            Ready(Lane::Main),
            Waits(Lane::Branch(2)),
            Run(Lane::Main, 1, 0),
            Run(Lane::Main, 2, 1),
        ],
    },
    // One runs in each lane.
    Story {
        book: LANES,
        steps: &[
            Call("rawjoin ann\nraw ann queue 4\nraw ann queue 6\n"),
            Run(Lane::Main, 1, 0),
            Run(Lane::Main, 2, 1),
            Run(Lane::Main, 3, 2),
            Start(Lane::Main, 4, 6),
            Waits(Lane::Main),
            Waits(Lane::Branch(3)),
            Ready(Lane::Branch(2)),
            Start(Lane::Branch(2), 5, 3),
            Stands(3, Status::Evaluating, Validity::Fresh),
        ],
    },
    // It goes through a branch.
    Story {
        book: LANES,
        steps: &[
            Call("rawjoin ann\nraw ann queue 4\n"),
            Run(Lane::Main, 1, 0),
            RunWhile(Lane::Main, 2, 1, "raw ann queue 5\n"),
            Run(Lane::Main, 3, 2),
            Run(Lane::Branch(2), 4, 3),
            Run(Lane::Branch(2), 5, 4),
            Run(Lane::Branch(3), 6, 5),
            Stands(4, Status::Ready, Validity::Evaluated),
            Idle(true),
        ],
    },
    // A fault ends what waits for it.
    Story {
        book: FAULTY,
        steps: &[
            Call("rawjoin ann\nraw ann queue 2\nraw ann queue 3\n"),
            Run(Lane::Main, 1, 0),
            Run(Lane::Main, 2, 1),
            Stands(1, Status::Ready, Validity::Evaluated),
            Stands(2, Status::Ready, Validity::Aborted),
            Stands(3, Status::Ready, Validity::Aborted),
            Idle(true),
            Refuse("raw ann queue 3\n", Refusal::AncestorFailed { cell: 1 }),
        ],
    },
    // A cancelled answer is late.
    Story {
        book: WORTH_ONE,
        steps: &[
            Call("rawjoin ann\nraw ann queue 0\n"),
            RunLate(Lane::Main, 1, 0, "raw ann cancel 0\n"),
            Stands(0, Status::Ready, Validity::Aborted),
        ],
    },
    // Nothing is kept of a deleted cell, and the others wait on.
    Story {
        book: LANES,
        steps: &[
            Call("rawjoin ann\nraw ann queue 4\nraw ann queue 6\n"),
            Run(Lane::Main, 1, 0),
            Run(Lane::Main, 2, 1),
            Run(Lane::Main, 3, 2),
            Run(Lane::Main, 4, 6),
            Call("raw ann delete_cell 6\n"),
            HasNoRow(6),
            Stands(4, Status::Queued, Validity::Fresh),
        ],
    },
    // Another lane takes the evaluation away.
    Story {
        book: WORTH_ONE,
        steps: &[
            Call("rawjoin ann\nraw ann queue 4\nraw ann queue 6\n"),
            Run(Lane::Main, 1, 0),
            Run(Lane::Main, 2, 1),
            Run(Lane::Main, 3, 2),
            Start(Lane::Main, 4, 6),
            RunLate(Lane::Branch(2), 5, 3, "raw ann set_parent 2 none\n"),
            Stands(3, Status::Ready, Validity::Aborted),
            Stands(6, Status::Evaluating, Validity::Fresh),
        ],
    },
    // Another source makes it stale.
    Story {
        book: LANES,
        steps: &[
            Call("rawjoin ann\nraw ann queue 2\n"),
            Run(Lane::Main, 1, 0),
            Run(Lane::Main, 2, 1),
            Run(Lane::Main, 3, 2),
            Call("raw ann delta 1 0 [\"x\"]\n"),
            Stands(2, Status::Ready, Validity::Stale),
            Call("raw ann delta 1 1 [-1]\n"),
            Stands(2, Status::Ready, Validity::Evaluated),
        ],
    },
    // A branch starts from its parent's end.
    Story {
        book: "",
        steps: &[
            Call(PLAN),
            Call("raw ann delta 2 0 [\"x = 1\"]\nraw ann delta 3 0 [\"x + 1\"]\nraw ann queue 3\n"),
            Calls(10),
            Waits(Lane::Branch(2)),
            Run(Lane::Main, 1, 0),
            Run(Lane::Main, 2, 1),
            Run(Lane::Main, 3, 2),
            Run(Lane::Branch(2), 4, 3),
            Stands(3, Status::Ready, Validity::Evaluated),
            Calls(18),
            Idle(true),
            // It was run over what its parent binds, so it shows no fault, and is asked for again.
            Call("raw ann queue 3\n"),
        ],
    },
    // The answer of a cell that was cancelled while it ran is late, in a notebook that was made by calls.
    Story {
        book: "",
        steps: &[
            Call(PLAN),
            Call("raw ann queue 0\n"),
            RunLate(Lane::Main, 1, 0, "raw ann cancel 0\n"),
            Stands(0, Status::Ready, Validity::Aborted),
        ],
    },
    // A snapshot has each live cell.
    Story {
        book: "",
        steps: &[Call(PLAN), Snapshot(7, 4), Calls(7)],
    },
];
