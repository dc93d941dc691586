//! What is kept for one cell.
ghost use Rattle.std.specs.Prelude.{◌≡◌};
ghost use Rattle.freshness.specs.Marked.{as_finished, shown_again};

use ex_model::Shown;
use notebook::{CellId, Passed};
use plain_list::Items;

/// An evaluation that was started: its number, and the path that was read at its start.
#[derive(Debug, Drop)]
pub struct Started {
    pub eval: u64,
    pub path: Items<Passed>,
}

/// An evaluation that has finished: its number, the path that it read, and what it showed.
#[derive(Debug, Drop)]
pub struct Finished {
    pub eval: u64,
    pub path: Items<Passed>,
    pub shown: Shown,
}

/// What is kept for one cell: whether its last attempt was broken off, the evaluation that was started
/// last if it hasn't finished, and the one that finished last.
#[derive(Debug, Drop)]
pub struct Mark {
    pub cell: CellId,
    pub aborted: bool,
    pub started: Option<Started>,
    pub finished: Option<Finished>,
}

/// The evaluation that was started last has finished, and showed this.
pub(crate) fn finish(mark: &mut Mark, eval: u64, shown: Shown)
    ensures { mark.new ≡ as_finished eval shown mark.old }
{
    mark.aborted = false;
    match mark.started.take() {
        Some(started) => {
            let Started { path, .. } = started;
            mark.finished = Some(Finished { eval, path, shown });
        }
        None => show_again(&mut mark.finished, shown),
    }
}

/// The evaluation that has finished showed this.
fn show_again(finished: &mut Option<Finished>, shown: Shown)
    ensures { finished.new ≡ shown_again shown finished.old }
{
    if let Some(last) = finished.as_mut() {
        last.shown = shown;
    }
}
