//! The queues of a notebook's lanes: which cells are queued, which evaluations run, and which cell
//! may start in which lane.
//!
//! What the layers above may rely on: contracts see `Wants` as the list of the queued cells and the
//! list of the running evaluations, each with its lane, and each call does and answers exactly what
//! the definitions in `specs/` say of these lists, of the notebook and of what is known of cells; and
//! the [`laws`] of starts and sweeps.
#![tactic(auto)]

ghost use Rattle.section_queues.specs.Laws.{SomeLaneMayStart, StartsInItsLane, StartsAfterSettled, MarkingSpoilsNoSweep};

mod facts;
mod starts;
mod sweep;
mod walk;
mod wants;

pub use facts::CellFacts;
pub use sweep::failed_ancestor;
pub use wants::{LaneRun, Run, Wants};

/// The laws of starts and sweeps. The call does nothing.
pub fn laws()
    ensures some_lane { SomeLaneMayStart }
    ensures own_lane { StartsInItsLane }
    ensures after_settled { StartsAfterSettled }
    ensures marking { MarkingSpoilsNoSweep }
{}
