//! What a notebook's evaluations are worth: which path each cell's last finished evaluation read,
//! what it showed, whether its last attempt was broken off, and whether it still counts.
//!
//! What the layers above may rely on: contracts see `Marks` as the notebook to which it was brought
//! and the marks of its live setup and code cells; each call says what it makes of these marks, and
//! `validity` is the one definition of `specs/Validity`.
#![tactic(auto)]

ghost use Rattle.freshness.specs.Laws.{EvaluatedHasReadItsPath, FinishedCountsAtOnce};

mod following;
mod mark;
mod marks;
mod validity;
mod walk;

pub use mark::{Finished, Mark, Started};
pub use marks::Marks;

/// The laws of validity. The call does nothing.
pub fn laws()
    ensures read { EvaluatedHasReadItsPath }
    ensures at_once { FinishedCountsAtOnce }
{}
