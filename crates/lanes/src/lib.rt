//! The lanes of evaluation over plain data: what is queued, what runs, what was shown, which cell
//! may start, and which evaluations still count.
//!
//! What the layers above may rely on: `Work` is plain data, and each call does and answers exactly
//! what the definitions in `specs/` say of it and of the notebook that it is given.
#![tactic(auto)]

mod change;
mod judge;
mod walk;
mod work;

pub use judge::Row;
pub use work::{Finished, Mark, Running, Work};
