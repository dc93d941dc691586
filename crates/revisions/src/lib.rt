//! One cell's source in a session: its text, its revision, and of the deltas that it took those that
//! a client may still build on.
//!
//! A revision counts the deltas that the source took, from 0. A client's delta is made at some
//! revision, its base; it is moved over the deltas that were taken since, which go first where both
//! put something in at one place, and is then applied. A client's floor is the greatest revision that
//! it is known to have: it bases no delta on an earlier one. Kept are the deltas above the least floor
//! of those who have joined, and none where nobody has.
//!
//! What the layer above may rely on: `IsLog s log` says that a [`SourceLog`] is that of the source `s`,
//! which is plain data: the text with which it began, the deltas that it took, its text and the floors
//! of its clients. Each call says, for every source that the log is of, what it answers (`answer s base
//! d` to a delta), and of which source the log is afterwards. After an error it is equal to what it was.
#![tactic(auto)]

mod errors;
mod floors;
mod kept;
mod moved;
mod source_log;

pub use errors::{ReportError, RevError};
pub use moved::Move;
pub use source_log::{Accepted, SourceLog};
