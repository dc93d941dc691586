//! The session: a notebook whose structure is changed and whose cells' sources take deltas in the
//! server's order, the clients that have joined, what is asked of the evaluators of all lanes, and the
//! history of all calls.
//!
//! What the layers above may rely on: a [`Session`] is told by the notebook with which it opened and
//! its history. The history is always legal, also after want of memory, and all that a session holds is
//! what its history makes of its opening notebook (clause `legal` of [`Session::history`]). No call asks
//! for more, but that [`Session::respond`] wants a job that is out. A call appends the one entry that it
//! names, with the reply of the definitions, and keeps the opening. `IsHandedOut n0 s by job` says that
//! a job was started under the number `by`, with its source and its bindings, and isn't answered yet:
//! [`Session::start`] gives it, and no other call than its answer ends it (clauses `out`). A start keeps
//! room for the answer, so [`Session::respond`] takes no memory and can't fail.
#![tactic(auto)]

mod clients;
mod evaluated;
mod evaluations;
mod held;
mod history;
mod job;
mod logs;
mod queueing;
mod session;
mod sources;
mod structure;

pub use evaluated::Evaluated;
pub use job::{PlainJob, STEPS};
pub use lanes::Row;
pub use session::Session;
