//! The program: words, book and script in, the transcript or the formatted book out.
#![tactic(auto)]

mod clients;
mod lines;
mod outcome;
mod play;
mod player;
mod settling;
mod statuses;
mod top;

pub use outcome::{Outcome, Report, RunFault};
pub use session_ops::{Call, Entry, Op, Refusal, Reply};
pub use top::{format_command, program};
