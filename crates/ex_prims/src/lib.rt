//! The built-in calls and operators of cells, on whole values.
//!
//! What the layers above may rely on: [`call`] gives for a name, its arguments, the steps left and the
//! room for print exactly what the tables of `specs/Rows` and the rule of `specs/Calls` say: the value,
//! what is printed and the charge, or the fault, of which the call's own comes first, then that it
//! prints too much, then that its charge is above the steps left. Want of memory alone is free. Where a
//! fault comes, nothing of a large result was made before.
#![tactic(auto)]

mod arguments;
mod calls;
mod comparing;
mod functions;
mod integers;
mod limits;
mod listing;
mod printing;
mod refused;
mod rows;
mod texting;

pub use calls::{CallError, Called, call};
pub use functions::{Binary, Unary};
