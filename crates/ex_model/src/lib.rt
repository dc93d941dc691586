//! What cells mean: trees, bindings, faults, and the meaning of a body.
//!
//! `specs/` has the definitions that the layers above cite. `Tree` is an expression as mathematics has
//! it, and `Meaning` what a body of them gives, by cases on the tree, its steps included. `Means` is
//! what a source gives, and `Along` what a path of sources gives.
//!
//! The layer above may rely on this: a contract sees an [`Ast`] as its list of trees, and [`Bindings`]
//! as the list of pairs of a name and a value; both are kept flat, so that no depth of nesting can
//! exhaust a stack. A name is counted by its first pair.
#![tactic(auto)]

mod ast;
mod bindings;
mod fault;
mod ran;

pub use ast::{Ast, Node, Operator, Parts};
pub use bindings::{Binding, Bindings};
pub use fault::{Fault, fault_text};
pub use ran::{Outcome, Ran, Shown};
