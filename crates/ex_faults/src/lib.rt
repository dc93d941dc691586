//! Why a cell gives no value: the faults of the whole language of cells, with their texts.
//!
//! The layer above may rely on this: a contract sees a [`Fault`] as plain data over values and texts, so
//! equal faults are equal in every contract, and [`fault_text`] is the text that `specs/Faults` gives it.
//! A value in a text stands as it does in a source. No fault changes after it is made.
#![tactic(auto)]

mod fault;

pub use fault::{Fault, fault_text};
