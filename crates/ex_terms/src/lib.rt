//! The values of cells, whole: integers, atoms, texts, and tuples and lists of values.
//!
//! What the layers above may rely on: a contract sees [`Items`], the values of a tuple or a list, as
//! a tree (`specs/Terms`), and a [`Value`] as plain data over such trees, so equal values are equal in
//! every contract. No value changes after it is made. A copy shares the items of tuples and lists, and
//! their size is kept, so both take the same time however many items it has. Order, equality and texts
//! walk the values and call themselves once for each level.
#![tactic(auto)]

mod error;
mod inspecting;
mod items;
mod names;
mod quoting;
mod value;
mod values;

pub use error::DisplayError;
pub use items::size_together;
pub use values::{Items, Value};
