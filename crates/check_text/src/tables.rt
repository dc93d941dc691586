//! Tables: rows that are tried one after the other.
use std::alloc::Global;

/// A row of a table.
pub trait Row {
    /// Whether the calls answer as wanted. None where one was refused.
    fn is_as_wanted(&self, alloc: Global) -> Option<bool>;
}

/// The number of the first row that isn't as wanted, counted from 1; 0 where all rows are. None where
/// a call was refused.
pub fn first_wrong<R: Row>(alloc: Global, rows: &[R]) -> Option<usize> {
    for (at, row) in rows.iter().enumerate() {
        if !row.is_as_wanted(alloc)? {
            return Some(at + 1);
        }
    }
    Some(0)
}

/// A story as a table of one row.
pub fn once(is_as_wanted: Option<bool>) -> Option<usize> {
    if is_as_wanted? { Some(0) } else { Some(1) }
}
