//! Why a delta or a report isn't accepted.
use thiserror::Error;

/// Why a delta isn't accepted, in the order of the checks. The source is then as it was.
#[derive(Clone, Copy, Debug, PartialEq, Eq, Error)]
pub enum RevError {
    /// The base is above the present revision `now`.
    #[error("the revision is {now}")]
    TooNew { now: u64 },
    /// The base is below the least floor `kept`.
    #[error("deltas are kept from revision {kept} on")]
    TooOld { kept: u64 },
    /// The delta, moved to the present text, reaches past its `len` UTF-16 units.
    #[error("the text has {len} units")]
    PastEnd { len: u64 },
    /// The delta, moved to the present text, cuts it inside a character, first at the place `at` in
    /// UTF-16 units.
    #[error("place {at} is inside a surrogate pair")]
    SplitsPair { at: u64 },
    /// Memory was refused.
    #[error("out of memory")]
    OutOfMemory,
}

/// Why a report isn't accepted. Nothing is then changed.
#[derive(Clone, Copy, Debug, PartialEq, Eq, Error)]
pub enum ReportError {
    /// The reported revision is above the present revision `now`.
    #[error("the revision is {now}")]
    TooNew { now: u64 },
}
