//! The gate that each evaluation passes.

/// The number of a cell, plain: 0 is the setup cell.
pub type CellNo = u64;

/// The number of a lane, plain: 0 is the main lane, any other the branch of the section with that
/// number.
pub type LaneNo = u64;

/// Which evaluation arrives or leaves.
#[derive(Clone, Copy, Debug, PartialEq, Eq)]
pub struct JobTag {
    /// The evaluation's number.
    pub eval: u64,
    /// Its cell.
    pub cell: CellNo,
    /// Its lane.
    pub lane: LaneNo,
}

/// What is told of each evaluation before it begins and after it ends. Several threads may call it
/// side by side.
pub trait Gate: Sync {
    /// An evaluation is about to begin.
    fn arrive(&self, tag: &JobTag);

    /// An evaluation has ended.
    fn leave(&self, tag: &JobTag);
}

/// A gate that does nothing.
#[derive(Clone, Copy, Debug, Default, PartialEq, Eq)]
pub struct PlainGate;

impl Gate for PlainGate {
    fn arrive(&self, _tag: &JobTag) {}

    fn leave(&self, _tag: &JobTag) {}
}
