//! What a reader tells of metadata lines that it ignores.

/// What a notice says of its metadata line.
#[derive(Clone, Copy, Debug, PartialEq, Eq)]
pub enum NoticeKind {
    /// The line names no section that others may branch from: `{"branch_parent_index":7}` where
    /// fewer sections stand before, or where the one with this index branches itself.
    BadBranch,
    /// The line stands where it applies to nothing: `{"output":true}` without code before it.
    Misplaced,
}

/// A metadata line that was read as if it weren't there.
#[derive(Clone, Copy, Debug, PartialEq, Eq)]
pub struct Notice {
    /// The number of the line, from 1.
    pub line: u64,
    pub kind: NoticeKind,
}
