//! What may be changed in a notebook's structure, and why a change is refused.
ghost use Rattle.std.specs.Prelude.{◌≡◌};
ghost use Rattle.notebook.specs.Change.{kind_of};
ghost use Rattle.notebook.specs.declared.change.NoteError.TheVariants.{OutOfMemory};

use crate::parts::{CellId, Kind, SectionId};
use std::alloc::AllocError;
use thiserror::Error;
use utf16_text::Text;

/// What a new cell is for.
#[derive(Clone, Copy, Debug, PartialEq, Eq)]
pub enum CellKind {
    /// Code of a section.
    Code,
    /// Text for readers.
    Markdown,
}

impl CellKind {
    /// The kind that the cell gets.
    pub fn kind(self) -> Kind
        ensures { result ≡ kind_of self }
    {
        match self {
            CellKind::Code => Kind::Code,
            CellKind::Markdown => Kind::Markdown,
        }
    }
}

/// One change of a notebook's structure. Indices are counted from 0: among the sections, or among the
/// cells of a section, after what moves is taken out.
#[derive(Debug, Drop)]
pub enum Change {
    /// Gives the notebook a name.
    SetName {
        name: Text,
    },
    /// Puts a new, empty section that branches from none at the index.
    InsertSection {
        index: u64,
        name: Text,
    },
    /// Gives a section a name.
    SetSectionName {
        section: SectionId,
        name: Text,
    },
    /// Takes a section out. Its cells go to the end of the bin, in order.
    DeleteSection {
        section: SectionId,
    },
    /// Takes a section out and puts it at the index.
    MoveSection {
        section: SectionId,
        index: u64,
    },
    /// Makes a section a branch of another one, or of none.
    SetParent {
        section: SectionId,
        parent: Option<SectionId>,
    },
    /// Puts a new cell without source at the index of a section.
    InsertCell {
        section: SectionId,
        index: u64,
        kind: CellKind,
    },
    /// Takes a cell out, to the end of the bin.
    DeleteCell {
        cell: CellId,
    },
    /// Takes a cell out of the bin and puts it at the index of a section, under a new number.
    RestoreCell {
        cell: CellId,
        section: SectionId,
        index: u64,
    },
    /// Takes a cell out and puts it at the index of a section.
    MoveCell {
        cell: CellId,
        section: SectionId,
        index: u64,
    },
}

/// What a change made.
#[derive(Clone, Copy, Debug, PartialEq, Eq)]
pub enum Changed {
    /// No new cell and no new section.
    Plain,
    /// The cell of the number, a restored one too.
    NewCell { cell: CellId },
    /// The section of the number.
    NewSection { section: SectionId },
}

/// Why a change is refused, in the order in which the causes are looked at.
#[derive(Clone, Copy, Debug, Drop, PartialEq, Eq, Error)]
pub enum NoteError {
    /// No cell that the change may take has the number.
    #[error("no such cell has the number")]
    NoCell,
    /// No section has the number, or none that of the parent.
    #[error("no section has the number")]
    NoSection,
    /// The index is above `len`, the number of sections, or of cells in the section, among which it
    /// counts.
    #[error("the index is above {len}")]
    BadIndex { len: u64 },
    /// A branch would not stand after its parent, or a parent would have a parent.
    #[error("the parent would not stand before its branch, or have a parent itself")]
    BadParent,
    /// Other sections branch from the section.
    #[error("other sections branch from the section")]
    HasBranches,
    /// There would be more than 4,000 cells, or more than 1,000 code cells among them.
    #[error("there are too many cells")]
    TooManyCells,
    /// There would be more than 1,000 sections.
    #[error("there are too many sections")]
    TooManySections,
    /// Memory ran out.
    #[error("out of memory")]
    OutOfMemory,
}

impl From<AllocError> for NoteError {
    ghost from_gives = { λ _ e. e ≡ OutOfMemory };

    fn from(_: AllocError) -> NoteError {
        NoteError::OutOfMemory
    }
}
