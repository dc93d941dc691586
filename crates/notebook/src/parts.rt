//! What a notebook consists of.
ghost use Rattle.std.specs.Prelude.{◌≡◌, IfOk};
ghost use Rattle.notebook.specs.Flow.{is_code, section_lane};

use crate::states::Lane;
use plain_list::Items;
use std::alloc::AllocError;
use utf16_text::Text;

/// The number of a cell: 0 for the setup cell. No number is used twice.
pub type CellId = u64;

/// The number of a section, from 1. No number is used twice.
pub type SectionId = u64;

/// What a cell's source is.
#[derive(Clone, Copy, Debug, PartialEq, Eq)]
pub enum Kind {
    /// Code that is evaluated before all other cells.
    Setup,
    /// Code of a section.
    Code,
    /// Text for readers.
    Markdown,
}

/// An output that a book holds beside its code cell; it is kept as it was read.
#[derive(Debug, Drop)]
pub struct Saved {
    pub info: Text,
    pub text: Text,
}

impl Saved {
    /// An equal output.
    pub fn copy(&self) -> Result<Saved, AllocError>
        ensures { IfOk result (λ s. s ≡ self.now) }
    {
        Ok(Saved {
            info: self.info.copy()?,
            text: self.text.copy()?,
        })
    }
}

/// A cell: its source is edited by deltas over UTF-16 units.
#[derive(Debug, Drop)]
pub struct Cell {
    pub id: CellId,
    pub kind: Kind,
    pub source: Text,
    /// Unknown metadata lines that stand before the cell.
    pub before: Items<Text>,
    pub saved: Items<Saved>,
}

impl Cell {
    /// Whether it is code of a section.
    pub fn is_code(&self) -> bool
        ensures { result ≡ is_code self.now }
    {
        matches!(self.kind, Kind::Code)
    }

    /// An equal cell.
    pub fn copy(&self) -> Result<Cell, AllocError>
        ensures { IfOk result (λ c. c ≡ self.now) }
    {
        Ok(Cell {
            id: self.id,
            kind: self.kind,
            source: self.source.copy()?,
            before: self.before.copied_by(|line| line.copy())?,
            saved: self.saved.copied_by(|output| output.copy())?,
        })
    }
}

/// A cell that an evaluation passes, with the source that the cell had.
#[derive(Debug, Drop)]
pub struct Passed {
    pub cell: CellId,
    pub source: Text,
}

impl Passed {
    /// An equal pair.
    pub fn copy(&self) -> Result<Passed, AllocError>
        ensures { IfOk result (λ p. p ≡ self.now) }
    {
        Ok(Passed {
            cell: self.cell,
            source: self.source.copy()?,
        })
    }
}

/// A section of cells. One with a parent is a branch of that earlier section.
#[derive(Debug, Drop)]
pub struct Section {
    pub id: SectionId,
    pub name: Text,
    /// Unknown metadata lines that stand before the section.
    pub before: Items<Text>,
    pub parent: Option<SectionId>,
    pub cells: Items<Cell>,
}

impl Section {
    /// The lane in which its code is evaluated.
    pub fn lane(&self) -> Lane
        ensures { result ≡ section_lane self.now }
    {
        match self.parent {
            None => Lane::Main,
            Some(_) => Lane::Branch(self.id),
        }
    }

    /// An equal section.
    pub fn copy(&self) -> Result<Section, AllocError>
        ensures { IfOk result (λ s. s ≡ self.now) }
    {
        Ok(Section {
            id: self.id,
            name: self.name.copy()?,
            before: self.before.copied_by(|line| line.copy())?,
            parent: self.parent,
            cells: self.cells.copied_by(|cell| cell.copy())?,
        })
    }
}

/// The parts of a notebook.
#[derive(Debug, Drop)]
pub struct Parts {
    pub name: Text,
    /// Unknown metadata lines that stand before the name.
    pub before: Items<Text>,
    pub setup: Cell,
    pub sections: Items<Section>,
    /// Deleted cells, the last deleted last.
    pub bin: Items<Cell>,
    /// Unknown metadata lines that stand after the last cell.
    pub after: Items<Text>,
    /// The number that the next new cell takes.
    pub next_cell: u64,
    /// The number that the next new section takes.
    pub next_section: u64,
}

impl Parts {
    /// Equal parts.
    pub fn copy(&self) -> Result<Parts, AllocError>
        ensures { IfOk result (λ n. n ≡ self.now) }
    {
        Ok(Parts {
            name: self.name.copy()?,
            before: self.before.copied_by(|line| line.copy())?,
            setup: self.setup.copy()?,
            sections: self.sections.copied_by(|section| section.copy())?,
            bin: self.bin.copied_by(|cell| cell.copy())?,
            after: self.after.copied_by(|line| line.copy())?,
            next_cell: self.next_cell,
            next_section: self.next_section,
        })
    }
}
