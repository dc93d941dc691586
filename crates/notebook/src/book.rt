//! A notebook that keeps its rules.
ghost use Rattle.std.specs.Prelude.{◌≡◌, ◌↔◌, ◌<◌, ◌^◌, IsTrue, IfOk, IfErr, OnErr, MatchOption, None};
ghost use Rattle.std.specs.Bool.{OnFalse};
ghost use Rattle.std.specs.Option.{option_copied};
ghost use Rattle.notebook.specs.Book.{cells, found, IsLive, with_source, untitled};
ghost use Rattle.notebook.specs.Rules.{IsNotebook, HasNumbers};
ghost use Rattle.notebook.specs.Change.{Makes, Refuses, change};
ghost use Rattle.notebook.specs.Flow.{lane_of, lane_cells, flow_numbers};
ghost use Rattle.notebook.specs.Seen.{seen};
ghost use Rattle.notebook.specs.Before.{IsBefore};
ghost use Rattle.notebook.specs.declared.states.PathError.TheVariants.{NoCell};

use crate::before::{Before, standing};
use crate::cells::{place_of, set_source};
use crate::change::{Change, Changed, NoteError};
use crate::edits::make;
use crate::flow::{lane_among, numbers_up_to, push_branch, push_main};
use crate::parts::{Cell, CellId, Kind, Parts};
use crate::states::{Lane, PathError};
use limits::NUMBERS_END;
use plain_list::Items;
use std::alloc::{AllocError, Global};
use std::marker::Model;
use utf16_text::Text;

/// A notebook whose parts keep the rules on numbers, kinds, parents and limits.
#[derive(Debug, Drop)]
pub struct Notebook {
    parts: Parts,
}

impl Model for Notebook {
    ghost use Rattle.notebook.specs.declared.parts.Parts.{Parts};
    ghost use Rattle.notebook.specs.Rules.{IsNotebook};

    ghost Value = { Parts };

    ghost view = { λ n. n.parts };

    ghost invariant = { λ n. IsNotebook n.parts };
}

impl Notebook {
    /// The notebook of parts that keep the rules. Takes no memory.
    pub fn of(parts: Parts) -> Notebook
        requires { IsNotebook parts }
        ensures { result ≡ parts }
    {
        Notebook { parts }
    }

    /// The parts, for reading.
    pub fn parts(&self) -> &Parts
        ensures parts { result.now ≡ self.now }
        ensures rules { IsNotebook result.now }
    {
        &self.parts
    }

    /// The parts, to be taken apart. Takes no memory.
    pub fn into_parts(self) -> Parts
        ensures parts { result ≡ self }
        ensures rules { IsNotebook result }
    {
        let Notebook { parts } = self;
        parts
    }

    /// A new notebook: its name is `Untitled notebook`, and it has an empty setup cell and no section.
    pub fn untitled(alloc: Global) -> Result<Notebook, AllocError>
        ensures { IfOk result (λ n. n ≡ untitled) }
    {
        Ok(Notebook {
            parts: Parts {
                name: Text::of(alloc, "Untitled notebook")?,
                before: Items::new(alloc),
                setup: Cell {
                    id: 0,
                    kind: Kind::Setup,
                    source: Text::new(alloc),
                    before: Items::new(alloc),
                    saved: Items::new(alloc),
                },
                sections: Items::new(alloc),
                bin: Items::new(alloc),
                after: Items::new(alloc),
                next_cell: 1,
                next_section: 1,
            },
        })
    }

    /// An equal notebook.
    pub fn copy(&self) -> Result<Notebook, AllocError>
        ensures { IfOk result (λ n. n ≡ self.now) }
    {
        Ok(Notebook {
            parts: self.parts.copy()?,
        })
    }

    /// The live cell of the number, the setup cell among them; `None` exactly where there is none. It
    /// takes no memory.
    pub fn find(&self, cell: CellId) -> Option<&Cell>
        ensures { option_copied result ≡ found cell (cells self.now) }
    {
        if self.parts.setup.id == cell {
            return Some(&self.parts.setup);
        }
        let sections = self.parts.sections.as_slice();
        let place = place_of(sections, cell)?;
        Some(&sections[place.section].cells.as_slice()[place.cell])
    }

    /// Whether there are numbers for one more cell and one more section, as in each notebook that a
    /// machine holds. It takes no memory.
    pub fn has_numbers(&self) -> bool
        ensures { IsTrue result ↔ HasNumbers self.now }
    {
        self.parts.next_cell < NUMBERS_END && self.parts.next_section < NUMBERS_END
    }

    /// Makes one change of the structure, or tells the first cause that refuses it; then, and where
    /// memory ran out, the notebook is as it was. The numbers that the next cell and section would
    /// take have to be below 2^63.
    pub fn change(&mut self, alloc: Global, asked: Change) -> Result<Changed, NoteError>
        requires cells { self.old.next_cell < 2 ^ 63 }
        requires sections { self.old.next_section < 2 ^ 63 }
        ensures made { IfOk result (λ made. change self.old asked ≡ Makes self.new made) }
        ensures cause { IfErr result (Refuses self.old asked) }
        ensures refused { OnErr result (self.new ≡ self.old) }
    {
        make(&mut self.parts, alloc, asked)
    }

    /// Gives the live cell of the number the source; everything else stays. It answers false exactly
    /// where no live cell has the number, and then nothing changes. It takes no memory.
    pub fn set_source(&mut self, cell: CellId, source: Text) -> bool
        ensures live { IsTrue result ↔ IsLive self.old cell }
        ensures set { self.new ≡ with_source cell source self.old }
        ensures otherwise { OnFalse result (self.new ≡ self.old) }
    {
        set_source(&mut self.parts, cell, source)
    }

    /// The lane in which the cell is evaluated; `None` exactly where no live setup or code cell has the
    /// number. It takes no memory.
    pub fn lane(&self, cell: CellId) -> Option<Lane>
        ensures { result ≡ lane_of self.now cell }
    {
        if self.parts.setup.id == cell {
            return Some(Lane::Main);
        }
        lane_among(self.parts.sections.as_slice(), cell)
    }

    /// The lane of the cell, the cell, and what stands before it in its flow; `None` exactly where no
    /// live setup or code cell has the number. It takes no memory.
    pub fn before(&self, cell: CellId) -> Option<Before<'_>>
        ensures { MatchOption result (lane_of self.now cell ≡ None) (IsBefore self.now cell) }
    {
        standing(&self.parts, cell)
    }

    /// What is evaluated one after the other in a lane: the setup cell and then code cells. For a
    /// branch they are those of the main lane up to the end of the branch's parent, and then its own;
    /// for a section that is none, the setup cell alone.
    pub fn lane_cells(&self, alloc: Global, lane: Lane) -> Result<Vec<&Cell>, AllocError>
        ensures { IfOk result (λ cells. seen cells.items ≡ lane_cells self.now lane) }
    {
        let mut cells = Vec::new(alloc);
        cells.push(&self.parts.setup)?;
        let sections = self.parts.sections.as_slice();
        match lane {
            Lane::Main => push_main(&mut cells, sections)?,
            Lane::Branch(branch) => push_branch(&mut cells, sections, branch)?,
        }
        Ok(cells)
    }

    /// The numbers of the cells that an evaluation of the cell passes: those of its lane up to and with
    /// the cell itself. The setup cell's path is itself. [`PathError::NoCell`] exactly where no live setup
    /// or code cell has the number.
    pub fn path(&self, alloc: Global, cell: CellId) -> Result<Vec<CellId>, PathError>
        ensures path { IfOk result (λ ids. Some ids.items ≡ flow_numbers self.now cell) }
        ensures no_cell { (result ≡ Err NoCell) ↔ (lane_of self.now cell ≡ None) }
    {
        let Some(lane) = self.lane(cell) else {
            return Err(PathError::NoCell);
        };
        let cells = self.lane_cells(alloc, lane)?;
        let ids = numbers_up_to(alloc, &cells, cell)?;
        Ok(ids)
    }
}
