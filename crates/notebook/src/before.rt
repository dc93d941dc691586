//! Going through a cell's flow, without a copy.
ghost use Rattle.std.specs.Prelude.{◌≡◌, ◌∷◌, ◌++◌, [], false, None, MatchOption};
ghost use Rattle.std.specs.List.{list_any};
ghost use Rattle.std.specs.Prelude.{find};
ghost use Rattle.notebook.specs.Before.{left, sections_before, IsBefore, IsCut, IsHome};
ghost use Rattle.notebook.specs.Flow.{code_cells, has_code, is_code_numbered, lane_cells, lane_of, main_cells, section_code};
ghost use Rattle.notebook.specs.Rules.{IsNotebook};
ghost use Rattle.notebook.specs.declared.states.Lane.TheVariants.{Main};

use crate::flow::sections_up_to;
use crate::parts::{Cell, CellId, Parts, Section};
use crate::states::Lane;

/// The setup cell and code cells that are left to be gone through, in order: the setup cell, if it
/// is among them, the code of `open`, that of the sections of `front` that branch from none, and that
/// of `own`.
#[derive(Clone, Copy, Debug)]
pub struct FlowCells<'a> {
    setup: Option<&'a Cell>,
    open: &'a [Cell],
    front: &'a [Section],
    own: &'a [Cell],
}

/// Where a cell is evaluated, and what stands before it in its flow.
#[derive(Clone, Copy, Debug)]
pub struct Before<'a> {
    pub lane: Lane,
    pub cell: &'a Cell,
    /// What stands before the cell.
    pub earlier: FlowCells<'a>,
    /// The same and then the cell.
    pub flow: FlowCells<'a>,
}

/// A code cell of a section, what stands before it there, and the same with the cell.
#[derive(Clone, Copy)]
struct Cut<'a> {
    earlier: &'a [Cell],
    cell: &'a Cell,
    through: &'a [Cell],
}

/// The section of a code cell, and the sections before it.
#[derive(Clone, Copy)]
struct Home<'a> {
    front: &'a [Section],
    section: &'a Section,
    cut: Cut<'a>,
}

impl<'a> FlowCells<'a> {
    /// No cell.
    pub fn none() -> FlowCells<'a>
        ensures { left result ≡ [] }
    {
        FlowCells {
            setup: None,
            open: &[],
            front: &[],
            own: &[],
        }
    }

    /// The code cells of a section.
    pub fn of_section(section: &'a Section) -> FlowCells<'a>
        ensures { left result ≡ section_code section.now }
    {
        FlowCells {
            setup: None,
            open: section.cells.as_slice(),
            front: &[],
            own: &[],
        }
    }

    /// The cells of the main lane.
    pub fn of_main(parts: &'a Parts) -> FlowCells<'a>
        ensures { left result ≡ lane_cells parts.now Main }
    {
        FlowCells {
            setup: Some(&parts.setup),
            open: &[],
            front: parts.sections.as_slice(),
            own: &[],
        }
    }

    /// The first of the cells, and those after it; `None` exactly where none is left.
    pub fn next(self) -> Option<(&'a Cell, FlowCells<'a>)>
        ensures { MatchOption result
            (left self.entry ≡ [])
            (λ p. left self.entry ≡ p.0.now ∷ left p.1) }
    {
        if let Some(cell) = self.setup {
            return Some((
                cell,
                FlowCells {
                    setup: None,
                    ..self
                },
            ));
        }
        if let Some((cell, open)) = next_code(self.open) {
            return Some((cell, FlowCells { open, ..self }));
        }
        if let Some((cell, open, front)) = next_main(self.front) {
            return Some((
                cell,
                FlowCells {
                    open,
                    front,
                    ..self
                },
            ));
        }
        let (cell, own) = next_code(self.own)?;
        Some((cell, FlowCells { own, ..self }))
    }
}

/// The first code cell of some cells, and the cells after it.
fn next_code(cells: &[Cell]) -> Option<(&Cell, &[Cell])>
    ensures { MatchOption result
        (code_cells cells.now ≡ [])
        (λ p. code_cells cells.now ≡ p.0.now ∷ code_cells p.1.now) }
{
    for (at, cell) in cells.iter().enumerate() {
        if cell.is_code() {
            return Some((cell, &cells[at + 1..]));
        }
    }
    None
}

/// The first code cell of some sections of which those count that branch from none, the cells after
/// it in its section, and the sections after that.
fn next_main(sections: &[Section]) -> Option<(&Cell, &[Cell], &[Section])>
    ensures { MatchOption result
        (main_cells sections.now ≡ [])
        (λ p. main_cells sections.now ≡ p.0.now ∷ (code_cells p.1.now ++ main_cells p.2.now)) }
{
    for (at, section) in sections.iter().enumerate() {
        if let Some((cell, open)) = next_in(section) {
            return Some((cell, open, &sections[at + 1..]));
        }
    }
    None
}

/// The first code cell of a section that branches from none, and the cells after it.
fn next_in(section: &Section) -> Option<(&Cell, &[Cell])>
    ensures { MatchOption result
        (main_cells (section.now ∷ []) ≡ [])
        (λ p. main_cells (section.now ∷ []) ≡ p.0.now ∷ code_cells p.1.now) }
{
    if section.parent.is_some() {
        return None;
    }
    next_code(section.cells.as_slice())
}

/// The first code cell of the number.
fn cut_at(cells: &[Cell], id: CellId) -> Option<Cut<'_>>
    ensures { MatchOption result
        (list_any (is_code_numbered id) cells.now ≡ false)
        (IsCut cells.now id) }
{
    for (at, cell) in cells.iter().enumerate() {
        if cell.is_code() && cell.id == id {
            return Some(Cut {
                earlier: &cells[..at],
                cell,
                through: &cells[..at + 1],
            });
        }
    }
    None
}

/// The first section that has a code cell of the number.
fn home_of(sections: &[Section], id: CellId) -> Option<Home<'_>>
    ensures { MatchOption result
        (find (has_code id) sections.now ≡ None)
        (IsHome sections.now id) }
{
    for (at, section) in sections.iter().enumerate() {
        if let Some(cut) = cut_at(section.cells.as_slice(), id) {
            return Some(Home {
                front: &sections[..at],
                section,
                cut,
            });
        }
    }
    None
}

/// The sections of which the main code stands before that of a section.
fn front_of<'a>(sections: &'a [Section], home: &Home<'a>) -> &'a [Section]
    ensures { result.now
        ≡ sections_before sections.now home.now.front.now home.now.section.now.parent }
{
    match home.section.parent {
        None => home.front,
        Some(parent) => sections_up_to(sections, parent),
    }
}

/// Where the setup cell is evaluated.
fn at_setup(setup: &Cell) -> Before<'_>
    ensures lane { result.lane ≡ Main }
    ensures cell { result.cell.now ≡ setup.now }
    ensures earlier { left result.earlier ≡ [] }
    ensures flow { left result.flow ≡ setup.now ∷ [] }
{
    Before {
        lane: Lane::Main,
        cell: setup,
        earlier: FlowCells::none(),
        flow: FlowCells {
            setup: Some(setup),
            open: &[],
            front: &[],
            own: &[],
        },
    }
}

/// Where the cell of the number is evaluated, and what stands before it. `None` exactly where no live
/// setup or code cell has the number.
pub fn standing(parts: &Parts, id: CellId) -> Option<Before<'_>>
    requires { IsNotebook parts.now }
    ensures { MatchOption result (lane_of parts.now id ≡ None) (IsBefore parts.now id) }
{
    if parts.setup.id == id {
        return Some(at_setup(&parts.setup));
    }
    let sections = parts.sections.as_slice();
    let home = home_of(sections, id)?;
    let front = front_of(sections, &home);
    let earlier = FlowCells {
        setup: Some(&parts.setup),
        open: &[],
        front,
        own: home.cut.earlier,
    };
    Some(Before {
        lane: home.section.lane(),
        cell: home.cut.cell,
        earlier,
        flow: FlowCells {
            own: home.cut.through,
            ..earlier
        },
    })
}
