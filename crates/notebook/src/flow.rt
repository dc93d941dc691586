//! The lanes of evaluation, and the cells that come before a cell in its lane.
ghost use Rattle.std.specs.Prelude.{◌≡◌, ◌++◌, ◌∷◌, IfOk, OnOk, find};
ghost use Rattle.std.specs.Option.{option_copied, option_map};
ghost use Rattle.notebook.specs.Flow.{code_cells, has_code, is_section, main_cells, numbered_branch_cells, numbers_up_to, section_lane, up_to};
ghost use Rattle.notebook.specs.Seen.{seen};

use crate::parts::{Cell, CellId, Section, SectionId};
use crate::states::Lane;
use std::alloc::{AllocError, Global};

/// Whether the section has a code cell of the number.
fn has_code(section: &Section, id: CellId) -> bool
    ensures { result ≡ has_code id section.now }
{
    section
        .cells
        .as_slice()
        .iter()
        .any(|cell| cell.is_code() && cell.id == id)
}

/// The lane of the first of some sections that has a code cell of the number.
pub fn lane_among(sections: &[Section], id: CellId) -> Option<Lane>
    ensures { result ≡ option_map section_lane (find (has_code id) sections.now) }
{
    sections
        .iter()
        .find(|section| has_code(section, id))
        .map(|section| section.lane())
}

/// The first of some sections that has the number.
fn section_of(sections: &[Section], id: SectionId) -> Option<&Section>
    ensures { option_copied result ≡ find (is_section id) sections.now }
{
    sections.iter().find(|section| section.id == id)
}

/// The sections up to and with the first that has the number; all of them where none has.
pub fn sections_up_to(sections: &[Section], id: SectionId) -> &[Section]
    ensures { result.now ≡ up_to (is_section id) sections.now }
{
    for (at, section) in sections.iter().enumerate() {
        if section.id == id {
            return &sections[..at + 1];
        }
    }
    sections
}

/// Puts the code cells of some cells at the end.
fn push_code<'a>(lane: &mut Vec<&'a Cell>, cells: &'a [Cell]) -> Result<(), AllocError>
    ensures { OnOk result (seen lane.new.items ≡ seen lane.old.items ++ code_cells cells.now) }
{
    for cell in cells {
        if cell.is_code() {
            lane.push(cell)?;
        }
    }
    Ok(())
}

/// Puts the code cells of the sections that branch from none at the end.
pub fn push_main<'a>(lane: &mut Vec<&'a Cell>, sections: &'a [Section]) -> Result<(), AllocError>
    ensures { OnOk result (seen lane.new.items ≡ seen lane.old.items ++ main_cells sections.now) }
{
    for section in sections {
        if section.parent.is_none() {
            push_code(lane, section.cells.as_slice())?;
        }
    }
    Ok(())
}

/// Puts what stands before a branch at the end, and then the branch's own code cells.
pub fn push_branch<'a>(
    lane: &mut Vec<&'a Cell>,
    sections: &'a [Section],
    branch: SectionId,
) -> Result<(), AllocError>
    ensures { OnOk result (seen lane.new.items
        ≡ seen lane.old.items ++ numbered_branch_cells sections.now branch) }
{
    let Some(branch) = section_of(sections, branch) else {
        return Ok(());
    };
    if let Some(parent) = branch.parent {
        push_main(lane, sections_up_to(sections, parent))?;
    }
    push_code(lane, branch.cells.as_slice())
}

/// The numbers of the cells up to and with the first that has the number; of all where none has.
pub fn numbers_up_to(alloc: Global, cells: &[&Cell], id: CellId) -> Result<Vec<CellId>, AllocError>
    ensures { IfOk result (λ ids. ids.items ≡ numbers_up_to id (seen cells.now)) }
{
    let mut ids = Vec::new(alloc);
    for cell in cells {
        ids.push(cell.id)?;
        if cell.id == id {
            return Ok(ids);
        }
    }
    Ok(ids)
}
