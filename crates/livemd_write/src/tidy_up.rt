//! The tidy form of sections and of the whole notebook.
ghost use Rattle.std.specs.Prelude.{◌≡◌, ◌+◌, ◌<◌, ◌≤◌, ◌^◌, length, map, option_map, IfOk, OnOk};
ghost use Rattle.std.specs.List.{AllByRecursion, flat_map};
ghost use Rattle.notebook.specs.Book.{cells_of, section_cells};
ghost use Rattle.livemd_format.specs.RoundTrip.{AreSectionTexts, AreTexts};
ghost use Rattle.livemd_format.specs.Tidy.{number_from, tidied, tidy_section, tidy_sections};
ghost use Rattle.livemd_write.specs.Told.{told, told_section};
ghost use Rattle.limits.specs.Limits.{most_cells, most_sections};

use crate::cells::{tidy_cell, tidy_cells, tidy_kept};
use crate::texts::tidy_name;
use notebook::{CellId, Parts, Section, SectionId};
use plain_list::Items;
use std::alloc::{AllocError, Global};

/// The number that the section with this one takes.
fn number_of(sections: &[Section], id: SectionId) -> u64
    ensures { result ≡ number_from 1 id sections.now }
{
    let mut number: u64 = 1;
    for section in sections {
        if section.id == id {
            return number;
        }
        number += 1;
    }
    number
}

/// The number that a section's parent takes.
fn parent_of(sections: &[Section], parent: Option<SectionId>) -> Option<u64>
    ensures { result ≡ option_map (λ id. number_from 1 id sections.now) parent }
{
    match parent {
        None => None,
        Some(id) => Some(number_of(sections, id)),
    }
}

/// The section, tidy, with the number, and with its cells numbered from a number on.
fn tidy_section(
    alloc: Global,
    all: &[Section],
    number: SectionId,
    next: CellId,
    section: &Section,
) -> Result<Section, AllocError>
    requires { next + length section.now.cells < 2 ^ 63 }
    ensures tidy { IfOk result (λ s. s ≡ tidy_section all.now number next section.now) }
    ensures characters { OnOk result (AreSectionTexts (told_section section.now)) }
{
    Ok(Section {
        id: number,
        name: tidy_name(alloc, &section.name)?,
        before: tidy_kept(alloc, section.before.as_slice())?,
        parent: parent_of(all, section.parent),
        cells: tidy_cells(alloc, next, section.cells.as_slice())?,
    })
}

/// The sections, tidy, they and their cells numbered from 1 on.
fn tidy_sections(alloc: Global, all: &[Section]) -> Result<Items<Section>, AllocError>
    requires sections { length all.now ≤ most_sections }
    requires cells { length (flat_map cells_of all.now) ≤ most_cells }
    ensures tidy { IfOk result (λ ss. ss ≡ tidy_sections all.now 1 1 all.now) }
    ensures characters { OnOk result (AllByRecursion AreSectionTexts (map told_section all.now)) }
{
    let mut out = Items::new(alloc);
    let mut number: u64 = 1;
    let mut next: u64 = 1;
    for section in all {
        let tidy = tidy_section(alloc, all, number, next, section)?;
        number += 1;
        next += tidy.cells.len() as u64;
        out.push(tidy)?;
    }
    Ok(out)
}

/// How many cells the sections have.
fn cell_count(sections: &[Section]) -> u64
    requires { length (flat_map cells_of sections.now) ≤ most_cells }
    ensures { result ≡ length (flat_map cells_of sections.now) }
{
    let mut count: u64 = 0;
    for section in sections {
        count += section.cells.len() as u64;
    }
    count
}

/// The parts of a notebook, tidy.
pub(crate) fn tidied(alloc: Global, book: &Parts) -> Result<Parts, AllocError>
    requires sections { length book.now.sections ≤ most_sections }
    requires cells { length (section_cells book.now) ≤ most_cells }
    requires number { book.now.setup.id ≡ 0 }
    ensures tidy { IfOk result (λ n. n ≡ tidied book.now) }
    ensures characters { OnOk result (AreTexts (told book.now)) }
{
    let sections = tidy_sections(alloc, book.sections.as_slice())?;
    let next_cell = cell_count(sections.as_slice()) + 1;
    let next_section = sections.len() as u64 + 1;
    Ok(Parts {
        name: tidy_name(alloc, &book.name)?,
        before: tidy_kept(alloc, book.before.as_slice())?,
        setup: tidy_cell(alloc, 0, &book.setup)?,
        sections,
        bin: Items::new(alloc),
        after: tidy_kept(alloc, book.after.as_slice())?,
        next_cell,
        next_section,
    })
}
