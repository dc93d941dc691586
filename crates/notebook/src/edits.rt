//! The changes of a notebook's parts, one by one. Each checks its refusals in their order before it
//! changes anything.
ghost use Rattle.std.specs.Prelude.{◌≡◌, ◌^◌, ◌<◌, Some, None};
ghost use Rattle.notebook.specs.Rules.{IsNotebook};
ghost use Rattle.notebook.specs.Change.{IsAnswered};
ghost use Rattle.notebook.specs.Places.{IsPlace, IsSectionAt};
ghost use Rattle.notebook.specs.declared.change.Change.TheVariants.{InsertSection, SetSectionName, DeleteSection, MoveSection, SetParent, InsertCell, DeleteCell, RestoreCell, MoveCell};

use crate::cells::{Place, place_in, place_of};
use crate::change::{CellKind, Change, Changed, NoteError};
use crate::lists::{insert, pour, remove, shift, transfer};
use crate::parts::{Cell, CellId, Parts, Section, SectionId};
use crate::sections::{has_branches, is_full, may_stand, section_at};
use limits::MOST_SECTIONS;
use plain_list::Items;
use std::alloc::Global;
use std::mem;
use utf16_text::Text;

/// Makes the change, or tells why it can't be made and leaves the parts as they are.
pub fn make(parts: &mut Parts, alloc: Global, asked: Change) -> Result<Changed, NoteError>
    requires rules { IsNotebook parts.old }
    requires cells { parts.old.next_cell < 2 ^ 63 }
    requires sections { parts.old.next_section < 2 ^ 63 }
    ensures { IsAnswered parts.old asked parts.new result }
{
    match asked {
        Change::SetName { name } => {
            parts.name = name;
            Ok(Changed::Plain)
        }
        Change::InsertSection { index, name } => insert_section(parts, alloc, index, name),
        Change::SetSectionName { section, name } => set_section_name(parts, section, name),
        Change::DeleteSection { section } => delete_section(parts, alloc, section),
        Change::MoveSection { section, index } => move_section(parts, alloc, section, index),
        Change::SetParent { section, parent } => match parent {
            None => set_no_parent(parts, section),
            Some(parent) => set_parent(parts, section, parent),
        },
        Change::InsertCell {
            section,
            index,
            kind,
        } => insert_cell(parts, alloc, section, index, kind),
        Change::DeleteCell { cell } => delete_cell(parts, alloc, cell),
        Change::RestoreCell {
            cell,
            section,
            index,
        } => restore_cell(parts, alloc, cell, section, index),
        Change::MoveCell {
            cell,
            section,
            index,
        } => move_cell(parts, alloc, cell, section, index),
    }
}

/// Puts a new section at the index.
fn insert_section(
    parts: &mut Parts,
    alloc: Global,
    index: u64,
    name: Text,
) -> Result<Changed, NoteError>
    requires rules { IsNotebook parts.old }
    requires next { parts.old.next_section < 2 ^ 63 }
    ensures { IsAnswered parts.old (InsertSection index name) parts.new result }
{
    let len = parts.sections.len();
    if index > len as u64 {
        return Err(NoteError::BadIndex { len: len as u64 });
    }
    if len >= MOST_SECTIONS {
        return Err(NoteError::TooManySections);
    }
    let id = parts.next_section;
    let section = Section {
        id,
        name,
        before: Items::new(alloc),
        parent: None,
        cells: Items::new(alloc),
    };
    if insert(&mut parts.sections, alloc, index as usize, section).is_err() {
        return Err(NoteError::OutOfMemory);
    }
    parts.next_section = id + 1;
    Ok(Changed::NewSection { section: id })
}

/// Gives a section a name.
fn set_section_name(parts: &mut Parts, section: SectionId, name: Text) -> Result<Changed, NoteError>
    requires { IsNotebook parts.old }
    ensures { IsAnswered parts.old (SetSectionName section name) parts.new result }
{
    let Some(at) = section_at(parts.sections.as_slice(), section) else {
        return Err(NoteError::NoSection);
    };
    parts.sections.item_mut(at).name = name;
    Ok(Changed::Plain)
}

/// Takes a section out; its cells go to the bin.
fn delete_section(
    parts: &mut Parts,
    alloc: Global,
    section: SectionId,
) -> Result<Changed, NoteError>
    requires { IsNotebook parts.old }
    ensures { IsAnswered parts.old (DeleteSection section) parts.new result }
{
    let Some(at) = section_at(parts.sections.as_slice(), section) else {
        return Err(NoteError::NoSection);
    };
    if has_branches(parts.sections.as_slice(), section) {
        return Err(NoteError::HasBranches);
    }
    let cells = &mut parts.sections.item_mut(at).cells;
    if pour(alloc, cells, &mut parts.bin).is_err() {
        return Err(NoteError::OutOfMemory);
    }
    let _empty = remove(&mut parts.sections, alloc, at);
    Ok(Changed::Plain)
}

/// Takes a section out and puts it at the index.
fn move_section(
    parts: &mut Parts,
    alloc: Global,
    section: SectionId,
    index: u64,
) -> Result<Changed, NoteError>
    requires { IsNotebook parts.old }
    ensures { IsAnswered parts.old (MoveSection section index) parts.new result }
{
    let Some(at) = section_at(parts.sections.as_slice(), section) else {
        return Err(NoteError::NoSection);
    };
    let others = parts.sections.len() - 1;
    if index > others as u64 {
        return Err(NoteError::BadIndex { len: others as u64 });
    }
    let index = index as usize;
    if !may_stand(parts.sections.as_slice(), at, index) {
        return Err(NoteError::BadParent);
    }
    shift(&mut parts.sections, alloc, at, index);
    Ok(Changed::Plain)
}

/// Lets a section branch from none.
fn set_no_parent(parts: &mut Parts, section: SectionId) -> Result<Changed, NoteError>
    requires { IsNotebook parts.old }
    ensures { IsAnswered parts.old (SetParent section None) parts.new result }
{
    let Some(at) = section_at(parts.sections.as_slice(), section) else {
        return Err(NoteError::NoSection);
    };
    parts.sections.item_mut(at).parent = None;
    Ok(Changed::Plain)
}

/// Lets a section branch from an earlier one.
fn set_parent(
    parts: &mut Parts,
    section: SectionId,
    parent: SectionId,
) -> Result<Changed, NoteError>
    requires { IsNotebook parts.old }
    ensures { IsAnswered parts.old (SetParent section (Some parent)) parts.new result }
{
    let sections = parts.sections.as_slice();
    let Some(at) = section_at(sections, section) else {
        return Err(NoteError::NoSection);
    };
    let Some(from) = section_at(sections, parent) else {
        return Err(NoteError::NoSection);
    };
    if from >= at {
        return Err(NoteError::BadParent);
    }
    if sections[from].parent.is_some() {
        return Err(NoteError::BadParent);
    }
    if has_branches(sections, section) {
        return Err(NoteError::HasBranches);
    }
    parts.sections.item_mut(at).parent = Some(parent);
    Ok(Changed::Plain)
}

/// Puts a new cell at the index of a section.
fn insert_cell(
    parts: &mut Parts,
    alloc: Global,
    section: SectionId,
    index: u64,
    kind: CellKind,
) -> Result<Changed, NoteError>
    requires rules { IsNotebook parts.old }
    requires next { parts.old.next_cell < 2 ^ 63 }
    ensures { IsAnswered parts.old (InsertCell section index kind) parts.new result }
{
    let Some(at) = section_at(parts.sections.as_slice(), section) else {
        return Err(NoteError::NoSection);
    };
    let len = parts.sections.as_slice()[at].cells.len();
    if index > len as u64 {
        return Err(NoteError::BadIndex { len: len as u64 });
    }
    let kind = kind.kind();
    if is_full(parts, kind) {
        return Err(NoteError::TooManyCells);
    }
    let id = parts.next_cell;
    let cell = Cell {
        id,
        kind,
        source: Text::new(alloc),
        before: Items::new(alloc),
        saved: Items::new(alloc),
    };
    let cells = &mut parts.sections.item_mut(at).cells;
    if insert(cells, alloc, index as usize, cell).is_err() {
        return Err(NoteError::OutOfMemory);
    }
    parts.next_cell = id + 1;
    Ok(Changed::NewCell { cell: id })
}

/// Takes a cell out of its section, to the bin's end.
fn delete_cell(parts: &mut Parts, alloc: Global, cell: CellId) -> Result<Changed, NoteError>
    requires { IsNotebook parts.old }
    ensures { IsAnswered parts.old (DeleteCell cell) parts.new result }
{
    let Some(place) = place_of(parts.sections.as_slice(), cell) else {
        return Err(NoteError::NoCell);
    };
    let end = parts.bin.len();
    let cells = &mut parts.sections.item_mut(place.section).cells;
    if transfer(alloc, cells, place.cell, &mut parts.bin, end).is_err() {
        return Err(NoteError::OutOfMemory);
    }
    Ok(Changed::Plain)
}

/// Takes a cell out of the bin and puts it at the index of a section, under a new number.
fn restore_cell(
    parts: &mut Parts,
    alloc: Global,
    cell: CellId,
    section: SectionId,
    index: u64,
) -> Result<Changed, NoteError>
    requires rules { IsNotebook parts.old }
    requires next { parts.old.next_cell < 2 ^ 63 }
    ensures { IsAnswered parts.old (RestoreCell cell section index) parts.new result }
{
    let Some(from) = place_in(parts.bin.as_slice(), cell) else {
        return Err(NoteError::NoCell);
    };
    let Some(at) = section_at(parts.sections.as_slice(), section) else {
        return Err(NoteError::NoSection);
    };
    let len = parts.sections.as_slice()[at].cells.len();
    if index > len as u64 {
        return Err(NoteError::BadIndex { len: len as u64 });
    }
    let index = index as usize;
    let kind = parts.bin.as_slice()[from].kind;
    if is_full(parts, kind) {
        return Err(NoteError::TooManyCells);
    }
    let id = parts.next_cell;
    let cells = &mut parts.sections.item_mut(at).cells;
    if transfer(alloc, &mut parts.bin, from, cells, index).is_err() {
        return Err(NoteError::OutOfMemory);
    }
    parts.sections.item_mut(at).cells.item_mut(index).id = id;
    parts.next_cell = id + 1;
    Ok(Changed::NewCell { cell: id })
}

/// Takes a cell out of its section and puts it at the index of a section.
fn move_cell(
    parts: &mut Parts,
    alloc: Global,
    cell: CellId,
    section: SectionId,
    index: u64,
) -> Result<Changed, NoteError>
    requires { IsNotebook parts.old }
    ensures { IsAnswered parts.old (MoveCell cell section index) parts.new result }
{
    let Some(place) = place_of(parts.sections.as_slice(), cell) else {
        return Err(NoteError::NoCell);
    };
    let Some(at) = section_at(parts.sections.as_slice(), section) else {
        return Err(NoteError::NoSection);
    };
    if place.section == at {
        return move_within(parts, alloc, cell, section, place, index);
    }
    let len = parts.sections.as_slice()[at].cells.len();
    if index > len as u64 {
        return Err(NoteError::BadIndex { len: len as u64 });
    }
    let mut cells = mem::replace(
        &mut parts.sections.item_mut(place.section).cells,
        Items::new(alloc),
    );
    let target = &mut parts.sections.item_mut(at).cells;
    let moved = transfer(alloc, &mut cells, place.cell, target, index as usize);
    parts.sections.item_mut(place.section).cells = cells;
    if moved.is_err() {
        return Err(NoteError::OutOfMemory);
    }
    Ok(Changed::Plain)
}

/// The same where the cell stays in its section.
fn move_within(
    parts: &mut Parts,
    alloc: Global,
    cell: CellId,
    section: SectionId,
    place: Place,
    index: u64,
) -> Result<Changed, NoteError>
    requires rules { IsNotebook parts.old }
    requires place { IsPlace parts.old.sections cell place.section place.cell }
    requires section { IsSectionAt parts.old.sections section place.section }
    ensures { IsAnswered parts.old (MoveCell cell section index) parts.new result }
{
    let others = parts.sections.as_slice()[place.section].cells.len() - 1;
    if index > others as u64 {
        return Err(NoteError::BadIndex { len: others as u64 });
    }
    let cells = &mut parts.sections.item_mut(place.section).cells;
    shift(cells, alloc, place.cell, index as usize);
    Ok(Changed::Plain)
}
