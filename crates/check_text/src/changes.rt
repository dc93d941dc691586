//! Changes of a notebook's structure and their refusals, over one small book (`notebook`).
use Ask::{
    DeleteCell, DeleteSection, MoveCell, MoveSection, Name, NameSection, PutCell, PutSection,
    Restore, SetParent,
};
use notebook::{
    Cell, CellId, CellKind, Change, Changed, NoteError, Notebook, Parts, Section, SectionId,
};
use std::alloc::Global;
use utf16_text::Text;

/// A change, as rows have it, in the order of its fields; new sections are named `S`.
pub enum Ask {
    Name(&'static str),
    PutSection(u64),
    NameSection(SectionId, &'static str),
    DeleteSection(SectionId),
    MoveSection(SectionId, u64),
    SetParent(SectionId, Option<SectionId>),
    PutCell(SectionId, u64, CellKind),
    DeleteCell(CellId),
    Restore(CellId, SectionId, u64),
    MoveCell(CellId, SectionId, u64),
}

fn change_of(alloc: Global, ask: &Ask) -> Result<Change, NoteError> {
    Ok(match *ask {
        Name(name) => Change::SetName {
            name: Text::of(alloc, name)?,
        },
        PutSection(index) => Change::InsertSection {
            index,
            name: Text::of(alloc, "S")?,
        },
        NameSection(section, name) => Change::SetSectionName {
            section,
            name: Text::of(alloc, name)?,
        },
        DeleteSection(section) => Change::DeleteSection { section },
        MoveSection(section, index) => Change::MoveSection { section, index },
        SetParent(section, parent) => Change::SetParent { section, parent },
        PutCell(section, index, kind) => Change::InsertCell {
            section,
            index,
            kind,
        },
        DeleteCell(cell) => Change::DeleteCell { cell },
        Restore(cell, section, index) => Change::RestoreCell {
            cell,
            section,
            index,
        },
        MoveCell(cell, section, index) => Change::MoveCell {
            cell,
            section,
            index,
        },
    })
}

/// A change of a book whose next numbers are small.
fn change(alloc: Global, book: &mut Notebook, ask: &Ask) -> Result<Changed, NoteError> {
    let parts = book.parts();
    if parts.next_cell > 10_000 || parts.next_section > 10_000 {
        return Err(NoteError::OutOfMemory);
    }
    book.change(alloc, change_of(alloc, ask)?)
}

pub fn change_all(alloc: Global, book: &mut Notebook, asks: &[Ask]) -> Option<()> {
    for ask in asks {
        change(alloc, book, ask).ok()?;
    }
    Some(())
}

/// A row that is tried on a new notebook.
pub trait BookRow {
    /// Whether the calls answer as wanted. None where one was refused.
    fn is_as_wanted_of(&self, alloc: Global, book: &mut Notebook) -> Option<bool>;
}

fn is_as_wanted<R: BookRow>(alloc: Global, row: &R) -> Option<bool> {
    match Notebook::untitled(alloc) {
        Ok(mut book) => row.is_as_wanted_of(alloc, &mut book),
        Err(_) => None,
    }
}

/// The number of the first row that isn't as wanted, counted from 1; 0 where all rows are. None where
/// a call was refused.
pub fn first_wrong_book<R: BookRow>(alloc: Global, rows: &[R]) -> Option<usize> {
    for (at, row) in rows.iter().enumerate() {
        if !is_as_wanted(alloc, row)? {
            return Some(at + 1);
        }
    }
    Some(0)
}

/// A section with the cells 1 and 2, two branches of it, of which the first has the cell 3, and a
/// section with the cells 4 and 5; the cell 6 was deleted.
const SMALL: &[Ask] = &[
    PutSection(0),
    PutSection(1),
    PutSection(2),
    PutSection(3),
    SetParent(2, Some(1)),
    SetParent(3, Some(1)),
    PutCell(1, 0, CellKind::Code),
    PutCell(1, 1, CellKind::Markdown),
    PutCell(2, 0, CellKind::Code),
    PutCell(4, 0, CellKind::Code),
    PutCell(4, 1, CellKind::Code),
    PutCell(4, 0, CellKind::Code),
    DeleteCell(6),
];

/// Three sections, of which the last branches from the second.
const BRANCH: &[Ask] = &[
    PutSection(0),
    PutSection(1),
    PutSection(2),
    SetParent(3, Some(2)),
];

fn push_cells(numbers: &mut Vec<u64>, cells: &[Cell]) -> Option<()> {
    for cell in cells {
        numbers.push(cell.id).ok()?;
    }
    Some(())
}

fn push_section(numbers: &mut Vec<u64>, section: &Section) -> Option<()> {
    numbers.push(section.id.wrapping_add(100)).ok()?;
    push_cells(numbers, section.cells.as_slice())
}

fn push_parts(numbers: &mut Vec<u64>, parts: &Parts) -> Option<()> {
    for section in parts.sections.as_slice() {
        push_section(numbers, section)?;
    }
    numbers.push(100).ok()?;
    push_cells(numbers, parts.bin.as_slice())
}

/// Whether a book has the outline: each section's number and 100, before the numbers of its cells;
/// then 100 and those of the bin.
fn has_outline(alloc: Global, book: &Notebook, wanted: &[u64]) -> Option<bool> {
    let mut numbers = Vec::new(alloc);
    push_parts(&mut numbers, book.parts())?;
    Some(numbers.as_slice() == wanted)
}

/// Changes that make a book, changes of it, and its outline then.
pub struct Made(&'static [Ask], &'static [Ask], &'static [u64]);

pub const MADE: &[Made] = &[
    Made(SMALL, &[], &[101, 1, 2, 102, 3, 103, 104, 4, 5, 100, 6]),
    Made(
        SMALL,
        &[PutSection(0)],
        &[105, 101, 1, 2, 102, 3, 103, 104, 4, 5, 100, 6],
    ),
    Made(
        SMALL,
        &[DeleteSection(4)],
        &[101, 1, 2, 102, 3, 103, 100, 6, 4, 5],
    ),
    Made(
        SMALL,
        &[MoveSection(4, 0)],
        &[104, 4, 5, 101, 1, 2, 102, 3, 103, 100, 6],
    ),
    Made(
        SMALL,
        &[MoveSection(2, 3)],
        &[101, 1, 2, 103, 104, 4, 5, 102, 3, 100, 6],
    ),
    Made(
        SMALL,
        &[DeleteCell(1)],
        &[101, 2, 102, 3, 103, 104, 4, 5, 100, 6, 1],
    ),
    Made(
        SMALL,
        &[Restore(6, 3, 0)],
        &[101, 1, 2, 102, 3, 103, 7, 104, 4, 5, 100],
    ),
    Made(
        SMALL,
        &[MoveCell(4, 4, 1)],
        &[101, 1, 2, 102, 3, 103, 104, 5, 4, 100, 6],
    ),
    Made(
        SMALL,
        &[MoveCell(2, 4, 2)],
        &[101, 1, 102, 3, 103, 104, 4, 5, 2, 100, 6],
    ),
    Made(BRANCH, &[SetParent(2, None)], &[101, 102, 103, 100]),
];

impl BookRow for Made {
    fn is_as_wanted_of(&self, alloc: Global, book: &mut Notebook) -> Option<bool> {
        change_all(alloc, book, self.0)?;
        change_all(alloc, book, self.1)?;
        has_outline(alloc, book, self.2)
    }
}

fn is_refused(alloc: Global, book: &mut Notebook, ask: &Ask, cause: NoteError) -> bool {
    match change(alloc, book, ask) {
        Ok(_) => false,
        Err(found) => found == cause,
    }
}

/// A book, a change that it refuses, and the cause.
pub struct Refused(&'static [Ask], Ask, NoteError);

pub const REFUSED: &[Refused] = &[
    Refused(SMALL, SetParent(4, Some(4)), NoteError::BadParent),
    Refused(SMALL, SetParent(4, Some(2)), NoteError::BadParent),
    Refused(SMALL, SetParent(4, Some(9)), NoteError::NoSection),
    Refused(SMALL, MoveSection(2, 0), NoteError::BadParent),
    Refused(SMALL, MoveSection(1, 1), NoteError::BadParent),
    Refused(SMALL, DeleteSection(1), NoteError::HasBranches),
    Refused(BRANCH, SetParent(2, Some(1)), NoteError::HasBranches),
    Refused(SMALL, PutSection(5), NoteError::BadIndex { len: 4 }),
    Refused(SMALL, MoveSection(4, 4), NoteError::BadIndex { len: 3 }),
    Refused(
        SMALL,
        PutCell(2, 2, CellKind::Code),
        NoteError::BadIndex { len: 1 },
    ),
    Refused(SMALL, MoveCell(4, 4, 2), NoteError::BadIndex { len: 1 }),
    Refused(SMALL, DeleteCell(0), NoteError::NoCell),
    Refused(SMALL, DeleteCell(6), NoteError::NoCell),
    Refused(SMALL, Restore(1, 1, 0), NoteError::NoCell),
    Refused(SMALL, MoveCell(1, 9, 7), NoteError::NoSection),
];

impl BookRow for Refused {
    fn is_as_wanted_of(&self, alloc: Global, book: &mut Notebook) -> Option<bool> {
        change_all(alloc, book, self.0)?;
        Some(is_refused(alloc, book, &self.1, self.2))
    }
}

/// Changes of the small book, its name then, and that of its third section.
pub struct Named(&'static [Ask], &'static str, &'static str);

pub const NAMED: &[Named] = &[Named(&[Name("B"), NameSection(3, "N")], "B", "N")];

fn is_third_named(sections: &[Section], wanted: &str) -> bool {
    match sections.get(2) {
        Some(section) => section.name.as_str() == wanted,
        None => false,
    }
}

fn are_named(parts: &Parts, book: &str, section: &str) -> bool {
    parts.name.as_str() == book && is_third_named(parts.sections.as_slice(), section)
}

impl BookRow for Named {
    fn is_as_wanted_of(&self, alloc: Global, book: &mut Notebook) -> Option<bool> {
        change_all(alloc, book, SMALL)?;
        change_all(alloc, book, self.0)?;
        Some(are_named(book.parts(), self.1, self.2))
    }
}

/// Changes of a new book, a change that is then made a thousand times, more changes, and the one that
/// is refused.
pub struct Limit {
    first: &'static [Ask],
    often: Ask,
    then: &'static [Ask],
    last: Ask,
    cause: NoteError,
}

pub const LIMITS: &[Limit] = &[
    Limit {
        first: &[],
        often: PutSection(0),
        then: &[],
        last: PutSection(0),
        cause: NoteError::TooManySections,
    },
    Limit {
        first: &[PutSection(0)],
        often: PutCell(1, 0, CellKind::Code),
        then: &[PutCell(1, 0, CellKind::Markdown)],
        last: PutCell(1, 0, CellKind::Code),
        cause: NoteError::TooManyCells,
    },
];

fn change_often(alloc: Global, book: &mut Notebook, ask: &Ask) -> Option<()> {
    for _ in 0..1000 {
        change(alloc, book, ask).ok()?;
    }
    Some(())
}

impl BookRow for Limit {
    fn is_as_wanted_of(&self, alloc: Global, book: &mut Notebook) -> Option<bool> {
        change_all(alloc, book, self.first)?;
        change_often(alloc, book, &self.often)?;
        change_all(alloc, book, self.then)?;
        Some(is_refused(alloc, book, &self.last, self.cause))
    }
}
