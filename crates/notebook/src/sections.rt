//! What is asked of the sections before a change.
ghost use Rattle.std.specs.Prelude.{◌≡◌, ◌+◌, ◌^◌, ◌<◌, ◌≤◌, ◌&&◌, not, true, nat_lt, if◌then◌else◌, MatchOption, Some, length, slice_get, insert, remove, take};
ghost use Rattle.std.specs.List.{flat_map, list_any};
ghost use Rattle.notebook.specs.declared.parts.Section.{Section};
ghost use Rattle.notebook.specs.Book.{cells_of};
ghost use Rattle.notebook.specs.Flow.{is_section};
ghost use Rattle.notebook.specs.Rules.{IsNotebook, code_count, code_weight};
ghost use Rattle.notebook.specs.Change.{lacks, branches_from, has_branches, is_full, parents_first, stands_after};
ghost use Rattle.notebook.specs.Places.{IsSectionAt, AreOrdered};

use crate::parts::{Cell, Kind, Parts, Section, SectionId};
use limits::{MOST_CELLS, MOST_CODE_CELLS};

/// The place of the first of some sections that has the number.
pub fn section_at(sections: &[Section], id: SectionId) -> Option<usize>
    ensures { MatchOption result (lacks id sections.now ≡ true) (IsSectionAt sections.now id) }
{
    for (at, section) in sections.iter().enumerate() {
        if section.id == id {
            return Some(at);
        }
    }
    None
}

/// Whether one of some sections has the number.
fn has_section(sections: &[Section], id: SectionId) -> bool
    ensures { result ≡ list_any (is_section id) sections.now }
{
    sections.iter().any(|section| section.id == id)
}

/// Whether the section branches from that of the number.
fn branches_from(section: &Section, id: SectionId) -> bool
    ensures { result ≡ branches_from id section.now }
{
    match section.parent {
        None => false,
        Some(parent) => parent == id,
    }
}

/// Whether one of some sections branches from that of the number.
pub fn has_branches(sections: &[Section], id: SectionId) -> bool
    ensures { result ≡ has_branches id sections.now }
{
    sections.iter().any(|section| branches_from(section, id))
}

/// Whether the parent, if there is one, is among some sections.
fn stands_after(before: &[Section], parent: Option<SectionId>) -> bool
    ensures { result ≡ stands_after before.now parent }
{
    match parent {
        None => true,
        Some(parent) => has_section(before, parent),
    }
}

/// How many of the sections stand before an index among all but that at the place, with that one where
/// it stands between them.
fn end_before(at: usize, index: usize) -> usize
    requires { index < 2 ^ 63 }
    ensures { result ≡ (if nat_lt at index then index + 1 else index) }
{
    if at < index { index + 1 } else { index }
}

/// Whether the section at the place may stand at the index among the others: after its parent, and
/// before its branches.
pub fn may_stand(sections: &[Section], at: usize, index: usize) -> bool
    requires place { at < length sections.now }
    requires index { index < length sections.now }
    requires few { length sections.now ≤ 1000 }
    requires ordered { AreOrdered sections.now }
    ensures { (s : Section) → slice_get sections.now at ≡ Some s
        → result ≡ parents_first (insert (remove sections.now at) index s) }
{
    let before = &sections[..end_before(at, index)];
    let section = &sections[at];
    stands_after(before, section.parent) && !has_branches(before, section.id)
}

/// How many cells some sections have.
fn cell_count(sections: &[Section]) -> usize
    requires { length (flat_map cells_of sections.now) ≤ 4000 }
    ensures { result ≡ length (flat_map cells_of sections.now) }
{
    let mut count = 0;
    for section in sections {
        count += section.cells.len();
    }
    count
}

/// How many of some cells are code.
fn code_count(cells: &[Cell]) -> usize
    requires { code_count cells.now ≤ 1000 }
    ensures { result ≡ code_count cells.now }
{
    let mut count = 0;
    for cell in cells {
        if cell.is_code() {
            count += 1;
        }
    }
    count
}

/// How many code cells some sections have.
fn section_code_count(sections: &[Section]) -> usize
    requires { code_count (flat_map cells_of sections.now) ≤ 1000 }
    ensures { result ≡ code_count (flat_map cells_of sections.now) }
{
    let mut count = 0;
    for section in sections {
        count += code_count(section.cells.as_slice());
    }
    count
}

/// Whether one cell more of the kind would pass a limit.
pub fn is_full(parts: &Parts, kind: Kind) -> bool
    requires { IsNotebook parts.now }
    ensures { result ≡ is_full parts.now kind }
{
    let sections = parts.sections.as_slice();
    if cell_count(sections) >= MOST_CELLS {
        return true;
    }
    match kind {
        Kind::Code => section_code_count(sections) >= MOST_CODE_CELLS,
        Kind::Setup | Kind::Markdown => false,
    }
}
