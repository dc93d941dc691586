//! Where a cell stands among the sections.
ghost use Rattle.std.specs.Prelude.{◌≡◌, ◌↔◌, IsTrue, MatchOption};
ghost use Rattle.std.specs.Bool.{OnFalse};
ghost use Rattle.std.specs.List.{flat_map};
ghost use Rattle.notebook.specs.Book.{cells_of, found, IsLive, with_source};
ghost use Rattle.notebook.specs.Rules.{IsNotebook};
ghost use Rattle.notebook.specs.Places.{IsCellAt, IsPlace};

use crate::parts::{Cell, CellId, Parts, Section};
use utf16_text::Text;

/// The place of a cell: its section's among the sections, and its own in the section, each from 0.
#[derive(Clone, Copy, Debug)]
pub struct Place {
    pub section: usize,
    pub cell: usize,
}

/// The place of the first of some cells that has the number.
pub fn place_in(cells: &[Cell], id: CellId) -> Option<usize>
    ensures { MatchOption result (found id cells.now ≡ None) (IsCellAt cells.now id) }
{
    for (at, cell) in cells.iter().enumerate() {
        if cell.id == id {
            return Some(at);
        }
    }
    None
}

/// The place of the first cell of some sections that has the number.
pub fn place_of(sections: &[Section], id: CellId) -> Option<Place>
    ensures { MatchOption result
        (found id (flat_map cells_of sections.now) ≡ None)
        (λ p. IsPlace sections.now id p.section p.cell) }
{
    for (section, it) in sections.iter().enumerate() {
        if let Some(cell) = place_in(it.cells.as_slice(), id) {
            return Some(Place { section, cell });
        }
    }
    None
}

/// Gives the live cell of the number the source, and says whether there is one. It takes no memory.
pub fn set_source(parts: &mut Parts, id: CellId, source: Text) -> bool
    requires { IsNotebook parts.old }
    ensures live { IsTrue result ↔ IsLive parts.old id }
    ensures set { parts.new ≡ with_source id source parts.old }
    ensures otherwise { OnFalse result (parts.new ≡ parts.old) }
{
    if parts.setup.id == id {
        parts.setup.source = source;
        return true;
    }
    match place_of(parts.sections.as_slice(), id) {
        Some(place) => {
            let section = parts.sections.item_mut(place.section);
            let cell = section.cells.item_mut(place.cell);
            cell.source = source;
            true
        }
        None => false,
    }
}
