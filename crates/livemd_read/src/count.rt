//! How many sections and cells items make.
ghost use Rattle.std.specs.Prelude.{◌≡◌, ◌+◌, ◌^◌, ◌<◌, ◌≤◌, length};
ghost use Rattle.std.specs.List.{fold};
ghost use Rattle.notebook.specs.Book.{section_cells};
ghost use Rattle.notebook.specs.Rules.{code_count};
ghost use Rattle.livemd_format.specs.Walk.{new_draft, with_item, Draft};
ghost use Rattle.livemd_read.specs.Views.{item_of, views};

use crate::items::Item;

/// How many sections a notebook with so many has after an item.
fn sections_with(count: usize, item: &Item<'_>) -> usize
    requires { count < 2 ^ 63 }
    ensures bound { result ≤ count + 1 }
    ensures value { (d : Draft) → length d.parts.sections ≡ count
        → length (with_item d (item_of item.now)).parts.sections ≡ result }
{
    match item {
        Item::Section(_) => count + 1,
        Item::Code(_) | Item::Markdown(_) => count.max(1),
        _ => count,
    }
}

/// How many cells a notebook with so many has in its sections after an item.
fn cells_with(count: usize, item: &Item<'_>) -> usize
    requires { count < 2 ^ 63 }
    ensures bound { result ≤ count + 1 }
    ensures value { (d : Draft) → length (section_cells d.parts) ≡ count
        → length (section_cells (with_item d (item_of item.now)).parts) ≡ result }
{
    match item {
        Item::Code(_) | Item::Markdown(_) => count + 1,
        _ => count,
    }
}

/// How many code cells a notebook with so many has in its sections after an item.
fn code_cells_with(count: usize, item: &Item<'_>) -> usize
    requires { count < 2 ^ 63 }
    ensures bound { result ≤ count + 1 }
    ensures value { (d : Draft) → code_count (section_cells d.parts) ≡ count
        → code_count (section_cells (with_item d (item_of item.now)).parts) ≡ result }
{
    match item {
        Item::Code(_) => count + 1,
        _ => count,
    }
}

/// How many sections the notebook of settled items has.
pub(crate) fn section_count(items: &[Item<'_>]) -> usize
    ensures { result ≡ length (fold with_item new_draft (views items.now)).parts.sections }
{
    let mut count: usize = 0;
    for item in items {
        count = sections_with(count, item);
    }
    count
}

/// How many cells the notebook of settled items has in its sections.
pub(crate) fn cell_count(items: &[Item<'_>]) -> usize
    ensures { result ≡ length (section_cells (fold with_item new_draft (views items.now)).parts) }
{
    let mut count: usize = 0;
    for item in items {
        count = cells_with(count, item);
    }
    count
}

/// How many code cells the notebook of settled items has in its sections.
pub(crate) fn code_cell_count(items: &[Item<'_>]) -> usize
    ensures { result ≡ code_count
        (section_cells (fold with_item new_draft (views items.now)).parts) }
{
    let mut count: usize = 0;
    for item in items {
        count = code_cells_with(count, item);
    }
    count
}
