//! What branch lines and stamps are, by the items after them.
ghost use Rattle.std.specs.Prelude.{◌≡◌, ◌<◌, ◌∷◌, [], List, length, slice_index_or, slice_set};
ghost use Rattle.livemd_format.specs.Items as format;
ghost use Rattle.std.specs.List.{fold};
ghost use Rattle.livemd_format.specs.Made.{notebook_of, notices_of};
ghost use Rattle.livemd_format.specs.Walk.{finished, new_draft, with_item};
ghost use Rattle.livemd_format.specs.Settled.{is_between, is_branch, is_section, settle, settled};
ghost use Rattle.livemd_read.specs.Views.{IsBehind, item_of, views};

use crate::items::Item;
use std::mem;

/// What the items behind one tell it.
#[derive(Clone, Copy, Debug)]
pub(crate) struct Behind {
    /// A section comes next.
    pub(crate) section: bool,
    /// Another branch line stands before what comes next.
    pub(crate) branch: bool,
    /// There are none.
    pub(crate) last: bool,
}

/// Whether the item may stand between a branch line and its section.
fn is_between(item: &Item<'_>) -> bool
    ensures { result ≡ is_between (item_of item.now) }
{
    matches!(
        item,
        Item::Kept(_) | Item::Stamp(_) | Item::Branch { .. } | Item::Misplaced { .. }
    )
}

/// Whether the item is a section.
fn is_section(item: &Item<'_>) -> bool
    ensures { result ≡ is_section (item_of item.now) }
{
    matches!(item, Item::Section(_))
}

/// Whether the item is a branch line.
fn is_branch(item: &Item<'_>) -> bool
    ensures { result ≡ is_branch (item_of item.now) }
{
    matches!(item, Item::Branch { .. })
}

impl Behind {
    /// What nothing tells.
    fn nothing() -> Behind
        ensures { IsBehind result [] }
    {
        Behind {
            section: false,
            branch: false,
            last: true,
        }
    }

    /// What the item tells together with those behind it.
    fn with(self, item: &Item<'_>) -> Behind
        ensures { (is : List format.Item) → IsBehind self is
            → IsBehind result (item_of item.now ∷ is) }
    {
        let between = is_between(item);
        Behind {
            section: (between && self.section) || is_section(item),
            branch: is_branch(item) || (between && self.branch),
            last: false,
        }
    }

    /// What a branch line is.
    fn branch_line<'a>(self, line: u64, index: u64) -> Item<'a>
        ensures { (is : List format.Item) → IsBehind self is
            → item_of result ≡ settle (format.Branch line index) is }
    {
        if !self.section {
            Item::Misplaced { line }
        } else if self.branch {
            Item::Dropped
        } else {
            Item::Branch { line, index }
        }
    }

    /// What a stamp is.
    fn stamp(self, line: &str) -> Item<'_>
        ensures { (is : List format.Item) → IsBehind self is
            → item_of result ≡ settle (format.Stamp line.now) is }
    {
        if self.last {
            Item::Dropped
        } else {
            Item::Kept(line)
        }
    }

    /// The item, settled.
    fn settle<'a>(self, item: Item<'a>) -> Item<'a>
        ensures { (is : List format.Item) → IsBehind self is
            → item_of result ≡ settle (item_of item.entry) is }
    {
        match item {
            Item::Branch { line, index } => self.branch_line(line, index),
            Item::Stamp(line) => self.stamp(line),
            item => item,
        }
    }
}

/// The item at a place; one that is dropped stands there then.
fn take_at<'a>(items: &mut Vec<Item<'a>>, at: usize) -> Item<'a>
    requires { at < length items.old.items }
    ensures value { result ≡ slice_index_or items.old.items at result }
    ensures after { items.new.items ≡ slice_set items.old.items at Item.Dropped }
{
    mem::replace(&mut items[at], Item::Dropped)
}

/// Puts an item at a place, for the one that stands there.
fn put_at<'a>(items: &mut Vec<Item<'a>>, at: usize, item: Item<'a>)
    requires { at < length items.old.items }
    ensures { items.new.items ≡ slice_set items.old.items at item.entry }
{
    items[at] = item;
}

/// The items, settled from the last to the first, each in its place.
fn settle<'a>(mut items: Vec<Item<'a>>) -> Vec<Item<'a>>
    ensures { views result.items ≡ settled (views items.entry.items) }
{
    let mut behind = Behind::nothing();
    let mut at = items.len();
    while at > 0 {
        at -= 1;
        let item = take_at(&mut items, at);
        let before = behind.with(&item);
        put_at(&mut items, at, behind.settle(item));
        behind = before;
    }
    items
}

/// The items of a book, settled: what they make is the notebook and the notices of these items.
pub(crate) fn settled_items<'a>(items: Vec<Item<'a>>) -> Vec<Item<'a>>
    ensures sections { (notebook_of (views items.entry.items)).sections
        ≡ (fold with_item new_draft (views result.items)).parts.sections }
    ensures notebook { notebook_of (views items.entry.items)
        ≡ finished (fold with_item new_draft (views result.items)) }
    ensures notices { notices_of (views items.entry.items)
        ≡ (fold with_item new_draft (views result.items)).notices }
{
    settle(items)
}
