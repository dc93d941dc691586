//! The items that were cut, and what they say of the next.
ghost use Rattle.std.specs.Prelude.{◌≡◌, ◌++◌, ◌∷◌, [], OnOk};
ghost use Rattle.livemd_read.specs.Views.{IsDone, cut_of, item_of};

use crate::items::Item;
use std::alloc::{AllocError, Global};

/// The items that were cut so far. What is kept beside them saves looking at all of them for each
/// line.
#[derive(Debug, Drop)]
pub(crate) struct Done<'a> {
    pub(crate) items: Vec<Item<'a>>,
    /// Only metadata was cut, so that a heading 1 is the name.
    pub(crate) at_name: bool,
    /// Only the name and metadata were cut, so that code is the setup cell.
    pub(crate) at_setup: bool,
    /// Code or a saved output stands last, so that a saved output may follow.
    pub(crate) after_code: bool,
}

impl<'a> Done<'a> {
    /// No items.
    pub(crate) fn new(alloc: Global) -> Done<'a>
        ensures none { cut_of result ≡ [] }
        ensures done { IsDone result }
    {
        Done {
            items: Vec::new(alloc),
            at_name: true,
            at_setup: true,
            after_code: false,
        }
    }

    /// Puts an item at the end.
    pub(crate) fn push(&mut self, item: Item<'a>) -> Result<(), AllocError>
        requires { IsDone self.old }
        ensures items { OnOk result (cut_of self.new ≡ cut_of self.old ++ item_of item.entry ∷ []) }
        ensures done { OnOk result (IsDone self.new) }
    {
        self.at_name = self.at_name && item.is_metadata();
        self.at_setup = self.at_setup && item.is_before_setup();
        self.after_code = item.code_after(self.after_code);
        self.items.push(item)?;
        Ok(())
    }
}
