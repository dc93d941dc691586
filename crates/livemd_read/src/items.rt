//! The items of a book.
ghost use Rattle.std.specs.Prelude.{◌≡◌};
ghost use Rattle.livemd_format.specs.Items.{code_after, is_before_setup, is_metadata};
ghost use Rattle.livemd_read.specs.Views.{item_of};

/// One item of a book. Lines are counted from 1.
#[derive(Debug, Drop)]
pub(crate) enum Item<'a> {
    Name(&'a str),
    Section(&'a str),
    /// The setup cell with its source.
    Setup(String),
    /// A code cell with its source.
    Code(String),
    /// A Markdown cell with its source.
    Markdown(String),
    /// An output that the book holds.
    Saved { info: &'a str, text: String },
    /// An unknown metadata line.
    Kept(&'a str),
    /// A metadata line that is dropped if only blank lines follow it, and kept otherwise.
    Stamp(&'a str),
    /// A line that says from which section the next one branches, by an index from 0.
    Branch { line: u64, index: u64 },
    Dropped,
    /// A line that applies to nothing.
    Misplaced { line: u64 },
}

impl Item<'_> {
    /// Whether it is a metadata line alone.
    pub(crate) fn is_metadata(&self) -> bool
        ensures { result ≡ is_metadata (item_of self.now) }
    {
        matches!(
            self,
            Item::Kept(_)
                | Item::Stamp(_)
                | Item::Branch { .. }
                | Item::Dropped
                | Item::Misplaced { .. }
        )
    }

    /// Whether it may stand before the setup cell.
    pub(crate) fn is_before_setup(&self) -> bool
        ensures { result ≡ is_before_setup (item_of self.now) }
    {
        matches!(self, Item::Name(_)) || self.is_metadata()
    }

    /// Whether code or a saved output stands last after it, by whether it did before.
    pub(crate) fn code_after(&self, before: bool) -> bool
        ensures { result ≡ code_after before (item_of self.now) }
    {
        match self {
            Item::Setup(_) | Item::Code(_) | Item::Saved { .. } => true,
            Item::Misplaced { .. } => before,
            _ => false,
        }
    }
}
