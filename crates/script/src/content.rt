//! What a script consists of.
use crate::line::ScriptLine;
use plain_list::Items;
use utf16_text::Text;

/// The names and the lines of a script. Lines that are skipped aren't kept.
#[derive(Debug, Drop)]
pub struct Content {
    /// The clients' names in the order in which they first stand; a client's number is the place
    /// of its name, from 0.
    pub names: Items<Text>,
    /// The lines in their order.
    pub lines: Items<ScriptLine>,
}
