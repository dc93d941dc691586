//! From bytes to a notebook.
ghost use Rattle.std.specs.Prelude.{OnOk, MatchResult};
ghost use Rattle.livemd_format.specs.Accepts.{IsAccepted};
ghost use Rattle.livemd_read.specs.Reads.{Reads};
ghost use Rattle.livemd_read.specs.Causes.{IsBookCause};

use crate::build::built;
use crate::count::{cell_count, code_cell_count, section_count};
use crate::settle::settled_items;
use crate::take::read_items;
use crate::types::{BookError, Read};
use limits::{MOST_CELLS, MOST_CODE_CELLS, MOST_FILE_BYTES, MOST_SECTIONS};
use std::alloc::Global;

/// Reads a book. A refusal names the first cause in the order of [`BookError`].
pub fn read(alloc: Global, bytes: &[u8]) -> Result<Read, BookError>
    ensures read { MatchResult result (λ r. Reads bytes.now r.notebook r.notices)
        (IsBookCause bytes.now) }
    ensures accepted { OnOk result (IsAccepted bytes.now) }
{
    if bytes.len() > MOST_FILE_BYTES {
        return Err(BookError::TooLarge);
    }
    let text = match str::from_utf8(bytes) {
        Ok(text) => text,
        Err(fault) => {
            return Err(BookError::NotUtf8 {
                at: fault.valid_up_to() as u64,
            });
        }
    };
    let items = read_items(alloc, text)?;
    let settled = settled_items(items);
    if section_count(&settled) > MOST_SECTIONS {
        return Err(BookError::TooManySections);
    }
    if cell_count(&settled) > MOST_CELLS {
        return Err(BookError::TooManyCells);
    }
    if code_cell_count(&settled) > MOST_CODE_CELLS {
        return Err(BookError::TooManyCells);
    }
    let read = built(alloc, &settled)?;
    Ok(read)
}
