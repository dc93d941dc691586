//! The notebook and the notices of settled items.
ghost use Rattle.std.specs.Prelude.{◌≡◌, IfOk};
ghost use Rattle.std.specs.List.{fold};
ghost use Rattle.livemd_format.specs.Accepts.{HasFewSections, HasFewCells};
ghost use Rattle.livemd_format.specs.Walk.{finished, new_draft, with_item};
ghost use Rattle.livemd_read.specs.Views.{draft_of, views};

use crate::draft::Draft;
use crate::items::Item;
use crate::types::Read;
use notebook::Notebook;
use std::alloc::{AllocError, Global};

/// What settled items make.
fn drafted(alloc: Global, items: &[Item<'_>]) -> Result<Draft, AllocError>
    requires sections { HasFewSections (fold with_item new_draft (views items.now)).parts }
    requires cells { HasFewCells (fold with_item new_draft (views items.now)).parts }
    ensures { IfOk result (λ d. draft_of d ≡ fold with_item new_draft (views items.now)) }
{
    let mut draft = Draft::new(alloc)?;
    for item in items {
        draft.take(alloc, item)?;
    }
    Ok(draft)
}

/// The notebook and the notices of settled items.
pub(crate) fn built(alloc: Global, items: &[Item<'_>]) -> Result<Read, AllocError>
    requires sections { HasFewSections (fold with_item new_draft (views items.now)).parts }
    requires cells { HasFewCells (fold with_item new_draft (views items.now)).parts }
    ensures notebook { IfOk result
        (λ r. r.notebook ≡ finished (fold with_item new_draft (views items.now))) }
    ensures notices { IfOk result
        (λ r. r.notices ≡ (fold with_item new_draft (views items.now)).notices) }
{
    let draft = drafted(alloc, items)?;
    let Draft {
        mut parts,
        parent: _,
        waiting,
        notices,
    } = draft;
    parts.after = waiting;
    Ok(Read {
        notebook: Notebook::of(parts),
        notices,
    })
}
