//! Edits of a client that aren't confirmed yet.
ghost use Rattle.std.specs.Prelude.{◌≡◌, None, map, MatchOption};
ghost use Rattle.client_sync.specs.Client.{pending_of};
ghost use Rattle.client_sync.specs.Stands.{IsPendingAt, pending_in};

use delta::Delta;
use notebook::CellId;
use utf16_text::Text;

/// The unconfirmed edits of one cell: what was posted, and what was edited since, beside the text
/// that the server had at the client's last delivery.
#[derive(Debug, Drop)]
pub struct Unconfirmed {
    pub cell: CellId,
    pub server: Text,
    pub flight: Delta,
    pub buffer: Delta,
}

/// What a client has pending for a cell. `inflight` is the delta that was posted and hasn't come
/// back, `None` where there is none; it may have become empty. `buffer` is what was edited since
/// then.
#[derive(Clone, Copy, Debug)]
pub struct PendingEdits<'a> {
    pub inflight: Option<&'a Delta>,
    pub buffer: &'a Delta,
}

/// The place of the first pending edits of a cell.
pub(crate) fn place_of(pending: &[Unconfirmed], cell: CellId) -> Option<usize>
    ensures { MatchOption result (pending_of cell (map pending_in pending.now) ≡ None)
        (IsPendingAt pending.now cell) }
{
    for (at, edits) in pending.iter().enumerate() {
        if edits.cell == cell {
            return Some(at);
        }
    }
    None
}
