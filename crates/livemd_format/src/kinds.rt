//! What a line of some kind may be in a book.
ghost use Rattle.std.specs.Prelude.{◌≡◌};
ghost use Rattle.livemd_lines.specs.Views.{kind_view};
ghost use Rattle.livemd_format.specs.Items.{is_code, may_stand};

use livemd_lines::{Fence, LineKind, Mark};

/// Whether what stands in the fence is code: it is one of backticks, and its info is `elixir`.
pub fn is_code(fence: Fence, info: &str) -> bool
    ensures { result ≡ is_code fence info.now }
{
    matches!(fence.mark, Mark::Backtick) && info == "elixir"
}

/// Whether a line of the kind may stand within Markdown text that isn't forced: all but code, sections
/// and metadata.
pub fn may_stand(kind: &LineKind<'_>) -> bool
    ensures { result ≡ may_stand (kind_view kind.now) }
{
    match kind {
        LineKind::Opens { fence, info } => !is_code(*fence, info),
        LineKind::Heading2(_) | LineKind::Metadata(_) => false,
        _ => true,
    }
}
