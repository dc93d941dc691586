//! Fences round texts.
ghost use Rattle.std.specs.Prelude.{◌≡◌, ◌==◌, ◌<◌, ◌≤◌, ◌-◌, ◌^◌, ◌+◌, ◌∷◌, [], if◌then◌else◌, length, OnOk};
ghost use Rattle.livemd_lines.specs.Written.{longest_run};
ghost use Rattle.livemd_format.specs.Write.{fence_block, fence_len};
ghost use Rattle.livemd_write.specs.Pages.{PutsIn};

use crate::texts::push_marks;
use livemd_lines::Mark;
use std::alloc::AllocError;

/// The run of backticks that a byte leaves behind a run.
fn run_with(run: usize, byte: u8) -> usize
    requires { run < 2 ^ 64 - 1 }
    ensures { result ≡ (if byte == 96 then run + 1 else 0) }
{
    if byte == b'`' { run + 1 } else { 0 }
}

/// The longest run of backticks.
fn longest_run(text: &[u8]) -> usize
    ensures value { result ≡ longest_run text.now }
    ensures bound { result ≤ length text.now }
{
    let mut best: usize = 0;
    let mut run: usize = 0;
    for b in text {
        run = run_with(run, *b);
        best = best.max(run);
    }
    best
}

/// How many backticks a fence round the text has.
fn fence_len(text: &str) -> usize
    ensures { result ≡ fence_len text.now }
{
    (longest_run(text.as_bytes()) + 1).max(3)
}

/// Puts a text in a fence with the info, as a block.
pub(crate) fn push_fence(out: &mut String, info: &str, text: &str) -> Result<(), AllocError>
    ensures ok { OnOk result (PutsIn (fence_block info.now text.now ∷ []) out.old out.new) }
{
    let count = fence_len(text);
    out.push_str("\n")?;
    push_marks(out, Mark::Backtick, count)?;
    out.push_str(info)?;
    out.push_str("\n")?;
    out.push_str(text)?;
    out.push_str("\n")?;
    push_marks(out, Mark::Backtick, count)?;
    out.push_str("\n")?;
    Ok(())
}
