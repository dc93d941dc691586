//! Fences: the lines round code.
ghost use Rattle.std.specs.Prelude.{◌≡◌, ◌+◌, length, MatchOption};
ghost use Rattle.std.specs.List.{list_all};
ghost use Rattle.livemd_lines.specs.Kinds.{Opens, byte_of, run, after_run, trimmed, opens_ticks, opens_tildes, opens_with, kind_of, unfenced_kind, is_byte, is_closing};

use blanks::{without_end_blanks, without_front_blanks};

/// The character of a fence.
#[derive(Clone, Copy, Debug, PartialEq)]
pub enum Mark {
    Backtick,
    Tilde,
}

impl Mark {
    /// The character itself.
    pub fn character(self) -> char
        ensures { result ≡ byte_of self }
    {
        match self {
            Mark::Backtick => '`',
            Mark::Tilde => '~',
        }
    }
}

/// A fence: its character, and how often that stands at the front of the line that opens it.
#[derive(Clone, Copy, Debug, PartialEq)]
pub struct Fence {
    pub mark: Mark,
    pub count: usize,
}

/// A line that opens a fence: the fence, and what stands behind its character without outer spaces
/// and tabs.
#[derive(Clone, Copy, Debug)]
pub(crate) struct Opening<'a> {
    pub(crate) fence: Fence,
    pub(crate) info: &'a str,
}

/// What stands behind the mark at the front of a text, however often it stands there.
fn behind_run(mark: Mark, text: &str) -> &str
    ensures rest { result.now ≡ after_run (byte_of mark) text.now }
    ensures count { run (byte_of mark) text.now + length result.now ≡ length text.now }
{
    text.trim_start_matches(mark.character())
}

/// The fence of the mark that stands so often at the front of the line, before the rest.
fn opening_with<'a>(mark: Mark, line: &'a str, rest: &'a str) -> Opening<'a>
    requires behind { rest.now ≡ after_run (byte_of mark) line.now }
    requires count { run (byte_of mark) line.now + length rest.now ≡ length line.now }
    ensures { opens_with mark line.now ≡ Opens result.fence result.info.now }
{
    Opening {
        fence: Fence {
            mark,
            count: line.len() - rest.len(),
        },
        info: without_end_blanks(without_front_blanks(rest)),
    }
}

/// Whether a line with the rest behind its backticks opens a fence of them.
fn opens_ticks(line: &[u8], rest: &[u8]) -> bool
    requires behind { rest.now ≡ after_run 96 line.now }
    requires count { run 96 line.now + length rest.now ≡ length line.now }
    ensures { result ≡ opens_ticks line.now }
{
    line.len() - rest.len() >= 3 && !rest.contains(&b'`')
}

/// Whether a line with the rest behind its `~` opens a fence of them.
fn opens_tildes(line: &[u8], rest: &[u8]) -> bool
    requires { run 126 line.now + length rest.now ≡ length line.now }
    ensures { result ≡ opens_tildes line.now }
{
    line.len() - rest.len() >= 3
}

/// The fence that a line outside fences opens; `None` where it opens none.
pub(crate) fn opening_of(line: &str) -> Option<Opening<'_>>
    ensures { MatchOption result (kind_of line.now ≡ unfenced_kind line.now)
        (λ o. kind_of line.now ≡ Opens o.fence o.info.now) }
{
    let rest = behind_run(Mark::Backtick, line);
    if opens_ticks(line.as_bytes(), rest.as_bytes()) {
        return Some(opening_with(Mark::Backtick, line, rest));
    }
    let rest = behind_run(Mark::Tilde, line);
    if opens_tildes(line.as_bytes(), rest.as_bytes()) {
        return Some(opening_with(Mark::Tilde, line, rest));
    }
    None
}

/// Whether all of a text is the mark.
fn is_only(mark: Mark, text: &str) -> bool
    ensures { result ≡ list_all (is_byte (byte_of mark)) text.now }
{
    behind_run(mark, text).is_empty()
}

impl Fence {
    /// Whether the line closes the fence.
    pub(crate) fn is_closed_by(&self, line: &str) -> bool
        ensures { result ≡ is_closing self.now line.now }
    {
        let kept = without_end_blanks(line);
        is_only(self.mark, kept) && self.count <= kept.len()
    }
}
