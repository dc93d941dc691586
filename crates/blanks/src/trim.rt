//! Spaces and tabs, and what else goes from a text's ends.
ghost use Rattle.std.specs.Prelude.{◌≡◌};
ghost use Rattle.blanks.specs.Blanks.{drop_end, drop_front, is_blank, is_cr, is_space, is_space_or_tab};

/// Whether a byte is a space or a tab.
pub fn is_space_or_tab(byte: u8) -> bool
    ensures { result ≡ is_space_or_tab byte }
{
    byte == b' ' || byte == b'\t'
}

/// The text without spaces and tabs at its front.
pub fn without_front_blanks(text: &str) -> &str
    ensures { result.now ≡ drop_front is_space_or_tab text.now }
{
    let bytes = text.as_bytes();
    let mut start = 0;
    while start < bytes.len() && is_space_or_tab(bytes[start]) {
        start += 1;
    }
    &text[start..]
}

/// The text without spaces and tabs at its end.
pub fn without_end_blanks(text: &str) -> &str
    ensures { result.now ≡ drop_end is_space_or_tab text.now }
{
    let bytes = text.as_bytes();
    let mut end = bytes.len();
    while end > 0 && is_space_or_tab(bytes[end - 1]) {
        end -= 1;
    }
    &text[..end]
}

/// The line without the carriage returns at its end.
pub fn without_crs(line: &str) -> &str
    ensures { result.now ≡ drop_end is_cr line.now }
{
    line.trim_end_matches('\r')
}

/// The text without spaces at its ends; other white space stays.
pub fn trim_spaces(text: &str) -> &str
    ensures { result.now ≡ drop_end is_space (drop_front is_space text.now) }
{
    text.trim_start_matches(' ').trim_end_matches(' ')
}

/// Whether the line has only spaces and tabs, or nothing.
pub fn is_blank(line: &str) -> bool
    ensures { result ≡ is_blank line.now }
{
    line.as_bytes().iter().all(|b| *b == b' ' || *b == b'\t')
}
