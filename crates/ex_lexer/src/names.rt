//! Names and words.
ghost use Rattle.std.specs.Prelude.{◌≡◌, ◌≤◌, ◌==◌, List, length, drop, chars};
ghost use Rattle.std.specs.Str.{IsCharBoundary};
ghost use Rattle.ex_grammar.specs.Tokens.{keyword_of};
ghost use Rattle.ex_grammar.specs.Names.{is_letter, begins_name, is_in_name, mark_follows, is_mark, is_capital};
ghost use Rattle.ex_grammar.specs.Texts.{first_is};
ghost use Rattle.ex_lexer.specs.Runs.{word_len, name_len};

use crate::texts::begins_with;
use ex_grammar::Keyword;

/// Whether a character may begin an identifier; `_` does too.
fn is_letter(c: char) -> bool
    ensures { result ≡ is_letter c }
{
    c == '_' || unicode_ident::is_xid_start(c)
}

/// Whether a character may begin a name: no capital of ASCII does.
fn begins_name(c: char) -> bool
    ensures { result ≡ begins_name c }
{
    is_letter(c) && !c.is_ascii_uppercase()
}

/// Whether a letter or `_` stands first.
pub(crate) fn letter_first(text: &str) -> bool
    ensures { result ≡ first_is is_letter (chars text.now) }
{
    match text.chars().next() {
        None => false,
        Some(c) => is_letter(c),
    }
}

/// Whether a name begins a text.
pub(crate) fn name_first(text: &str) -> bool
    ensures { result ≡ first_is begins_name (chars text.now) }
{
    match text.chars().next() {
        None => false,
        Some(c) => begins_name(c),
    }
}

/// How many bytes the characters at the front take that may stand in a name.
fn word_len(text: &str) -> usize
    ensures value { result ≡ word_len text.now }
    ensures boundary { IsCharBoundary text.now result }
{
    let mut len: usize = 0;
    for c in text.chars() {
        if !unicode_ident::is_xid_continue(c) {
            return len;
        }
        len += c.len_utf8();
    }
    len
}

/// How many bytes the name at the front takes.
pub(crate) fn name_len(text: &str) -> usize
    ensures value { result ≡ name_len text.now }
    ensures boundary { IsCharBoundary text.now result }
{
    let len = word_len(text);
    if mark_follows(&text.as_bytes()[len..]) {
        len + 1
    } else {
        len
    }
}

/// Whether a `!` or `?` stands first that belongs to the name before it: one that no `=` follows.
fn mark_follows(rest: &[u8]) -> bool
    ensures { result ≡ mark_follows rest.now }
{
    match rest {
        [b'!' | b'?', after @ ..] => !begins_with(after, b'='),
        _ => false,
    }
}

/// The word that a name is: none where it is a name.
pub(crate) fn keyword_of(name: &str) -> Option<Keyword>
    ensures { result ≡ keyword_of name.now }
{
    match name {
        "true" => Some(Keyword::True),
        "false" => Some(Keyword::False),
        "nil" => Some(Keyword::Nil),
        "and" => Some(Keyword::And),
        "or" => Some(Keyword::Or),
        "not" => Some(Keyword::Not),
        "in" => Some(Keyword::In),
        "do" => Some(Keyword::Do),
        "end" => Some(Keyword::End),
        "else" => Some(Keyword::Else),
        "if" => Some(Keyword::If),
        "case" => Some(Keyword::Case),
        "cond" => Some(Keyword::Cond),
        "for" => Some(Keyword::For),
        "when" => Some(Keyword::When),
        "fn" => Some(Keyword::Fn),
        "catch" => Some(Keyword::Catch),
        "rescue" => Some(Keyword::Rescue),
        "after" => Some(Keyword::After),
        _ => None,
    }
}
