//! Sources with their tokens, each with its place, as `ex_lexer` cuts them.
use crate::rows::{first_wrong, repeated};
use ex_grammar::{LexErrorKind, Token, TokenKind};
use ex_lexer::{LexError, tokens};
use std::alloc::Global;

/// Sources with their tokens.
pub const CUT: &[(&str, &str)] = &[
    ("", ""),
    (" \t# nothing", ""),
    ("1_000 007", "1000@0-5 7@6-9"),
    ("1é", "BadNumber 0"),
    ("1€", "BadChar 1"),
    (
        "170141183460469231731687303715884105727",
        "170141183460469231731687303715884105727@0-39",
    ),
    (
        "_ aB é_2 ok? go!",
        "name(_)@0-1 name(aB)@2-4 name(é_2)@5-9 name(ok?)@10-13 name(go!)@14-17",
    ),
    ("a!=b", "name(a)@0-1 sign@1-3 name(b)@3-4"),
    ("a! =b", "name(a!)@0-2 sign@3-4 name(b)@4-5"),
    (
        "f(x) f (x)",
        "call(f)@0-1 sign@1-2 name(x)@2-3 sign@3-4 name(f)@5-6 sign@7-8 name(x)@8-9 sign@9-10",
    ),
    ("if(x)", "word@0-2 sign@2-3 name(x)@3-4 sign@4-5"),
    (
        "Enum.sum(l)",
        "alias(Enum)@0-4 sign@4-5 call(sum)@5-8 sign@8-9 name(l)@9-10 sign@10-11",
    ),
    ("Aé", "alias(A)@0-1 name(é)@1-3"),
    ("a: 1", "key(a)@0-3 1@3-4"),
    ("do:\n1", "key(do)@0-4 1@4-5"),
    ("a:\r\n1", "key(a)@0-4 1@4-5"),
    ("a:b", "name(a)@0-1 atom(b)@1-3"),
    (
        ":ok? :Abc :end :\"a b\\n\"",
        "atom(ok?)@0-4 atom(Abc)@5-9 atom(end)@10-14 atom(a b\n)@15-23",
    ),
    ("\"a#b\\#{\\s\\u00e9\n\"", "text(a#b#{ é\n)@0-16 end@16-17"),
    (
        "\"a#{b}c\"",
        "text(a)@0-2 hole@2-4 name(b)@4-5 more(c)@5-7 end@7-8",
    ),
    (
        "\"#{{1}}\"",
        "text()@0-1 hole@1-3 sign@3-4 1@4-5 sign@5-6 more()@6-7 end@7-8",
    ),
    (
        "\"#{\"#{1}\"}\"",
        "text()@0-1 hole@1-3 text()@3-4 hole@4-6 1@6-7 more()@7-8 end@8-9 more()@9-10 end@10-11",
    ),
    (
        "\"#{1 # }\n}\"",
        "text()@0-1 hole@1-3 1@3-4 more()@9-10 end@10-11",
    ),
    ("}", "sign@0-1"),
];

/// Newlines that separate, and newlines that go.
pub const NEWLINES: &[(&str, &str)] = &[
    ("1\n2", "1@0-1 sep@1-2 2@2-3"),
    ("1 \n\n ; # c\r\n 2", "1@0-1 sep@2-12 2@13-14"),
    ("1 +\n2", "1@0-1 sign@2-3 2@4-5"),
    ("1 +\n;2", "1@0-1 sign@2-3 sep@3-5 2@5-6"),
    ("1\n+ 2", "1@0-1 sep@1-2 sign@2-3 2@4-5"),
    ("1\n# c\n|> 2", "1@0-1 sign@6-8 2@9-10"),
    ("a\nin b", "name(a)@0-1 word@2-4 name(b)@5-6"),
    ("a ->\n1", "name(a)@0-1 sign@2-4 sep@4-5 1@5-6"),
    ("a <-\n1", "name(a)@0-1 sign@2-4 1@5-6"),
    ("[\n1\n]", "sign@0-1 1@2-3 sign@4-5"),
    ("1\n, 2", "1@0-1 sep@1-2 sign@2-3 2@4-5"),
    ("not\na", "word@0-3 name(a)@4-5"),
    ("do\n1", "word@0-2 sep@2-3 1@3-4"),
    (
        "\"#{\n1\n}\"",
        "text()@0-1 hole@1-3 sep@3-4 1@4-5 more()@6-7 end@7-8",
    ),
];

/// Sources that have no tokens, and why.
pub const REFUSED: &[(&str, &str)] = &[
    ("1a", "BadNumber 0"),
    ("x 1_", "BadNumber 2"),
    ("1__0", "BadNumber 0"),
    ("170141183460469231731687303715884105728", "TooWide 0"),
    ("170141183460469231731687303715884105728a", "BadNumber 0"),
    ("1 & 2", "BadChar 2"),
    ("a\rb", "BadChar 1"),
    ("a:", "BadChar 1"),
    ("a:1", "BadChar 1"),
    ("A: 1", "BadChar 1"),
    ("é @", "BadChar 3"),
    ("\"a", "OpenText 0"),
    ("x \"a\\q", "BadEscape 2"),
    ("\"a\\", "BadEscape 0"),
    ("\"\\ud800\"", "BadEscape 0"),
    ("\"\\u00g0\"", "BadEscape 0"),
    (":\"a", "OpenText 1"),
    (":\"a\\q\"", "BadEscape 1"),
    (":\"a#{1}\"", "BadChar 0"),
    ("\"a#{1", "OpenText 0"),
    ("\"a#{\"b", "OpenText 4"),
    ("\"a#{1 @}\\q\"", "BadChar 6"),
    ("\"a#{1a}\"", "BadNumber 4"),
    ("\"a#{1}\\q\"", "BadEscape 0"),
];

/// The name of a token's kind, and what it holds.
fn label(kind: &TokenKind) -> (&'static str, Option<&str>) {
    match kind {
        TokenKind::Name(x) => ("name", Some(x.as_str())),
        TokenKind::Called(x) => ("call", Some(x.as_str())),
        TokenKind::Alias(x) => ("alias", Some(x.as_str())),
        TokenKind::Key(x) => ("key", Some(x.as_str())),
        TokenKind::Atom(x) => ("atom", Some(x.as_str())),
        TokenKind::TextBegins(x) => ("text", Some(x.as_str())),
        TokenKind::HoleEnds(x) => ("more", Some(x.as_str())),
        TokenKind::Integer(_) => ("integer", None),
        TokenKind::Word(_) => ("word", None),
        TokenKind::Sign(_) => ("sign", None),
        TokenKind::HoleBegins => ("hole", None),
        TokenKind::TextEnds => ("end", None),
        TokenKind::Separator => ("sep", None),
    }
}

/// A token's kind, and what it holds.
fn kind_text(alloc: Global, kind: &TokenKind) -> Option<String> {
    if let TokenKind::Integer(n) = kind {
        return format!(in alloc; "{n}").ok();
    }
    match label(kind) {
        (name, Some(text)) => format!(in alloc; "{name}({text})").ok(),
        (name, None) => format!(in alloc; "{name}").ok(),
    }
}

/// A token with its place.
fn token_text(alloc: Global, token: &Token) -> Option<String> {
    let kind = kind_text(alloc, &token.kind)?;
    format!(in alloc; "{}@{}-{}", kind.as_str(), token.from, token.to).ok()
}

/// The tokens of a list, each with its place.
fn listed(alloc: Global, tokens: &[Token]) -> Option<String> {
    let mut line = String::new(alloc);
    for token in tokens {
        if !line.is_empty() {
            line.push(' ').ok()?;
        }
        line.push_str(token_text(alloc, token)?.as_str()).ok()?;
    }
    Some(line)
}

/// Why a source has no tokens, and where.
pub fn refusal(alloc: Global, at: u64, kind: LexErrorKind) -> Option<String> {
    let why = match kind {
        LexErrorKind::BadChar => "BadChar",
        LexErrorKind::BadNumber => "BadNumber",
        LexErrorKind::TooWide => "TooWide",
        LexErrorKind::BadEscape => "BadEscape",
        LexErrorKind::OpenText => "OpenText",
    };
    format!(in alloc; "{why} {at}").ok()
}

/// The tokens of a source with their places, or why it has none.
fn lexed(alloc: Global, source: &str) -> Option<String> {
    match tokens(alloc, source) {
        Ok(tokens) => listed(alloc, tokens.as_slice()),
        Err(LexError::Bad { at, kind }) => refusal(alloc, at, kind),
        Err(LexError::OutOfMemory) => None,
    }
}

/// The first row whose source isn't cut so.
pub fn miscut(alloc: Global, rows: &[(&str, &str)]) -> Option<usize> {
    for at in 0..rows.len() {
        let (source, wanted) = rows[at];
        if lexed(alloc, source)?.as_str() != wanted {
            return Some(at + 1);
        }
    }
    Some(0)
}

/// Whether 20,000 texts that stand open in each other are refused at the innermost.
pub fn nested(alloc: Global) -> Option<usize> {
    let source = repeated(alloc, "\"#{", 20_000)?;
    let lexed = lexed(alloc, source.as_str())?;
    Some(first_wrong(&[lexed.as_str() == "OpenText 59997"]))
}
