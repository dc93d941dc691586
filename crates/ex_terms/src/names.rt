//! Which atoms stand in a source without quotes: names and aliases.
ghost use Rattle.std.specs.Prelude.{◌≡◌, ◌∷◌, [], List, ℕ, chars};
ghost use Rattle.std.specs.List.{list_all};
ghost use Rattle.ex_grammar.specs.Names.{begins_name, is_alias_byte, is_capital, is_mark};
ghost use Rattle.ex_terms.specs.Names.{completes};
ghost use Rattle.ex_terms.specs.Printed.{is_alias, is_name};

/// How far characters are a name.
#[derive(Clone, Copy, Debug, PartialEq, Eq)]
enum Name {
    /// Nothing stands yet.
    Begins,
    /// It is a name, and may go on.
    GoesOn,
    /// It is a name, and ends with a `!` or `?`.
    Ends,
    /// It is none.
    Fails,
}

impl Name {
    /// With one character more.
    fn with(self, c: char) -> Name
        ensures { (back : List ℕ) → completes result back ≡ completes self (c ∷ back) }
    {
        match self {
            Name::Begins => {
                if begins_name(c) {
                    Name::GoesOn
                } else {
                    Name::Fails
                }
            }
            Name::GoesOn => goes_on(c),
            Name::Ends | Name::Fails => Name::Fails,
        }
    }

    /// Whether it is a name as it stands.
    fn is_whole(self) -> bool
        ensures { result ≡ completes self [] }
    {
        match self {
            Name::GoesOn | Name::Ends => true,
            Name::Begins | Name::Fails => false,
        }
    }
}

/// A name that may go on, with one character more.
fn goes_on(c: char) -> Name
    ensures { (back : List ℕ) → completes result back ≡ completes Name.GoesOn (c ∷ back) }
{
    if unicode_ident::is_xid_continue(c) {
        return Name::GoesOn;
    }
    if is_mark(c) {
        return Name::Ends;
    }
    Name::Fails
}

/// Whether a character may begin a name: a letter of identifiers or `_`, but no capital of ASCII.
fn begins_name(c: char) -> bool
    ensures { result ≡ begins_name c }
{
    (c == '_' || unicode_ident::is_xid_start(c)) && !c.is_ascii_uppercase()
}

/// Whether a character is `!` or `?`, which may end a name.
fn is_mark(c: char) -> bool
    ensures { result ≡ is_mark c }
{
    c == '!' || c == '?'
}

/// Whether a text is a name.
pub(crate) fn is_name(text: &str) -> bool
    ensures { result ≡ is_name (chars text.now) }
{
    let mut name = Name::Begins;
    for c in text.chars() {
        name = name.with(c);
    }
    name.is_whole()
}

/// Whether a text is an alias: a capital of ASCII, and then letters, digits and `_` of ASCII.
pub(crate) fn is_alias(text: &str) -> bool
    ensures { result ≡ is_alias text.now }
{
    match text.as_bytes() {
        [first, rest @ ..] => first.is_ascii_uppercase() && are_alias_bytes(rest),
        [] => false,
    }
}

/// Whether all bytes may stand in an alias after its first.
fn are_alias_bytes(bytes: &[u8]) -> bool
    ensures { result ≡ list_all is_alias_byte bytes.now }
{
    bytes.iter().all(|b| is_alias_byte(*b))
}

/// Whether a byte may stand in an alias after its first.
fn is_alias_byte(b: u8) -> bool
    ensures { result ≡ is_alias_byte b }
{
    b.is_ascii_alphanumeric() || b == b'_'
}
