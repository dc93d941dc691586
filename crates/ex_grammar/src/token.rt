// Tokens, as lexer and parser keep them.
use ex_word::Word;

/// A sign.
#[derive(Clone, Copy, Debug, PartialEq, Eq)]
pub enum Sign {
    /// `+`
    Plus,
    /// `-`
    Minus,
    /// `*`
    Star,
    /// `++`
    PlusPlus,
    /// `<>`
    LessGreater,
    /// `|>`
    Pipe,
    /// `<`
    Less,
    /// `>`
    Greater,
    /// `<=`
    LessEqual,
    /// `>=`
    GreaterEqual,
    /// `==`
    EqualEqual,
    /// `!=`
    BangEqual,
    /// `===`
    TripleEqual,
    /// `!==`
    BangEqualEqual,
    /// `&&`
    AndAnd,
    /// `||`
    OrOr,
    /// `!`
    Bang,
    /// `=`
    Equals,
    /// `^`
    Caret,
    /// `<-`
    LeftArrow,
    /// `->`
    RightArrow,
    /// `|`
    Bar,
    /// `,`
    Comma,
    /// `(`
    OpenParen,
    /// `)`
    CloseParen,
    /// `[`
    OpenBracket,
    /// `]`
    CloseBracket,
    /// `{`
    OpenBrace,
    /// `}`
    CloseBrace,
    /// `.`
    Dot,
}

/// A word of the language: no name, but in a key or an atom.
#[derive(Clone, Copy, Debug, PartialEq, Eq)]
pub enum Keyword {
    /// `true`
    True,
    /// `false`
    False,
    /// `nil`
    Nil,
    /// `and`
    And,
    /// `or`
    Or,
    /// `not`
    Not,
    /// `in`
    In,
    /// `do`
    Do,
    /// `end`
    End,
    /// `else`
    Else,
    /// `if`
    If,
    /// `case`
    Case,
    /// `cond`
    Cond,
    /// `for`
    For,
    /// `when`, without use
    When,
    /// `fn`, without use
    Fn,
    /// `catch`, without use
    Catch,
    /// `rescue`, without use
    Rescue,
    /// `after`, without use
    After,
}

/// A word that is a value.
#[derive(Clone, Copy, Debug, PartialEq, Eq)]
pub enum WordValue {
    /// `true`
    True,
    /// `false`
    False,
    /// `nil`
    Nil,
}

/// What a token is. Texts and names are UTF-8.
#[derive(Debug, Drop)]
pub enum TokenKind {
    /// An integer from 0 to 2^127 - 1: `42`.
    Integer(i128),
    /// A name: `x`.
    Name(Word),
    /// A name that a `(` directly follows, which begins a call: `f` in `f(1)`.
    Called(Word),
    /// An alias: `Enum`.
    Alias(Word),
    /// A key, without its `:` and the blank after it: `a` in `[a: 1]`.
    Key(Word),
    /// An atom by its text: `ok` in `:ok`.
    Atom(Word),
    /// A word.
    Word(Keyword),
    /// A sign.
    Sign(Sign),
    /// A text begins, and says this up to its first `#{` or its end: `"a` in `"a#{b}c"`.
    TextBegins(Word),
    /// A `#{`.
    HoleBegins,
    /// The `}` of a `#{`; then the text says this up to its next `#{` or its end: `}c` in `"a#{b}c"`.
    HoleEnds(Word),
    /// The `"` that ends a text.
    TextEnds,
    /// What stands between expressions: a newline or `;`, or several.
    Separator,
}

/// A token, and where it stands: from the byte `from` up to the byte before `to`, counted from 0.
#[derive(Debug, Drop)]
pub struct Token {
    pub kind: TokenKind,
    pub from: u64,
    pub to: u64,
}

/// Why a source has no tokens.
#[derive(Clone, Copy, Debug, PartialEq, Eq)]
pub enum LexErrorKind {
    /// A character that begins no token: `&`.
    BadChar,
    /// A letter or `_` right after digits: `1a`.
    BadNumber,
    /// An integer above 2^127 - 1.
    TooWide,
    /// An escape in a text that isn't one: `"\q"`.
    BadEscape,
    /// A text without an end: `"a`.
    OpenText,
}
