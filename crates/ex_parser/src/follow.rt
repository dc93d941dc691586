// What stands at a place of the tokens.
ghost use Rattle.std.specs.Prelude.{◌≡◌, ◌<◌, ◌≤◌, ◌+◌, [], ◌∷◌, ◌++◌, length, drop, true, MatchOption, IfOk, IfSome};
ghost use Rattle.ex_grammar.specs.Operators.{infix_of, prefix_of};
ghost use Rattle.ex_grammar.specs.Grammar.{is_underscore};
ghost use Rattle.ex_parser.specs.Follow.{follow, follow_sign, follow_comma, follow_word, follow_separator, after_separator, block_key, first_infix, is_separator, separator_first, token_block_key, block_key_first, block_end, block_end_first, is_paren, paren_first, is_dot, dot_first, token_text_goes, text_goes, token_says, hole_says, own_key, token_key, first_key, call_head, opens, after_alias, after_dot};
ghost use Rattle.ex_parser.specs.Machine.{closes, same_bracket};
ghost use Rattle.ex_parser.specs.Shown.{token_of, tokens_of, FollowShows, CallShows, ClosedShows};
ghost use Rattle.ex_parser.specs.declared.follow.TextGoes.TheVariants.{Hole, Ends};

use ex_grammar::{Infix, Keyword, Prefix, Sign, Token, TokenKind};
use ex_word::Word;
use std::alloc::{AllocError, Global};

/// A kind of bracket.
#[derive(Clone, Copy, Debug, PartialEq, Eq)]
pub(crate) enum Bracket {
    /// `(` and `)`
    Paren,
    /// `[` and `]`
    Square,
    /// `{` and `}`
    Brace,
}

/// What stands after an expression, where that is no operator.
#[derive(Clone, Copy, Debug)]
pub(crate) enum Next {
    /// `,`
    Comma,
    /// `, do:`
    CommaDo,
    /// `, else:`
    CommaElse,
    /// `|`
    Bar,
    /// `->`
    RightArrow,
    /// `<-`
    LeftArrow,
    /// A closing bracket.
    Close(Bracket),
    /// The `}` of a `#{`.
    HoleEnds,
    /// `do`
    Do,
    /// `else`, with a separator before it or without
    Else,
    /// `end`, with a separator before it or without
    End,
    /// Any other separator.
    Separator,
    /// Something else, or nothing.
    Other,
}

/// What stands after an expression, and the place after it. A separator after `do`, `else` and `->`
/// is passed over.
#[derive(Clone, Copy, Debug)]
pub(crate) struct Follow {
    pub next: Next,
    pub after: usize,
}

/// A word that ends a body.
#[derive(Clone, Copy, Debug)]
enum BlockEnd {
    Else,
    End,
    Neither,
}

/// How a text goes on.
#[derive(Clone, Copy, Debug)]
pub(crate) enum TextGoes {
    /// By a `#{`.
    Hole,
    /// It ends.
    Ends,
    /// Neither.
    Other,
}

/// The token at a place.
pub(crate) fn token_at(tokens: &[Token], at: usize) -> Option<&Token>
    ensures { MatchOption result (length tokens.now ≤ at) (λ x. (at < length tokens.now) × (drop at tokens.now ≡ x.now ∷ drop (at + 1) tokens.now)) }
{
    tokens.get(at)
}

/// What the token at a place is.
pub(crate) fn kind_at(tokens: &[Token], at: usize) -> Option<&TokenKind>
    ensures { MatchOption result (drop at (tokens_of tokens.now) ≡ []) (λ k. (at < length tokens.now) × (drop at (tokens_of tokens.now) ≡ token_of k.now ∷ drop (at + 1) (tokens_of tokens.now))) }
{
    match token_at(tokens, at) {
        None => None,
        Some(token) => Some(&token.kind),
    }
}

/// The operator between two operands that the token at a place is.
pub(crate) fn infix_at(tokens: &[Token], at: usize) -> Option<Infix>
    ensures value { result ≡ first_infix (drop at (tokens_of tokens.now)) }
    ensures within { IfSome result (λ _. at < length tokens.now) }
{
    match kind_at(tokens, at) {
        None => None,
        Some(kind) => infix_of(kind),
    }
}

/// The operator between two operands that a token is: a sign or a word.
fn infix_of(kind: &TokenKind) -> Option<Infix>
    ensures { result ≡ infix_of (token_of kind.now) }
{
    match kind {
        TokenKind::Sign(_) => Infix::of(kind),
        TokenKind::Word(_) => Infix::of(kind),
        _ => None,
    }
}

/// The operator before an operand that a token is: a sign or a word.
pub(crate) fn prefix_of(kind: &TokenKind) -> Option<Prefix>
    ensures { result ≡ prefix_of (token_of kind.now) }
{
    match kind {
        TokenKind::Sign(_) => Prefix::of(kind),
        TokenKind::Word(_) => Prefix::of(kind),
        _ => None,
    }
}

/// Whether a separator stands at a place.
fn is_separator_at(tokens: &[Token], at: usize) -> bool
    ensures value { result ≡ separator_first (drop at (tokens_of tokens.now)) }
    ensures within { result ≡ true → at < length tokens.now }
{
    match kind_at(tokens, at) {
        None => false,
        Some(kind) => is_separator(kind),
    }
}

fn is_separator(kind: &TokenKind) -> bool
    ensures { result ≡ is_separator (token_of kind.now) }
{
    match kind {
        TokenKind::Separator => true,
        _ => false,
    }
}

/// The place after a separator, or the place itself where none stands there.
pub(crate) fn after_separator(tokens: &[Token], at: usize) -> usize
    ensures { drop result (tokens_of tokens.now) ≡ after_separator (drop at (tokens_of tokens.now)) }
{
    if is_separator_at(tokens, at) {
        at + 1
    } else {
        at
    }
}

/// What stands at a place, after an expression.
pub(crate) fn follow_at(tokens: &[Token], at: usize) -> Follow
    ensures { FollowShows (tokens_of tokens.now) result (follow (drop at (tokens_of tokens.now))) }
{
    match kind_at(tokens, at) {
        None => Follow {
            next: Next::Other,
            after: at,
        },
        Some(kind) => follow_kind(kind, tokens, at + 1),
    }
}

/// What a token is after an expression, where the place after it is known.
fn follow_kind(kind: &TokenKind, tokens: &[Token], after: usize) -> Follow
    requires { after ≤ length tokens.now }
    ensures { FollowShows (tokens_of tokens.now) result (follow (token_of kind.now ∷ drop after (tokens_of tokens.now))) }
{
    match kind {
        TokenKind::Sign(sign) => follow_sign(*sign, tokens, after),
        TokenKind::Word(word) => follow_word(*word, tokens, after),
        TokenKind::Separator => follow_separator(tokens, after),
        TokenKind::HoleEnds(_) => Follow {
            next: Next::HoleEnds,
            after,
        },
        _ => Follow {
            next: Next::Other,
            after,
        },
    }
}

/// What a sign is after an expression, where the place after it is known.
fn follow_sign(sign: Sign, tokens: &[Token], after: usize) -> Follow
    requires { after ≤ length tokens.now }
    ensures { FollowShows (tokens_of tokens.now) result (follow_sign sign (drop after (tokens_of tokens.now))) }
{
    let next = match sign {
        Sign::Comma => return follow_comma(tokens, after),
        Sign::RightArrow => return Follow {
            next: Next::RightArrow,
            after: after_separator(tokens, after),
        },
        Sign::LeftArrow => Next::LeftArrow,
        Sign::Bar => Next::Bar,
        Sign::CloseParen => Next::Close(Bracket::Paren),
        Sign::CloseBracket => Next::Close(Bracket::Square),
        Sign::CloseBrace => Next::Close(Bracket::Brace),
        _ => Next::Other,
    };
    Follow { next, after }
}

/// What a comma is, with the key of a block or without.
fn follow_comma(tokens: &[Token], after: usize) -> Follow
    requires { after ≤ length tokens.now }
    ensures { FollowShows (tokens_of tokens.now) result (follow_comma (drop after (tokens_of tokens.now))) }
{
    match block_key_at(tokens, after) {
        Some(next) => Follow {
            next,
            after: after + 1,
        },
        None => Follow {
            next: Next::Comma,
            after,
        },
    }
}

/// What a comma before a place makes with the key of a block that stands there.
fn block_key_at(tokens: &[Token], at: usize) -> Option<Next>
    ensures value { result ≡ block_key_first (drop at (tokens_of tokens.now)) }
    ensures within { IfSome result (λ _. at < length tokens.now) }
{
    match kind_at(tokens, at) {
        None => None,
        Some(kind) => kind_block_key(kind),
    }
}

fn kind_block_key(kind: &TokenKind) -> Option<Next>
    ensures { result ≡ token_block_key (token_of kind.now) }
{
    match kind {
        TokenKind::Key(key) => block_key(key.as_str()),
        _ => None,
    }
}

fn block_key(key: &str) -> Option<Next>
    ensures { result ≡ block_key key.now }
{
    match key {
        "do" => Some(Next::CommaDo),
        "else" => Some(Next::CommaElse),
        _ => None,
    }
}

/// What a word is after an expression.
fn follow_word(word: Keyword, tokens: &[Token], after: usize) -> Follow
    requires { after ≤ length tokens.now }
    ensures { FollowShows (tokens_of tokens.now) result (follow_word word (drop after (tokens_of tokens.now))) }
{
    match word {
        Keyword::Do => Follow {
            next: Next::Do,
            after: after_separator(tokens, after),
        },
        Keyword::Else => Follow {
            next: Next::Else,
            after: after_separator(tokens, after),
        },
        Keyword::End => Follow {
            next: Next::End,
            after,
        },
        _ => Follow {
            next: Next::Other,
            after,
        },
    }
}

/// What a separator is, with the `else` or `end` after it.
fn follow_separator(tokens: &[Token], after: usize) -> Follow
    requires { after ≤ length tokens.now }
    ensures { FollowShows (tokens_of tokens.now) result (follow_separator (drop after (tokens_of tokens.now))) }
{
    match block_end_at(tokens, after) {
        BlockEnd::Else => Follow {
            next: Next::Else,
            after: after_separator(tokens, after + 1),
        },
        BlockEnd::End => Follow {
            next: Next::End,
            after: after + 1,
        },
        BlockEnd::Neither => Follow {
            next: Next::Separator,
            after,
        },
    }
}

/// Which word that ends a body stands at a place.
fn block_end_at(tokens: &[Token], at: usize) -> BlockEnd
    ensures { result ≡ block_end_first (drop at (tokens_of tokens.now)) }
{
    match kind_at(tokens, at) {
        None => BlockEnd::Neither,
        Some(kind) => block_end(kind),
    }
}

fn block_end(kind: &TokenKind) -> BlockEnd
    ensures { result ≡ block_end (token_of kind.now) }
{
    match kind {
        TokenKind::Word(Keyword::Else) => BlockEnd::Else,
        TokenKind::Word(Keyword::End) => BlockEnd::End,
        _ => BlockEnd::Neither,
    }
}

/// Whether a bracket is closed at a place, and the place after it.
pub(crate) fn closed_at(bracket: Bracket, tokens: &[Token], at: usize) -> Option<usize>
    ensures { ClosedShows (tokens_of tokens.now) (drop at (tokens_of tokens.now)) bracket result }
{
    let follow = follow_at(tokens, at);
    if closes(follow.next, bracket) {
        Some(follow.after)
    } else {
        None
    }
}

/// Whether what follows closes a bracket.
pub(crate) fn closes(next: Next, bracket: Bracket) -> bool
    ensures { result ≡ closes next bracket }
{
    match next {
        Next::Close(closed) => same_bracket(closed, bracket),
        _ => false,
    }
}

pub(crate) fn same_bracket(a: Bracket, b: Bracket) -> bool
    ensures { result ≡ same_bracket a b }
{
    matches!(
        (a, b),
        (Bracket::Paren, Bracket::Paren)
            | (Bracket::Square, Bracket::Square)
            | (Bracket::Brace, Bracket::Brace)
    )
}

/// How a text goes on at a place.
pub(crate) fn text_goes_at(tokens: &[Token], at: usize) -> TextGoes
    ensures value { result ≡ text_goes (drop at (tokens_of tokens.now)) }
    ensures hole { result ≡ Hole → at < length tokens.now }
    ensures ends { result ≡ Ends → at < length tokens.now }
{
    match kind_at(tokens, at) {
        None => TextGoes::Other,
        Some(kind) => text_goes(kind),
    }
}

fn text_goes(kind: &TokenKind) -> TextGoes
    ensures { result ≡ token_text_goes (token_of kind.now) }
{
    match kind {
        TokenKind::HoleBegins => TextGoes::Hole,
        TokenKind::TextEnds => TextGoes::Ends,
        _ => TextGoes::Other,
    }
}

/// The characters of a text after the `}` at a place.
pub(crate) fn hole_says_at(tokens: &[Token], at: usize) -> Result<Option<Word>, AllocError>
    ensures value { IfOk result (λ r. r ≡ hole_says (drop at (tokens_of tokens.now))) }
    ensures within { IfOk result (λ r. IfSome r (λ _. at < length tokens.now)) }
{
    match kind_at(tokens, at) {
        None => Ok(None),
        Some(kind) => hole_says(kind),
    }
}

fn hole_says(kind: &TokenKind) -> Result<Option<Word>, AllocError>
    ensures { IfOk result (λ r. r ≡ token_says (token_of kind.now)) }
{
    match kind {
        TokenKind::HoleEnds(says) => Ok(Some(says.copy()?)),
        _ => Ok(None),
    }
}

/// The key at a place, where it isn't that of a block.
pub(crate) fn key_at(tokens: &[Token], at: usize) -> Result<Option<Word>, AllocError>
    ensures value { IfOk result (λ r. r ≡ first_key (drop at (tokens_of tokens.now))) }
    ensures within { IfOk result (λ r. IfSome r (λ _. at < length tokens.now)) }
{
    match kind_at(tokens, at) {
        None => Ok(None),
        Some(kind) => kind_key(kind),
    }
}

fn kind_key(kind: &TokenKind) -> Result<Option<Word>, AllocError>
    ensures { IfOk result (λ r. r ≡ token_key (token_of kind.now)) }
{
    match kind {
        TokenKind::Key(key) => {
            let own = own_key(key)?;
            Ok(own)
        }
        _ => Ok(None),
    }
}

/// A key, where it isn't that of a block.
pub(crate) fn own_key(key: &Word) -> Result<Option<Word>, AllocError>
    ensures { IfOk result (λ r. r ≡ own_key key.now) }
{
    if block_key(key.as_str()).is_some() {
        return Ok(None);
    }
    Ok(Some(key.copy()?))
}

/// The name of the call that begins at a place, and the place after its `(`.
pub(crate) fn call_at(
    alloc: Global,
    tokens: &[Token],
    at: usize,
) -> Result<Option<(Word, usize)>, AllocError>
    ensures { IfOk result (λ r. CallShows (tokens_of tokens.now) r (call_head (drop at (tokens_of tokens.now)))) }
{
    match kind_at(tokens, at) {
        None => Ok(None),
        Some(kind) => {
            let call = call_of(alloc, kind, tokens, at + 1)?;
            Ok(call)
        }
    }
}

/// A call that a token begins, where the place after it is known.
fn call_of(
    alloc: Global,
    kind: &TokenKind,
    tokens: &[Token],
    after: usize,
) -> Result<Option<(Word, usize)>, AllocError>
    ensures { IfOk result (λ r. CallShows (tokens_of tokens.now) r (call_head (token_of kind.now ∷ drop after (tokens_of tokens.now)))) }
{
    match kind {
        TokenKind::Called(name) => {
            let whole = name.copy()?;
            Ok(called(whole, is_underscore(name), tokens, after))
        }
        TokenKind::Alias(alias) => {
            let call = alias_call(alloc, alias, tokens, after)?;
            Ok(call)
        }
        _ => Ok(None),
    }
}

/// A call of a name, where `(` follows; none of `_`.
fn called(name: Word, underscore: bool, tokens: &[Token], at: usize) -> Option<(Word, usize)>
    ensures { CallShows (tokens_of tokens.now) result (opens underscore name (drop at (tokens_of tokens.now))) }
{
    if is_paren_at(tokens, at) {
        if underscore {
            None
        } else {
            Some((name, at + 1))
        }
    } else {
        None
    }
}

/// A call by an alias, a dot and a name.
fn alias_call(
    alloc: Global,
    alias: &Word,
    tokens: &[Token],
    at: usize,
) -> Result<Option<(Word, usize)>, AllocError>
    ensures { IfOk result (λ r. CallShows (tokens_of tokens.now) r (after_alias alias.now (drop at (tokens_of tokens.now)))) }
{
    if is_dot_at(tokens, at) {
        let call = after_dot(alloc, alias, tokens, at + 1)?;
        return Ok(call);
    }
    Ok(None)
}

/// The name after an alias and a dot.
fn after_dot(
    alloc: Global,
    alias: &Word,
    tokens: &[Token],
    at: usize,
) -> Result<Option<(Word, usize)>, AllocError>
    ensures { IfOk result (λ r. CallShows (tokens_of tokens.now) r (after_dot alias.now (drop at (tokens_of tokens.now)))) }
{
    match kind_at(tokens, at) {
        None => Ok(None),
        Some(kind) => {
            let call = dotted_call(alloc, alias, kind, tokens, at + 1)?;
            Ok(call)
        }
    }
}

/// A call by an alias and the name that a token is, where the place after it is known.
fn dotted_call(
    alloc: Global,
    alias: &Word,
    kind: &TokenKind,
    tokens: &[Token],
    after: usize,
) -> Result<Option<(Word, usize)>, AllocError>
    ensures { IfOk result (λ r. CallShows (tokens_of tokens.now) r (after_dot alias.now (token_of kind.now ∷ drop after (tokens_of tokens.now)))) }
{
    match kind {
        TokenKind::Called(name) => {
            let whole = dotted(alloc, alias, name)?;
            Ok(called(whole, is_underscore(name), tokens, after))
        }
        _ => Ok(None),
    }
}

/// Whether a `(` stands at a place.
fn is_paren_at(tokens: &[Token], at: usize) -> bool
    ensures value { result ≡ paren_first (drop at (tokens_of tokens.now)) }
    ensures within { result ≡ true → at < length tokens.now }
{
    match kind_at(tokens, at) {
        None => false,
        Some(kind) => is_paren(kind),
    }
}

fn is_paren(kind: &TokenKind) -> bool
    ensures { result ≡ is_paren (token_of kind.now) }
{
    match kind {
        TokenKind::Sign(Sign::OpenParen) => true,
        _ => false,
    }
}

/// Whether a `.` stands at a place.
fn is_dot_at(tokens: &[Token], at: usize) -> bool
    ensures value { result ≡ dot_first (drop at (tokens_of tokens.now)) }
    ensures within { result ≡ true → at < length tokens.now }
{
    match kind_at(tokens, at) {
        None => false,
        Some(kind) => is_dot(kind),
    }
}

fn is_dot(kind: &TokenKind) -> bool
    ensures { result ≡ is_dot (token_of kind.now) }
{
    match kind {
        TokenKind::Sign(Sign::Dot) => true,
        _ => false,
    }
}

/// Whether a name is `_`, which stands in patterns only.
pub(crate) fn is_underscore(name: &Word) -> bool
    ensures { result ≡ is_underscore name.now }
{
    name.as_str() == "_"
}

/// An alias and a name with a dot between.
fn dotted(alloc: Global, alias: &Word, name: &Word) -> Result<Word, AllocError>
    ensures { IfOk result (λ w. w ≡ alias.now ++ 46 ∷ name.now) }
{
    let mut text = String::from_str(alloc, alias.as_str())?;
    text.push_str(".")?;
    text.push_str(name.as_str())?;
    Word::of(alloc, text.as_str())
}
