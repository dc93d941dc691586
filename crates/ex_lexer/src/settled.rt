//! Tokens with settled newlines.
ghost use Rattle.std.specs.Prelude.{◌≡◌, ◌||◌, ◌++◌, ◌∷◌, [], List, IfOk, Option, Some, false};
ghost use Rattle.ex_grammar.specs.Tokens.{Token as Lexeme, Placed, Mark};
ghost use Rattle.ex_grammar.specs.Operators.{infix_of, prefix_of};
ghost use Rattle.ex_grammar.specs.Lexing.{Piece, Whole, part};
ghost use Rattle.ex_grammar.specs.Newlines.{separators, with_newline, with_semicolon, drops_after, drops_before, asks_for_more, is_closing, continues_by, is_infix, is_prefix};
ghost use Rattle.ex_grammar.specs.Coded.{IsToken, ArePlaced};
ghost use Rattle.ex_lexer.specs.Parts.{IsPart};
ghost use Rattle.ex_lexer.specs.Settled.{gap_of, separator_at, IsSettled, Adds};
ghost use Rattle.ex_lexer.specs.declared.settled.Gap.TheVariants.{Nothing as NoGap};

use crate::front::Part;
use ex_grammar::{Infix, Prefix, Sign, Token, TokenKind};
use std::alloc::{AllocError, Global};

/// What separates two tokens, and from where to where it stands.
#[derive(Clone, Copy, Debug)]
pub(crate) enum Gap {
    Nothing,
    /// Newlines alone.
    Newlines(u64, u64),
    /// At least one `;`.
    Semicolons(u64, u64),
}

/// The tokens so far, and what stands after the last of them.
#[derive(Drop)]
pub(crate) struct Settled {
    pub tokens: Vec<Token>,
    pub gap: Gap,
    /// Whether a newline after the last token is dropped.
    pub drops: bool,
}

impl Settled {
    /// No token yet. Takes no memory.
    pub fn new(alloc: Global) -> Settled
        ensures { (result.tokens.items ≡ []) × (result.gap ≡ NoGap) × (result.drops ≡ false) }
    {
        Settled {
            tokens: Vec::new(alloc),
            gap: Gap::Nothing,
            drops: false,
        }
    }

    /// Adds a part that stands between two places.
    pub fn add(&mut self, taken: Part, from: u64, to: u64) -> Result<(), AllocError>
        ensures { IfOk result (λ _. (made : List Placed) (before : Option Lexeme) (p : Piece) → IsPart taken p → IsSettled self.old.tokens.items self.old.drops made before → Adds made before (gap_of self.old.gap) (part p from to ∷ []) self.new.tokens.items self.new.drops (gap_of self.new.gap)) }
    {
        match taken {
            Part::Blank => Ok(()),
            Part::Newline => {
                self.gap = with_newline(self.gap, from, to);
                Ok(())
            }
            Part::Semicolon => {
                self.gap = with_semicolon(self.gap, from, to);
                Ok(())
            }
            Part::Whole(kind) => {
                self.put(kind, from, to)?;
                Ok(())
            }
        }
    }

    /// Adds a token, after a separator if one stands before it.
    pub fn put(&mut self, kind: TokenKind, from: u64, to: u64) -> Result<(), AllocError>
        ensures { IfOk result (λ _. (made : List Placed) (before : Option Lexeme) (t : Lexeme) → IsToken kind t → IsSettled self.old.tokens.items self.old.drops made before → Adds made before (gap_of self.old.gap) (part (Whole t) from to ∷ []) self.new.tokens.items self.new.drops (gap_of self.new.gap)) }
    {
        self.separate(drops_before(&kind))?;
        self.drops = drops_after(&kind);
        self.gap = Gap::Nothing;
        self.tokens.push(Token { kind, from, to })?;
        Ok(())
    }

    /// Adds the separator that stands before the next token, if one does, where a newline before
    /// that token is dropped or isn't.
    pub fn separate(&mut self, drops: bool) -> Result<(), AllocError>
        ensures { IfOk result (λ _. (made : List Placed) (before after : Option Lexeme) → IsSettled self.old.tokens.items self.old.drops made before → drops ≡ drops_before after → ArePlaced self.new.tokens.items (made ++ separators before (gap_of self.old.gap) after)) }
    {
        match separator(self.gap, self.drops, drops) {
            None => Ok(()),
            Some((from, to)) => {
                self.tokens.push(Token {
                    kind: TokenKind::Separator,
                    from,
                    to,
                })?;
                Ok(())
            }
        }
    }
}

/// The place of the separator that a gap gives, where newlines in it are dropped after the token
/// before or before the next one.
fn separator(gap: Gap, after: bool, before: bool) -> Option<(u64, u64)>
    ensures { result ≡ separator_at (gap_of gap) (after || before) }
{
    match gap {
        Gap::Nothing => None,
        Gap::Newlines(from, to) => {
            if after || before {
                None
            } else {
                Some((from, to))
            }
        }
        Gap::Semicolons(from, to) => Some((from, to)),
    }
}

/// The gap with a newline more.
fn with_newline(gap: Gap, from: u64, to: u64) -> Gap
    ensures { gap_of result ≡ with_newline (gap_of gap) from to }
{
    match gap {
        Gap::Nothing => Gap::Newlines(from, to),
        Gap::Newlines(first, _) => Gap::Newlines(first, to),
        Gap::Semicolons(first, _) => Gap::Semicolons(first, to),
    }
}

/// The gap with a `;` more.
fn with_semicolon(gap: Gap, from: u64, to: u64) -> Gap
    ensures { gap_of result ≡ with_semicolon (gap_of gap) from to }
{
    match gap {
        Gap::Nothing => Gap::Semicolons(from, to),
        Gap::Newlines(first, _) => Gap::Semicolons(first, to),
        Gap::Semicolons(first, _) => Gap::Semicolons(first, to),
    }
}

/// Whether a newline after a token is dropped: after an operator and after `,` `(` `[` `{` `|` `<-` `.`.
fn drops_after(kind: &TokenKind) -> bool
    ensures { (t : Lexeme) → IsToken kind.now t → result ≡ drops_after (Some t) }
{
    is_infix(kind) || is_prefix(kind) || asks_for_more(kind)
}

/// Whether a token may stand between two operands.
fn is_infix(kind: &TokenKind) -> bool
    ensures { (t : Lexeme) → IsToken kind.now t → result ≡ is_infix (infix_of t) }
{
    Infix::of(kind).is_some()
}

/// Whether a token may stand before an operand as an operator.
fn is_prefix(kind: &TokenKind) -> bool
    ensures { (t : Lexeme) → IsToken kind.now t → result ≡ is_prefix (prefix_of t) }
{
    Prefix::of(kind).is_some()
}

/// Whether a token is one of the signs `,` `(` `[` `{` `|` `<-` `.`.
fn asks_for_more(kind: &TokenKind) -> bool
    ensures { (t : Lexeme) → IsToken kind.now t → result ≡ asks_for_more t }
{
    match kind {
        TokenKind::Sign(sign) => sign_asks(*sign),
        _ => false,
    }
}

fn sign_asks(sign: Sign) -> bool
    ensures { result ≡ asks_for_more (Mark sign) }
{
    matches!(
        sign,
        Sign::Comma
            | Sign::OpenParen
            | Sign::OpenBracket
            | Sign::OpenBrace
            | Sign::Bar
            | Sign::LeftArrow
            | Sign::Dot
    )
}

/// Whether a newline before a token is dropped: before `)` `]` `}`, and before a line that begins with
/// an operator that continues the line before.
fn drops_before(kind: &TokenKind) -> bool
    ensures { (t : Lexeme) → IsToken kind.now t → result ≡ drops_before (Some t) }
{
    is_closing(kind) || continues(kind)
}

/// Whether a token is `)`, `]`, `}` or the `}` of a `#{`.
fn is_closing(kind: &TokenKind) -> bool
    ensures { (t : Lexeme) → IsToken kind.now t → result ≡ is_closing t }
{
    match kind {
        TokenKind::Sign(sign) => sign_closes(*sign),
        TokenKind::HoleEnds(_) => true,
        _ => false,
    }
}

fn sign_closes(sign: Sign) -> bool
    ensures { result ≡ is_closing (Mark sign) }
{
    matches!(
        sign,
        Sign::CloseParen | Sign::CloseBracket | Sign::CloseBrace
    )
}

/// Whether a line that begins with a token goes on with the line before.
fn continues(kind: &TokenKind) -> bool
    ensures { (t : Lexeme) → IsToken kind.now t → result ≡ continues_by (infix_of t) }
{
    match Infix::of(kind) {
        None => false,
        Some(infix) => infix.continues(),
    }
}
