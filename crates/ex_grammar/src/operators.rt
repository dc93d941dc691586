// Operators.
ghost use Rattle.std.specs.Prelude.{◌≡◌};
ghost use Rattle.ex_grammar.specs.Tokens.{Token, Mark, Word};
ghost use Rattle.ex_grammar.specs.Operators.{infix_of, prefix_of, row_of, left_by, right_by};
ghost use Rattle.ex_grammar.specs.Coded.{IsToken};

use crate::token::{Keyword, Sign, TokenKind};

/// An operator between two operands.
#[derive(Clone, Copy, Debug, PartialEq, Eq)]
pub enum Operator {
    /// `||`
    Or,
    /// `or`
    StrictOr,
    /// `&&`
    And,
    /// `and`
    StrictAnd,
    /// `==`
    Equal,
    /// `!=`
    NotEqual,
    /// `===`
    StrictEqual,
    /// `!==`
    StrictNotEqual,
    /// `<`
    Less,
    /// `>`
    Greater,
    /// `<=`
    LessOrEqual,
    /// `>=`
    GreaterOrEqual,
    /// `in`
    Member,
    /// `++`
    Join,
    /// `<>`
    Concat,
    /// `+`
    Add,
    /// `-`
    Subtract,
    /// `*`
    Multiply,
}

/// What may stand between two operands.
#[derive(Clone, Copy, Debug, PartialEq, Eq)]
pub enum Infix {
    /// An operator.
    Operator(Operator),
    /// `|>`, which makes a call.
    Pipe,
    /// `=`, whose left side is a pattern.
    Match,
}

/// An operator before its one operand.
#[derive(Clone, Copy, Debug, PartialEq, Eq)]
pub enum Prefix {
    /// `-`
    Negate,
    /// `+`
    Keep,
    /// `!`
    Not,
    /// `not`
    StrictNot,
}

impl Infix {
    /// What a token is between two operands: none where it can't stand there.
    pub fn of(kind: &TokenKind) -> Option<Infix>
        ensures { (t : Token) → IsToken kind.now t → result ≡ infix_of t }
    {
        match kind {
            TokenKind::Sign(sign) => Infix::of_sign(*sign),
            TokenKind::Word(word) => Infix::of_word(*word),
            _ => None,
        }
    }

    fn of_sign(sign: Sign) -> Option<Infix>
        ensures { result ≡ infix_of (Mark sign) }
    {
        let operator = match sign {
            Sign::Equals => return Some(Infix::Match),
            Sign::Pipe => return Some(Infix::Pipe),
            Sign::OrOr => Operator::Or,
            Sign::AndAnd => Operator::And,
            Sign::EqualEqual => Operator::Equal,
            Sign::BangEqual => Operator::NotEqual,
            Sign::TripleEqual => Operator::StrictEqual,
            Sign::BangEqualEqual => Operator::StrictNotEqual,
            Sign::Less => Operator::Less,
            Sign::Greater => Operator::Greater,
            Sign::LessEqual => Operator::LessOrEqual,
            Sign::GreaterEqual => Operator::GreaterOrEqual,
            Sign::PlusPlus => Operator::Join,
            Sign::LessGreater => Operator::Concat,
            Sign::Plus => Operator::Add,
            Sign::Minus => Operator::Subtract,
            Sign::Star => Operator::Multiply,
            _ => return None,
        };
        Some(Infix::Operator(operator))
    }

    fn of_word(word: Keyword) -> Option<Infix>
        ensures { result ≡ infix_of (Word word) }
    {
        match word {
            Keyword::Or => Some(Infix::Operator(Operator::StrictOr)),
            Keyword::And => Some(Infix::Operator(Operator::StrictAnd)),
            Keyword::In => Some(Infix::Operator(Operator::Member)),
            _ => None,
        }
    }

    /// The level, from 0, the loosest, to 9.
    pub fn level(self) -> u8
        ensures { result ≡ (row_of self).level }
    {
        match self {
            Infix::Match => 0,
            Infix::Operator(Operator::Or | Operator::StrictOr) => 1,
            Infix::Operator(Operator::And | Operator::StrictAnd) => 2,
            Infix::Operator(
                Operator::Equal
                | Operator::NotEqual
                | Operator::StrictEqual
                | Operator::StrictNotEqual,
            ) => 3,
            Infix::Operator(
                Operator::Less
                | Operator::Greater
                | Operator::LessOrEqual
                | Operator::GreaterOrEqual,
            ) => 4,
            Infix::Pipe => 5,
            Infix::Operator(Operator::Member) => 6,
            Infix::Operator(Operator::Join | Operator::Concat) => 7,
            Infix::Operator(Operator::Add | Operator::Subtract) => 8,
            Infix::Operator(Operator::Multiply) => 9,
        }
    }

    /// The level of what stands right of it: its own where it groups to the right, else the next.
    pub fn right_level(self) -> u8
        ensures { result ≡ right_by (row_of self).level (row_of self).groups }
    {
        match self {
            Infix::Match | Infix::Operator(Operator::Join | Operator::Concat) => self.level(),
            _ => self.level() + 1,
        }
    }

    /// Whether a line that begins with it goes on with the line before.
    pub fn continues(self) -> bool
        ensures { result ≡ (row_of self).continues }
    {
        !matches!(self, Infix::Operator(Operator::Add | Operator::Subtract))
    }
}

impl Prefix {
    /// What a token is before an operand: none where it is no such operator.
    pub fn of(kind: &TokenKind) -> Option<Prefix>
        ensures { (t : Token) → IsToken kind.now t → result ≡ prefix_of t }
    {
        match kind {
            TokenKind::Sign(sign) => Prefix::of_sign(*sign),
            TokenKind::Word(word) => Prefix::of_word(*word),
            _ => None,
        }
    }

    fn of_sign(sign: Sign) -> Option<Prefix>
        ensures { result ≡ prefix_of (Mark sign) }
    {
        match sign {
            Sign::Minus => Some(Prefix::Negate),
            Sign::Plus => Some(Prefix::Keep),
            Sign::Bang => Some(Prefix::Not),
            _ => None,
        }
    }

    fn of_word(word: Keyword) -> Option<Prefix>
        ensures { result ≡ prefix_of (Word word) }
    {
        match word {
            Keyword::Not => Some(Prefix::StrictNot),
            _ => None,
        }
    }
}
