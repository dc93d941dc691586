// How deep tokens nest.
ghost use Rattle.std.specs.Prelude.{◌≡◌, ◌≤◌, List, IfOk, MatchOption};
ghost use Rattle.ex_grammar.specs.Tokens.{Token as Lexeme, Placed, Mark, Word};
ghost use Rattle.ex_grammar.specs.Newlines.{bare};
ghost use Rattle.ex_grammar.specs.Nests.{Open, open_at, opened, ended, begun, closed, hole_closed};
ghost use Rattle.ex_grammar.specs.Reading.{NestsWithin, NestsTooDeep};
ghost use Rattle.ex_grammar.specs.Coded.{IsToken, ArePlaced};
ghost use Rattle.ex_parser.specs.Levels.{IsOpen, opener_of, turned, left, in_bracket};

use ex_grammar::{Keyword, Sign, Token, TokenKind};
use std::alloc::{AllocError, Global};

/// How many levels may be open.
const LIMIT: usize = 256;

/// What opened a level: a bracket or `do`, or a `#{`.
#[derive(Clone, Copy, Debug)]
enum Opener {
    Bracket,
    Hole,
}

/// What a token does to the levels that are open.
#[derive(Clone, Copy, Debug)]
enum Turn {
    /// It opens a bracket level, or that of a `#{`.
    Opens(Opener),
    /// `do` ends the stretches where it stands, and opens a level.
    Does,
    /// It closes the innermost bracket level.
    Closes,
    /// It ends a `#{`, and all that is open in it.
    ClosesHole,
    /// It ends the stretches where it stands.
    Ends,
    /// An operator begins a stretch.
    Begins,
    /// Nothing.
    Rests,
}

/// The levels that are open.
#[derive(Drop)]
struct Levels {
    /// How many.
    count: usize,
    /// How many operators stand on the innermost bracket level.
    inner: usize,
    /// What opened each bracket level that is open, from the outside in, and how many operators stand
    /// around it.
    outer: Vec<(Opener, usize)>,
}

/// The place of the first token at which more than 256 levels are open.
pub(crate) fn first_too_deep(alloc: Global, tokens: &[Token]) -> Result<Option<u64>, AllocError>
    requires { (ts : List Placed) × ArePlaced tokens.now ts }
    ensures { IfOk result (λ r. (ts : List Placed) → ArePlaced tokens.now ts → MatchOption r (NestsWithin (bare ts)) (NestsTooDeep ts)) }
{
    let mut levels = Levels {
        count: 0,
        inner: 0,
        outer: Vec::new(alloc),
    };
    for token in tokens {
        levels.pass(&token.kind)?;
        if levels.count > LIMIT {
            return Ok(Some(token.from));
        }
    }
    Ok(None)
}

impl Levels {
    /// Goes past a token.
    fn pass(&mut self, kind: &TokenKind) -> Result<(), AllocError>
        requires open { (before : Open) × IsOpen self.old.count self.old.inner self.old.outer.items before }
        requires small { self.old.count ≤ 256 }
        ensures { IfOk result (λ _. (before : Open) (t : Lexeme) → IsToken kind.now t → IsOpen self.old.count self.old.inner self.old.outer.items before → IsOpen self.new.count self.new.inner self.new.outer.items (open_at before t)) }
    {
        match turn_of(kind) {
            Turn::Opens(opener) => self.open(opener)?,
            Turn::Does => {
                self.end();
                self.open(Opener::Bracket)?;
            }
            Turn::Closes => self.close(),
            Turn::ClosesHole => self.close_hole(),
            Turn::Ends => self.end(),
            Turn::Begins => self.begin(),
            Turn::Rests => {}
        }
        Ok(())
    }

    /// Opens a bracket level.
    fn open(&mut self, opener: Opener) -> Result<(), AllocError>
        requires { self.old.count ≤ 256 }
        ensures { IfOk result (λ _. (before : Open) → IsOpen self.old.count self.old.inner self.old.outer.items before → IsOpen self.new.count self.new.inner self.new.outer.items (opened (opener_of opener) before)) }
    {
        self.outer.push((opener, self.inner))?;
        self.inner = 0;
        self.count += 1;
        Ok(())
    }

    /// Begins the stretch of an operator.
    fn begin(&mut self)
        requires open { (before : Open) × IsOpen self.old.count self.old.inner self.old.outer.items before }
        requires small { self.old.count ≤ 256 }
        ensures { (before : Open) → IsOpen self.old.count self.old.inner self.old.outer.items before → IsOpen self.new.count self.new.inner self.new.outer.items (begun before) }
    {
        self.inner += 1;
        self.count += 1;
    }

    /// Ends the stretches on the innermost bracket level.
    fn end(&mut self)
        requires { (before : Open) × IsOpen self.old.count self.old.inner self.old.outer.items before }
        ensures count { self.new.count ≤ self.old.count }
        ensures ended { (before : Open) → IsOpen self.old.count self.old.inner self.old.outer.items before → IsOpen self.new.count self.new.inner self.new.outer.items (ended before) }
    {
        self.count -= self.inner;
        self.inner = 0;
    }

    /// Closes the innermost bracket level. Where none is open, or none in the innermost `#{`, it ends
    /// the stretches there.
    fn close(&mut self)
        requires { (before : Open) × IsOpen self.old.count self.old.inner self.old.outer.items before }
        ensures { (before : Open) → IsOpen self.old.count self.old.inner self.old.outer.items before → IsOpen self.new.count self.new.inner self.new.outer.items (closed before.outer) }
    {
        self.end();
        if self.in_bracket() {
            self.leave();
        }
    }

    /// Closes the innermost `#{` and all that is open in it.
    fn close_hole(&mut self)
        requires { (before : Open) × IsOpen self.old.count self.old.inner self.old.outer.items before }
        ensures { (before : Open) → IsOpen self.old.count self.old.inner self.old.outer.items before → IsOpen self.new.count self.new.inner self.new.outer.items (hole_closed before.outer) }
    {
        self.end();
        while self.in_bracket() {
            self.leave();
            self.end();
        }
        self.leave();
    }

    /// Whether a bracket or `do` opened the innermost level.
    fn in_bracket(&self) -> bool
        ensures { (before : Open) → IsOpen self.now.count self.now.inner self.now.outer.items before → result ≡ in_bracket before.outer }
    {
        match self.outer.last() {
            Some((Opener::Bracket, _)) => true,
            _ => false,
        }
    }

    /// Leaves the innermost bracket level, where no stretch is left.
    fn leave(&mut self)
        requires { (before : Open) × IsOpen self.old.count self.old.inner self.old.outer.items before × (before.inner ≡ 0) }
        ensures { (before : Open) → IsOpen self.old.count self.old.inner self.old.outer.items before → before.inner ≡ 0 → IsOpen self.new.count self.new.inner self.new.outer.items (left before.outer) }
    {
        match self.outer.pop() {
            None => {}
            Some((_, inner)) => {
                self.inner = inner;
                self.count -= 1;
            }
        }
    }
}

/// What a token does to the levels that are open.
fn turn_of(kind: &TokenKind) -> Turn
    ensures { (t : Lexeme) (before : Open) → IsToken kind.now t → open_at before t ≡ turned result before }
{
    match kind {
        TokenKind::Sign(sign) => sign_turn(*sign),
        TokenKind::Word(word) => word_turn(*word),
        TokenKind::HoleBegins => Turn::Opens(Opener::Hole),
        TokenKind::HoleEnds(_) => Turn::ClosesHole,
        TokenKind::Separator => Turn::Ends,
        _ => Turn::Rests,
    }
}

fn sign_turn(sign: Sign) -> Turn
    ensures { (before : Open) → open_at before (Mark sign) ≡ turned result before }
{
    match sign {
        Sign::OpenParen | Sign::OpenBracket | Sign::OpenBrace => Turn::Opens(Opener::Bracket),
        Sign::CloseParen | Sign::CloseBracket | Sign::CloseBrace => Turn::Closes,
        Sign::Comma | Sign::Bar | Sign::RightArrow | Sign::LeftArrow => Turn::Ends,
        Sign::Caret | Sign::Dot => Turn::Rests,
        _ => Turn::Begins,
    }
}

fn word_turn(word: Keyword) -> Turn
    ensures { (before : Open) → open_at before (Word word) ≡ turned result before }
{
    match word {
        Keyword::Do => Turn::Does,
        Keyword::End => Turn::Closes,
        Keyword::Else => Turn::Ends,
        Keyword::And | Keyword::Or | Keyword::Not | Keyword::In => Turn::Begins,
        _ => Turn::Rests,
    }
}
