//! Cutting a source, one step after another.
ghost use Rattle.std.specs.Prelude.{◌≡◌, ◌≤◌, ◌<◌, ◌+◌, ◌^◌, ◌==◌, [], ◌∷◌, ◌-◌, List, IfOk, OnOk, Option, Some, true, false, drop, length, ℕ};
ghost use Rattle.ex_grammar.specs.Tokens.{Token as Lexeme, Placed, Mark, TextBegins, HoleEnds};
ghost use Rattle.ex_grammar.specs.Lexing.{Piece, Whole, braces_by};
ghost use Rattle.ex_grammar.specs.Coded.{IsToken};
ghost use Rattle.ex_lexer.specs.Machine.{Holes, stop_by, text_step, holes_after, ends_hole, braced, outer, opening_of, piece_step};
ghost use Rattle.ex_grammar.specs.Texts.{first_is};
ghost use Rattle.ex_lexer.specs.Runs.{Run, run};
ghost use Rattle.ex_lexer.specs.Front.{Takes, front};
ghost use Rattle.ex_lexer.specs.Parts.{IsPart};
ghost use Rattle.ex_lexer.specs.Settled.{gap_of, IsSettled};
ghost use Rattle.ex_lexer.specs.Open.{IsOpen, IsDone, step_at};
ghost use Rattle.ex_lexer.specs.Lexed.{LexedIs};

use crate::front::{Front, Part, read_front};
use crate::settled::Settled;
use crate::texts::{Stop, begins_with, read_run};
use ex_grammar::{LexErrorKind, Sign, Token, TokenKind};
use ex_word::Word;
use std::alloc::{AllocError, Global};

/// A text that is open at a `#{`.
#[derive(Clone, Copy, Debug)]
struct Hole {
    /// The place of the text's `"`.
    opening: u64,
    /// How many braces are open within the `#{`.
    braces: u64,
}

/// What a source gives.
#[derive(Debug, Drop)]
pub(crate) enum Lexed {
    Tokens(Vec<Token>),
    /// No token stands at this place.
    Refused(u64, LexErrorKind),
}

/// What one step does.
#[derive(Clone, Copy, Debug)]
enum Step {
    /// The source goes on after so many bytes.
    Goes(usize),
    /// No token stands at this place.
    Refuses(u64, LexErrorKind),
}

/// The tokens so far, and the texts that are open.
#[derive(Drop)]
struct Lexer {
    settled: Settled,
    /// The innermost of the texts that are open at a `#{`.
    inner: Option<Hole>,
    /// Those around it, from the outside in.
    outer: Vec<Hole>,
}

/// The tokens of a source, or the first refusal.
pub(crate) fn lex(alloc: Global, source: &str) -> Result<Lexed, AllocError>
    ensures { IfOk result (λ l. LexedIs source.now l) }
{
    let mut lexer = Lexer {
        settled: Settled::new(alloc),
        inner: None,
        outer: Vec::new(alloc),
    };
    let mut rest = source;
    while !rest.is_empty() {
        let at = (source.len() - rest.len()) as u64;
        let len = match lexer.step(alloc, rest, at)? {
            Step::Goes(len) => len,
            Step::Refuses(at, kind) => return Ok(Lexed::Refused(at, kind)),
        };
        rest = &rest[len..];
    }
    if let Some(hole) = lexer.inner {
        return Ok(Lexed::Refused(hole.opening, LexErrorKind::OpenText));
    }
    let Lexer { mut settled, .. } = lexer;
    settled.separate(false)?;
    let Settled { tokens, .. } = settled;
    Ok(Lexed::Tokens(tokens))
}

impl Lexer {
    /// Takes what stands at a place.
    fn step(&mut self, alloc: Global, rest: &str, at: u64) -> Result<Step, AllocError>
        requires some { 0 < length rest.now }
        requires small { at + length rest.now < 2 ^ 63 }
        requires open { (holes : Holes) × IsOpen at self.old.inner self.old.outer.items holes }
        ensures { IfOk result (λ s. (holes : Holes) (made : List Placed) (before : Option Lexeme) → IsOpen at self.old.inner self.old.outer.items holes → IsSettled self.old.settled.tokens.items self.old.settled.drops made before
            → IsDone (at + 1) made before (gap_of self.old.settled.gap) (step_at holes at rest.now) self.new.settled self.new.inner self.new.outer.items s) }
    {
        let bytes = rest.as_bytes();
        if begins_with(bytes, b'"') {
            let done = self.text(alloc, rest, at)?;
            return Ok(done);
        }
        if self.closes_hole(bytes) {
            let done = self.text_again(alloc, rest, at)?;
            return Ok(done);
        }
        let done = self.piece(alloc, rest, at)?;
        Ok(done)
    }

    /// Takes a text from its `"` on.
    fn text(&mut self, alloc: Global, rest: &str, at: u64) -> Result<Step, AllocError>
        requires quote { first_is (λ b. b == 34) rest.now ≡ true }
        requires small { at + length rest.now < 2 ^ 63 }
        ensures { IfOk result (λ s. (holes : Holes) (made : List Placed) (before : Option Lexeme) → IsOpen at self.old.inner self.old.outer.items holes → IsSettled self.old.settled.tokens.items self.old.settled.drops made before
            → IsDone (at + 1) made before (gap_of self.old.settled.gap) (text_step TextBegins holes at at (run 0 (drop 1 rest.now))) self.new.settled self.new.inner self.new.outer.items s) }
    {
        let run = read_run(alloc, &rest[1..])?;
        let done = self.begin_text(run.said, run.len, run.stop, at)?;
        Ok(done)
    }

    /// Takes a text again from the `}` of its `#{` on.
    fn text_again(&mut self, alloc: Global, rest: &str, at: u64) -> Result<Step, AllocError>
        requires brace { first_is (λ b. b == 125) rest.now ≡ true }
        requires small { at + length rest.now < 2 ^ 63 }
        ensures { IfOk result (λ s. (holes : Holes) (made : List Placed) (before : Option Lexeme) → IsOpen at self.old.inner self.old.outer.items holes → IsSettled self.old.settled.tokens.items self.old.settled.drops made before
            → IsDone (at + 1) made before (gap_of self.old.settled.gap) (text_step HoleEnds (outer holes) (opening_of holes) at (run 0 (drop 1 rest.now))) self.new.settled self.new.inner self.new.outer.items s) }
    {
        let run = read_run(alloc, &rest[1..])?;
        let done = self.end_hole(run.said, run.len, run.stop, at)?;
        Ok(done)
    }

    /// Takes a piece.
    fn piece(&mut self, alloc: Global, rest: &str, at: u64) -> Result<Step, AllocError>
        requires some { 0 < length rest.now }
        requires quote { first_is (λ b. b == 34) rest.now ≡ false }
        requires small { at + length rest.now < 2 ^ 63 }
        requires open { (holes : Holes) × IsOpen at self.old.inner self.old.outer.items holes }
        ensures { IfOk result (λ s. (holes : Holes) (made : List Placed) (before : Option Lexeme) → IsOpen at self.old.inner self.old.outer.items holes → IsSettled self.old.settled.tokens.items self.old.settled.drops made before
            → IsDone (at + 1) made before (gap_of self.old.settled.gap) (piece_step (front rest.now) holes at) self.new.settled self.new.inner self.new.outer.items s) }
    {
        match read_front(alloc, rest)? {
            Front::Fails(len, kind) => Ok(Step::Refuses(at + len as u64, kind)),
            Front::Takes(part, len) => {
                let done = self.take(part, at, len)?;
                Ok(done)
            }
        }
    }

    /// Whether bytes begin with a `}` that ends a `#{`.
    fn closes_hole(&self, bytes: &[u8]) -> bool
        ensures brace { result ≡ true → first_is (λ b. b == 125) bytes.now ≡ true }
        ensures value { (most : ℕ) (holes : Holes) → IsOpen most self.now.inner self.now.outer.items holes → result ≡ first_is (λ b. ends_hole b holes) bytes.now }
    {
        begins_with(bytes, b'}') && self.ends_hole()
    }

    /// Whether a `}` ends a `#{`: one is open, and no brace within it.
    fn ends_hole(&self) -> bool
        ensures { (most : ℕ) (holes : Holes) → IsOpen most self.now.inner self.now.outer.items holes → result ≡ ends_hole 125 holes }
    {
        match self.inner {
            None => false,
            Some(hole) => hole.braces == 0,
        }
    }

    /// Takes a part of so many bytes.
    fn take(&mut self, taken: Part, at: u64, len: usize) -> Result<Step, AllocError>
        requires small { at + len < 2 ^ 64 }
        requires low { at < 2 ^ 63 }
        requires open { (holes : Holes) × IsOpen at self.old.inner self.old.outer.items holes }
        ensures { IfOk result (λ s. (holes : Holes) (made : List Placed) (before : Option Lexeme) (p : Piece) → IsPart taken p → IsOpen at self.old.inner self.old.outer.items holes → IsSettled self.old.settled.tokens.items self.old.settled.drops made before
            → IsDone (at + 1) made before (gap_of self.old.settled.gap) (piece_step (Takes p len) holes at) self.new.settled self.new.inner self.new.outer.items s) }
    {
        self.count_braces(&taken);
        self.settled.add(taken, at, at + len as u64)?;
        Ok(Step::Goes(len))
    }

    /// Counts the braces that are open within the innermost `#{`.
    fn count_braces(&mut self, taken: &Part)
        requires open { (at : ℕ) × (holes : Holes) × (at < 2 ^ 63) × IsOpen at self.old.inner self.old.outer.items holes }
        ensures settled { self.new.settled ≡ self.old.settled }
        ensures opened { (at : ℕ) (holes : Holes) (p : Piece) → IsPart taken.now p → IsOpen at self.old.inner self.old.outer.items holes → IsOpen (at + 1) self.new.inner self.new.outer.items (holes_after p holes) }
    {
        match self.inner {
            None => {}
            Some(hole) => {
                self.inner = Some(Hole {
                    opening: hole.opening,
                    braces: braces_after(hole.braces, taken),
                });
            }
        }
    }

    /// Takes a text's `"` and what it says, in so many bytes.
    fn begin_text(
        &mut self,
        said: Word,
        len: usize,
        stop: Stop,
        at: u64,
    ) -> Result<Step, AllocError>
        requires { at + len < 2 ^ 63 }
        ensures { IfOk result (λ s. (holes : Holes) (made : List Placed) (before : Option Lexeme) (r : Run) → IsOpen at self.old.inner self.old.outer.items holes → IsSettled self.old.settled.tokens.items self.old.settled.drops made before → said ≡ r.bytes → len ≡ r.len → stop ≡ r.stop
            → IsDone (at + 1) made before (gap_of self.old.settled.gap) (text_step TextBegins holes at at r) self.new.settled self.new.inner self.new.outer.items s) }
    {
        let to = at + (1 + len as u64);
        self.settled.put(TokenKind::TextBegins(said), at, to)?;
        let done = self.stop(stop, at, to, 1 + len)?;
        Ok(done)
    }

    /// Takes the `}` of a `#{` and what the text says from there on, in so many bytes.
    fn end_hole(&mut self, said: Word, len: usize, stop: Stop, at: u64) -> Result<Step, AllocError>
        requires { at + len < 2 ^ 63 }
        ensures { IfOk result (λ s. (holes : Holes) (made : List Placed) (before : Option Lexeme) (r : Run) → IsOpen at self.old.inner self.old.outer.items holes → IsSettled self.old.settled.tokens.items self.old.settled.drops made before → said ≡ r.bytes → len ≡ r.len → stop ≡ r.stop
            → IsDone (at + 1) made before (gap_of self.old.settled.gap) (text_step HoleEnds (outer holes) (opening_of holes) at r) self.new.settled self.new.inner self.new.outer.items s) }
    {
        let to = at + (1 + len as u64);
        self.settled.put(TokenKind::HoleEnds(said), at, to)?;
        let opening = self.leave_hole();
        let done = self.stop(stop, opening, to, 1 + len)?;
        Ok(done)
    }

    /// Leaves the innermost `#{`, and answers the place of its text.
    fn leave_hole(&mut self) -> u64
        ensures settled { self.new.settled ≡ self.old.settled }
        ensures opened { (most : ℕ) (holes : Holes) → IsOpen most self.old.inner self.old.outer.items holes → (result ≡ opening_of holes) × IsOpen most self.new.inner self.new.outer.items (outer holes) }
    {
        let opening = match self.inner {
            None => 0,
            Some(hole) => hole.opening,
        };
        self.inner = self.outer.pop();
        opening
    }

    /// Comes into a `#{` of a text that began at a place.
    fn enter_hole(&mut self, opening: u64) -> Result<(), AllocError>
        ensures settled { OnOk result (self.new.settled ≡ self.old.settled) }
        ensures opened { IfOk result (λ _. (most : ℕ) (holes : Holes) → IsOpen most self.old.inner self.old.outer.items holes → IsOpen most self.new.inner self.new.outer.items ((opening, 0) ∷ holes)) }
    {
        match self.inner {
            None => {}
            Some(hole) => self.outer.push(hole)?,
        }
        self.inner = Some(Hole { opening, braces: 0 });
        Ok(())
    }

    /// Takes what stands after the characters of a text, which end at a place.
    fn stop(&mut self, stop: Stop, opening: u64, at: u64, len: usize) -> Result<Step, AllocError>
        requires { (at < 2 ^ 64 - 2) × (len < 2 ^ 64 - 2) }
        ensures { IfOk result (λ s. (most : ℕ) (holes : Holes) (made : List Placed) (before : Option Lexeme) → IsOpen most self.old.inner self.old.outer.items holes → IsSettled self.old.settled.tokens.items self.old.settled.drops made before
            → IsDone most made before (gap_of self.old.settled.gap) (stop_by stop holes opening at len []) self.new.settled self.new.inner self.new.outer.items s) }
    {
        match stop {
            Stop::Quote => {
                self.settled.put(TokenKind::TextEnds, at, at + 1)?;
                Ok(Step::Goes(len + 1))
            }
            Stop::Hole => {
                self.settled.put(TokenKind::HoleBegins, at, at + 2)?;
                self.enter_hole(opening)?;
                Ok(Step::Goes(len + 2))
            }
            Stop::End => Ok(Step::Refuses(opening, LexErrorKind::OpenText)),
            Stop::Escape => Ok(Step::Refuses(opening, LexErrorKind::BadEscape)),
        }
    }
}

/// How many braces are open after a part.
fn braces_after(braces: u64, taken: &Part) -> u64
    requires { braces < 2 ^ 63 }
    ensures { (p : Piece) → IsPart taken.now p → result ≡ braced braces (braces_by p (Some braces)) }
{
    match taken {
        Part::Whole(kind) => braces_after_token(braces, kind),
        _ => braces,
    }
}

fn braces_after_token(braces: u64, kind: &TokenKind) -> u64
    requires { braces < 2 ^ 63 }
    ensures { (t : Lexeme) → IsToken kind.now t → result ≡ braced braces (braces_by (Whole t) (Some braces)) }
{
    match kind {
        TokenKind::Sign(sign) => braces_after_sign(braces, *sign),
        _ => braces,
    }
}

fn braces_after_sign(braces: u64, sign: Sign) -> u64
    requires { braces < 2 ^ 63 }
    ensures { result ≡ braced braces (braces_by (Whole (Mark sign)) (Some braces)) }
{
    match sign {
        Sign::OpenBrace => braces + 1,
        Sign::CloseBrace => braces.saturating_sub(1),
        _ => braces,
    }
}
