//! Trees from tokens, by a stack of what is begun. Nothing here recurses.
ghost use Rattle.std.specs.Prelude.{◌≡◌, ◌+◌, ◌++◌, [], ◌∷◌, List, ℕ, length, drop, IfOk, MatchOption};
ghost use Rattle.ex_grammar.specs.Operators.{level};
ghost use Rattle.ex_grammar.specs.Tokens.{Token as Lexeme, Placed};
ghost use Rattle.ex_grammar.specs.Coded.{ArePlaced};
ghost use Rattle.ex_grammar.specs.Newlines.{Lexes};
ghost use Rattle.ex_grammar.specs.Trees.{Tree};
ghost use Rattle.ex_parser.specs.Machine.{Frame, State, Value, Want, Done, Stuck, Reaches, floor, with_tree, want, have, take, ends, end_by, step, is_over, EndsAt, GoesOff, IsNoWhole};
ghost use Rattle.ex_parser.specs.Follow.{follow};
ghost use Rattle.ex_parser.specs.Parsed.{ParsedIs};
ghost use Rattle.ex_parser.specs.Stands.{IsAt};
ghost use Rattle.ex_parser.specs.Shown.{tokens_of, AreTokens, TreeShows, PatternShows, IsHeld, IsFrame, IsStack, Shows, Grows, Turned, tree_held, plain_held};
ghost use Rattle.ex_parser.specs.declared.parser.Move.TheVariants.{Wanted, Held as HeldAt};

use crate::brackets::close_parens;
use crate::follow::{after_separator, call_at, follow_at, infix_at, kind_at, prefix_of, token_at};
use crate::tree::{Ast, Choice, Clause, Head, Hole, Node, Part};
use ex_grammar::{Infix, Operator, Prefix, Token, TokenKind};
use ex_word::Word;
use std::alloc::{AllocError, Global};

/// The levels at which a match, a call with `|>`, a unary and a primary stand.
pub(crate) const MATCH: u8 = 0;

pub(crate) const PIPE: u8 = 5;

pub(crate) const UNARY: u8 = 10;

pub(crate) const PRIMARY: u8 = 11;

/// What was read: its node, and how it may be used.
#[derive(Clone, Copy, Debug)]
pub(crate) struct Held {
    pub(crate) node: usize,
    /// The level at which it stands.
    pub(crate) level: u8,
    /// Whether it is an expression.
    pub(crate) is_tree: bool,
    /// Whether it is a pattern.
    pub(crate) is_pattern: bool,
    /// Whether it is a unary with `!` or `not` that stands in no parentheses.
    pub(crate) negates: bool,
}

/// The items of a bracket so far.
#[derive(Debug, Drop)]
pub(crate) struct Items {
    pub(crate) places: Vec<usize>,
    /// Whether all are expressions.
    pub(crate) are_trees: bool,
    /// Whether all are patterns.
    pub(crate) are_patterns: bool,
}

/// What the items between brackets make.
#[derive(Debug, Drop)]
pub(crate) enum Enclosure {
    Tuple,
    List,
    /// A call of this name, which stands at this level.
    Call(Word, u8),
}

/// What a body belongs to.
#[derive(Debug, Drop)]
pub(crate) enum Block {
    /// An `if` with this condition.
    Then(usize),
    /// The `else` of an `if` with this condition and this body.
    Else(usize, Vec<usize>),
    /// A clause of a `case`: what is looked at, the clauses before it, and its pattern.
    Clause(usize, Vec<Clause>, usize),
    /// A clause of a `cond`: the clauses before it, and its condition.
    Choice(Vec<Choice>, usize),
    /// A `for`.
    For(Head),
}

/// What is begun and waits for an expression or a pattern.
#[derive(Debug, Drop)]
pub(crate) enum Pending {
    /// The right side of an operator, whose left side is the node at this place.
    Operand(Operator, usize),
    /// The right side of a match of this pattern.
    Matched(usize),
    /// What an operator stands before.
    Prefixed(Prefix),
    /// What stands in parentheses.
    Parens,
    /// An item between brackets.
    Items(Enclosure, Items),
    /// The value of a key, after these items and keys.
    Keyed(Enclosure, Vec<usize>, Vec<usize>, Word),
    /// What stands in a list after `|`.
    Tail(Items),
    /// What stands in the `#{` of a text.
    Hole(Word, Vec<Hole>),
    /// The condition of an `if`.
    If,
    /// The expression after `do:`, where the condition is known.
    Do(usize),
    /// The expression after `else:`, where condition and first expression are known.
    ElseDo(usize, usize),
    /// An expression of a body, after these. In a `case` or `cond` it may also begin the next clause.
    Body(Block, Vec<usize>),
    /// What a `case` looks at.
    Case,
    /// The first pattern of a `case`.
    FirstPattern(usize),
    /// The first condition of a `cond`.
    FirstCondition,
    /// The first pattern of a `for`.
    ForPattern,
    /// What the values of the first pattern of a `for` come from.
    ForSource(usize),
    /// A further part of a `for`: a filter, or the pattern of a generator.
    Part(Head),
    /// What the values of a further pattern of a `for` come from.
    PartSource(Head, usize),
    /// The expression after the `do:` of a `for`.
    ForDo(Head),
}

/// Where the parser is: at a place of the tokens, with what it has read or with nothing.
#[derive(Clone, Copy, Debug)]
pub(crate) enum Move {
    /// An expression or a pattern is to begin at this place.
    Wanted(usize),
    /// At this place, with what was read before it.
    Held(Held, usize),
    /// The whole expression ended at this place, and this is its node.
    Finished(usize, usize),
    /// No expression.
    Failed,
}

/// What the tokens of a source derive.
#[derive(Debug, Drop)]
pub(crate) enum Parsed {
    Trees(Ast),
    /// No expression can be read that begins at this byte.
    Syntax(u64),
}

/// The nodes so far, and what is begun, with the last at the end.
#[derive(Drop)]
pub(crate) struct Parser {
    pub(crate) alloc: Global,
    pub(crate) nodes: Vec<Node>,
    pub(crate) stack: Vec<Pending>,
}

/// The trees of a source's tokens, or where the first expression begins that can't be read.
pub(crate) fn parse(alloc: Global, tokens: &[Token]) -> Result<Parsed, AllocError>
    requires { AreTokens tokens.now }
    ensures { IfOk result (λ parsed. (source : List ℕ) (ts : List Placed) → Lexes source ts → ArePlaced tokens.now ts → ParsedIs ts parsed) }
{
    let mut parser = Parser {
        alloc,
        nodes: Vec::new(alloc),
        stack: Vec::new(alloc),
    };
    let mut roots = Vec::new(alloc);
    let mut at = after_separator(tokens, 0);
    while at < tokens.len() {
        match parser.read_whole(tokens, at)? {
            None => return Ok(Parsed::Syntax(tokens[at].from)),
            Some((root, next)) => {
                roots.push(root)?;
                at = next;
            }
        }
    }
    let Parser { nodes, .. } = parser;
    Ok(Parsed::Trees(Ast { nodes, roots }))
}

/// Where the expression after one that ends here begins, or the end of the tokens: none where
/// another token than a separator stands here.
fn after_whole(tokens: &[Token], end: usize) -> Option<usize>
    ensures { MatchOption result (GoesOff (drop end (tokens_of tokens.now))) (λ next. EndsAt (drop end (tokens_of tokens.now)) (drop next (tokens_of tokens.now))) }
{
    match kind_at(tokens, end) {
        None => Some(end),
        Some(TokenKind::Separator) => Some(end + 1),
        Some(_) => None,
    }
}

impl Parser {
    /// Reads a whole expression from a place on, up to a separator or the end of the tokens: its node,
    /// and the place after the separator.
    pub(crate) fn read_whole(
        &mut self,
        tokens: &[Token],
        from: usize,
    ) -> Result<Option<(usize, usize)>, AllocError>
        requires tokens { AreTokens tokens.now }
        requires free { self.old.stack.items ≡ [] }
        ensures { IfOk result (λ r. MatchOption r (IsNoWhole (drop from (tokens_of tokens.now))) (λ p. Grows self.old.nodes.items self.new.nodes.items × (self.new.stack.items ≡ []) × ((t : Tree) × (end : List Lexeme) × IsAt self.new.nodes.items p.0 t × Reaches (Want [] (drop from (tokens_of tokens.now))) (Done t end) × EndsAt end (drop p.1 (tokens_of tokens.now))))) }
    {
        let Some((root, end)) = self.read(tokens, from)? else {
            return Ok(None);
        };
        match after_whole(tokens, end) {
            None => Ok(None),
            Some(next) => Ok(Some((root, next))),
        }
    }

    /// Reads one expression from a place on, as far as it goes: its node, and where it ends.
    pub(crate) fn read(
        &mut self,
        tokens: &[Token],
        from: usize,
    ) -> Result<Option<(usize, usize)>, AllocError>
        requires tokens { AreTokens tokens.now }
        requires free { self.old.stack.items ≡ [] }
        ensures { IfOk result (λ r. MatchOption r (Reaches (Want [] (drop from (tokens_of tokens.now))) Stuck) (λ p. Grows self.old.nodes.items self.new.nodes.items × (self.new.stack.items ≡ []) × ((t : Tree) × IsAt self.new.nodes.items p.0 t × Reaches (Want [] (drop from (tokens_of tokens.now))) (Done t (drop p.1 (tokens_of tokens.now)))))) }
    {
        let mut now = Move::Wanted(from);
        while !is_over(now) {
            now = self.step(tokens, now)?;
        }
        match now {
            Move::Finished(root, end) => Ok(Some((root, end))),
            _ => Ok(None),
        }
    }

    /// Goes one step.
    pub(crate) fn step(&mut self, tokens: &[Token], now: Move) -> Result<Move, AllocError>
        ensures { IfOk result (λ m. (st : State) → AreTokens tokens.now → Shows self.old.nodes.items self.old.stack.items (tokens_of tokens.now) now st → Turned self.old.nodes.items self.new.nodes.items self.new.stack.items (tokens_of tokens.now) m (step st)) }
    {
        match now {
            Move::Wanted(at) => {
                let moved = self.want(tokens, at)?;
                Ok(moved)
            }
            Move::Held(held, at) => {
                let moved = self.have(tokens, held, at)?;
                Ok(moved)
            }
            Move::Finished(_, _) | Move::Failed => Ok(now),
        }
    }

    /// Adds a node, and tells its place.
    pub(crate) fn add(&mut self, node: Node) -> Result<usize, AllocError>
        ensures { IfOk result (λ i. (i ≡ length self.old.nodes.items) × (self.new.nodes.items ≡ self.old.nodes.items ++ node ∷ []) × (self.new.stack.items ≡ self.old.stack.items)) }
    {
        let i = self.nodes.len();
        self.nodes.push(node)?;
        Ok(i)
    }

    /// Begins something, after which an expression or a pattern is wanted.
    pub(crate) fn begin(&mut self, pending: Pending, at: usize) -> Result<Move, AllocError>
        ensures { IfOk result (λ m. (m ≡ Wanted at) × (self.new.nodes.items ≡ self.old.nodes.items) × (self.new.stack.items ≡ self.old.stack.items ++ pending ∷ [])) }
    {
        self.stack.push(pending)?;
        Ok(Move::Wanted(at))
    }

    /// Adds a node, which is then what was read: an expression that is no pattern.
    pub(crate) fn made(&mut self, node: Node, level: u8, at: usize) -> Result<Move, AllocError>
        ensures { IfOk result (λ m. (m ≡ HeldAt (tree_held (length self.old.nodes.items) level) at) × (self.new.nodes.items ≡ self.old.nodes.items ++ node ∷ []) × (self.new.stack.items ≡ self.old.stack.items)) }
    {
        let node = self.add(node)?;
        Ok(Move::Held(
            Held {
                node,
                level,
                is_tree: true,
                is_pattern: false,
                negates: false,
            },
            at,
        ))
    }

    /// Adds a node that may be an expression and may be a pattern.
    pub(crate) fn plain(
        &mut self,
        node: Node,
        is_tree: bool,
        is_pattern: bool,
        at: usize,
    ) -> Result<Move, AllocError>
        ensures { IfOk result (λ m. (m ≡ HeldAt (plain_held (length self.old.nodes.items) is_tree is_pattern) at) × (self.new.nodes.items ≡ self.old.nodes.items ++ node ∷ []) × (self.new.stack.items ≡ self.old.stack.items)) }
    {
        let node = self.add(node)?;
        Ok(Move::Held(
            Held {
                node,
                level: PRIMARY,
                is_tree,
                is_pattern,
                negates: false,
            },
            at,
        ))
    }

    /// Begins an expression or a pattern at a place.
    pub(crate) fn want(&mut self, tokens: &[Token], at: usize) -> Result<Move, AllocError>
        ensures { IfOk result (λ m. (s : List Frame) → AreTokens tokens.now → IsStack self.old.nodes.items self.old.stack.items s → Turned self.old.nodes.items self.new.nodes.items self.new.stack.items (tokens_of tokens.now) m (want s (drop at (tokens_of tokens.now)))) }
    {
        let Some(token) = token_at(tokens, at) else {
            return Ok(Move::Failed);
        };
        if let Some(prefix) = prefix_of(&token.kind) {
            let moved = self.begin(Pending::Prefixed(prefix), at + 1)?;
            return Ok(moved);
        }
        if let Some((name, after)) = call_at(self.alloc, tokens, at)? {
            let items = Items {
                places: Vec::new(self.alloc),
                are_trees: true,
                are_patterns: false,
            };
            let moved = self.open(Enclosure::Call(name, PRIMARY), items, tokens, after)?;
            return Ok(moved);
        }
        let moved = self.first(&token.kind, tokens, at + 1)?;
        Ok(moved)
    }

    /// Goes on after what was read.
    pub(crate) fn have(
        &mut self,
        tokens: &[Token],
        held: Held,
        at: usize,
    ) -> Result<Move, AllocError>
        ensures { IfOk result (λ m. (s : List Frame) (v : Value) → IsStack self.old.nodes.items self.old.stack.items s → IsHeld self.old.nodes.items held v → Turned self.old.nodes.items self.new.nodes.items self.new.stack.items (tokens_of tokens.now) m (have s v (drop at (tokens_of tokens.now)))) }
    {
        match infix_at(tokens, at) {
            Some(infix) if self.floor() <= infix.level() => {
                let moved = self.take(infix, tokens, held, at + 1)?;
                Ok(moved)
            }
            _ => {
                let moved = self.end(tokens, held, at)?;
                Ok(moved)
            }
        }
    }

    /// The loosest level at which an operator takes what was read.
    pub(crate) fn floor(&self) -> u8
        ensures { (ns : List Node) (s : List Frame) → IsStack ns self.now.stack.items s → result ≡ floor s }
    {
        match self.stack.last() {
            None => MATCH,
            Some(top) => floor_over(top),
        }
    }

    /// An operator takes what was read as its left side.
    pub(crate) fn take(
        &mut self,
        infix: Infix,
        tokens: &[Token],
        held: Held,
        after: usize,
    ) -> Result<Move, AllocError>
        ensures { IfOk result (λ m. (s : List Frame) (v : Value) → IsStack self.old.nodes.items self.old.stack.items s → IsHeld self.old.nodes.items held v → Turned self.old.nodes.items self.new.nodes.items self.new.stack.items (tokens_of tokens.now) m (take «infix» s v (drop after (tokens_of tokens.now)))) }
    {
        match infix {
            Infix::Operator(op) => {
                let moved = self.operand(op, held, after)?;
                Ok(moved)
            }
            Infix::Match => {
                let moved = self.matched(held, after)?;
                Ok(moved)
            }
            Infix::Pipe => {
                let moved = self.pipe(tokens, held, after)?;
                Ok(moved)
            }
        }
    }

    /// What was begun last takes what was read, or goes on by what stands after it.
    pub(crate) fn end(
        &mut self,
        tokens: &[Token],
        held: Held,
        at: usize,
    ) -> Result<Move, AllocError>
        ensures { IfOk result (λ m. (s : List Frame) (v : Value) → IsStack self.old.nodes.items self.old.stack.items s → IsHeld self.old.nodes.items held v → Turned self.old.nodes.items self.new.nodes.items self.new.stack.items (tokens_of tokens.now) m (ends s v (drop at (tokens_of tokens.now)))) }
    {
        match self.stack.pop() {
            None => Ok(finished(held, at)),
            Some(top) => self.end_by(top, tokens, held, at),
        }
    }

    /// What was begun takes what was read, or goes on by what stands after it.
    pub(crate) fn end_by(
        &mut self,
        top: Pending,
        tokens: &[Token],
        held: Held,
        at: usize,
    ) -> Result<Move, AllocError>
        ensures { IfOk result (λ m. (f : Frame) → IsFrame self.old.nodes.items top f → (s : List Frame) (v : Value) → IsStack self.old.nodes.items self.old.stack.items s → IsHeld self.old.nodes.items held v → Turned self.old.nodes.items self.new.nodes.items self.new.stack.items (tokens_of tokens.now) m (end_by f s v (drop at (tokens_of tokens.now)) (follow (drop at (tokens_of tokens.now))).next (follow (drop at (tokens_of tokens.now))).rest)) }
    {
        let follow = follow_at(tokens, at);
        match top {
            Pending::Operand(op, left) => self.apply(op, left, held, at),
            Pending::Matched(pattern) => self.bind(pattern, held, at),
            Pending::Prefixed(prefix) => self.prefix(prefix, held, at),
            Pending::Parens => Ok(close_parens(held, follow)),
            Pending::Items(enclosure, items) => self.item(enclosure, items, held, follow),
            Pending::Keyed(enclosure, items, keys, key) => {
                self.keyed(enclosure, items, keys, key, held, tokens, follow)
            }
            Pending::Tail(items) => self.tail(items, held, follow),
            Pending::Hole(says, holes) => self.hole(says, holes, held, tokens, at),
            Pending::If => self.condition(held, follow),
            Pending::Do(condition) => self.do_if(condition, held, at, follow),
            Pending::ElseDo(condition, body) => self.do_else(condition, body, held, at),
            Pending::Body(block, body) => self.body(block, body, held, follow),
            Pending::Case => self.subject(held, follow),
            Pending::FirstPattern(subject) => self.first_pattern(subject, held, follow),
            Pending::FirstCondition => self.first_condition(held, follow),
            Pending::ForPattern => self.for_pattern(held, follow),
            Pending::ForSource(pattern) => self.for_source(pattern, held, follow),
            Pending::Part(head) => self.part(head, held, follow),
            Pending::PartSource(head, pattern) => self.part_source(head, pattern, held, follow),
            Pending::ForDo(head) => self.do_for(head, held, at),
        }
    }
}

/// The loosest level at which an operator takes what was read, where this was begun last.
fn floor_over(top: &Pending) -> u8
    ensures { (ns : List Node) (f : Frame) (s : List Frame) → IsFrame ns top.now f → result ≡ floor (f ∷ s) }
{
    match top {
        Pending::Operand(op, _) => Infix::Operator(*op).right_level(),
        Pending::Prefixed(_) => UNARY,
        _ => MATCH,
    }
}

/// Whether the expression has ended, or there is none.
pub(crate) fn is_over(now: Move) -> bool
    ensures { (ns : List Node) (ps : List Pending) (all : List Lexeme) (st : State) → Shows ns ps all now st → result ≡ is_over st }
{
    match now {
        Move::Wanted(_) | Move::Held(_, _) => false,
        Move::Finished(_, _) | Move::Failed => true,
    }
}

/// The node of what was read, where that is an expression.
pub(crate) fn tree_of(held: Held) -> Option<usize>
    ensures { (ns : List Node) (v : Value) → IsHeld ns held v → TreeShows ns result v.tree }
{
    if held.is_tree { Some(held.node) } else { None }
}

/// The node of what was read, where that is a pattern.
pub(crate) fn pattern_of(held: Held) -> Option<usize>
    ensures { (ns : List Node) (v : Value) → IsHeld ns held v → PatternShows ns result v.pattern }
{
    if held.is_pattern {
        Some(held.node)
    } else {
        None
    }
}

/// What was read is the whole expression.
pub(crate) fn finished(held: Held, at: usize) -> Move
    ensures { (ns : List Node) (all : List Lexeme) (v : Value) → IsHeld ns held v → Shows ns [] all result (with_tree v.tree (λ t. Done t (drop at all))) }
{
    match tree_of(held) {
        None => Move::Failed,
        Some(root) => Move::Finished(root, at),
    }
}
