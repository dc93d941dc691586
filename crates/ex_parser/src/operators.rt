//! Operators and their sides.
ghost use Rattle.std.specs.Prelude.{◌≡◌, ◌++◌, [], ◌∷◌, List, length, drop, IfOk, nat_le};
ghost use Rattle.ex_grammar.specs.Operators.{level, left, match_level, pipe_level, unary_level};
ghost use Rattle.ex_grammar.specs.Tokens.{Token as Lexeme};
ghost use Rattle.ex_grammar.specs.Patterns.{Pattern};
ghost use Rattle.ex_grammar.specs.Trees.{Tree, Apply, Match};
ghost use Rattle.ex_parser.specs.Machine.{Frame, Value, Have, Want, made, value, negates, with_tree, with_pattern, Matched, may_take, is_member, take_operand, take_call, prefixed, negative, is_number};
ghost use Rattle.ex_parser.specs.Stands.{IsAt, IsPatternAt};
ghost use Rattle.ex_parser.specs.Shown.{tokens_of, HasPattern, IsHeld, IsStack, Turned};
ghost use Rattle.ex_parser.specs.declared.tree.Node.TheVariants.{Prefixed};

use crate::follow::call_at;
use crate::parser::{
    Enclosure, Held, Items, MATCH, Move, PIPE, Parser, Pending, UNARY, pattern_of, tree_of,
};
use crate::tree::Node;
use ex_grammar::{Infix, Operator, Prefix, Token};
use std::alloc::AllocError;

impl Parser {
    /// The left side of an operator.
    pub(crate) fn operand(
        &mut self,
        op: Operator,
        held: Held,
        after: usize,
    ) -> Result<Move, AllocError>
        ensures { IfOk result (λ m. (all : List Lexeme) (s : List Frame) (v : Value) → IsStack self.old.nodes.items self.old.stack.items s → IsHeld self.old.nodes.items held v → Turned self.old.nodes.items self.new.nodes.items self.new.stack.items all m (with_tree v.tree (λ a. take_operand (may_take op v) op a s (drop after all)))) }
    {
        let Some(left) = tree_of(held) else {
            return Ok(Move::Failed);
        };
        if may_take(op, held) {
            let moved = self.begin(Pending::Operand(op, left), after)?;
            return Ok(moved);
        }
        Ok(Move::Failed)
    }

    /// The left side of a match.
    pub(crate) fn matched(&mut self, held: Held, after: usize) -> Result<Move, AllocError>
        ensures { IfOk result (λ m. (all : List Lexeme) (s : List Frame) (v : Value) → IsStack self.old.nodes.items self.old.stack.items s → IsHeld self.old.nodes.items held v → Turned self.old.nodes.items self.new.nodes.items self.new.stack.items all m (with_pattern v.pattern (λ p. Want (Matched p ∷ s) (drop after all)))) }
    {
        match pattern_of(held) {
            None => Ok(Move::Failed),
            Some(pattern) => {
                let moved = self.begin(Pending::Matched(pattern), after)?;
                Ok(moved)
            }
        }
    }

    /// The left side of `|>`, which is the first argument of the call on the right.
    pub(crate) fn pipe(
        &mut self,
        tokens: &[Token],
        held: Held,
        after: usize,
    ) -> Result<Move, AllocError>
        ensures { IfOk result (λ m. (s : List Frame) (v : Value) → IsStack self.old.nodes.items self.old.stack.items s → IsHeld self.old.nodes.items held v → Turned self.old.nodes.items self.new.nodes.items self.new.stack.items (tokens_of tokens.now) m (with_tree v.tree (λ a. take_call (nat_le pipe_level v.level) a s (drop after (tokens_of tokens.now))))) }
    {
        let Some(left) = tree_of(held) else {
            return Ok(Move::Failed);
        };
        if held.level < PIPE {
            return Ok(Move::Failed);
        }
        let Some((name, inside)) = call_at(self.alloc, tokens, after)? else {
            return Ok(Move::Failed);
        };
        let mut places = Vec::new(self.alloc);
        places.push(left)?;
        let items = Items {
            places,
            are_trees: true,
            are_patterns: false,
        };
        let moved = self.open(Enclosure::Call(name, PIPE), items, tokens, inside)?;
        Ok(moved)
    }

    /// An operator has both sides.
    pub(crate) fn apply(
        &mut self,
        op: Operator,
        left: usize,
        held: Held,
        at: usize,
    ) -> Result<Move, AllocError>
        ensures { IfOk result (λ m. (a : Tree) → IsAt self.old.nodes.items left a → (all : List Lexeme) (s : List Frame) (v : Value) → IsStack self.old.nodes.items self.old.stack.items s → IsHeld self.old.nodes.items held v → Turned self.old.nodes.items self.new.nodes.items self.new.stack.items all m (with_tree v.tree (λ b. Have s (made (Apply op a b) (level op)) (drop at all)))) }
    {
        match tree_of(held) {
            None => Ok(Move::Failed),
            Some(right) => {
                let moved = self.made(
                    Node::Apply(op, left, right),
                    Infix::Operator(op).level(),
                    at,
                )?;
                Ok(moved)
            }
        }
    }

    /// A match has both sides.
    pub(crate) fn bind(&mut self, pattern: usize, held: Held, at: usize) -> Result<Move, AllocError>
        ensures { IfOk result (λ m. (p : Pattern) → IsPatternAt self.old.nodes.items pattern p → (all : List Lexeme) (s : List Frame) (v : Value) → IsStack self.old.nodes.items self.old.stack.items s → IsHeld self.old.nodes.items held v → Turned self.old.nodes.items self.new.nodes.items self.new.stack.items all m (with_tree v.tree (λ t. Have s (made (Match p t) match_level) (drop at all)))) }
    {
        match tree_of(held) {
            None => Ok(Move::Failed),
            Some(tree) => {
                let moved = self.made(Node::Match(pattern, tree), MATCH, at)?;
                Ok(moved)
            }
        }
    }

    /// An operator stands before what was read. `-` before an integer is a pattern too.
    pub(crate) fn prefix(
        &mut self,
        prefix: Prefix,
        held: Held,
        at: usize,
    ) -> Result<Move, AllocError>
        ensures { IfOk result (λ m. (all : List Lexeme) (s : List Frame) (v : Value) → IsStack self.old.nodes.items self.old.stack.items s → IsHeld self.old.nodes.items held v → Turned self.old.nodes.items self.new.nodes.items self.new.stack.items all m (Have s (value (prefixed prefix v.tree) (negative prefix v.pattern) unary_level (negates prefix)) (drop at all))) }
    {
        let is_pattern = self.is_negative(prefix, held);
        let node = self.add(Node::Prefixed(prefix, held.node))?;
        Ok(Move::Held(
            Held {
                node,
                level: UNARY,
                is_tree: held.is_tree,
                is_pattern,
                negates: negates(prefix),
            },
            at,
        ))
    }

    /// Whether an operator and what was read after it are a pattern: `-` and an integer.
    fn is_negative(&self, prefix: Prefix, held: Held) -> bool
        ensures { (v : Value) → IsHeld self.now.nodes.items held v → HasPattern (self.now.nodes.items ++ Prefixed prefix held.node ∷ []) (length self.now.nodes.items) result (negative prefix v.pattern) }
    {
        match prefix {
            Prefix::Negate => held.is_pattern && self.is_integer(held.node),
            _ => false,
        }
    }

    /// Whether a node is an integer.
    pub(crate) fn is_integer(&self, i: usize) -> bool
        ensures { (p : Pattern) → IsPatternAt self.now.nodes.items i p → result ≡ is_number p }
    {
        match self.nodes.get(i) {
            Some(Node::Integer(_)) => true,
            _ => false,
        }
    }
}

/// Whether what was read may stand left of an operator.
pub(crate) fn may_take(op: Operator, held: Held) -> bool
    ensures { (ns : List Node) (v : Value) → IsHeld ns held v → result ≡ may_take op v }
{
    left_level(op) <= held.level && !(held.negates && is_member(op))
}

pub(crate) fn is_member(op: Operator) -> bool
    ensures { result ≡ is_member op }
{
    match op {
        Operator::Member => true,
        _ => false,
    }
}

/// The level of what stands left of an operator.
pub(crate) fn left_level(op: Operator) -> u8
    ensures { result ≡ left op }
{
    match op {
        Operator::Join | Operator::Concat => Infix::Operator(op).level() + 1,
        _ => Infix::Operator(op).level(),
    }
}

/// Whether a unary with this operator may not stand left of `in`.
pub(crate) fn negates(prefix: Prefix) -> bool
    ensures { result ≡ negates prefix }
{
    match prefix {
        Prefix::Not | Prefix::StrictNot => true,
        Prefix::Negate | Prefix::Keep => false,
    }
}
