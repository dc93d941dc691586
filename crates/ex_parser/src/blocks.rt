//! Blocks: `if`, `case`, `cond`, `for`, and their bodies.
ghost use Rattle.std.specs.Prelude.{◌≡◌, ◌+◌, ◌++◌, [], ◌∷◌, List, length, drop, IfOk};
ghost use Rattle.ex_grammar.specs.Operators.{primary_level};
ghost use Rattle.ex_grammar.specs.Tokens.{Token as Lexeme};
ghost use Rattle.ex_grammar.specs.Patterns.{Pattern};
ghost use Rattle.ex_grammar.specs.Trees.{Tree, Trees, NoTree, NoPart, OneMore, IfElse};
ghost use Rattle.ex_parser.specs.Machine.{Frame, Value, Have, Want, made, with_tree, with_pattern, condition, subject, first_pattern, first_condition, for_pattern, after_part, and_generator, part, do_if, one, for_tree, head, Head as Heading, Block as Blocked, Body, PartSource, else_body, onto, body as in_body, next_clause, block_tree};
ghost use Rattle.ex_parser.specs.Follow.{Follows, follow};
ghost use Rattle.ex_parser.specs.Stands.{IsAt, IsPatternAt, AreAt};
ghost use Rattle.ex_parser.specs.Shown.{FollowShows, IsHeld, IsStack, IsHead, IsBlock, TreesBehind, Turned};

use crate::follow::{Follow, Next};
use crate::parser::{Block, Held, Move, PRIMARY, Parser, Pending, pattern_of, tree_of};
use crate::tree::{Choice, Clause, Head, Node, Part};
use std::alloc::AllocError;

impl Parser {
    /// The condition of an `if`.
    pub(crate) fn condition(&mut self, held: Held, follow: Follow) -> Result<Move, AllocError>
        ensures { IfOk result (λ m. (all : List Lexeme) (s : List Frame) (v : Value) (f : Follows) → IsStack self.old.nodes.items self.old.stack.items s → IsHeld self.old.nodes.items held v → FollowShows all follow f → Turned self.old.nodes.items self.new.nodes.items self.new.stack.items all m (with_tree v.tree (λ c. condition f.next f.rest c s))) }
    {
        let Some(condition) = tree_of(held) else {
            return Ok(Move::Failed);
        };
        match follow.next {
            Next::Do => {
                let moved = self.begin_body(Block::Then(condition), follow.after)?;
                Ok(moved)
            }
            Next::CommaDo => {
                let moved = self.begin(Pending::Do(condition), follow.after)?;
                Ok(moved)
            }
            _ => Ok(Move::Failed),
        }
    }

    /// Begins a body.
    pub(crate) fn begin_body(&mut self, block: Block, at: usize) -> Result<Move, AllocError>
        ensures { IfOk result (λ m. (all rest : List Lexeme) (s : List Frame) (b : Blocked) → IsStack self.old.nodes.items self.old.stack.items s → IsBlock self.old.nodes.items block b → drop at all ≡ rest → Turned self.old.nodes.items self.new.nodes.items self.new.stack.items all m (Want (Body b NoTree ∷ s) rest)) }
    {
        let body = Vec::new(self.alloc);
        let moved = self.begin(Pending::Body(block, body), at)?;
        Ok(moved)
    }

    /// The expression after the `do:` of an `if`, which an `, else:` may follow.
    pub(crate) fn do_if(
        &mut self,
        condition: usize,
        held: Held,
        at: usize,
        follow: Follow,
    ) -> Result<Move, AllocError>
        ensures { IfOk result (λ m. (c : Tree) → IsAt self.old.nodes.items condition c → (all : List Lexeme) (s : List Frame) (v : Value) (f : Follows) → IsStack self.old.nodes.items self.old.stack.items s → IsHeld self.old.nodes.items held v → FollowShows all follow f → Turned self.old.nodes.items self.new.nodes.items self.new.stack.items all m (with_tree v.tree (λ a. do_if f.next f.rest c a s (drop at all)))) }
    {
        let Some(body) = tree_of(held) else {
            return Ok(Move::Failed);
        };
        match follow.next {
            Next::CommaElse => {
                let moved = self.begin(Pending::ElseDo(condition, body), follow.after)?;
                Ok(moved)
            }
            _ => {
                let body = self.one(body)?;
                let moved = self.made(Node::If(condition, body), PRIMARY, at)?;
                Ok(moved)
            }
        }
    }

    /// A body of one expression.
    pub(crate) fn one(&self, place: usize) -> Result<Vec<usize>, AllocError>
        ensures { IfOk result (λ js. js.items ≡ place ∷ []) }
    {
        let mut body = Vec::new(self.alloc);
        body.push(place)?;
        Ok(body)
    }

    /// The expression after `else:`.
    pub(crate) fn do_else(
        &mut self,
        condition: usize,
        body: usize,
        held: Held,
        at: usize,
    ) -> Result<Move, AllocError>
        ensures { IfOk result (λ m. (c a : Tree) → IsAt self.old.nodes.items condition c → IsAt self.old.nodes.items body a → (all : List Lexeme) (s : List Frame) (v : Value) → IsStack self.old.nodes.items self.old.stack.items s → IsHeld self.old.nodes.items held v → Turned self.old.nodes.items self.new.nodes.items self.new.stack.items all m (with_tree v.tree (λ b. Have s (made (IfElse c (one a) (one b)) primary_level) (drop at all)))) }
    {
        let Some(other) = tree_of(held) else {
            return Ok(Move::Failed);
        };
        let body = self.one(body)?;
        let other = self.one(other)?;
        let moved = self.made(Node::IfElse(condition, body, other), PRIMARY, at)?;
        Ok(moved)
    }

    /// An expression of a body, or what begins the next clause.
    pub(crate) fn body(
        &mut self,
        block: Block,
        body: Vec<usize>,
        held: Held,
        follow: Follow,
    ) -> Result<Move, AllocError>
        ensures { IfOk result (λ m. (b : Blocked) (xs : Trees) → IsBlock self.old.nodes.items block b → TreesBehind self.old.nodes.items body.items xs → (all : List Lexeme) (s : List Frame) (v : Value) (f : Follows) → IsStack self.old.nodes.items self.old.stack.items s → IsHeld self.old.nodes.items held v → FollowShows all follow f → Turned self.old.nodes.items self.new.nodes.items self.new.stack.items all m (in_body f.next f.rest b xs v s)) }
    {
        match follow.next {
            Next::Separator => {
                let moved = self.more_body(block, body, held, follow.after)?;
                Ok(moved)
            }
            Next::RightArrow => {
                let moved = self.next_clause(block, body, held, follow.after)?;
                Ok(moved)
            }
            Next::Else => {
                let moved = self.else_body(block, body, held, follow.after)?;
                Ok(moved)
            }
            Next::End => {
                let moved = self.end_body(block, body, held, follow.after)?;
                Ok(moved)
            }
            _ => Ok(Move::Failed),
        }
    }

    /// An expression of a body that others follow.
    pub(crate) fn more_body(
        &mut self,
        block: Block,
        body: Vec<usize>,
        held: Held,
        after: usize,
    ) -> Result<Move, AllocError>
        ensures { IfOk result (λ m. (b : Blocked) (xs : Trees) → IsBlock self.old.nodes.items block b → TreesBehind self.old.nodes.items body.items xs → (all rest : List Lexeme) (s : List Frame) (v : Value) → IsStack self.old.nodes.items self.old.stack.items s → IsHeld self.old.nodes.items held v → drop after all ≡ rest → Turned self.old.nodes.items self.new.nodes.items self.new.stack.items all m (with_tree v.tree (λ t. Want (Body b (OneMore t xs) ∷ s) rest))) }
    {
        let Some(tree) = tree_of(held) else {
            return Ok(Move::Failed);
        };
        let mut body = body;
        body.push(tree)?;
        let moved = self.begin(Pending::Body(block, body), after)?;
        Ok(moved)
    }

    /// The pattern or the condition of a clause after a first one, whose body isn't empty.
    pub(crate) fn next_clause(
        &mut self,
        block: Block,
        body: Vec<usize>,
        held: Held,
        after: usize,
    ) -> Result<Move, AllocError>
        ensures { IfOk result (λ m. (b : Blocked) (xs : Trees) → IsBlock self.old.nodes.items block b → TreesBehind self.old.nodes.items body.items xs → (all rest : List Lexeme) (s : List Frame) (v : Value) → IsStack self.old.nodes.items self.old.stack.items s → IsHeld self.old.nodes.items held v → drop after all ≡ rest → Turned self.old.nodes.items self.new.nodes.items self.new.stack.items all m (next_clause b xs v s rest)) }
    {
        if body.is_empty() {
            return Ok(Move::Failed);
        }
        match block {
            Block::Clause(subject, clauses, pattern) => {
                let Some(next) = pattern_of(held) else {
                    return Ok(Move::Failed);
                };
                let mut clauses = clauses;
                clauses.push(Clause { pattern, body })?;
                let moved = self.begin_body(Block::Clause(subject, clauses, next), after)?;
                Ok(moved)
            }
            Block::Choice(choices, condition) => {
                let Some(next) = tree_of(held) else {
                    return Ok(Move::Failed);
                };
                let mut choices = choices;
                choices.push(Choice { condition, body })?;
                let moved = self.begin_body(Block::Choice(choices, next), after)?;
                Ok(moved)
            }
            _ => Ok(Move::Failed),
        }
    }

    /// The last expression of an `if`'s first body, where `else` follows.
    pub(crate) fn else_body(
        &mut self,
        block: Block,
        body: Vec<usize>,
        held: Held,
        after: usize,
    ) -> Result<Move, AllocError>
        ensures { IfOk result (λ m. (b : Blocked) (xs : Trees) → IsBlock self.old.nodes.items block b → TreesBehind self.old.nodes.items body.items xs → (all rest : List Lexeme) (s : List Frame) (v : Value) → IsStack self.old.nodes.items self.old.stack.items s → IsHeld self.old.nodes.items held v → drop after all ≡ rest → Turned self.old.nodes.items self.new.nodes.items self.new.stack.items all m (with_tree v.tree (λ t. else_body b (onto xs (one t)) s rest))) }
    {
        let Some(tree) = tree_of(held) else {
            return Ok(Move::Failed);
        };
        let mut body = body;
        body.push(tree)?;
        match block {
            Block::Then(condition) => {
                let moved = self.begin_body(Block::Else(condition, body), after)?;
                Ok(moved)
            }
            _ => Ok(Move::Failed),
        }
    }

    /// The last expression of a body.
    pub(crate) fn end_body(
        &mut self,
        block: Block,
        body: Vec<usize>,
        held: Held,
        after: usize,
    ) -> Result<Move, AllocError>
        ensures { IfOk result (λ m. (b : Blocked) (xs : Trees) → IsBlock self.old.nodes.items block b → TreesBehind self.old.nodes.items body.items xs → (all rest : List Lexeme) (s : List Frame) (v : Value) → IsStack self.old.nodes.items self.old.stack.items s → IsHeld self.old.nodes.items held v → drop after all ≡ rest → Turned self.old.nodes.items self.new.nodes.items self.new.stack.items all m (with_tree v.tree (λ t. Have s (made (block_tree b (onto xs (one t))) primary_level) rest))) }
    {
        let Some(tree) = tree_of(held) else {
            return Ok(Move::Failed);
        };
        let mut body = body;
        body.push(tree)?;
        let node = block_node(block, body)?;
        let moved = self.made(node, PRIMARY, after)?;
        Ok(moved)
    }

    /// What a `case` looks at.
    pub(crate) fn subject(&mut self, held: Held, follow: Follow) -> Result<Move, AllocError>
        ensures { IfOk result (λ m. (all : List Lexeme) (s : List Frame) (v : Value) (f : Follows) → IsStack self.old.nodes.items self.old.stack.items s → IsHeld self.old.nodes.items held v → FollowShows all follow f → Turned self.old.nodes.items self.new.nodes.items self.new.stack.items all m (with_tree v.tree (λ c. subject f.next f.rest c s))) }
    {
        let Some(subject) = tree_of(held) else {
            return Ok(Move::Failed);
        };
        match follow.next {
            Next::Do => {
                let moved = self.begin(Pending::FirstPattern(subject), follow.after)?;
                Ok(moved)
            }
            _ => Ok(Move::Failed),
        }
    }

    /// The first pattern of a `case`.
    pub(crate) fn first_pattern(
        &mut self,
        subject: usize,
        held: Held,
        follow: Follow,
    ) -> Result<Move, AllocError>
        ensures { IfOk result (λ m. (c : Tree) → IsAt self.old.nodes.items subject c → (all : List Lexeme) (s : List Frame) (v : Value) (f : Follows) → IsStack self.old.nodes.items self.old.stack.items s → IsHeld self.old.nodes.items held v → FollowShows all follow f → Turned self.old.nodes.items self.new.nodes.items self.new.stack.items all m (with_pattern v.pattern (λ p. first_pattern f.next f.rest c p s))) }
    {
        let Some(pattern) = pattern_of(held) else {
            return Ok(Move::Failed);
        };
        let clauses = Vec::new(self.alloc);
        match follow.next {
            Next::RightArrow => {
                let moved = self.begin_body(
                    Block::Clause(subject, clauses, pattern),
                    follow.after,
                )?;
                Ok(moved)
            }
            _ => Ok(Move::Failed),
        }
    }

    /// The first condition of a `cond`.
    pub(crate) fn first_condition(&mut self, held: Held, follow: Follow) -> Result<Move, AllocError>
        ensures { IfOk result (λ m. (all : List Lexeme) (s : List Frame) (v : Value) (f : Follows) → IsStack self.old.nodes.items self.old.stack.items s → IsHeld self.old.nodes.items held v → FollowShows all follow f → Turned self.old.nodes.items self.new.nodes.items self.new.stack.items all m (with_tree v.tree (λ c. first_condition f.next f.rest c s))) }
    {
        let Some(condition) = tree_of(held) else {
            return Ok(Move::Failed);
        };
        let choices = Vec::new(self.alloc);
        match follow.next {
            Next::RightArrow => {
                let moved = self.begin_body(Block::Choice(choices, condition), follow.after)?;
                Ok(moved)
            }
            _ => Ok(Move::Failed),
        }
    }

    /// The first pattern of a `for`.
    pub(crate) fn for_pattern(&mut self, held: Held, follow: Follow) -> Result<Move, AllocError>
        ensures { IfOk result (λ m. (all : List Lexeme) (s : List Frame) (v : Value) (f : Follows) → IsStack self.old.nodes.items self.old.stack.items s → IsHeld self.old.nodes.items held v → FollowShows all follow f → Turned self.old.nodes.items self.new.nodes.items self.new.stack.items all m (with_pattern v.pattern (λ p. for_pattern f.next f.rest p s))) }
    {
        let Some(pattern) = pattern_of(held) else {
            return Ok(Move::Failed);
        };
        match follow.next {
            Next::LeftArrow => {
                let moved = self.begin(Pending::ForSource(pattern), follow.after)?;
                Ok(moved)
            }
            _ => Ok(Move::Failed),
        }
    }

    /// What the values of the first pattern of a `for` come from.
    pub(crate) fn for_source(
        &mut self,
        pattern: usize,
        held: Held,
        follow: Follow,
    ) -> Result<Move, AllocError>
        ensures { IfOk result (λ m. (p : Pattern) → IsPatternAt self.old.nodes.items pattern p → (all : List Lexeme) (s : List Frame) (v : Value) (f : Follows) → IsStack self.old.nodes.items self.old.stack.items s → IsHeld self.old.nodes.items held v → FollowShows all follow f → Turned self.old.nodes.items self.new.nodes.items self.new.stack.items all m (with_tree v.tree (λ g. after_part f.next f.rest (head p g NoPart) s))) }
    {
        let Some(source) = tree_of(held) else {
            return Ok(Move::Failed);
        };
        let head = Head {
            pattern,
            source,
            parts: Vec::new(self.alloc),
        };
        let moved = self.after_part(head, follow)?;
        Ok(moved)
    }

    /// A further part of a `for`: a filter, or the pattern of a generator.
    pub(crate) fn part(
        &mut self,
        head: Head,
        held: Held,
        follow: Follow,
    ) -> Result<Move, AllocError>
        ensures { IfOk result (λ m. (h : Heading) → IsHead self.old.nodes.items head h → (all : List Lexeme) (s : List Frame) (v : Value) (f : Follows) → IsStack self.old.nodes.items self.old.stack.items s → IsHeld self.old.nodes.items held v → FollowShows all follow f → Turned self.old.nodes.items self.new.nodes.items self.new.stack.items all m (part f.next f.rest h v s)) }
    {
        match follow.next {
            Next::LeftArrow => {
                let moved = self.part_pattern(head, held, follow.after)?;
                Ok(moved)
            }
            _ => {
                let Some(filter) = tree_of(held) else {
                    return Ok(Move::Failed);
                };
                let head = with_part(head, Part::Filter(filter))?;
                let moved = self.after_part(head, follow)?;
                Ok(moved)
            }
        }
    }

    /// The pattern of a further generator.
    pub(crate) fn part_pattern(
        &mut self,
        head: Head,
        held: Held,
        after: usize,
    ) -> Result<Move, AllocError>
        ensures { IfOk result (λ m. (h : Heading) → IsHead self.old.nodes.items head h → (all rest : List Lexeme) (s : List Frame) (v : Value) → IsStack self.old.nodes.items self.old.stack.items s → IsHeld self.old.nodes.items held v → drop after all ≡ rest → Turned self.old.nodes.items self.new.nodes.items self.new.stack.items all m (with_pattern v.pattern (λ p. Want (PartSource h p ∷ s) rest))) }
    {
        match pattern_of(held) {
            None => Ok(Move::Failed),
            Some(pattern) => {
                let moved = self.begin(Pending::PartSource(head, pattern), after)?;
                Ok(moved)
            }
        }
    }

    /// What the values of a further pattern of a `for` come from.
    pub(crate) fn part_source(
        &mut self,
        head: Head,
        pattern: usize,
        held: Held,
        follow: Follow,
    ) -> Result<Move, AllocError>
        ensures { IfOk result (λ m. (h : Heading) (p : Pattern) → IsHead self.old.nodes.items head h → IsPatternAt self.old.nodes.items pattern p → (all : List Lexeme) (s : List Frame) (v : Value) (f : Follows) → IsStack self.old.nodes.items self.old.stack.items s → IsHeld self.old.nodes.items held v → FollowShows all follow f → Turned self.old.nodes.items self.new.nodes.items self.new.stack.items all m (with_tree v.tree (λ g. after_part f.next f.rest (and_generator h p g) s))) }
    {
        let Some(source) = tree_of(held) else {
            return Ok(Move::Failed);
        };
        let head = with_part(head, Part::Generator(pattern, source))?;
        let moved = self.after_part(head, follow)?;
        Ok(moved)
    }

    /// Goes on after a part of a `for`.
    pub(crate) fn after_part(&mut self, head: Head, follow: Follow) -> Result<Move, AllocError>
        ensures { IfOk result (λ m. (all : List Lexeme) (s : List Frame) (h : Heading) (f : Follows) → IsStack self.old.nodes.items self.old.stack.items s → IsHead self.old.nodes.items head h → FollowShows all follow f → Turned self.old.nodes.items self.new.nodes.items self.new.stack.items all m (after_part f.next f.rest h s)) }
    {
        match follow.next {
            Next::Comma => {
                let moved = self.begin(Pending::Part(head), follow.after)?;
                Ok(moved)
            }
            Next::CommaDo => {
                let moved = self.begin(Pending::ForDo(head), follow.after)?;
                Ok(moved)
            }
            Next::Do => {
                let moved = self.begin_body(Block::For(head), follow.after)?;
                Ok(moved)
            }
            _ => Ok(Move::Failed),
        }
    }

    /// The expression after the `do:` of a `for`.
    pub(crate) fn do_for(&mut self, head: Head, held: Held, at: usize) -> Result<Move, AllocError>
        ensures { IfOk result (λ m. (h : Heading) → IsHead self.old.nodes.items head h → (all : List Lexeme) (s : List Frame) (v : Value) → IsStack self.old.nodes.items self.old.stack.items s → IsHeld self.old.nodes.items held v → Turned self.old.nodes.items self.new.nodes.items self.new.stack.items all m (with_tree v.tree (λ a. Have s (made (for_tree h (one a)) primary_level) (drop at all)))) }
    {
        let Some(tree) = tree_of(held) else {
            return Ok(Move::Failed);
        };
        let body = self.one(tree)?;
        let moved = self.made(Node::For(head, body), PRIMARY, at)?;
        Ok(moved)
    }
}

/// The node that a block makes with its last body.
pub(crate) fn block_node(block: Block, body: Vec<usize>) -> Result<Node, AllocError>
    ensures { IfOk result (λ node. (ns : List Node) (b : Blocked) (xs : Trees) → IsBlock ns block b → AreAt ns body.items xs → IsAt (ns ++ node ∷ []) (length ns) (block_tree b xs)) }
{
    match block {
        Block::Then(condition) => Ok(Node::If(condition, body)),
        Block::Else(condition, first) => Ok(Node::IfElse(condition, first, body)),
        Block::Clause(subject, clauses, pattern) => {
            let mut clauses = clauses;
            clauses.push(Clause { pattern, body })?;
            Ok(Node::Case(subject, clauses))
        }
        Block::Choice(choices, condition) => {
            let mut choices = choices;
            choices.push(Choice { condition, body })?;
            Ok(Node::Cond(choices))
        }
        Block::For(head) => Ok(Node::For(head, body)),
    }
}

/// The head of a `for` with a part more.
pub(crate) fn with_part(head: Head, part: Part) -> Result<Head, AllocError>
    ensures { IfOk result (λ h. (h.pattern ≡ head.pattern) × (h.source ≡ head.source) × (h.parts.items ≡ head.parts.items ++ part ∷ [])) }
{
    let Head {
        pattern,
        source,
        mut parts,
    } = head;
    parts.push(part)?;
    Ok(Head {
        pattern,
        source,
        parts,
    })
}
