//! What stands between brackets: parentheses, items and keys.
ghost use Rattle.std.specs.Prelude.{◌≡◌, ◌+◌, ◌++◌, [], ◌∷◌, List, Some, length, drop, IfOk};
ghost use Rattle.ex_grammar.specs.Tokens.{Token as Lexeme};
ghost use Rattle.ex_grammar.specs.Grammar.{pair};
ghost use Rattle.ex_grammar.specs.Patterns.{Pattern, Patterns, NoPattern};
ghost use Rattle.ex_grammar.specs.Trees.{Tree, Trees, OneMore};
ghost use Rattle.ex_parser.specs.Machine.{Frame, Value, Have, Enclosure as Enclosing, Listed, made, value, with_tree, parens, bracketed, opened, shut, item, more_items, bar, tail_end, keyed, next_key, with_keys, level_of, bracket_of, enclosed, enclosed_pattern};
ghost use Rattle.ex_parser.specs.Follow.{Follows, follow, first_key};
ghost use Rattle.ex_parser.specs.Stands.{IsAt, IsPatternAt, AreAt, ArePatternsAt};
ghost use Rattle.ex_parser.specs.Shown.{tokens_of, FollowShows, IsHeld, IsStack, IsListed, IsEnclosure, MayHold, TreesBehind, Grows, Turned};

use crate::follow::{Bracket, Follow, Next, closed_at, key_at, same_bracket};
use crate::parser::{Enclosure, Held, Items, Move, PRIMARY, Parser, Pending, tree_of};
use crate::tree::Node;
use ex_grammar::Token;
use ex_word::Word;
use std::alloc::AllocError;

impl Parser {
    /// Begins a tuple or a list.
    pub(crate) fn bracket(
        &mut self,
        enclosure: Enclosure,
        tokens: &[Token],
        at: usize,
    ) -> Result<Move, AllocError>
        ensures { IfOk result (λ m. (e : Enclosing) → IsEnclosure enclosure e → MayHold e (Some NoPattern) → (s : List Frame) → IsStack self.old.nodes.items self.old.stack.items s → Turned self.old.nodes.items self.new.nodes.items self.new.stack.items (tokens_of tokens.now) m (bracketed e s (drop at (tokens_of tokens.now)))) }
    {
        let items = Items {
            places: Vec::new(self.alloc),
            are_trees: true,
            are_patterns: true,
        };
        let moved = self.open(enclosure, items, tokens, at)?;
        Ok(moved)
    }

    /// Begins what stands between brackets, which may be nothing.
    pub(crate) fn open(
        &mut self,
        enclosure: Enclosure,
        items: Items,
        tokens: &[Token],
        at: usize,
    ) -> Result<Move, AllocError>
        ensures { IfOk result (λ m. (e : Enclosing) (l : Listed) → IsEnclosure enclosure e → IsListed self.old.nodes.items items l → MayHold e l.patterns → (s : List Frame) → IsStack self.old.nodes.items self.old.stack.items s → Turned self.old.nodes.items self.new.nodes.items self.new.stack.items (tokens_of tokens.now) m (opened e l s (drop at (tokens_of tokens.now)))) }
    {
        match closed_at(bracket_of(&enclosure), tokens, at) {
            Some(after) => {
                let moved = self.shut(enclosure, items, after)?;
                Ok(moved)
            }
            None => {
                let moved = self.begin(Pending::Items(enclosure, items), at)?;
                Ok(moved)
            }
        }
    }

    /// All items between brackets are there.
    pub(crate) fn shut(
        &mut self,
        enclosure: Enclosure,
        items: Items,
        at: usize,
    ) -> Result<Move, AllocError>
        ensures { IfOk result (λ m. (e : Enclosing) (l : Listed) → IsEnclosure enclosure e → IsListed self.old.nodes.items items l → MayHold e l.patterns → (all : List Lexeme) (s : List Frame) → IsStack self.old.nodes.items self.old.stack.items s → Turned self.old.nodes.items self.new.nodes.items self.new.stack.items all m (shut e l s (drop at all))) }
    {
        let Items {
            places,
            are_trees,
            are_patterns,
        } = items;
        let level = level_of(&enclosure);
        let node = self.add(enclosed(enclosure, places))?;
        Ok(Move::Held(
            Held {
                node,
                level,
                is_tree: are_trees,
                is_pattern: are_patterns,
                negates: false,
            },
            at,
        ))
    }

    /// An item between brackets.
    pub(crate) fn item(
        &mut self,
        enclosure: Enclosure,
        items: Items,
        held: Held,
        follow: Follow,
    ) -> Result<Move, AllocError>
        ensures { IfOk result (λ m. (e : Enclosing) (l : Listed) → IsEnclosure enclosure e → IsListed self.old.nodes.items items l → MayHold e l.patterns → (all : List Lexeme) (s : List Frame) (v : Value) (f : Follows) → IsStack self.old.nodes.items self.old.stack.items s → IsHeld self.old.nodes.items held v → FollowShows all follow f → Turned self.old.nodes.items self.new.nodes.items self.new.stack.items all m (item f.next f.rest e (more_items l v) s)) }
    {
        let items = more_items(items, held)?;
        match follow.next {
            Next::Comma => {
                let moved = self.begin(Pending::Items(enclosure, items), follow.after)?;
                Ok(moved)
            }
            Next::Bar => {
                let moved = self.bar(enclosure, items, follow.after)?;
                Ok(moved)
            }
            Next::Close(bracket) if same_bracket(bracket, bracket_of(&enclosure)) => {
                let moved = self.shut(enclosure, items, follow.after)?;
                Ok(moved)
            }
            _ => Ok(Move::Failed),
        }
    }

    /// A `|` after the items of a list.
    pub(crate) fn bar(
        &mut self,
        enclosure: Enclosure,
        items: Items,
        after: usize,
    ) -> Result<Move, AllocError>
        ensures { IfOk result (λ m. (e : Enclosing) (l : Listed) → IsEnclosure enclosure e → IsListed self.old.nodes.items items l → (all rest : List Lexeme) (s : List Frame) → IsStack self.old.nodes.items self.old.stack.items s → drop after all ≡ rest → Turned self.old.nodes.items self.new.nodes.items self.new.stack.items all m (bar e l s rest)) }
    {
        match enclosure {
            Enclosure::List => {
                let moved = self.begin(Pending::Tail(items), after)?;
                Ok(moved)
            }
            _ => Ok(Move::Failed),
        }
    }

    /// What stands in a list after `|`.
    pub(crate) fn tail(
        &mut self,
        items: Items,
        held: Held,
        follow: Follow,
    ) -> Result<Move, AllocError>
        ensures { IfOk result (λ m. (l : Listed) → IsListed self.old.nodes.items items l → (all : List Lexeme) (s : List Frame) (v : Value) (f : Follows) → IsStack self.old.nodes.items self.old.stack.items s → IsHeld self.old.nodes.items held v → FollowShows all follow f → Turned self.old.nodes.items self.new.nodes.items self.new.stack.items all m (tail_end f.next f.rest l v s)) }
    {
        let Items {
            places,
            are_trees,
            are_patterns,
        } = items;
        match follow.next {
            Next::Close(Bracket::Square) => {
                let moved = self.plain(
                    Node::ListThen(places, held.node),
                    are_trees && held.is_tree,
                    are_patterns && held.is_pattern,
                    follow.after,
                )?;
                Ok(moved)
            }
            _ => Ok(Move::Failed),
        }
    }

    /// The value of a key.
    pub(crate) fn keyed(
        &mut self,
        enclosure: Enclosure,
        items: Vec<usize>,
        keys: Vec<usize>,
        key: Word,
        held: Held,
        tokens: &[Token],
        follow: Follow,
    ) -> Result<Move, AllocError>
        ensures { IfOk result (λ m. (e : Enclosing) (xs ks : Trees) → IsEnclosure enclosure e → TreesBehind self.old.nodes.items items.items xs → TreesBehind self.old.nodes.items keys.items ks → (s : List Frame) (v : Value) (f : Follows) → IsStack self.old.nodes.items self.old.stack.items s → IsHeld self.old.nodes.items held v → FollowShows (tokens_of tokens.now) follow f → Turned self.old.nodes.items self.new.nodes.items self.new.stack.items (tokens_of tokens.now) m (with_tree v.tree (λ t. keyed f.next f.rest e xs (OneMore (pair key t) ks) s))) }
    {
        let Some(value) = tree_of(held) else {
            return Ok(Move::Failed);
        };
        let keys = self.more_keys(keys, key, value)?;
        match follow.next {
            Next::Comma => {
                let moved = self.next_key(enclosure, items, keys, tokens, follow.after)?;
                Ok(moved)
            }
            Next::Close(bracket) => {
                if !same_bracket(bracket, bracket_of(&enclosure)) {
                    return Ok(Move::Failed);
                }
                let moved = self.shut_keys(enclosure, items, keys, follow.after)?;
                Ok(moved)
            }
            _ => Ok(Move::Failed),
        }
    }

    /// The keys with one more: a tuple of an atom and the value.
    pub(crate) fn more_keys(
        &mut self,
        keys: Vec<usize>,
        key: Word,
        value: usize,
    ) -> Result<Vec<usize>, AllocError>
        ensures { IfOk result (λ js. Grows self.old.nodes.items self.new.nodes.items × (self.new.stack.items ≡ self.old.stack.items) × ((ks : Trees) (t : Tree) → TreesBehind self.old.nodes.items keys.items ks → IsAt self.old.nodes.items value t → TreesBehind self.new.nodes.items js.items (OneMore (pair key t) ks))) }
    {
        let atom = self.add(Node::Atom(key))?;
        let mut pair = Vec::new(self.alloc);
        pair.push(atom)?;
        pair.push(value)?;
        let tuple = self.add(Node::Tuple(pair))?;
        let mut keys = keys;
        keys.push(tuple)?;
        Ok(keys)
    }

    /// The key after a comma.
    pub(crate) fn next_key(
        &mut self,
        enclosure: Enclosure,
        items: Vec<usize>,
        keys: Vec<usize>,
        tokens: &[Token],
        at: usize,
    ) -> Result<Move, AllocError>
        ensures { IfOk result (λ m. (e : Enclosing) (xs ks : Trees) → IsEnclosure enclosure e → TreesBehind self.old.nodes.items items.items xs → TreesBehind self.old.nodes.items keys.items ks → (s : List Frame) → IsStack self.old.nodes.items self.old.stack.items s → Turned self.old.nodes.items self.new.nodes.items self.new.stack.items (tokens_of tokens.now) m (next_key (first_key (drop at (tokens_of tokens.now))) e xs ks s (drop at (tokens_of tokens.now)))) }
    {
        match key_at(tokens, at)? {
            None => Ok(Move::Failed),
            Some(key) => {
                let moved = self.begin(Pending::Keyed(enclosure, items, keys, key), at + 1)?;
                Ok(moved)
            }
        }
    }

    /// All items and keys between brackets are there. In a call the keys make one last list.
    pub(crate) fn shut_keys(
        &mut self,
        enclosure: Enclosure,
        items: Vec<usize>,
        keys: Vec<usize>,
        at: usize,
    ) -> Result<Move, AllocError>
        ensures { IfOk result (λ m. (e : Enclosing) (xs ks : Trees) → IsEnclosure enclosure e → TreesBehind self.old.nodes.items items.items xs → TreesBehind self.old.nodes.items keys.items ks → (all : List Lexeme) (s : List Frame) → IsStack self.old.nodes.items self.old.stack.items s → Turned self.old.nodes.items self.new.nodes.items self.new.stack.items all m (Have s (made (with_keys e xs ks) (level_of e)) (drop at all))) }
    {
        let mut items = items;
        match enclosure {
            Enclosure::Call(name, level) => {
                let last = self.add(Node::List(keys))?;
                items.push(last)?;
                let moved = self.made(Node::Call(name, items), level, at)?;
                Ok(moved)
            }
            other => {
                items.extend_from_slice(keys.as_slice())?;
                let level = level_of(&other);
                let moved = self.made(enclosed(other, items), level, at)?;
                Ok(moved)
            }
        }
    }
}

/// What was read stands in parentheses, where `)` follows.
pub(crate) fn close_parens(held: Held, follow: Follow) -> Move
    ensures { (ns : List Node) (ps : List Pending) (all : List Lexeme) (s : List Frame) (v : Value) (f : Follows) → IsStack ns ps s → IsHeld ns held v → FollowShows all follow f → Turned ns ns ps all result (parens f.next f.rest v s) }
{
    match follow.next {
        Next::Close(Bracket::Paren) => Move::Held(
            Held {
                node: held.node,
                level: PRIMARY,
                is_tree: held.is_tree,
                is_pattern: false,
                negates: false,
            },
            follow.after,
        ),
        _ => Move::Failed,
    }
}

/// The items with one more.
pub(crate) fn more_items(items: Items, held: Held) -> Result<Items, AllocError>
    ensures { IfOk result (λ js. (ns : List Node) (l : Listed) (v : Value) → IsListed ns items l → IsHeld ns held v → IsListed ns js (more_items l v)) }
{
    let Items {
        mut places,
        are_trees,
        are_patterns,
    } = items;
    places.push(held.node)?;
    Ok(Items {
        places,
        are_trees: are_trees && held.is_tree,
        are_patterns: are_patterns && held.is_pattern,
    })
}

/// The bracket that closes.
pub(crate) fn bracket_of(enclosure: &Enclosure) -> Bracket
    ensures { (e : Enclosing) → IsEnclosure enclosure.now e → result ≡ bracket_of e }
{
    match enclosure {
        Enclosure::Tuple => Bracket::Brace,
        Enclosure::List => Bracket::Square,
        Enclosure::Call(_, _) => Bracket::Paren,
    }
}

/// The level of what brackets and items make.
pub(crate) fn level_of(enclosure: &Enclosure) -> u8
    ensures { (e : Enclosing) → IsEnclosure enclosure.now e → result ≡ level_of e }
{
    match enclosure {
        Enclosure::Tuple | Enclosure::List => PRIMARY,
        Enclosure::Call(_, level) => *level,
    }
}

/// The node that brackets and items make.
pub(crate) fn enclosed(enclosure: Enclosure, places: Vec<usize>) -> Node
    ensures tree { (ns : List Node) (e : Enclosing) (xs : Trees) → IsEnclosure enclosure e → AreAt ns places.items xs → IsAt (ns ++ result ∷ []) (length ns) (enclosed e xs) }
    ensures pattern { (ns : List Node) (e : Enclosing) (ps : Patterns) (p : Pattern) → IsEnclosure enclosure e → ArePatternsAt ns places.items ps → enclosed_pattern e ps ≡ Some p → IsPatternAt (ns ++ result ∷ []) (length ns) p }
{
    match enclosure {
        Enclosure::Tuple => Node::Tuple(places),
        Enclosure::List => Node::List(places),
        Enclosure::Call(name, _) => Node::Call(name, places),
    }
}
