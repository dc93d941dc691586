//! What stands first in an expression, and texts.
ghost use Rattle.std.specs.Prelude.{List, drop, IfOk};
ghost use Rattle.ex_grammar.specs.Tokens.{Token as Lexeme};
ghost use Rattle.ex_grammar.specs.Coded.{IsToken};
ghost use Rattle.ex_grammar.specs.Grammar.{is_underscore};
ghost use Rattle.ex_grammar.specs.Patterns.{Named};
ghost use Rattle.ex_grammar.specs.Trees.{Holes};
ghost use Rattle.ex_parser.specs.Machine.{Frame, Value, Have, Enclosure as Enclosing, Listed, plain, name_tree, with_tree, want_cond, first, want_own_key, first_keys, want_word, want_sign, want_pinned, want_text, hole};
ghost use Rattle.ex_parser.specs.Follow.{follow, own_key, text_goes, hole_says};
ghost use Rattle.ex_parser.specs.Shown.{tokens_of, token_of, IsHeld, IsStack, IsListed, IsEnclosure, HolesBehind, Turned};

use crate::follow::{
    Next, TextGoes, follow_at, hole_says_at, is_underscore, kind_at, own_key, text_goes_at,
};
use crate::parser::{Enclosure, Held, Items, Move, PRIMARY, Parser, Pending, tree_of};
use crate::tree::{Hole, Node};
use ex_grammar::{Keyword, Sign, Token, TokenKind, WordValue};
use ex_word::Word;
use std::alloc::AllocError;

impl Parser {
    /// Takes the first token of an expression or a pattern, which is no operator and begins no call.
    pub(crate) fn first(
        &mut self,
        kind: &TokenKind,
        tokens: &[Token],
        after: usize,
    ) -> Result<Move, AllocError>
        ensures { IfOk result (λ m. (s : List Frame) → IsToken kind.now (token_of kind.now) → IsStack self.old.nodes.items self.old.stack.items s → Turned self.old.nodes.items self.new.nodes.items self.new.stack.items (tokens_of tokens.now) m (first (token_of kind.now) s (drop after (tokens_of tokens.now)))) }
    {
        match kind {
            TokenKind::Integer(n) => self.plain(Node::Integer(*n), true, true, after),
            TokenKind::Atom(text) => self.plain(Node::Atom(text.copy()?), true, true, after),
            TokenKind::Name(name) => self.first_name(name, after),
            TokenKind::Key(key) => self.first_key(key, after),
            TokenKind::Word(word) => self.first_word(*word, tokens, after),
            TokenKind::Sign(sign) => self.first_sign(*sign, tokens, after),
            TokenKind::TextBegins(says) => self.text(says, tokens, after),
            _ => Ok(Move::Failed),
        }
    }

    /// Takes a name, which is a variable and a pattern; `_` is a pattern only.
    pub(crate) fn first_name(&mut self, name: &Word, after: usize) -> Result<Move, AllocError>
        ensures { IfOk result (λ m. (all : List Lexeme) (s : List Frame) → IsStack self.old.nodes.items self.old.stack.items s → Turned self.old.nodes.items self.new.nodes.items self.new.stack.items all m (Have s (plain (name_tree (is_underscore name.now) name.now) (Some (Named name.now))) (drop after all))) }
    {
        let is_tree = !is_underscore(name);
        let moved = self.plain(Node::Name(name.copy()?), is_tree, true, after)?;
        Ok(moved)
    }

    /// Takes a key, which stands in a list or a call.
    pub(crate) fn first_key(&mut self, key: &Word, after: usize) -> Result<Move, AllocError>
        ensures { IfOk result (λ m. (all : List Lexeme) (s : List Frame) → IsStack self.old.nodes.items self.old.stack.items s → Turned self.old.nodes.items self.new.nodes.items self.new.stack.items all m (want_own_key (own_key key.now) s (drop after all))) }
    {
        let Some(key) = own_key(key)? else {
            return Ok(Move::Failed);
        };
        let Some(top) = self.stack.pop() else {
            return Ok(Move::Failed);
        };
        match top {
            Pending::Items(enclosure, items) => {
                let moved = self.begin_keys(enclosure, items, key, after)?;
                Ok(moved)
            }
            _ => Ok(Move::Failed),
        }
    }

    /// Begins the keys that stand last in a list or a call.
    pub(crate) fn begin_keys(
        &mut self,
        enclosure: Enclosure,
        items: Items,
        key: Word,
        after: usize,
    ) -> Result<Move, AllocError>
        ensures { IfOk result (λ m. (e : Enclosing) (l : Listed) → IsEnclosure enclosure e → IsListed self.old.nodes.items items l → (all : List Lexeme) (s : List Frame) → IsStack self.old.nodes.items self.old.stack.items s → Turned self.old.nodes.items self.new.nodes.items self.new.stack.items all m (first_keys e l.trees key s (drop after all))) }
    {
        let keys = Vec::new(self.alloc);
        match enclosure {
            Enclosure::Tuple => Ok(Move::Failed),
            _ => {
                if !items.are_trees {
                    return Ok(Move::Failed);
                }
                let moved = self.begin(Pending::Keyed(enclosure, items.places, keys, key), after)?;
                Ok(moved)
            }
        }
    }

    /// Takes a word that stands first: a value, or the begin of a block.
    pub(crate) fn first_word(
        &mut self,
        word: Keyword,
        tokens: &[Token],
        after: usize,
    ) -> Result<Move, AllocError>
        ensures { IfOk result (λ m. (s : List Frame) → IsStack self.old.nodes.items self.old.stack.items s → Turned self.old.nodes.items self.new.nodes.items self.new.stack.items (tokens_of tokens.now) m (want_word word s (drop after (tokens_of tokens.now)))) }
    {
        match word {
            Keyword::True => {
                let moved = self.plain(Node::Constant(WordValue::True), true, true, after)?;
                Ok(moved)
            }
            Keyword::False => {
                let moved = self.plain(Node::Constant(WordValue::False), true, true, after)?;
                Ok(moved)
            }
            Keyword::Nil => {
                let moved = self.plain(Node::Constant(WordValue::Nil), true, true, after)?;
                Ok(moved)
            }
            Keyword::If => {
                let moved = self.begin(Pending::If, after)?;
                Ok(moved)
            }
            Keyword::Case => {
                let moved = self.begin(Pending::Case, after)?;
                Ok(moved)
            }
            Keyword::For => {
                let moved = self.begin(Pending::ForPattern, after)?;
                Ok(moved)
            }
            Keyword::Cond => {
                let moved = self.cond(tokens, after)?;
                Ok(moved)
            }
            _ => Ok(Move::Failed),
        }
    }

    /// Begins a `cond`, where `do` follows.
    pub(crate) fn cond(&mut self, tokens: &[Token], at: usize) -> Result<Move, AllocError>
        ensures { IfOk result (λ m. (s : List Frame) → IsStack self.old.nodes.items self.old.stack.items s → Turned self.old.nodes.items self.new.nodes.items self.new.stack.items (tokens_of tokens.now) m (want_cond (follow (drop at (tokens_of tokens.now))).next (follow (drop at (tokens_of tokens.now))).rest s)) }
    {
        let follow = follow_at(tokens, at);
        match follow.next {
            Next::Do => {
                let moved = self.begin(Pending::FirstCondition, follow.after)?;
                Ok(moved)
            }
            _ => Ok(Move::Failed),
        }
    }

    /// Takes a sign that stands first: an opening bracket, or `^`.
    pub(crate) fn first_sign(
        &mut self,
        sign: Sign,
        tokens: &[Token],
        after: usize,
    ) -> Result<Move, AllocError>
        ensures { IfOk result (λ m. (s : List Frame) → IsStack self.old.nodes.items self.old.stack.items s → Turned self.old.nodes.items self.new.nodes.items self.new.stack.items (tokens_of tokens.now) m (want_sign sign s (drop after (tokens_of tokens.now)))) }
    {
        match sign {
            Sign::OpenParen => {
                let moved = self.begin(Pending::Parens, after)?;
                Ok(moved)
            }
            Sign::OpenBrace => {
                let moved = self.bracket(Enclosure::Tuple, tokens, after)?;
                Ok(moved)
            }
            Sign::OpenBracket => {
                let moved = self.bracket(Enclosure::List, tokens, after)?;
                Ok(moved)
            }
            Sign::Caret => {
                let moved = self.pin(tokens, after)?;
                Ok(moved)
            }
            _ => Ok(Move::Failed),
        }
    }

    /// Takes the name after `^`.
    pub(crate) fn pin(&mut self, tokens: &[Token], at: usize) -> Result<Move, AllocError>
        ensures { IfOk result (λ m. (s : List Frame) → IsStack self.old.nodes.items self.old.stack.items s → Turned self.old.nodes.items self.new.nodes.items self.new.stack.items (tokens_of tokens.now) m (want_pinned s (drop at (tokens_of tokens.now)))) }
    {
        match kind_at(tokens, at) {
            Some(TokenKind::Name(name)) => {
                let moved = self.plain(Node::Pinned(name.copy()?), false, true, at + 1)?;
                Ok(moved)
            }
            _ => Ok(Move::Failed),
        }
    }

    /// Takes a text that says this up to its first `#{` or its end.
    pub(crate) fn text(
        &mut self,
        says: &Word,
        tokens: &[Token],
        after: usize,
    ) -> Result<Move, AllocError>
        ensures { IfOk result (λ m. (s : List Frame) → IsStack self.old.nodes.items self.old.stack.items s → Turned self.old.nodes.items self.new.nodes.items self.new.stack.items (tokens_of tokens.now) m (want_text (text_goes (drop after (tokens_of tokens.now))) says.now s (drop after (tokens_of tokens.now)))) }
    {
        let says = says.copy()?;
        let holes = Vec::new(self.alloc);
        match text_goes_at(tokens, after) {
            TextGoes::Ends => {
                let moved = self.plain(Node::Text(says, holes), true, true, after + 1)?;
                Ok(moved)
            }
            TextGoes::Hole => {
                let moved = self.begin(Pending::Hole(says, holes), after + 1)?;
                Ok(moved)
            }
            TextGoes::Other => Ok(Move::Failed),
        }
    }

    /// What stands in the `#{` of a text.
    pub(crate) fn hole(
        &mut self,
        says: Word,
        holes: Vec<Hole>,
        held: Held,
        tokens: &[Token],
        at: usize,
    ) -> Result<Move, AllocError>
        ensures { IfOk result (λ m. (hs : Holes) → HolesBehind self.old.nodes.items holes.items hs → (s : List Frame) (v : Value) → IsStack self.old.nodes.items self.old.stack.items s → IsHeld self.old.nodes.items held v → Turned self.old.nodes.items self.new.nodes.items self.new.stack.items (tokens_of tokens.now) m (with_tree v.tree (λ t. hole (hole_says (drop at (tokens_of tokens.now))) says hs t s (drop at (tokens_of tokens.now))))) }
    {
        let Some(tree) = tree_of(held) else {
            return Ok(Move::Failed);
        };
        let Some(more) = hole_says_at(tokens, at)? else {
            return Ok(Move::Failed);
        };
        let mut holes = holes;
        holes.push(Hole { tree, says: more })?;
        match text_goes_at(tokens, at + 1) {
            TextGoes::Hole => {
                let moved = self.begin(Pending::Hole(says, holes), at + 2)?;
                Ok(moved)
            }
            TextGoes::Ends => {
                let moved = self.made(Node::Text(says, holes), PRIMARY, at + 2)?;
                Ok(moved)
            }
            TextGoes::Other => Ok(Move::Failed),
        }
    }
}
