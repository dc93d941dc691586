// Trees, kept as nodes that name their parts by places.
use ex_grammar::{Operator, Prefix, WordValue};
use ex_word::Word;

/// What follows in a text: the place of an expression in `#{` and `}`, and what the text says after it.
#[derive(Debug, Drop)]
pub struct Hole {
    pub tree: usize,
    pub says: Word,
}

/// A clause of a `case`: the places of its pattern and of the expressions of its body.
#[derive(Debug, Drop)]
pub struct Clause {
    pub pattern: usize,
    pub body: Vec<usize>,
}

/// A clause of a `cond`: the places of its condition and of the expressions of its body.
#[derive(Debug, Drop)]
pub struct Choice {
    pub condition: usize,
    pub body: Vec<usize>,
}

/// A part of a `for` after its first.
#[derive(Clone, Copy, Debug)]
pub enum Part {
    /// The places of a pattern and of what its values come from: `x <- l`.
    Generator(usize, usize),
    /// The place of a filter: `x > 1`.
    Filter(usize),
}

/// The parts of a `for`, of which the first is a generator: its pattern, what its values come from,
/// and the others.
#[derive(Debug, Drop)]
pub struct Head {
    pub pattern: usize,
    pub source: usize,
    pub parts: Vec<Part>,
}

/// One node of a tree. It names its parts by their places in the list of nodes, counted from 0.
///
/// Patterns are kept as the expressions that are written like them: `-1` is a `Prefixed` there too,
/// and `_` a `Name`.
#[derive(Debug, Drop)]
pub enum Node {
    /// An integer as it is written, so none below 0: `42`.
    Integer(i128),
    /// An atom by its text: `:ok`.
    Atom(Word),
    /// `true`, `false` or `nil`.
    Constant(WordValue),
    /// A text: what it says up to its first `#{`, and what follows.
    Text(Word, Vec<Hole>),
    /// A name: `x`.
    Name(Word),
    /// The value of a name, in patterns only: `^x`.
    Pinned(Word),
    /// `{a, b}`
    Tuple(Vec<usize>),
    /// `[a, b]`
    List(Vec<usize>),
    /// `[a, b | t]`
    ListThen(Vec<usize>, usize),
    /// A call by its name as it is written: `f(a)`, `Enum.sum(a)`.
    Call(Word, Vec<usize>),
    /// A pattern and an expression: `{a, b} = t`.
    Match(usize, usize),
    /// An operator between two parts: `a + b`.
    Apply(Operator, usize, usize),
    /// An operator before a part: `-a`.
    Prefixed(Prefix, usize),
    /// An `if` without `else`: its condition and its body.
    If(usize, Vec<usize>),
    /// An `if` with both bodies.
    IfElse(usize, Vec<usize>, Vec<usize>),
    /// A `case`: what is looked at, and the clauses.
    Case(usize, Vec<Clause>),
    /// A `cond` with its clauses.
    Cond(Vec<Choice>),
    /// A `for`: its parts and its body.
    For(Head, Vec<usize>),
}

/// The expressions of a source: all their nodes, and the places of the
/// expressions themselves, in order.
#[derive(Debug, Drop)]
pub struct Ast {
    pub nodes: Vec<Node>,
    pub roots: Vec<usize>,
}
