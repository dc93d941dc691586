// Trees, kept as nodes that name their parts by lower places.
ghost use Rattle.std.specs.Prelude.{◌≡◌, List};
ghost use Rattle.ex_model.specs.Tree.{Tree};
ghost use Rattle.ex_model.specs.At.{AreAt};

use ex_value::Word;
use std::marker::Model;

/// An operator between two operands.
#[derive(Clone, Copy, Debug, PartialEq, Eq)]
pub enum Operator {
    /// `a + b`.
    Add,
    /// `a - b`.
    Subtract,
    /// `a * b`.
    Multiply,
}

/// One node of a tree. It names its parts by their places in the list of nodes, counted from 0.
#[derive(Debug, Drop)]
pub enum Node {
    /// An integer as it is written, so none below 0: `42`.
    Literal(i128),
    /// A name whose value is looked up: `x`.
    Lookup(Word),
    /// A name that is bound to the value of a part: `x = 42`.
    Bind(Word, usize),
    /// An operator between two parts: `x + 1`.
    Apply(Operator, usize, usize),
}

/// The expressions of a body, in order.
#[derive(Debug, Drop)]
pub struct Ast {
    nodes: Vec<Node>,
    roots: Vec<usize>,
}

impl Model for Ast {
    ghost use Rattle.std.specs.Prelude.{List};
    ghost use Rattle.std.specs.Coded.{coded_list};
    ghost use Rattle.ex_model.specs.Tree.{Tree};
    ghost use Rattle.ex_model.specs.TreeCode.{tree_code};

    ghost Value = { List Tree };

    ghost coded = { coded_list tree_code };

    ghost use Rattle.ex_model.specs.At.{AreAt};
    ghost use Rattle.ex_model.specs.TreeAt.{trees_at};

    ghost view = { λ a. trees_at a.nodes.items a.roots.items };

    ghost invariant = { λ a. AreAt a.nodes.items a.roots.items (trees_at a.nodes.items a.roots.items) };
}

/// The nodes of a body, and the places of its expressions among them.
#[derive(Clone, Copy, Debug)]
pub struct Parts<'a> {
    pub nodes: &'a [Node],
    pub roots: &'a [usize],
}

impl Ast {
    /// The body whose expressions stand at these places, in order. Takes no memory.
    pub fn of(nodes: Vec<Node>, roots: Vec<usize>) -> Ast
        requires { (trees : List Tree) × AreAt nodes.items roots.items trees }
        ensures { (trees : List Tree) → AreAt nodes.items roots.items trees → result ≡ trees }
    {
        Ast { nodes, roots }
    }

    /// The nodes, and the places where the expressions stand. Takes no memory.
    pub fn parts(&self) -> Parts
        ensures { AreAt result.nodes.now result.roots.now self.now }
    {
        Parts {
            nodes: self.nodes.as_slice(),
            roots: self.roots.as_slice(),
        }
    }
}
