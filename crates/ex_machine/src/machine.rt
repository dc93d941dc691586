// One expression, evaluated by a machine of frames.
ghost use Rattle.std.specs.Prelude.{◌≡◌, ◌+◌, ◌-◌, ◌*◌, ◌<◌, ◌≤◌, ◌∷◌, ◌++◌, [], List, length, slice_get, IfOk, IsTrue, MatchOption, false, nat_le};
ghost use Rattle.std.specs.Option.{option_copied};
ghost use Rattle.ex_model.specs.declared.ast.Node.{Node};
ghost use Rattle.ex_model.specs.Tree.{Tree, Named};
ghost use Rattle.ex_model.specs.At.{IsAt};
ghost use Rattle.ex_model.specs.declared.bindings.Binding.{Binding};
ghost use Rattle.ex_model.specs.Meaning.{Evaluated, Gives, meaning_of, matched, applied, operated, charge, seen};
ghost use Rattle.ex_machine.specs.Evaluations.{evaluated};
ghost use Rattle.ex_machine.specs.Futures.{Rest, rest_meaning, begun, AreFrames, IsFrame, Next, IsFuture, resumed, Sees, is_over, weight, failed, spot_of};

use crate::operators::operated;
use ex_model::{Bindings, Fault, Node, Operator, Outcome};
use ex_value::{Value, Word};
use std::alloc::{AllocError, Global};

/// What is begun and waits for the value of a part.
#[derive(Debug, Drop)]
enum Frame {
    /// The value is the first operand; the second one stands at the place.
    First(Operator, usize),
    /// The value is the second operand; the first one's is kept.
    Second(Operator, Value),
    /// The value is what the name is bound to.
    Bound(Word),
}

/// Where the machine is: at the node of a place, back with a value, or at the end.
#[derive(Debug, Drop)]
enum Spot {
    Entered(usize),
    Returned(Value),
    Over(Outcome),
}

/// How an evaluation ended, with the bindings made so far and the steps left.
#[derive(Debug, Drop)]
pub struct Ended {
    pub outcome: Outcome,
    pub made: Bindings,
    pub left: u64,
}

#[derive(Debug, Drop)]
struct Machine {
    frames: Vec<Frame>,
    made: Bindings,
    left: u64,
}

/// Evaluates the expression at a place, where its cell has made some bindings and has some steps left.
pub fn evaluate_at(
    alloc: Global,
    nodes: &[Node],
    root: usize,
    base: &Bindings,
    made: Bindings,
    left: u64,
) -> Result<Ended, AllocError>
    requires { (t : Tree) × IsAt nodes.now root t }
    ensures { IfOk result (λ ended. (t : Tree) → IsAt nodes.now root t →
        evaluated ended.outcome ended.made ended.left ≡ meaning_of base.now t made left) }
{
    let mut machine = Machine {
        frames: Vec::new(alloc),
        made,
        left,
    };
    let mut spot = Spot::Entered(root);
    while !spot.is_over() {
        spot = machine.turn(alloc, nodes, base, spot)?;
    }
    Ok(Ended {
        outcome: spot.into_outcome(),
        made: machine.made,
        left: machine.left,
    })
}

impl Spot {
    fn is_over(&self) -> bool
        ensures { result ≡ is_over self.now }
    {
        matches!(self, Spot::Over(_))
    }

    fn into_outcome(self) -> Outcome
        requires { IsTrue (is_over self) }
        ensures { self ≡ Spot.Over result }
    {
        match self {
            Spot::Over(outcome) => outcome,
            Spot::Entered(_) | Spot::Returned(_) => unreachable!(),
        }
    }

    fn failed(fault: Fault) -> Spot
        ensures { result ≡ failed fault }
    {
        Spot::Over(Outcome::Fault(fault))
    }
}

impl Machine {
    /// Takes steps, or the last of them where there are too few.
    fn pay(&mut self, steps: u64) -> bool
        ensures answer { result ≡ nat_le steps self.old.left }
        ensures left { self.new.left ≡ self.old.left - steps }
        ensures made { self.new.made ≡ self.old.made }
        ensures frames { self.new.frames.items ≡ self.old.frames.items }
    {
        let is_enough = steps <= self.left;
        self.left = self.left.saturating_sub(steps);
        is_enough
    }

    /// Goes into a part, with a frame for its value.
    fn go(&mut self, frame: Frame, place: usize) -> Result<Spot, AllocError>
        ensures { IfOk result (λ spot. (spot ≡ Spot.Entered place) × (self.new.frames.items ≡ self.old.frames.items ++ frame ∷ []) × (self.new.made ≡ self.old.made) × (self.new.left ≡ self.old.left)) }
    {
        self.frames.push(frame)?;
        Ok(Spot::Entered(place))
    }

    /// Takes the newest frame off.
    fn next(&mut self) -> Option<Frame>
        ensures made { self.new.made ≡ self.old.made }
        ensures left { self.new.left ≡ self.old.left }
        ensures count { MatchOption result (length self.old.frames.items ≡ 0) (λ _. length self.old.frames.items ≡ length self.new.frames.items + 1) }
        ensures frames { (nodes : List Node) (rests : List Rest) → AreFrames nodes self.old.frames.items rests → Next nodes self.new.frames.items result rests }
    {
        let next = self.frames.pop();
        next
    }

    /// One turn. What is given in the end stays the same.
    fn turn(
        &mut self,
        alloc: Global,
        nodes: &[Node],
        base: &Bindings,
        spot: Spot,
    ) -> Result<Spot, AllocError>
        requires { (is_over spot ≡ false) × ((e : Evaluated) × IsFuture nodes.now base.now self.old.frames.items self.old.made self.old.left spot e) }
        ensures future { IfOk result (λ next. (e : Evaluated) → IsFuture nodes.now base.now self.old.frames.items self.old.made self.old.left spot e →
            IsFuture nodes.now base.now self.new.frames.items self.new.made self.new.left next e) }
        ensures falls { IfOk result (λ next. weight next (length self.new.frames.items) self.new.left < weight spot (length self.old.frames.items) self.old.left) }
    {
        match spot {
            Spot::Entered(place) => {
                let next = self.enter(nodes, base, place)?;
                Ok(next)
            }
            Spot::Returned(value) => {
                let next = self.resume(alloc, value)?;
                Ok(next)
            }
            Spot::Over(_) => unreachable!(),
        }
    }

    /// Begins the node at a place, for one step.
    fn enter(&mut self, nodes: &[Node], base: &Bindings, place: usize) -> Result<Spot, AllocError>
        requires { (t : Tree) × IsAt nodes.now place t }
        ensures future { IfOk result (λ next. (t : Tree) (rests : List Rest) → IsAt nodes.now place t → AreFrames nodes.now self.old.frames.items rests →
            IsFuture nodes.now base.now self.new.frames.items self.new.made self.new.left next (resumed base.now rests (meaning_of base.now t self.old.made self.old.left))) }
        ensures falls { IfOk result (λ next. weight next (length self.new.frames.items) self.new.left ≤ 4 * self.old.left + 2 * length self.old.frames.items) }
    {
        if !self.pay(1) {
            return Ok(Spot::failed(Fault::TooManySteps));
        }
        let next = self.begin(node_at(nodes, place), base)?;
        Ok(next)
    }

    /// Begins a node, for which was paid.
    fn begin(&mut self, node: &Node, base: &Bindings) -> Result<Spot, AllocError>
        ensures future { IfOk result (λ next. (nodes : List Node) (t : Tree) (rests : List Rest) → Sees nodes node.now t → AreFrames nodes self.old.frames.items rests →
            IsFuture nodes base.now self.new.frames.items self.new.made self.new.left next (resumed base.now rests (begun base.now t self.old.made self.old.left))) }
        ensures falls { IfOk result (λ next. weight next (length self.new.frames.items) self.new.left ≤ 4 * self.old.left + 2 * length self.old.frames.items + 3) }
    {
        match node {
            Node::Literal(number) => Ok(Spot::Returned(Value::Int(*number))),
            Node::Lookup(name) => {
                let next = looked_up(name, seen(&self.made, base, name.as_str()))?;
                Ok(next)
            }
            Node::Bind(name, part) => {
                let next = self.go(Frame::Bound(name.copy()?), *part)?;
                Ok(next)
            }
            Node::Apply(operator, first, second) => {
                let next = self.go(Frame::First(*operator, *second), *first)?;
                Ok(next)
            }
        }
    }

    /// Goes on with a value.
    fn resume(&mut self, alloc: Global, value: Value) -> Result<Spot, AllocError>
        ensures future { IfOk result (λ next. (nodes : List Node) (base : List Binding) (rests : List Rest) → AreFrames nodes self.old.frames.items rests →
            IsFuture nodes base self.new.frames.items self.new.made self.new.left next (resumed base rests (Gives value self.old.made self.old.left))) }
        ensures falls { IfOk result (λ next. weight next (length self.new.frames.items) self.new.left ≤ 4 * self.old.left + 2 * length self.old.frames.items + 1) }
    {
        match self.next() {
            None => Ok(Spot::Over(Outcome::Value(value))),
            Some(frame) => {
                let next = self.act(alloc, frame, value)?;
                Ok(next)
            }
        }
    }

    /// Does what a frame was waiting to do with a value.
    fn act(&mut self, alloc: Global, frame: Frame, value: Value) -> Result<Spot, AllocError>
        ensures future { IfOk result (λ next. (nodes : List Node) (base : List Binding) (rest : Rest) (rests : List Rest) → IsFrame nodes frame rest → AreFrames nodes self.old.frames.items rests →
            IsFuture nodes base self.new.frames.items self.new.made self.new.left next (resumed base rests (rest_meaning base rest value self.old.made self.old.left))) }
        ensures falls { IfOk result (λ next. weight next (length self.new.frames.items) self.new.left ≤ 4 * self.old.left + 2 * length self.old.frames.items + 3) }
    {
        match frame {
            Frame::First(operator, second) => {
                let next = self.go(Frame::Second(operator, value), second)?;
                Ok(next)
            }
            Frame::Second(operator, first) => {
                let next = self.apply(alloc, operator, first, value)?;
                Ok(next)
            }
            Frame::Bound(name) => {
                let next = self.bind(name, value)?;
                Ok(next)
            }
        }
    }

    /// Applies an operator to the values of its operands.
    fn apply(
        &mut self,
        alloc: Global,
        operator: Operator,
        first: Value,
        second: Value,
    ) -> Result<Spot, AllocError>
        ensures future { IfOk result (λ next. (nodes : List Node) (base : List Binding) (rests : List Rest) → AreFrames nodes self.old.frames.items rests →
            IsFuture nodes base self.new.frames.items self.new.made self.new.left next (resumed base rests (applied first second (operated operator first second) self.old.made self.old.left))) }
        ensures falls { IfOk result (λ next. weight next (length self.new.frames.items) self.new.left ≤ 4 * self.old.left + 2 * length self.old.frames.items + 2) }
    {
        match operated(alloc, operator, &first, &second)? {
            Ok(value) => {
                let charge = first.size() + second.size() + value.size();
                Ok(self.returned_for(charge, value))
            }
            Err(fault) => Ok(Spot::failed(fault)),
        }
    }

    /// Back with a value, for some steps.
    fn returned_for(&mut self, steps: u64, value: Value) -> Spot
        ensures future { (nodes : List Node) (base : List Binding) (rests : List Rest) → AreFrames nodes self.old.frames.items rests →
            IsFuture nodes base self.new.frames.items self.new.made self.new.left result (resumed base rests (charge steps self.old.left (λ left. Gives value self.old.made left))) }
        ensures falls { weight result (length self.new.frames.items) self.new.left ≤ 4 * self.old.left + 2 * length self.old.frames.items + 2 }
    {
        if !self.pay(steps) {
            return Spot::failed(Fault::TooManySteps);
        }
        Spot::Returned(value)
    }

    /// Binds a name to a value, for one step, and is back with the value.
    fn bind(&mut self, name: Word, value: Value) -> Result<Spot, AllocError>
        ensures future { IfOk result (λ next. (nodes : List Node) (base : List Binding) (rests : List Rest) → AreFrames nodes self.old.frames.items rests →
            IsFuture nodes base self.new.frames.items self.new.made self.new.left next (resumed base rests (matched (Named name) value self.old.made self.old.left))) }
        ensures falls { IfOk result (λ next. weight next (length self.new.frames.items) self.new.left ≤ 4 * self.old.left + 2 * length self.old.frames.items + 2) }
    {
        if !self.pay(1) {
            return Ok(Spot::failed(Fault::TooManySteps));
        }
        self.made.put(name, value.copy()?)?;
        Ok(Spot::Returned(value))
    }
}

/// The value of a name: what the cell bound, else what stood before it.
fn seen<'a>(made: &'a Bindings, base: &'a Bindings, name: &str) -> Option<&'a Value>
    ensures { option_copied result ≡ seen base.now made.now name.now }
{
    match made.get(name) {
        Some(value) => Some(value),
        None => base.get(name),
    }
}

/// Back with the value of a name, or at the end where it has none.
fn looked_up(name: &Word, value: Option<&Value>) -> Result<Spot, AllocError>
    ensures { IfOk result (λ spot. spot ≡ spot_of name.now (option_copied value.entry)) }
{
    match value {
        Some(value) => Ok(Spot::Returned(value.copy()?)),
        None => Ok(Spot::failed(Fault::UnboundVariable(name.copy()?))),
    }
}

fn node_at(nodes: &[Node], place: usize) -> &Node
    requires { place < length nodes.now }
    ensures { slice_get nodes.now place ≡ Some result.now }
{
    &nodes[place]
}
