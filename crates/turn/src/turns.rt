//! The lock and its passes.
ghost use Rattle.std.specs.Prelude.{◌≡◌, ℕ, ◌+◌, ◌<◌, ◌≤◌, ◌↔◌, List, [], ◌∷◌, ◌++◌, length, map, true, Some, None, IfOk, IfErr, IsErr, All, vec_len};
ghost use Rattle.turn.specs.Histories.{MayFind, Extends, TakesTurn};
ghost use Rattle.turn.specs.Passes.{Belongs, HasOnlySeen, WasOnlyTold, fresh_passes, HaveSeen, IsAllOf, WereTold};
ghost use Rattle.turn.specs.TurnRule.{IsIdle, IsSingle, HasTurn, IsWhole, numbers_of, first_view, end_of_pass};

use crate::kept::{Act, Kept};
use crate::rule::{Board, Draw, Gather, Look, NewSeat, Newest, Place, Publish, Serve, Start};
use atomic_table::Table;
use std::alloc::{AllocError, Global};
use std::marker::Model;
use std::snapshot::Snapshot;
use std::sync::Wait;
use std::thread;

/// A state behind a lock whose turns come in the order of their tickets.
#[derive(Drop)]
pub struct Turns<S: Kept> {
    board: Board<S>,
    seats: u32,
}

impl<S: Kept> Model for Turns<S> {
    ghost use Rattle.std.specs.Prelude.{◌≡◌, ◌<◌};
    ghost use Rattle.turn.specs.Passes.{Lock};

    ghost Value = { Lock S.Opening };

    ghost view = { λ t. record { home = t.board.shared.table_id; opening = S.opening t.board.shared.key.state.value; seats = t.seats } };

    ghost invariant = { λ t. (t.board.shared.table_id.words ≡ 3) × (t.board.shared.table_id.slots ≡ 1) × (t.board.shared.key.seats ≡ t.seats) × (0 < t.seats) };
}

/// The right to take turns at one lock. It knows the list that its last turn left, and how many entries `newest` told of.
#[derive(Drop)]
pub struct Pass<S: Kept> {
    number: u32,
    count: u64,
    seat: Place<S>,
}

impl<S: Kept> Model for Pass<S> {
    ghost use Rattle.std.specs.Prelude.{◌≡◌, length};
    ghost use Rattle.turn.specs.Passes.{Pass};
    ghost use Rattle.turn.specs.TurnRule.{IsIdle, IsSingle};

    ghost Value = { Pass S.Opening S.Entry };

    ghost view = { λ p. record { home = p.seat.table_id; opening = p.seat.me.0.opening; number = p.number; seen = p.seat.me.0.seen; known = p.seat.me.0.known } };

    ghost invariant = { λ p. IsIdle p.seat.me × IsSingle p.seat.me.0 × (p.seat.me.0.number ≡ p.number) × (length p.seat.me.0.seen ≡ p.count) };
}

/// A lock that was not closed, since passes are missing. It and the passes that were given come back.
#[derive(Drop)]
pub struct StillOpen<S: Kept> {
    pub turns: Turns<S>,
    pub passes: Vec<Pass<S>>,
    /// How many passes were not given.
    pub missing: u32,
}

impl<S: Kept> Pass<S> {
    /// The number under which the entries of this pass's turns stand.
    pub fn number(&self) -> u32
        ensures { result ≡ self.now.number }
    {
        self.number
    }

    // A pass that has had no turn.
    fn fresh(number: u32, seat: Place<S>) -> Pass<S>
        requires idle { IsIdle seat.me × IsSingle seat.me.0 }
        requires number { seat.me.0.number ≡ number }
        requires seen { (seat.me.0.seen ≡ []) × (seat.me.0.known ≡ 0) }
        ensures { result
            ≡ record {
              home = seat.table_id;
              opening = seat.me.0.opening;
              number = number;
              seen = [];
              known = 0;
            } }
    {
        Pass {
            number,
            count: 0,
            seat,
        }
    }

    /// How many entries the list has that this pass has seen: after a turn, the history's length at that turn.
    pub fn count(&self) -> u64
        ensures { result ≡ length self.now.seen }
    {
        self.count
    }
}

// Lays down the table, with the state in its slot.
fn lay<S: Kept>(alloc: Global, state: S, seats: u32) -> Result<(Board<S>, Place<S>), AllocError>
    requires seats { (0 < seats) × (seats ≤ 64) }
    requires empty { S.list state ≡ [] }
    ensures board { IfOk result (λ t. (t.0.shared.table_id.words ≡ 3)
        × (t.0.shared.table_id.slots ≡ 1) × (t.0.shared.key.seats ≡ seats)
        × (S.opening t.0.shared.key.state.value ≡ S.opening state)) }
    ensures seat { IfOk result (λ t. (t.1.table_id ≡ t.0.shared.table_id)
        × (t.1.me ≡ (first_view (S.opening state), []))) }
{
    let start = Start {
        state: Snapshot::of(&state),
        seats,
    };
    let mut slots = Vec::new(alloc);
    slots.push(Some(state))?;
    match Table::new(alloc, &[0, 0, 0], slots, &start) {
        Ok(laid) => Ok(laid),
        Err(_) => Err(AllocError),
    }
}

// The passes of all seats. The newest seat makes the next one.
fn deal<S: Kept>(
    alloc: Global,
    board: &Board<S>,
    first: Place<S>,
    seats: u32,
) -> Result<Vec<Pass<S>>, AllocError>
    requires board { (0 < board.now.shared.table_id.words)
        × (board.now.shared.key.seats ≡ seats) × (0 < seats) }
    requires first { (first.table_id ≡ board.now.shared.table_id)
        × (first.me ≡ (first_view (S.opening board.now.shared.key.state.value), [])) }
    ensures { IfOk result (λ v. v.items
        ≡ fresh_passes board.now.shared.table_id
        (S.opening board.now.shared.key.state.value) seats) }
{
    let mut passes = Vec::new(alloc);
    let mut seat = first;
    for number in 0..seats - 1 {
        let next = board.shared.split_seat::<NewSeat>(&mut seat);
        passes.push(Pass::fresh(number, seat))?;
        seat = next;
    }
    passes.push(Pass::fresh(seats - 1, seat))?;
    Ok(passes)
}

// Joins the seats of the passes into one.
fn gather<S: Kept>(board: &Board<S>, seat: &mut Place<S>, passes: Vec<Pass<S>>)
    requires board { 0 < board.now.shared.table_id.words }
    requires seat { (seat.old.table_id ≡ board.now.shared.table_id) × IsIdle seat.old.me }
    requires passes { All (λ p. p.home ≡ board.now.shared.table_id) passes.items }
    ensures seat { (seat.new.table_id ≡ seat.old.table_id) × (seat.new.id ≡ seat.old.id)
        × IsIdle seat.new.me }
    ensures same { (seat.new.me.0.number ≡ seat.old.me.0.number)
        × (seat.new.me.0.alone ≡ seat.old.me.0.alone) }
    ensures ended { seat.new.me.0.ended ≡ seat.old.me.0.ended ++ map end_of_pass passes.items }
    ensures known { (seat.old.me.0.known ≤ seat.new.me.0.known)
        × All (λ p. p.known ≤ seat.new.me.0.known) passes.items }
{
    for pass in passes {
        let Pass {
            number: _,
            count: _,
            seat: other,
        } = pass;
        board.shared.join_seat::<Gather>(seat, other);
    }
}

// Takes the state out of the table, whose seats are all joined into one.
fn take_out<S: Kept>(board: Board<S>, seat: Place<S>) -> S
    requires board { (0 < board.shared.table_id.words) × (board.shared.table_id.slots ≡ 1) }
    requires seat { (seat.table_id ≡ board.shared.table_id) × IsIdle seat.me }
    requires all { board.shared.key.seats ≤ length (numbers_of seat.me.0) }
    ensures { IsWhole S.list S.opening S.number_of (S.opening board.shared.key.state.value)
        seat.me.0 result }
{
    let mut closed = board.close_with(seat);
    let held = closed.take(0);
    closed.free();
    let Some(state) = held else { unreachable!() };
    state
}

impl<S: Kept> Turns<S> {
    /// A lock over the state, with 1 to 64 passes. They are numbered from 0, and have seen the empty list.
    ///
    /// Where there is no memory the state is dropped.
    pub fn new(alloc: Global, state: S, seats: u32) -> Result<(Turns<S>, Vec<Pass<S>>), AllocError>
        requires seats { (0 < seats) × (seats ≤ 64) }
        requires empty { S.list state ≡ [] }
        ensures lock { IfOk result
            (λ t. (t.0.opening ≡ S.opening state) × (t.0.seats ≡ seats)) }
        ensures passes { IfOk result (λ t. t.1.items ≡ fresh_passes t.0.home t.0.opening seats) }
        ensures count { IfOk result (λ t. vec_len t.1 ≡ seats) }
        ensures belong { IfOk result (λ t. All (λ p. Belongs p t.0) t.1.items) }
    {
        let (board, first) = lay(alloc, state, seats)?;
        let passes = deal(alloc, &board, first, seats)?;
        Ok((Turns { board, seats }, passes))
    }

    // Draws a ticket, and waits until it is served.
    fn enter<R: Wait>(&self, rt: &R, seat: &mut Place<S>)
        requires own { seat.old.table_id ≡ self.now.home }
        requires idle { IsIdle seat.old.me }
        ensures own { (seat.new.table_id ≡ seat.old.table_id) × (seat.new.id ≡ seat.old.id) }
        ensures turn { HasTurn S.list S.opening S.number_of seat.old.me seat.new.me }
    {
        let ticket = self.board.shared.fetch_add::<Draw<S>>(seat, 0, 1);
        for _ in rt.forever() {
            if self.board.shared.load::<Look<S>>(seat, 1) == ticket {
                return;
            }
            thread::yield_now();
        }
        unreachable!()
    }

    // Puts the state back, publishes how long its list is, and serves the next ticket.
    fn leave(&self, seat: &mut Place<S>, state: S) -> u64
        requires own { seat.old.table_id ≡ self.now.home }
        requires turn { (seat.old.me.0.turn ≡ true) × (seat.old.me.1 ≡ (0, None) ∷ []) }
        requires opening { seat.old.me.0.opening ≡ Some (S.opening state) }
        requires extends { Extends S.number_of seat.old.me.0.number seat.old.me.0.seen
            (S.list state) }
        ensures own { (seat.new.table_id ≡ seat.old.table_id) × (seat.new.id ≡ seat.old.id) }
        ensures idle { IsIdle seat.new.me }
        ensures seen { (seat.new.me.0.seen ≡ S.list state)
            × (seat.new.me.0.alone ≡ S.list state) }
        ensures same { (seat.new.me.0.number ≡ seat.old.me.0.number)
            × (seat.new.me.0.opening ≡ seat.old.me.0.opening)
            × (seat.new.me.0.ended ≡ seat.old.me.0.ended)
            × (seat.new.me.0.known ≡ seat.old.me.0.known) }
        ensures count { result ≡ length (S.list state) }
    {
        let count = state.count();
        let empty = self.board.shared.exchange(seat, 0, Some(state));
        let None = empty else { unreachable!() };
        self.board.shared.store::<Publish<S>>(seat, 2, count);
        self.board.shared.fetch_add::<Serve<S>>(seat, 1, 1);
        count
    }

    fn run<A: Act<S>, R: Wait>(
        &self,
        rt: &R,
        seat: &mut Place<S>,
        number: u32,
        act: &mut A,
    ) -> (A::Answer, u64)
        requires own { (seat.old.table_id ≡ self.now.home)
            × (seat.old.me.0.opening ≡ Some self.now.opening) }
        requires idle { IsIdle seat.old.me × IsSingle seat.old.me.0 }
        requires number { seat.old.me.0.number ≡ number }
        requires condition { (log : List S.Entry)
            → MayFind S.number_of number seat.old.me.0.seen seat.old.me.0.known log
            → A.condition self.now.opening number log act.old }
        ensures own { (seat.new.table_id ≡ seat.old.table_id) × (seat.new.id ≡ seat.old.id) }
        ensures idle { IsIdle seat.new.me × IsSingle seat.new.me.0 }
        ensures same { (seat.new.me.0.number ≡ seat.old.me.0.number)
            × (seat.new.me.0.opening ≡ seat.old.me.0.opening)
            × (seat.new.me.0.known ≡ seat.old.me.0.known) }
        ensures turn { TakesTurn S.number_of number seat.old.me.0.seen seat.old.me.0.known
            (λ log log'. A.relation self.now.opening number log act.old act.new result.0 log')
            seat.new.me.0.seen }
        ensures count { result.1 ≡ length seat.new.me.0.seen }
    {
        self.enter(rt, seat);
        let held = self.board.shared.exchange(seat, 0, None);
        let Some(mut state) = held else {
            unreachable!()
        };
        let answer = act.act(number, &mut state);
        let count = self.leave(seat, state);
        (answer, count)
    }

    /// Waits for the pass's turn, and runs the act on the state. The state's list then is what the pass has seen.
    ///
    /// The act's condition has to hold of every list that the turn may find: each that begins with what the pass has
    /// seen, has no other entries under its number, and has at least as many as `newest` told the pass. Nothing says
    /// that the turn ever comes.
    pub fn with_turn<A: Act<S>, R: Wait>(
        &self,
        rt: &R,
        pass: &mut Pass<S>,
        act: &mut A,
    ) -> A::Answer
        requires belongs { Belongs pass.old self.now }
        requires condition { (log : List S.Entry)
            → MayFind S.number_of pass.old.number pass.old.seen pass.old.known log
            → A.condition self.now.opening pass.old.number log act.old }
        ensures same { HasOnlySeen pass.old pass.new }
        ensures belongs { Belongs pass.new self.now }
        ensures turn { TakesTurn S.number_of pass.old.number pass.old.seen pass.old.known
            (λ log log'. A.relation self.now.opening pass.old.number log
            act.old act.new result log')
            pass.new.seen }
    {
        let number = pass.number;
        let (answer, count) = self.run(rt, &mut pass.seat, number, act);
        pass.count = count;
        answer
    }

    /// A number of entries that the state's list has at least, read without a turn: no fewer than the pass has seen,
    /// and no fewer than it was told before. Each later turn of the pass finds at least so many.
    pub fn newest(&self, pass: &mut Pass<S>) -> u64
        requires belongs { Belongs pass.old self.now }
        ensures same { WasOnlyTold pass.old pass.new }
        ensures belongs { Belongs pass.new self.now }
        ensures seen { length pass.old.seen ≤ result }
        ensures before { pass.old.known ≤ result }
        ensures known { pass.new.known ≡ result }
    {
        self.board.shared.load::<Newest<S>>(&mut pass.seat, 2)
    }

    /// The state, where all passes are given. Its list begins with what each pass has seen, has under each pass's
    /// number just the entries that the pass has seen there, has no entry under another number, and has as many entries
    /// as `newest` told any of the passes.
    ///
    /// `StillOpen` exactly where fewer passes are given than the lock has. All of them come back with it.
    pub fn close(self, mut passes: Vec<Pass<S>>) -> Result<S, StillOpen<S>>
        requires belong { All (λ p. Belongs p self) passes.items }
        ensures open { IsErr result ↔ (vec_len passes < self.seats) }
        ensures opening { IfOk result (λ s. S.opening s ≡ self.opening) }
        ensures seen { IfOk result (λ s. HaveSeen S.number_of passes.items (S.list s)) }
        ensures others { IfOk result (λ s. IsAllOf S.number_of passes.items (S.list s)) }
        ensures known { IfOk result (λ s. WereTold passes.items (S.list s)) }
        ensures back { IfErr result (λ e. (e.turns ≡ self) × (e.passes.items ≡ passes.items)
            × (e.missing + vec_len passes ≡ self.seats)) }
    {
        let given = passes.len();
        if given < self.seats as usize {
            let missing = self.seats - given as u32;
            return Err(StillOpen {
                turns: self,
                passes,
                missing,
            });
        }
        let Turns { board, seats: _ } = self;
        let Some(last) = passes.pop() else {
            unreachable!()
        };
        let Pass {
            number: _,
            count: _,
            mut seat,
        } = last;
        gather(&board, &mut seat, passes);
        Ok(take_out(board, seat))
    }
}
