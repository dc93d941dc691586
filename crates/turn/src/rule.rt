//! The rule of the lock's table, and its steps. Word 0 is the next ticket, word 1 the ticket that is served, word 2 the
//! length of the history. The slot has the state, or nothing while a caller has it in its hands.
ghost use Rattle.std.specs.Prelude.{◌≡◌};

use crate::kept::Kept;
use atomic_table::{Join, Play, Seat, Split, Table, TableRule};
use std::alloc::Global;
use std::collections::LinkedList;
use std::marker::PhantomData;
use std::snapshot::Snapshot;

/// What a seat knows. No value of it is made.
pub struct View<O, E> {
    /// None for a seat that was joined into another.
    pub opening: Option<O>,
    pub number: u64,
    /// The history as far as the seat has seen it.
    pub seen: LinkedList<E>,
    /// How many entries the seat was told that the history has at least.
    pub known: u64,
    /// What the seat had seen before others were joined into it.
    pub alone: LinkedList<E>,
    /// The drawn ticket, counted without end.
    pub ticket: Option<u64>,
    /// Whether the turn is the seat's own.
    pub turn: bool,
    /// The seats that were joined into this one.
    pub ended: LinkedList<Ended<E>>,
    /// How many seats there are, for the one that makes the next, and 0 for the others.
    pub made: u64,
}

/// A seat that was joined into another: its number, and what it had seen, with its entries.
pub struct Ended<E> {
    pub number: u64,
    pub seen: LinkedList<E>,
}

/// What the table is told when it is made.
#[derive(Drop)]
pub struct Start<S> {
    pub state: Snapshot<S>,
    pub seats: u32,
}

pub struct Rule<S> {
    kept: PhantomData<S>,
}

impl<S: Kept> TableRule<Option<S>, View<S::Opening, S::Entry>, Start<S>> for Rule<S> {
    ghost use Rattle.turn.specs.TurnRule.{TurnRule, first_view};

    ghost holds = { λ k. TurnRule S.list S.opening S.number_of (S.opening k.state.value) k.seats };

    ghost first = { λ k. first_view (S.opening k.state.value) };
}

pub type Board<S> = Table<
    Option<S>,
    View<<S as Kept>::Opening, <S as Kept>::Entry>,
    Start<S>,
    Rule<S>,
    Global,
>;

pub type Place<S> = Seat<Option<S>, View<<S as Kept>::Opening, <S as Kept>::Entry>>;

/// Draws the next ticket.
pub struct Draw<S> {
    kept: PhantomData<S>,
}

impl<S: Kept> Play<Option<S>, View<S::Opening, S::Entry>> for Draw<S> {
    ghost use Rattle.turn.specs.TurnRule.{Drew};

    ghost then = { Drew S.list S.opening S.number_of };
}

/// Looks which ticket is served. Where it is the seat's own, the seat holds the slot.
pub struct Look<S> {
    kept: PhantomData<S>,
}

impl<S: Kept> Play<Option<S>, View<S::Opening, S::Entry>> for Look<S> {
    ghost use Rattle.turn.specs.TurnRule.{Looked};

    ghost then = { Looked S.list S.opening S.number_of };
}

/// Publishes the length of the list that is in the slot.
pub struct Publish<S> {
    kept: PhantomData<S>,
}

impl<S: Kept> Play<Option<S>, View<S::Opening, S::Entry>> for Publish<S> {
    ghost use Rattle.turn.specs.TurnRule.{Published};

    ghost then = { Published S.list S.opening S.number_of };
}

/// Lets the slot go, and serves the next ticket.
pub struct Serve<S> {
    kept: PhantomData<S>,
}

impl<S: Kept> Play<Option<S>, View<S::Opening, S::Entry>> for Serve<S> {
    ghost use Rattle.turn.specs.TurnRule.{Served};

    ghost then = { Served S.list S.opening S.number_of };
}

/// Reads the length of the history.
pub struct Newest<S> {
    kept: PhantomData<S>,
}

impl<S: Kept> Play<Option<S>, View<S::Opening, S::Entry>> for Newest<S> {
    ghost use Rattle.turn.specs.TurnRule.{Told};

    ghost then = { Told S.list S.opening S.number_of };
}

/// Makes a new seat.
pub struct NewSeat;

impl<O, E> Split<View<O, E>> for NewSeat {
    ghost use Rattle.turn.specs.TurnRule.{hands_on, new_seat};

    ghost left = { hands_on };

    ghost right = { new_seat };
}

/// Joins one seat into another.
pub struct Gather;

impl<O, E> Join<View<O, E>> for Gather {
    ghost use Rattle.turn.specs.TurnRule.{joined, spent_view};

    ghost both = { joined };

    ghost spent = { spent_view };
}
