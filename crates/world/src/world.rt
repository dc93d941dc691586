//! A session and its clients in memory, and what each event does to them.
ghost use Rattle.std.specs.Prelude.{◌≡◌, ◌<◌, length, map, IfOk, IfSome, OnOk};
ghost use Rattle.std.specs.Option.{option_copied};
ghost use Rattle.session_ops.specs.declared.entry.Call.TheVariants.{Client as ByClient};
ghost use Rattle.session_ops.specs.declared.entry.Entry.{Entry};
ghost use Rattle.client_sync.specs.Stands.{IsPostable, number_in};
ghost use Rattle.world.specs.World.{World as Course, first_world, called, once_gone, run, with_joined};
ghost use Rattle.world.specs.Sound.{IsApart};
ghost use Rattle.world.specs.Plays.{Plays, EditsOwn, GoesOn, GoesOnSound, Holds, IsRun, PlacesAmong, ReceivesNext, ReportsOwn, place_in, with_newest};
ghost use Rattle.world.specs.declared.event.Event.TheVariants.{Join, Leave, Edit, Post, Report, Take, Receive, RawJoin, Raw};

use crate::event::Event;
use client_sync::{Client, EditError, PostError};
use delta::Delta;
use notebook::{CellId, Notebook};
use session_core::Session;
use session_ops::{Entry, Op, Reply};
use std::alloc::{AllocError, Global};

/// A session, and the clients in the order of their joining.
#[derive(Drop)]
pub struct World {
    session: Session,
    clients: Vec<Client>,
}

/// What a list of events, one after the other, makes of a session that opens with a notebook. An event
/// that can't happen changes nothing: a client's where the number holds no client, a raw call where it
/// holds one, a take from an empty outbox, a receipt past the history's end.
pub fn run(alloc: Global, book: Notebook, events: Vec<Event>) -> Result<World, AllocError>
    ensures { IfOk result (IsRun book events.items (run book events.items)) }
{
    let mut world = World::open(alloc, book)?;
    for event in &events {
        world.happen(alloc, event)?;
    }
    Ok(world)
}

impl World {
    /// The session. Takes no memory.
    pub fn session(&self) -> &Session
        ensures { result.now ≡ self.now.session }
    {
        &self.session
    }

    /// The client of a number; `None` exactly where the number holds no client. Takes no memory.
    pub fn client(&self, number: u32) -> Option<&Client>
        ensures { Holds number self.now (option_copied result) }
    {
        match place_of(&self.clients, number) {
            None => None,
            Some(place) => Some(&self.clients[place]),
        }
    }

    /// A session without clients.
    fn open(alloc: Global, book: Notebook) -> Result<World, AllocError>
        ensures { IfOk result (Plays (first_world book)) }
    {
        let session = Session::new(alloc, book)?;
        Ok(World {
            session,
            clients: Vec::new(alloc),
        })
    }

    /// Lets an event happen. Nothing is said of the world after want of memory.
    fn happen(&mut self, alloc: Global, event: &Event) -> Result<(), AllocError>
        ensures { GoesOnSound result event.now self.old self.new }
    {
        match event {
            Event::Join { client } => self.join(alloc, *client),
            Event::Leave { client } => self.leave(*client),
            Event::Edit {
                client,
                cell,
                delta,
            } => self.edit(*client, *cell, delta),
            Event::Post { client, op } => self.post(alloc, *client, op),
            Event::Report { client, cell } => self.report(*client, *cell),
            Event::Take { client } => self.take(*client),
            Event::Receive { client } => self.receive(*client),
            Event::RawJoin { client } => self.call(*client, Op::Join),
            Event::Raw { client, op } => self.call_raw(alloc, *client, op),
        }
    }

    /// A number makes a call.
    fn call(&mut self, number: u32, op: Op) -> Result<(), AllocError>
        ensures { (w : Course) → Plays w self.old
            → OnOk result (Plays (called w (ByClient number op)) self.new) }
    {
        self.session.apply(0, number, op)?;
        Ok(())
    }

    /// A number that holds no client makes a call.
    fn call_raw(&mut self, alloc: Global, number: u32, op: &Op) -> Result<(), AllocError>
        ensures { GoesOn result (Raw number op.now) self.old self.new }
    {
        match place_of(&self.clients, number) {
            Some(_) => Ok(()),
            None => {
                let op = op.copy(alloc)?;
                self.call(number, op)
            }
        }
    }

    /// A number asks to join.
    fn join(&mut self, alloc: Global, number: u32) -> Result<(), AllocError>
        ensures { GoesOn result (Join number) self.old self.new }
    {
        let reply = self.session.apply(0, number, Op::Join)?;
        self.admit(alloc, number, &reply)
    }

    /// A number whose joining was accepted holds a client from then on.
    fn admit(&mut self, alloc: Global, number: u32, reply: &Reply) -> Result<(), AllocError>
        ensures { (w : Course) → Plays w self.old
            → OnOk result (Plays (with_joined w number reply.now) self.new) }
    {
        match reply {
            Reply::Accepted => self.add(alloc, number),
            _ => Ok(()),
        }
    }

    /// A new client that has received all.
    fn add(&mut self, alloc: Global, number: u32) -> Result<(), AllocError>
        ensures { (w : Course) → Plays w self.old
            → OnOk result (Plays (with_newest number w) self.new) }
    {
        let snapshot = self.session.snapshot()?;
        let client = Client::join(alloc, number, snapshot)?;
        self.clients.push(client)?;
        Ok(())
    }

    /// A number leaves, and its client is gone with its outbox.
    fn leave(&mut self, number: u32) -> Result<(), AllocError>
        ensures { GoesOnSound result (Leave number) self.old self.new }
    {
        self.call(number, Op::Leave)?;
        self.dismiss(number);
        Ok(())
    }

    /// The number's client is gone.
    fn dismiss(&mut self, number: u32)
        ensures { (w : Course) → IsApart w → Plays w self.old
            → Plays (once_gone number w) self.new }
    {
        match place_of(&self.clients, number) {
            None => {}
            Some(place) => {
                self.clients.remove(place);
            }
        }
    }

    /// A number's client edits its own text of a cell.
    fn edit(&mut self, number: u32, cell: CellId, delta: &Delta) -> Result<(), AllocError>
        ensures { GoesOnSound result (Edit number cell delta.now) self.old self.new }
    {
        match place_of(&self.clients, number) {
            None => Ok(()),
            Some(place) => edit_own(&mut self.clients[place], cell, delta),
        }
    }

    /// A number's client posts a message, but for those that can't be posted.
    fn post(&mut self, alloc: Global, number: u32, op: &Op) -> Result<(), AllocError>
        ensures { GoesOnSound result (Post number op.now) self.old self.new }
    {
        if op.is_postable() {
            self.post_message(alloc, number, op)
        } else {
            Ok(())
        }
    }

    /// A number's client posts a message.
    fn post_message(&mut self, alloc: Global, number: u32, op: &Op) -> Result<(), AllocError>
        requires { IsPostable op.now }
        ensures { GoesOnSound result (Post number op.now) self.old self.new }
    {
        match place_of(&self.clients, number) {
            None => Ok(()),
            Some(place) => {
                let op = op.copy(alloc)?;
                self.clients[place].post(op)
            }
        }
    }

    /// A number's client reports its revision of a cell.
    fn report(&mut self, number: u32, cell: CellId) -> Result<(), AllocError>
        ensures { GoesOnSound result (Report number cell) self.old self.new }
    {
        match place_of(&self.clients, number) {
            None => Ok(()),
            Some(place) => report_own(&mut self.clients[place], cell),
        }
    }

    /// The session answers the message at the front of a client's outbox.
    fn take(&mut self, number: u32) -> Result<(), AllocError>
        ensures { GoesOnSound result (Take number) self.old self.new }
    {
        match place_of(&self.clients, number) {
            None => Ok(()),
            Some(place) => match self.clients[place].take_front() {
                None => Ok(()),
                Some(op) => {
                    self.session.apply(0, number, op)?;
                    Ok(())
                }
            },
        }
    }

    /// A number's client receives the next entry of the history.
    fn receive(&mut self, number: u32) -> Result<(), AllocError>
        ensures { GoesOnSound result (Receive number) self.old self.new }
    {
        match place_of(&self.clients, number) {
            None => Ok(()),
            Some(place) => receive_next(&mut self.clients[place], self.session.history()),
        }
    }
}

/// The place of the client of a number among some clients; `None` exactly where the number holds none.
/// Takes no memory.
pub fn place_of(clients: &[Client], number: u32) -> Option<usize>
    ensures first { result ≡ place_in number (map number_in clients.now) }
    ensures place { PlacesAmong clients.now number result }
    ensures within { IfSome result (λ place. place < length clients.now) }
{
    for (place, client) in clients.iter().enumerate() {
        if client.number() == number {
            return Some(place);
        }
    }
    None
}

/// A client edits its own text of a cell; a refused edit leaves it as it was.
fn edit_own(client: &mut Client, cell: CellId, delta: &Delta) -> Result<(), AllocError>
    ensures { EditsOwn result cell delta.now client.old client.new }
{
    match client.edit(cell, delta) {
        Err(EditError::OutOfMemory) => Err(AllocError),
        _ => Ok(()),
    }
}

/// A client reports its revision of a cell; where it has no such cell it stays as it was.
fn report_own(client: &mut Client, cell: CellId) -> Result<(), AllocError>
    ensures { ReportsOwn result cell client.old client.new }
{
    match client.post_report(cell) {
        Err(PostError::OutOfMemory) => Err(AllocError),
        _ => Ok(()),
    }
}

/// A client receives the history's entry at its cursor, if there is one.
fn receive_next(client: &mut Client, history: &[Entry]) -> Result<(), AllocError>
    ensures { ReceivesNext result history.now client.old client.new }
{
    match history.get(client.cursor() as usize) {
        None => Ok(()),
        Some(entry) => client.receive(entry),
    }
}
