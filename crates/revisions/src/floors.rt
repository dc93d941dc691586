//! The floors of the clients that have joined.
ghost use Rattle.std.specs.Prelude.{◌≡◌, ◌≤◌, ◌<◌, ◌++◌, ◌∷◌, [], map, filter, OnOk, OnErr, IfOk};
ghost use Rattle.std.specs.Vec.{vec_len, vec_capacity};
ghost use Rattle.revisions.specs.Floors.{lowest, raised_one, raised, is_of_other, without, with_client, has_floor, at_zero};

use std::alloc::{AllocError, Global};
use std::marker::Model;

/// A client that has joined, and the greatest revision that it is known to have.
#[derive(Clone, Copy, Debug, Drop)]
pub(crate) struct Floor {
    pub(crate) client: u32,
    pub(crate) rev: u64,
}

/// The floors of those who have joined. Contracts see their list.
#[derive(Drop)]
pub(crate) struct Floors {
    floors: Vec<Floor>,
}

impl Model for Floors {
    ghost use Rattle.std.specs.Prelude.{List};
    ghost use Rattle.revisions.specs.declared.floors.Floor.{Floor};

    ghost Value = { List Floor };

    ghost view = { λ f. f.floors.items };
}

impl Floors {
    /// Floors of 0.
    pub(crate) fn at_zero(alloc: Global, clients: &[u32]) -> Result<Floors, AllocError>
        ensures { IfOk result (λ floors. floors ≡ at_zero clients.now) }
    {
        let floors = floors_at_zero(alloc, clients)?;
        Ok(Floors { floors })
    }

    /// The least of a revision and the floors.
    pub(crate) fn lowest(&self, rev: u64) -> u64
        ensures { result ≡ lowest rev self.now }
    {
        lowest(rev, self.floors.as_slice())
    }

    /// Whether the client has a floor.
    pub(crate) fn has(&self, client: u32) -> bool
        ensures { result ≡ has_floor client self.now }
    {
        has_floor(self.floors.as_slice(), client)
    }

    /// The client's floor is at least `rev`; the others stay.
    pub(crate) fn raise(&mut self, client: u32, rev: u64)
        ensures { self.new ≡ raised client rev self.old }
    {
        raise(self.floors.as_mut_slice(), client, rev);
    }

    /// The client's floor is `rev`, and it has no other; those of the others stay. After want of memory
    /// nothing is changed.
    pub(crate) fn put(&mut self, client: u32, rev: u64) -> Result<(), AllocError>
        ensures ok { OnOk result (self.new ≡ with_client client rev self.old) }
        ensures err { OnErr result (self.new ≡ self.old) }
    {
        self.floors.try_reserve(1)?;
        remove_floor(&mut self.floors, client);
        self.floors.push_reserved(Floor { client, rev });
        Ok(())
    }

    /// Takes the client's floor away.
    pub(crate) fn remove(&mut self, client: u32)
        ensures { self.new ≡ without client self.old }
    {
        remove_floor(&mut self.floors, client);
    }
}

fn floors_at_zero(alloc: Global, clients: &[u32]) -> Result<Vec<Floor>, AllocError>
    ensures { IfOk result (λ floors. floors.items ≡ at_zero clients.now) }
{
    let mut floors = Vec::new(alloc);
    for client in clients {
        floors.push(Floor {
            client: *client,
            rev: 0,
        })?;
    }
    Ok(floors)
}

fn lowest(rev: u64, floors: &[Floor]) -> u64
    ensures { result ≡ lowest rev floors.now }
{
    let mut least = rev;
    for floor in floors {
        least = least.min(floor.rev);
    }
    least
}

fn has_floor(floors: &[Floor], client: u32) -> bool
    ensures { result ≡ has_floor client floors.now }
{
    for floor in floors {
        if floor.client == client {
            return true;
        }
    }
    false
}

/// The floor, at least `rev` where it is the client's.
fn raised_one(floor: &Floor, client: u32, rev: u64) -> Floor
    ensures { result ≡ raised_one client rev floor.now }
{
    Floor {
        client: floor.client,
        rev: if floor.client == client {
            floor.rev.max(rev)
        } else {
            floor.rev
        },
    }
}

fn raise(floors: &mut [Floor], client: u32, rev: u64)
    ensures { floors.new ≡ raised client rev floors.old }
{
    for floor in floors.iter_mut() {
        *floor = raised_one(floor, client, rev);
    }
}

fn remove_floor(floors: &mut Vec<Floor>, client: u32)
    ensures items { floors.new.items ≡ filter (is_of_other client) floors.old.items }
    ensures len { vec_len floors.new ≤ vec_len floors.old }
    ensures room { vec_capacity floors.new ≡ vec_capacity floors.old }
{
    floors.retain(|floor| floor.client != client);
}
