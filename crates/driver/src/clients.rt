//! The clients in memory, in the order of their joining.
ghost use Rattle.std.specs.Prelude.{◌≡◌, List};
ghost use Rattle.notebook.specs.declared.parts.Parts.{Parts};
ghost use Rattle.client_sync.specs.Client.{Client as Holder};
ghost use Rattle.driver.specs.Player.{all_sent};
ghost use Rattle.driver.specs.Clients.{AreMirrors, TakesOut, Delivers, DeliversNext, DeliversAll};

use client_sync::Client;
use session_ops::Entry;
use std::alloc::AllocError;
use world::place_of;

/// Takes the number's client out, if it holds one.
pub(crate) fn remove(clients: &mut Vec<Client>, number: u32)
    ensures { TakesOut number clients.old.items clients.new.items }
{
    match place_of(clients, number) {
        None => {}
        Some(at) => {
            clients.remove(at);
        }
    }
}

/// Whether every outbox is empty.
pub(crate) fn all_sent(clients: &[Client]) -> bool
    ensures { (n0 : Parts) (cs : List Holder) → AreMirrors n0 clients.now cs
        → result ≡ all_sent cs }
{
    for client in clients {
        if client.outbox_len() != 0 {
            return false;
        }
    }
    true
}

/// Lets each client receive all entries past its cursor.
pub(crate) fn deliver_all(history: &[Entry], clients: &mut [Client]) -> Result<(), AllocError>
    ensures { DeliversAll result history.now clients.old clients.new }
{
    for at in 0..clients.len() {
        deliver(history, &mut clients[at], history.len() as u64)?;
    }
    Ok(())
}

/// Lets a client receive so many of the entries past its cursor, or all where there are fewer.
pub(crate) fn deliver(history: &[Entry], client: &mut Client, many: u64) -> Result<(), AllocError>
    ensures { Delivers result many history.now client.old client.new }
{
    for _ in 0..many {
        if !deliver_next(history, client)? {
            return Ok(());
        }
    }
    Ok(())
}

/// Lets a client receive the next entry past its cursor, and tells whether there was one.
fn deliver_next(history: &[Entry], client: &mut Client) -> Result<bool, AllocError>
    ensures { DeliversNext result history.now client.old client.new }
{
    match history.get(client.cursor() as usize) {
        None => Ok(false),
        Some(entry) => {
            client.receive(entry)?;
            Ok(true)
        }
    }
}
