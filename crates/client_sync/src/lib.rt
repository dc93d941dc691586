//! A client: how far it has received the history, and what of its own isn't confirmed yet.
//!
//! What the layers above may rely on: the definitions in `specs/Client.antt` say what a client
//! holds, what an edit makes of it, and what each received entry does. A `Client` in memory stands
//! for one of these (`Mirrors` in `specs/Stands.antt`), and each of its calls says for which one it
//! stands then. After an edit or a message that was refused it is as it was.
#![tactic(auto)]

mod changes;
mod client;
mod edit_error;
mod outbox;
mod pending;
mod post_error;
mod revs;

pub use client::Client;
pub use edit_error::EditError;
pub use pending::{PendingEdits, Unconfirmed};
pub use post_error::PostError;
