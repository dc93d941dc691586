//! The messages that the server hasn't taken yet.
ghost use Rattle.std.specs.Prelude.{◌≡◌, ◌∷◌, [], ◌++◌, length, slice_get, MatchOption, OnOk, OnErr};
ghost use Rattle.std.specs.Option.{option_copied};

use session_ops::Op;
use std::alloc::{AllocError, Global};
use std::collections::VecDeque;
use std::marker::Model;

/// A queue of messages. Contracts see it as their list.
#[derive(Drop)]
pub(crate) struct Outbox {
    ops: VecDeque<Op>,
}

impl Model for Outbox {
    ghost use Rattle.std.specs.Prelude.{List};
    ghost use Rattle.session_ops.specs.declared.entry.Op.{Op};

    ghost Value = { List Op };

    ghost view = { λ o. o.ops.items };
}

impl Outbox {
    /// No message. Takes no memory.
    pub(crate) fn new(alloc: Global) -> Outbox
        ensures { result ≡ [] }
    {
        Outbox {
            ops: VecDeque::new(alloc),
        }
    }

    /// Puts a message at the end. After want of memory nothing is changed.
    pub(crate) fn push(&mut self, op: Op) -> Result<(), AllocError>
        ensures ok { OnOk result (self.new ≡ self.old ++ op ∷ []) }
        ensures err { OnErr result (self.new ≡ self.old) }
    {
        self.ops.push_back(op)?;
        Ok(())
    }

    /// The message at the front.
    pub(crate) fn front(&self) -> Option<&Op>
        ensures { option_copied result ≡ slice_get self.now 0 }
    {
        self.ops.front()
    }

    /// How many messages there are.
    pub(crate) fn len(&self) -> usize
        ensures { result ≡ length self.now }
    {
        self.ops.len()
    }

    /// Takes the message at the front out.
    pub(crate) fn take_front(&mut self) -> Option<Op>
        ensures { MatchOption result ((self.old ≡ []) × (self.new ≡ []))
            (λ op. self.old ≡ op ∷ self.new) }
    {
        self.ops.pop_front()
    }

    /// Takes the message at the end out again.
    pub(crate) fn take_last(&mut self) -> Option<Op>
        ensures { MatchOption result ((self.old ≡ []) × (self.new ≡ []))
            (λ op. self.old ≡ self.new ++ op ∷ []) }
    {
        self.ops.pop_back()
    }
}
