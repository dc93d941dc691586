// What an evaluation shows and what it makes.
ghost use Rattle.std.specs.Prelude.{◌≡◌, IfOk};

use crate::{Bindings, Fault};
use ex_value::{Value, Word};
use std::alloc::AllocError;

/// How an evaluation ended.
#[derive(Debug, Drop)]
pub enum Outcome {
    /// The value of the last expression.
    Value(Value),
    /// Why there is no value.
    Fault(Fault),
}

impl Outcome {
    /// An equal outcome.
    pub fn copy(&self) -> Result<Outcome, AllocError>
        ensures { IfOk result (λ o. o ≡ self.now) }
    {
        match self {
            Outcome::Value(value) => Ok(Outcome::Value(value.copy()?)),
            Outcome::Fault(fault) => Ok(Outcome::Fault(fault.copy()?)),
        }
    }
}

/// What an evaluation shows: the text that it printed, how it ended, and the steps that it took.
#[derive(Debug, Drop)]
pub struct Shown {
    pub printed: Word,
    pub outcome: Outcome,
    pub steps: u64,
}

impl Shown {
    /// An equal value.
    pub fn copy(&self) -> Result<Shown, AllocError>
        ensures { IfOk result (λ s. s ≡ self.now) }
    {
        Ok(Shown {
            printed: self.printed.copy()?,
            outcome: self.outcome.copy()?,
            steps: self.steps,
        })
    }
}

/// What an evaluation shows, and the bindings that it made: none after a fault.
#[derive(Debug, Drop)]
pub struct Ran {
    pub shown: Shown,
    pub made: Bindings,
}
