//! A call by its name.
ghost use Rattle.std.specs.Prelude.{◌≡◌};
ghost use Rattle.ex_faults.specs.declared.fault.Fault.TheVariants.{UnknownFunction};
ghost use Rattle.ex_prims.specs.declared.limits.Limits.{Limits};
ghost use Rattle.ex_prims.specs.Answers.{Refuses};
ghost use Rattle.ex_prims.specs.Bodies.{Charges, IsGiven, Settles};
ghost use Rattle.ex_prims.specs.Calls.{answered, called, IsCalled};

use crate::functions::{binary_named, unary_named};
use crate::limits::Limits;
use crate::refused::Refused;
use crate::rows::{Given, one, two};
use ex_faults::Fault;
use ex_terms::{Value, size_together};
use ex_word::Word;
use std::alloc::{AllocError, Global};

/// What a call gives.
#[derive(Drop)]
pub struct Called {
    /// The call's value.
    pub value: Value,
    /// What the call prints; empty for all calls but those of `IO`.
    pub printed: Word,
    /// The sizes of the arguments and of the value together, in steps.
    pub charge: u64,
}

/// Why a call gives no value.
#[derive(Drop)]
pub enum CallError {
    /// A fault of the cell.
    Faulted(Fault),
    /// Memory was refused.
    OutOfMemory,
}

impl From<AllocError> for CallError {
    ghost use Rattle.ex_prims.specs.declared.calls.CallError.TheVariants.{OutOfMemory};

    ghost from_gives = { λ _ e. e ≡ OutOfMemory };

    fn from(_: AllocError) -> CallError {
        CallError::OutOfMemory
    }
}

/// Calls the built-in call or operator of a name, where `left` steps are left and `room` bytes may still
/// be printed. The faults come in this order: that no call has this name and number of arguments, or the
/// call's own; that what it prints has more than `room` bytes; that its charge, the sizes of its
/// arguments and of its value together, is above `left`. Then nothing large was built before.
pub fn call(
    alloc: Global,
    name: &str,
    args: &[Value],
    left: u64,
    room: u64,
) -> Result<Called, CallError>
    ensures { IsCalled result (called name.now args.now left room) }
{
    let limits = Limits {
        operands: size_together(args),
        left,
        room,
    };
    let given = answer(alloc, name, args, &limits);
    settle(alloc, name, args, &limits, given)
}

/// What a name answers for its arguments.
fn answer(alloc: Global, name: &str, args: &[Value], limits: &Limits) -> Result<Given, Refused>
    ensures { IsGiven limits.now result (answered name.now args.now) }
{
    match args {
        [value] => match unary_named(name) {
            Some(function) => one(alloc, function, value, limits),
            None => unknown(alloc, name, 1),
        },
        [left, right] => match binary_named(name) {
            Some(function) => two(alloc, function, left, right, limits),
            None => unknown(alloc, name, 2),
        },
        _ => unknown(alloc, name, args.len() as u64),
    }
}

/// No call has this name and this number of arguments.
fn unknown(alloc: Global, name: &str, arity: u64) -> Result<Given, Refused>
    ensures { (limits : Limits) → IsGiven limits result (Refuses (UnknownFunction name.now arity)) }
{
    match Word::of(alloc, name) {
        Ok(name) => Err(Refused::Faulted(Fault::UnknownFunction { name, arity })),
        Err(_) => Err(Refused::OutOfMemory),
    }
}

/// An answer with its charge, or its fault.
fn settle(
    alloc: Global,
    name: &str,
    args: &[Value],
    limits: &Limits,
    given: Result<Given, Refused>,
) -> Result<Called, CallError>
    ensures { Settles name.now args.now limits.now given result }
{
    match given {
        Ok(Given::Quiet(value)) => {
            let printed = Word::of(alloc, "")?;
            charge(limits, value, printed)
        }
        Ok(Given::Printed(printed, value)) => charge(limits, value, printed),
        Err(Refused::Wrong) => {
            let name = Word::of(alloc, name)?;
            let arity = args.len() as u64;
            Err(CallError::Faulted(Fault::BadArgument { name, arity }))
        }
        Err(Refused::Faulted(fault)) => Err(CallError::Faulted(fault)),
        Err(Refused::TooManySteps) => Err(CallError::Faulted(Fault::TooManySteps)),
        Err(Refused::TooMuchOutput) => Err(CallError::Faulted(Fault::TooMuchOutput)),
        Err(Refused::OutOfMemory) => Err(CallError::OutOfMemory),
    }
}

/// A value with its charge, unless that is above the steps left.
fn charge(limits: &Limits, value: Value, printed: Word) -> Result<Called, CallError>
    ensures { Charges limits.now value printed result }
{
    let left = limits.left;
    match limits.operands.checked_add(value.size()) {
        Some(charge) => {
            if charge <= left {
                Ok(Called {
                    value,
                    printed,
                    charge,
                })
            } else {
                Err(CallError::Faulted(Fault::TooManySteps))
            }
        }
        None => Err(CallError::Faulted(Fault::TooManySteps)),
    }
}
