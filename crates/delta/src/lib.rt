//! Deltas: edits of a text, as steps over its UTF-16 units.
//!
//! A delta is a list of steps, each of which retains, inserts or deletes, as in Livebook's text
//! deltas; lengths count UTF-16 units. It is kept in one canonical form: no step does nothing, no two
//! neighbours are of one kind, no insert stands directly after a delete, and no retain at the end.
//!
//! The layer above may rely on this: a contract sees a [`Delta`] as its list of steps, and what it
//! does to a text is `text_after` of this list and the text. [`Delta::apply`] says exactly when a
//! delta does not fit a text.
#![tactic(auto)]

ghost use Rattle.std.specs.Prelude.{◌≡◌, ◌+◌, ◌^◌, ◌<◌, ◌≤◌, ◌==◌, ◌++◌, [], length, None, Some, MatchResult, IfOk, IfErr};
ghost use Rattle.std.specs.Str.{chars};
ghost use Rattle.utf16_text.specs.Units.{units, unit_count, CutsInto};
ghost use Rattle.delta.specs.Canonical.{is_proper, may_follow, may_end, is_retain, keeps_rules, bad_step, IsCanonical};
ghost use Rattle.delta.specs.Steps.{passed, put_in, reach_of, inserted_by};
ghost use Rattle.delta.specs.Walk.{StepsOver, IsStepCause, IsSplitAt};
ghost use Rattle.delta.specs.Apply.{IsApplyCause, IsApplied};

mod composing;
mod front;
mod moves;
mod packer;
mod transforming;

pub use moves::{Side, compose, have_room, transform};
use std::alloc::{AllocError, Global};
use std::marker::Model;
use thiserror::Error;
use utf16_text::{Text, split_units};

/// One step of a delta, from the present place of the old text on. Lengths count UTF-16 units.
#[derive(Debug, Drop)]
pub enum Step {
    /// Keeps as many old units.
    Retain(u64),
    /// Puts a text in at the present place.
    Insert(Text),
    /// Takes as many old units away.
    Delete(u64),
}

/// An edit of a text: steps in canonical form. What stands after the last step stays as it is.
#[derive(Debug, Drop)]
pub struct Delta {
    steps: Vec<Step>,
    reach: u64,
    inserted: u64,
}

impl Model for Delta {
    ghost use Rattle.std.specs.Prelude.{List, ◌≡◌};
    ghost use Rattle.delta.specs.Steps.{reach_of, inserted_by};
    ghost use Rattle.delta.specs.Canonical.{IsCanonical};
    ghost use Rattle.delta.specs.declared.Step.{Step};

    ghost Value = { List Step };

    ghost view = { λ d. d.steps.items };

    ghost invariant = { λ d. (d.reach ≡ reach_of d.steps.items) × (d.inserted ≡ inserted_by d.steps.items) × IsCanonical d.steps.items };
}

/// Why a delta was not applied to a text.
#[derive(Clone, Copy, Debug, PartialEq, Eq, Error)]
pub enum ApplyError {
    /// The delta reaches past the text, which has `len` units: `[5,"x"]` on `ab`.
    #[error("the text has {len} units")]
    PastEnd { len: u64 },
    /// The delta has a cut between the two units of one character, first at the old place `at`:
    /// `[1,"x"]` on an emoji.
    #[error("place {at} is inside a surrogate pair")]
    SplitsPair { at: u64 },
    /// There was no memory for the new text.
    #[error("out of memory")]
    OutOfMemory,
}

/// A list of steps that is no delta: `at` is the index of the first step that breaks a rule, by
/// itself or with the step before it. `[1,-2,"x"]` breaks one at 2, and `[3]` at 0.
#[derive(Clone, Copy, Debug, PartialEq, Eq, Error)]
#[error("step {at} breaks a rule")]
pub struct BadDelta {
    pub at: u64,
}

/// The most old units that a delta may reach over, and the most units that it may put in.
const LIMIT: u64 = 1 << 62;

impl Step {
    /// An equal step.
    pub fn copy(&self) -> Result<Step, AllocError>
        ensures { IfOk result (λ s. s ≡ self.now) }
    {
        Ok(match self {
            Step::Retain(n) => Step::Retain(*n),
            Step::Insert(text) => Step::Insert(text.copy()?),
            Step::Delete(n) => Step::Delete(*n),
        })
    }
}

impl Delta {
    /// The delta of steps that are canonical. It takes no memory.
    ///
    /// It answers `BadDelta` exactly where they are not: a step is zero or an empty text, stands
    /// directly after one of its kind, is an insert directly after a delete or a retain at the end,
    /// or brings the reach or the number of inserted units above 2^62.
    pub fn from_compact(steps: Vec<Step>) -> Result<Delta, BadDelta>
        ensures { MatchResult result
            (λ delta. (delta ≡ steps.items) × IsCanonical delta)
            (λ bad. bad_step steps.items ≡ Some bad.at) }
    {
        let mut reach: u64 = 0;
        let mut inserted: u64 = 0;
        for (i, step) in steps.iter().enumerate() {
            let last = i + 1 == steps.len();
            if !keeps_rules(&steps[..i], step, last, reach, inserted) {
                return Err(BadDelta { at: i as u64 });
            }
            reach += passed(step);
            inserted += put_in(step);
        }
        Ok(Delta {
            steps,
            reach,
            inserted,
        })
    }

    /// The steps. It takes no memory.
    pub fn to_compact(&self) -> &[Step]
        ensures steps { result.now ≡ self.now }
        ensures canonical { IsCanonical self.now }
    {
        self.steps.as_slice()
    }

    /// How many old units the delta reaches over: a text must have as many. It takes no memory.
    pub fn reach(&self) -> u64
        ensures sum { result ≡ reach_of self.now }
        ensures limit { result ≤ 2 ^ 62 }
    {
        self.reach
    }

    /// How many units the delta puts in. It takes no memory.
    pub fn inserted(&self) -> u64
        ensures sum { result ≡ inserted_by self.now }
        ensures limit { result ≤ 2 ^ 62 }
    {
        self.inserted
    }

    /// Whether the delta has no step, and so does nothing. It takes no memory.
    pub fn is_empty(&self) -> bool
        ensures { result ≡ (length self.now == 0) }
    {
        self.steps.is_empty()
    }

    /// An equal delta.
    pub fn copy(&self, alloc: Global) -> Result<Delta, AllocError>
        ensures { IfOk result (λ d. d ≡ self.now) }
    {
        let mut steps = Vec::new(alloc);
        for step in &self.steps {
            steps.push(step.copy()?)?;
        }
        Ok(Delta {
            steps,
            reach: self.reach,
            inserted: self.inserted,
        })
    }

    /// The text that the delta makes of a text.
    ///
    /// It answers `PastEnd` exactly where the reach is above the text's length, and else `SplitsPair`
    /// exactly where a cut, the old place after a step, stands between the two units of one character.
    pub fn apply(&self, alloc: Global, text: &Text) -> Result<Text, ApplyError>
        ensures { MatchResult result
            (IsApplied self.now text.now)
            (IsApplyCause self.now text.now) }
    {
        let len = text.unit_len();
        if len < self.reach {
            return Err(ApplyError::PastEnd { len });
        }
        let mut rest = text.as_str();
        let mut made = with_room(alloc, room_for(&self.steps, rest.len()))?;
        let mut at: u64 = 0;
        for step in &self.steps {
            match take_step(step, at, &mut made, rest) {
                Ok(after) => rest = after,
                Err(error) => return Err(error),
            }
            at += passed(step);
        }
        match made.push_counted(rest, len - at) {
            Ok(()) => Ok(made),
            Err(_) => Err(ApplyError::OutOfMemory),
        }
    }
}

/// The bytes that steps may make of a text of so many, each deleted unit taken for one byte.
fn room_for(steps: &[Step], bytes: usize) -> usize {
    let mut room = bytes;
    for step in steps {
        match step {
            Step::Retain(_) => {}
            Step::Insert(text) => room = room.saturating_add(text.as_str().len()),
            Step::Delete(n) => room = room.saturating_sub(*n as usize),
        }
    }
    room
}

/// The empty text with room for so many bytes.
fn with_room(alloc: Global, bytes: usize) -> Result<Text, ApplyError>
    ensures { MatchResult result (λ made. made ≡ []) (λ e. e ≡ ApplyError.OutOfMemory) }
{
    match Text::with_room(alloc, bytes) {
        Ok(made) => Ok(made),
        Err(_) => Err(ApplyError::OutOfMemory),
    }
}

/// How many old units a step passes.
fn passed(step: &Step) -> u64
    ensures { result ≡ passed step.now }
{
    match step {
        Step::Retain(n) | Step::Delete(n) => *n,
        Step::Insert(_) => 0,
    }
}

/// How many units a step puts in.
fn put_in(step: &Step) -> u64
    ensures { result ≡ put_in step.now }
{
    match step {
        Step::Retain(_) | Step::Delete(_) => 0,
        Step::Insert(text) => text.unit_len(),
    }
}

/// Whether a step does something.
fn is_proper(step: &Step) -> bool
    ensures { result ≡ is_proper step.now }
{
    match step {
        Step::Retain(n) | Step::Delete(n) => *n >= 1,
        Step::Insert(text) => !text.is_empty(),
    }
}

/// Whether a step may stand directly after another one.
fn may_follow(before: &Step, step: &Step) -> bool
    ensures { result ≡ may_follow before.now step.now }
{
    match (before, step) {
        (Step::Retain(_), Step::Retain(_)) => false,
        (Step::Insert(_), Step::Insert(_)) => false,
        (Step::Delete(_), Step::Insert(_) | Step::Delete(_)) => false,
        _ => true,
    }
}

/// Whether a step may stand after these.
fn may_end(before: &[Step], step: &Step) -> bool
    ensures { result ≡ may_end before.now step.now }
{
    match before.last() {
        None => true,
        Some(last) => may_follow(last, step),
    }
}

fn is_retain(step: &Step) -> bool
    ensures { result ≡ is_retain step.now }
{
    matches!(step, Step::Retain(_))
}

/// Whether a step keeps the rules after those before it, whose sums are given.
fn keeps_rules(before: &[Step], step: &Step, last: bool, reach: u64, inserted: u64) -> bool
    requires reached { reach ≡ reach_of before.now }
    requires put { inserted ≡ inserted_by before.now }
    requires reach_small { reach ≤ 2 ^ 62 }
    requires inserted_small { inserted ≤ 2 ^ 62 }
    ensures { result ≡ keeps_rules before.now step.now last }
{
    is_proper(step)
        && may_end(before, step)
        && !(is_retain(step) && last)
        && passed(step) <= LIMIT - reach
        && put_in(step) <= LIMIT - inserted
}

/// The first `n` units of the rest of a text that begins at the old place `at`, and what follows.
fn part(rest: &str, n: u64, at: u64) -> Result<(&str, &str), ApplyError>
    requires within { n ≤ unit_count (chars rest.now) }
    requires small { at + n < 2 ^ 64 }
    ensures { MatchResult result
        (λ p. CutsInto (chars rest.now) n (chars p.0.now) (chars p.1.now))
        (IsSplitAt n at (chars rest.now)) }
{
    match split_units(rest, n) {
        Ok(parts) => Ok(parts),
        Err(_) => Err(ApplyError::SplitsPair { at: at + n }),
    }
}

/// Adds a piece of so many units.
fn push(made: &mut Text, piece: &str, units: u64) -> Result<(), ApplyError>
    requires { units ≡ unit_count (chars piece.now) }
    ensures { MatchResult result
        (λ _. made.new ≡ made.old ++ chars piece.now)
        (λ e. e ≡ ApplyError.OutOfMemory) }
{
    match made.push_counted(piece, units) {
        Ok(()) => Ok(()),
        Err(_) => Err(ApplyError::OutOfMemory),
    }
}

/// Takes one step, from the old place `at`, over the rest of a text, and gives what is left of the
/// rest.
fn take_step<'a>(
    step: &Step,
    at: u64,
    made: &mut Text,
    rest: &'a str,
) -> Result<&'a str, ApplyError>
    requires within { passed step.now ≤ unit_count (chars rest.now) }
    requires small { at + unit_count (chars rest.now) < 2 ^ 64 }
    ensures { MatchResult result
        (λ after. StepsOver step.now made.old (chars rest.now) made.new (chars after.now))
        (IsStepCause step.now at (chars rest.now)) }
{
    match step {
        Step::Retain(n) => {
            let (kept, after) = part(rest, *n, at)?;
            push(made, kept, *n)?;
            Ok(after)
        }
        Step::Insert(text) => {
            push(made, text.as_str(), text.unit_len())?;
            Ok(rest)
        }
        Step::Delete(n) => {
            let (_, after) = part(rest, *n, at)?;
            Ok(after)
        }
    }
}
