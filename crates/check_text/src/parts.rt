//! Deltas as rows have them.
use delta::{BadDelta, Delta, Step};
use std::alloc::Global;
use utf16_text::Text;

/// A step of a delta.
#[derive(Drop)]
pub enum Part {
    Keep(u64),
    Put(&'static str),
    Cut(u64),
}

fn step_of(alloc: Global, part: &Part) -> Option<Step> {
    match part {
        Part::Keep(n) => Some(Step::Retain(*n)),
        Part::Put(text) => Some(Step::Insert(Text::of(alloc, text).ok()?)),
        Part::Cut(n) => Some(Step::Delete(*n)),
    }
}

fn steps_of(alloc: Global, parts: &[Part]) -> Option<Vec<Step>> {
    let mut steps = Vec::new(alloc);
    for part in parts {
        steps.push(step_of(alloc, part)?).ok()?;
    }
    Some(steps)
}

/// What is made of the steps.
pub fn sealed(alloc: Global, parts: &[Part]) -> Option<Result<Delta, BadDelta>> {
    Some(Delta::from_compact(steps_of(alloc, parts)?))
}

/// The delta of canonical steps.
pub fn delta_of(alloc: Global, parts: &[Part]) -> Option<Delta> {
    sealed(alloc, parts)?.ok()
}

fn push_step(alloc: Global, line: &mut String, step: &Step) -> Option<()> {
    let part = match step {
        Step::Retain(n) => format!(in alloc; "{n} ").ok()?,
        Step::Insert(text) => format!(in alloc; "'{}' ", text.as_str()).ok()?,
        Step::Delete(n) => format!(in alloc; "-{n} ").ok()?,
    };
    line.push_str(&part).ok()
}

/// The steps of a delta as a line: `1 'x' -2 `.
pub fn shown(alloc: Global, delta: &Delta) -> Option<String> {
    let mut line = String::new(alloc);
    for step in delta.to_compact() {
        push_step(alloc, &mut line, step)?;
    }
    Some(line)
}
