//! What came of a table.
use crate::pieces::push;
use std::alloc::{AllocError, Global};

/// What came of a table's rows, one after the other.
#[derive(Clone, Copy)]
pub enum Answer {
    /// Each is as wanted.
    Right,
    /// The first that isn't, counted from 1.
    Wrong { row: usize },
    /// A call was refused that had to succeed.
    Refused,
}

/// What came of rows of which each was tried already.
pub fn first_wrong(rows: &[Option<bool>]) -> Answer {
    for (at, right) in rows.iter().enumerate() {
        match right {
            Some(true) => {}
            Some(false) => return Answer::Wrong { row: at + 1 },
            None => return Answer::Refused,
        }
    }
    Answer::Right
}

fn push_answer(out: &mut String, name: &str, answer: Answer) -> Result<(), AllocError> {
    out.push_str(name)?;
    match answer {
        Answer::Right => out.push_str(": ok"),
        Answer::Wrong { row } => push(out, ": row ", row as u64),
        Answer::Refused => out.push_str(": a call was refused"),
    }
}

/// The line that tells what came of the table of this name.
pub fn line(alloc: Global, name: &str, answer: Answer) -> Result<String, AllocError> {
    let mut out = String::new(alloc);
    push_answer(&mut out, name, answer)?;
    Ok(out)
}
