//! What came of a table.

/// What came of a table's rows, one after the other.
#[derive(Clone, Copy)]
pub enum Answer {
    /// Each is as wanted.
    Right,
    /// The first that isn't, counted from 1.
    Wrong { row: usize },
    /// A call was refused that had to succeed.
    Refused,
}

/// What came of rows of which each was tried already.
pub fn first_wrong(rows: &[Option<bool>]) -> Answer {
    for (at, right) in rows.iter().enumerate() {
        match right {
            Some(true) => {}
            Some(false) => return Answer::Wrong { row: at + 1 },
            None => return Answer::Refused,
        }
    }
    Answer::Right
}
