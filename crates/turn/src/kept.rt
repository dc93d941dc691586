//! What is kept behind the lock, and what a caller does with it in its turn.
ghost use Rattle.std.specs.Prelude.{◌≡◌, ℕ, List, length};
ghost use Rattle.turn.specs.Histories.{Extends};

/// A state with an opening, which no act changes, and a list of entries.
pub trait Kept: Drop {
    /// What the state began with: plain data.
    type Opening;

    /// One thing that happened. It stands under the number of the pass whose turn it was.
    type Entry;

    ghost opening: { Self → Self.Opening };

    ghost list: { Self → List Self.Entry };

    // The number under which an entry stands.
    ghost number_of: { Self.Entry → ℕ };

    /// How many entries the list has.
    fn count(&self) -> u64
        ensures { result ≡ length (list self.now) };
}

/// What a caller does in its turn.
pub trait Act<S: Kept> {
    /// What the turn gives its caller.
    type Answer;

    // What the act needs: of the opening, the pass's number, the list before and the act before.
    ghost condition: { S.Opening → ℕ → List S.Entry → Self → Type 0 };

    // What the act does: of the opening, the pass's number, the list before, the act before, the act after, the answer and the list after.
    ghost relation: { S.Opening → ℕ → List S.Entry → Self → Self → Self.Answer → List S.Entry → Type 0 };

    /// Reads or changes the state. It leaves the opening as it is, and adds at most one entry, which stands under `by`.
    fn act(&mut self, by: u32, state: &mut S) -> Self::Answer
        requires { condition (S.opening state.old) by (S.list state.old) self.old }
        ensures opening { S.opening state.new ≡ S.opening state.old }
        ensures extends { Extends S.number_of by (S.list state.old) (S.list state.new) }
        ensures relation { relation (S.opening state.old) by (S.list state.old) self.old
            self.new result (S.list state.new) };
}
