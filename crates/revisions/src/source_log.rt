//! The log of one cell's source.
ghost use Rattle.std.specs.Prelude.{◌≡◌, ◌≤◌, false, IfOk, IfErr, OnOk, OnErr, MatchResult};
ghost use Rattle.revisions.specs.Answer.{IsCause, IsHonest, IsReportCause};
ghost use Rattle.revisions.specs.Floors.{has_floor};
ghost use Rattle.revisions.specs.Log.{Holds, HasTaken, KeepsMove, IsLog, IsTaken, let_go};
ghost use Rattle.revisions.specs.Moved.{IsMove, IsMoved};
ghost use Rattle.revisions.specs.Source.{Source, begun, rev_of, least_of, reporting, joining, leaving};

use crate::errors::{ReportError, RevError};
use crate::floors::Floors;
use crate::kept::{Kept, KeptDeltas};
use crate::moved::{Move, move_on};
use delta::Delta;
use std::alloc::{AllocError, Global};
use utf16_text::{Text, unit_len};

/// One cell's source: its text, its revision, the deltas above the least floor, and the floor of each
/// client that has joined. Revisions count the deltas that the source took, from 0.
#[derive(Drop)]
pub struct SourceLog {
    text: Text,
    rev: u64,
    least: u64,
    kept: KeptDeltas,
    floors: Floors,
}

/// A delta that was accepted, as it was applied to the present text. `rev` is the revision that it
/// made.
#[derive(Drop)]
pub struct Accepted {
    pub rev: u64,
    pub delta: Delta,
}

impl SourceLog {
    /// The log of a cell that is made with this source. These clients have joined; their floors are 0.
    pub fn new(alloc: Global, source: Text, clients: &[u32]) -> Result<SourceLog, AllocError>
        ensures { IfOk result (IsLog (begun source clients.now)) }
    {
        Ok(SourceLog {
            text: source,
            rev: 0,
            least: 0,
            kept: KeptDeltas::new(alloc),
            floors: Floors::at_zero(alloc, clients)?,
        })
    }

    /// The present text. Takes no memory.
    pub fn text(&self) -> &Text
        ensures { (s : Source) → IsLog s self.now → result.now ≡ s.text }
    {
        &self.text
    }

    /// The present revision. Takes no memory.
    pub fn rev(&self) -> u64
        ensures { (s : Source) → IsLog s self.now → result ≡ rev_of s }
    {
        self.rev
    }

    /// The least floor of those who have joined; the present revision where nobody has. Takes no
    /// memory.
    pub fn least(&self) -> u64
        ensures { (s : Source) → IsLog s self.now → result ≡ least_of s }
    {
        self.least
    }

    /// Takes a client's delta, which was made at the revision `base`: it is moved over the deltas that
    /// were taken since, which go first in a tie, and applied. The client's floor is then the new
    /// revision.
    ///
    /// It answers `TooNew` exactly where `base` is above the revision, else `TooOld` exactly where it
    /// is below the least floor, else `PastEnd` or `SplitsPair` exactly where the moved delta doesn't
    /// fit the present text. A delta that reaches past the text at its base is always told so, and
    /// never answered by want of memory. A delta of a client that has joined, which is based on a
    /// revision from the client's floor on and fits the text at it, is refused only for want of memory.
    /// The log is as it was after each error.
    pub fn accept(
        &mut self,
        alloc: Global,
        client: u32,
        base: u64,
        delta: &Delta,
    ) -> Result<Accepted, RevError>
        ensures answer { (s : Source) → IsLog s self.old → MatchResult result
            (λ a. IsTaken s client base delta.now a self.new)
            (IsCause s base delta.now) }
        ensures honest { (s : Source) → IsLog s self.old → IsHonest s client base delta.now
            → IfErr result (λ e. e ≡ RevError.OutOfMemory) }
        ensures err { OnErr result (self.new ≡ self.old) }
    {
        let moved = match self.moved(alloc, base, delta) {
            Ok(moved) => moved,
            Err(fault) => return Err(fault),
        };
        match self.take(alloc, client, moved) {
            Ok(accepted) => Ok(accepted),
            Err(_) => Err(RevError::OutOfMemory),
        }
    }

    /// A client's delta, which was made at the revision `base`, moved over the deltas that were taken
    /// since, which go first in a tie, and the text that it would make. Nothing is changed. It answers
    /// the same errors as [`accept`](SourceLog::accept).
    pub fn moved(&self, alloc: Global, base: u64, delta: &Delta) -> Result<Move, RevError>
        ensures { (s : Source) → IsLog s self.now → MatchResult result
            (IsMoved s base delta.now)
            (IsCause s base delta.now) }
    {
        if base > self.rev {
            return Err(RevError::TooNew { now: self.rev });
        }
        if base < self.least {
            return Err(RevError::TooOld { kept: self.least });
        }
        let from = (base - self.least) as usize;
        match move_on(alloc, delta, &self.kept, from, &self.text) {
            Ok(moved) => Ok(moved),
            Err(fault) => Err(fault),
        }
    }

    /// Takes a client's delta as [`moved`](SourceLog::moved) made it of the present text. The client's
    /// floor is then the new revision. After want of memory the log is as it was.
    ///
    /// A move that was made of another text is taken as it is: the log then has that move's text.
    pub fn take(&mut self, alloc: Global, client: u32, moved: Move) -> Result<Accepted, AllocError>
        ensures ok { (s : Source) → IsLog s self.old → IsMove s.text moved → IfOk result
            (λ a. HasTaken s client moved.delta a self.new) }
        ensures any { IfOk result (λ a. KeepsMove client moved self.old a self.new) }
        ensures err { OnErr result (self.new ≡ self.old) }
    {
        let Some(rev) = self.rev.checked_add(1) else {
            return Err(AllocError);
        };
        let len = unit_len(self.text.as_str());
        let delta = moved.delta.copy(alloc)?;
        self.kept.push(Kept { len, delta })?;
        self.text = moved.text;
        self.rev = rev;
        self.floors.raise(client, rev);
        self.let_go();
        Ok(Accepted {
            rev,
            delta: moved.delta,
        })
    }

    /// Notes that a client has the revision `rev`: its floor is at least this. Takes no memory.
    ///
    /// It answers `TooNew` exactly where `rev` is above the present revision. Nothing is then changed.
    pub fn report(&mut self, client: u32, rev: u64) -> Result<(), ReportError>
        ensures answer { (s : Source) → IsLog s self.old → MatchResult result
            (λ _. (rev ≤ rev_of s) × IsLog (reporting client rev s) self.new)
            (IsReportCause s rev) }
        ensures err { OnErr result (self.new ≡ self.old) }
    {
        if rev > self.rev {
            return Err(ReportError::TooNew { now: self.rev });
        }
        self.floors.raise(client, rev);
        self.let_go();
        Ok(())
    }

    /// Notes that a client joins: its floor is the present revision, also where it has joined already.
    /// After an error the log is as it was.
    pub fn joined(&mut self, client: u32) -> Result<(), AllocError>
        ensures ok { (s : Source) → IsLog s self.old → OnOk result
            (IsLog (joining client s) self.new) }
        ensures err { OnErr result (self.new ≡ self.old) }
    {
        self.floors.put(client, self.rev)?;
        self.let_go();
        Ok(())
    }

    /// Notes that a client has left: its floor goes. So a client that has just joined hasn't joined
    /// after all, and one that hasn't joined changes nothing. Takes no memory.
    pub fn left(&mut self, client: u32)
        ensures gone { (s : Source) → IsLog s self.old → IsLog (leaving client s) self.new }
        ensures stranger { (s : Source) → IsLog s self.old → has_floor client s.floors ≡ false
            → self.new ≡ self.old }
    {
        if self.floors.has(client) {
            self.floors.remove(client);
            self.let_go();
        }
    }

    /// Drops the deltas up to the least floor, which may have risen.
    fn let_go(&mut self)
        ensures drops { self.new ≡ let_go self.old }
        ensures log { (s : Source) → Holds s self.old → self.old.least ≤ least_of s
            → IsLog s self.new }
    {
        let least = self.floors.lowest(self.rev);
        self.kept.drop_first(least.saturating_sub(self.least));
        self.least = least;
    }
}
