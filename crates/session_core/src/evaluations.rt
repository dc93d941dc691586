//! Starts and answers of evaluations.
ghost use Rattle.std.specs.Prelude.{◌≡◌, ◌+◌, Some, IfOk, OnErr, map, is_some};
ghost use Rattle.std.specs.Str.{encode_utf8_all};
ghost use Rattle.ex_model.specs.Along.{MeansInCell};
ghost use Rattle.notebook.specs.declared.parts.Parts.{Parts};
ghost use Rattle.lanes.specs.Work.{may_start};
ghost use Rattle.session_ops.specs.declared.entry.Call.TheVariants.{Respond};
ghost use Rattle.session_ops.specs.State.{ChangesNothing};
ghost use Rattle.session_core.specs.declared.job.PlainJob.{PlainJob as AnyJob};
ghost use Rattle.session_core.specs.Jobs.{IsAlongTo, answer_by};
ghost use Rattle.session_core.specs.Held.{IsHeld, HasAnswered, HasTriedStart, LeavesState, IsHandedOut, KeepsAll};

use crate::evaluated::Evaluated;
use crate::held::Held;
use crate::job::{PlainJob, base_of};
use ex_model::Bindings;
use notebook::{Before, CellId, Lane};
use session_ops::{Call, Entry, Reply};
use std::alloc::AllocError;
use utf16_text::Text;

impl Held {
    /// Starts the evaluation of the lane's first due cell: appends the start and hands the job out.
    /// `None` exactly where no cell of the lane may start, and then nothing is appended, nor after want
    /// of memory.
    pub(crate) fn start(&mut self, by: u32, lane: Lane) -> Result<Option<PlainJob>, AllocError>
        ensures ok { (n0 : Parts) → IsHeld n0 self.old
            → IfOk result (HasTriedStart n0 by lane self.old self.new) }
        ensures err { KeepsAll self.old self.new result }
    {
        let Some(cell) = self.work.may_start(&self.book, lane) else {
            return Ok(None);
        };
        let Some(before) = self.book.before(cell) else {
            return Ok(None);
        };
        let base = base_of(self.alloc, before.earlier)?;
        let source = before.cell.source.copy()?;
        let job = self.begin(by, lane, cell, source, base)?;
        Ok(Some(job))
    }

    /// Begins the evaluation of a cell that may start, and hands out its job: its source, and the
    /// bindings after the cells before it.
    fn begin(
        &mut self,
        by: u32,
        lane: Lane,
        cell: CellId,
        source: Text,
        base: Bindings,
    ) -> Result<PlainJob, AllocError>
        ensures ok { (n0 : Parts) → IsHeld n0 self.old
            → may_start self.old.book self.old.work lane ≡ Some cell
            → IsAlongTo self.old.book cell source base
            → IfOk result (λ job. HasTriedStart n0 by lane self.old self.new (Some job)) }
        ensures err { KeepsAll self.old self.new result }
    {
        self.history.make_room(2)?;
        let eval = self.work.begin(self.alloc, &self.book, lane, cell)?;
        self.work.sweep(&self.book);
        self.history.append_start(Entry {
            by,
            call: Call::Start { lane },
            reply: Reply::Started { eval, cell },
        });
        Ok(PlainJob {
            eval,
            cell,
            source,
            base,
        })
    }

    /// Answers an evaluation that was started under the same number and isn't answered yet, with what
    /// its source gives over its bindings within 200,000 steps: `Stored` where it still runs, and else
    /// `Late`, and then the history alone changes. Takes no memory: its start kept room for the entry.
    pub(crate) fn respond(&mut self, by: u32, eval: u64, ran: Evaluated) -> Reply
        requires { (n0 : Parts) × (job : AnyJob)
            × IsHeld n0 self.old × IsHandedOut n0 self.old by job × (job.eval ≡ eval) }
        ensures ok { (n0 : Parts) (job : AnyJob) → IsHeld n0 self.old
            → IsHandedOut n0 self.old by job → job.eval ≡ eval
            → MeansInCell (encode_utf8_all job.source) job.base ran
            → HasAnswered n0 by (Respond eval ran.shown) self.old self.new result }
        ensures late { (n0 : Parts) (job : AnyJob) → IsHeld n0 self.old
            → IsHandedOut n0 self.old by job → job.eval ≡ eval
            → MeansInCell (encode_utf8_all job.source) job.base ran
            → ChangesNothing (Respond eval ran.shown) result → LeavesState n0 self.old self.new }
    {
        let runs = self.work.running(eval).is_some();
        let (shown, kept) = ran.twice();
        self.work.store(eval, kept);
        self.work.sweep(&self.book);
        self.history.append_answer(Entry {
            by,
            call: Call::Respond { eval, shown },
            reply: answer(eval, runs),
        });
        answer(eval, runs)
    }
}

/// The answer to a response: an evaluation that runs no more is late.
fn answer(eval: u64, runs: bool) -> Reply
    ensures { result ≡ answer_by eval runs }
{
    if runs {
        Reply::Stored { eval }
    } else {
        Reply::Late { eval }
    }
}
