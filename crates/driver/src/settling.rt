//! Evaluating what is queued, on the player's own thread.
ghost use Rattle.std.specs.Prelude.{OnOk};
ghost use Rattle.notebook.specs.declared.parts.Parts.{Parts};
ghost use Rattle.session_core.specs.Session.{IsSession, IsHandedOut};
ghost use Rattle.driver.specs.Settling.{HasGoneOn, HasResponded, HasSettled};

use ex_machine::run;
use session_core::{Evaluated, PlainJob, STEPS, Session};
use std::alloc::{AllocError, Global};
use std::sync::Wait;

/// Evaluates what is queued, and before it what that stands on, until nothing is queued. The starts and
/// answers stand under the number `by`.
pub(crate) fn settle<R: Wait>(
    rt: &R,
    alloc: Global,
    session: &mut Session,
    by: u32,
) -> Result<(), AllocError>
    ensures { (n0 : Parts) → IsSession n0 session.old
        → OnOk result (HasSettled n0 by session.old session.new) }
{
    for _ in rt.forever() {
        if session.idle() {
            return Ok(());
        }
        evaluate(alloc, session, by)?;
    }
    unreachable!()
}

/// Evaluates the cell that may be evaluated next, if there is one.
fn evaluate(alloc: Global, session: &mut Session, by: u32) -> Result<(), AllocError>
    ensures { (n0 : Parts) → IsSession n0 session.old
        → OnOk result (HasGoneOn n0 by session.old session.new) }
{
    let Some(lane) = session.ready_lane() else {
        return Ok(());
    };
    match session.start(by, lane)? {
        None => Ok(()),
        Some(job) => answer(alloc, session, by, job),
    }
}

/// Evaluates a job that was handed out, and answers it.
fn answer(alloc: Global, session: &mut Session, by: u32, job: PlainJob) -> Result<(), AllocError>
    requires { IsHandedOut session.old.opening session.old by job }
    ensures { (n0 : Parts) → IsSession n0 session.old
        → OnOk result (HasResponded n0 by job.eval session.old session.new) }
{
    let ran = run(alloc, job.source.as_str(), &job.base, STEPS)?;
    let given = Evaluated::of(ran)?;
    session.respond(by, job.eval, given);
    Ok(())
}
