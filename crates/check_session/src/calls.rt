//! Calls of a session with starts and answers apart, which no script can make: the work of all lanes, and what a session
//! hands out.
ghost use Rattle.std.specs.Prelude.{IfSome};
ghost use Rattle.std.specs.Str.{encode_utf8_all};
ghost use Rattle.ex_model.specs.Along.{MeansInCell};
ghost use Rattle.session_core.specs.Session.{IsHandedOut, StayOut};

use crate::answer::Answer;
use crate::books::read_book;
use crate::stories::Step::{
    Call, Calls, HasNoRow, Idle, Ready, Refuse, Run, RunLate, RunWhile, Snapshot, Stands, Start,
    Waits,
};
use crate::stories::{PLAN, STORIES, Step, Story};
use ex_machine::run;
use ex_model::Ran;
use notebook::{CellId, Lane, Status, Validity};
use script::{ScriptLine, read_script};
use session_core::{Evaluated, PlainJob, STEPS, Session};
use session_ops::{Op, Refusal, Reply};
use std::alloc::Global;

/// The number under which evaluations are started and answered.
const EVALUATOR: u32 = 1;

/// A session that opens with a book.
fn open(alloc: Global, book: &str) -> Option<Session> {
    Session::new(alloc, read_book(alloc, book)?).ok()
}

/// The reply to what a client asks.
fn ask(session: &mut Session, client: u32, op: Op) -> Option<Reply>
    ensures { StayOut session.old session.new }
{
    session.apply(0, client, op).ok()
}

/// The reply to the call of a line.
fn call(alloc: Global, session: &mut Session, line: &ScriptLine) -> Option<Reply>
    ensures { StayOut session.old session.new }
{
    match line {
        ScriptLine::RawJoin { client } => ask(session, *client, Op::Join),
        ScriptLine::Raw { client, op } => {
            let op = op.copy(alloc).ok()?;
            ask(session, *client, op)
        }
        _ => None,
    }
}

/// Why a call was refused, if it was.
fn refusal_of(reply: &Reply) -> Option<Refusal> {
    match reply {
        Reply::Refused(why) => Some(*why),
        _ => None,
    }
}

/// Makes the calls of lines, and tells whether each is answered so.
fn follow_lines(
    alloc: Global,
    session: &mut Session,
    lines: &[ScriptLine],
    refusal: Option<Refusal>,
) -> Option<bool>
    ensures { StayOut session.old session.new }
{
    for line in lines {
        let reply = call(alloc, session, line)?;
        if refusal_of(&reply) != refusal {
            return Some(false);
        }
    }
    Some(true)
}

/// Makes the calls of a script, and tells whether each is answered so.
fn follow(
    alloc: Global,
    session: &mut Session,
    script: &str,
    refusal: Option<Refusal>,
) -> Option<bool>
    ensures { StayOut session.old session.new }
{
    let script = read_script(alloc, script.as_bytes()).ok()?;
    follow_lines(alloc, session, script.content().lines.as_slice(), refusal)
}

/// The next job of a lane, if there is one; none where a call was refused.
fn start(session: &mut Session, lane: Lane) -> Option<Option<PlainJob>>
    ensures { IfSome result (λ started. IfSome started
        (IsHandedOut session.new.opening session.new 1)) }
{
    session.start(EVALUATOR, lane).ok()
}

/// What a job gives.
fn ran(alloc: Global, job: &PlainJob) -> Option<Ran>
    ensures { IfSome result (MeansInCell (encode_utf8_all job.now.source) job.now.base) }
{
    run(alloc, job.source.as_str(), &job.base, STEPS).ok()
}

/// Answers a job that is out, and tells whether the answer was stored.
fn respond(session: &mut Session, job: &PlainJob, ran: Ran) -> Option<bool>
    requires out { IsHandedOut session.old.opening session.old 1 job.now }
    requires means { MeansInCell (encode_utf8_all job.now.source) job.now.base ran }
{
    let ran = Evaluated::of(ran).ok()?;
    let reply = session.respond(EVALUATOR, job.eval, ran);
    Some(matches!(reply, Reply::Stored { .. }))
}

/// Whether the cell is started in the lane, under the number.
fn starts(session: &mut Session, lane: Lane, eval: u64, cell: CellId) -> Option<bool> {
    match start(session, lane)? {
        None => Some(false),
        Some(job) => Some(is_of(&job, eval, cell)),
    }
}

/// Whether a job is of the cell, under the number.
fn is_of(job: &PlainJob, eval: u64, cell: CellId) -> bool {
    job.eval == eval && job.cell == cell
}

/// Whether the cell is started in the lane, under the number, the lines that are called while it runs aren't refused, and
/// what it gives is stored, or comes too late, as is wanted.
fn runs(
    alloc: Global,
    session: &mut Session,
    lane: Lane,
    eval: u64,
    cell: CellId,
    script: &str,
    stored: bool,
) -> Option<bool> {
    let job = start(session, lane)??;
    let followed = follow(alloc, session, script, None)?;
    let ran = ran(alloc, &job)?;
    let answer = respond(session, &job, ran)?;
    Some(followed && answer == stored && is_of(&job, eval, cell))
}

/// Whether in the lane no cell may start, so that nothing is handed out and no call is made.
fn waits(session: &mut Session, lane: Lane) -> Option<bool> {
    let before = calls(session);
    let waits = start(session, lane)?.is_none();
    Some(waits && calls(session) == before)
}

/// How many calls were made.
fn calls(session: &Session) -> usize {
    session.history().len()
}

fn ready(session: &Session) -> Option<Lane> {
    session.ready_lane()
}

fn idle(session: &Session) -> bool {
    session.idle()
}

fn status(session: &Session, cell: CellId) -> Option<Status> {
    session.status(cell)
}

fn validity(session: &Session, cell: CellId) -> Option<Validity> {
    session.validity(cell)
}

/// Whether a snapshot comes after as many calls, and has as many cells.
fn is_snapshot(session: &Session, cursor: u64, cells: usize) -> Option<bool> {
    let snapshot = session.snapshot().ok()?;
    Some(snapshot.cursor() == cursor && snapshot.revs().len() == cells)
}

/// Whether that stands.
fn shows(session: &Session, step: Step) -> bool {
    match step {
        Ready(lane) => ready(session) == Some(lane),
        Idle(wanted) => idle(session) == wanted,
        Stands(cell, wanted, worth) => {
            status(session, cell) == Some(wanted) && validity(session, cell) == Some(worth)
        }
        HasNoRow(cell) => status(session, cell).is_none(),
        Calls(count) => calls(session) == count,
        _ => false,
    }
}

/// Does a step, and tells whether it goes as told.
fn goes(alloc: Global, session: &mut Session, step: Step) -> Option<bool> {
    match step {
        Call(script) => follow(alloc, session, script, None),
        Refuse(script, why) => follow(alloc, session, script, Some(why)),
        Start(lane, eval, cell) => starts(session, lane, eval, cell),
        Run(lane, eval, cell) => runs(alloc, session, lane, eval, cell, "", true),
        RunWhile(lane, eval, cell, script) => {
            runs(alloc, session, lane, eval, cell, script, true)
        }
        RunLate(lane, eval, cell, script) => {
            runs(alloc, session, lane, eval, cell, script, false)
        }
        Waits(lane) => waits(session, lane),
        Snapshot(cursor, cells) => is_snapshot(session, cursor, cells),
        _ => Some(shows(session, step)),
    }
}

/// Whether each step goes as told.
fn go_through(alloc: Global, session: &mut Session, steps: &[Step]) -> Option<bool> {
    for step in steps {
        if !goes(alloc, session, *step)? {
            return Some(false);
        }
    }
    Some(true)
}

/// Whether a story goes as told.
fn goes_through(alloc: Global, story: &Story) -> Option<bool> {
    let mut session = open(alloc, story.book)?;
    go_through(alloc, &mut session, story.steps)
}

/// Goes through each story.
pub fn tried(alloc: Global) -> Answer {
    for (at, story) in STORIES.iter().enumerate() {
        match goes_through(alloc, story) {
            Some(true) => {}
            Some(false) => return Answer::Wrong { row: at + 1 },
            None => return Answer::Refused,
        }
    }
    Answer::Right
}

/// Whether the history of a session that is done has all calls.
pub fn history(alloc: Global) -> Option<bool> {
    let mut session = open(alloc, "")?;
    let planned = follow(alloc, &mut session, PLAN, None)?;
    let history = session.into_history();
    Some(planned && history.len() == 7)
}
