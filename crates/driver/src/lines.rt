//! The printed lines of a script.
ghost use Rattle.std.specs.Prelude.{◌≢◌, ◌++◌, [], Option, Some, OnOk, codes};
ghost use Rattle.notebook.specs.declared.parts.Cell.{Cell};
ghost use Rattle.client_sync.specs.Client.{Pending};
ghost use Rattle.client_sync.specs.Stands.{IsPendingOf, IsViewOf};
ghost use Rattle.std.specs.Option.{option_copied};
ghost use Rattle.driver.specs.Lines.{notice_line, joined_words, not_joined_words, left_words, raw_joined_words, raw_not_joined_words, raw_words, raw_refused_words, no_client_words, edit_words, posted_words, not_posted_words, sent_words, nothing_words, received_words, sync_words, flight_words, pending_answer, pending_words, error_words};
ghost use Rattle.transcript.specs.Printed.{Appends, AppendsLine};

use client_sync::{EditError, PendingEdits};
use delta::Delta;
use livemd_read::{Notice, NoticeKind};
use session_ops::{Refusal, Reply};
use std::alloc::AllocError;
use transcript::{push_delta, push_named, push_plain, push_refusal, push_reply};

/// `notice LINE KIND`.
pub(crate) fn push_notice(out: &mut String, notice: &Notice) -> Result<(), AllocError>
    ensures { OnOk result (AppendsLine (notice_line notice.now) out.old out.new) }
{
    push_named(out, "notice ", notice.line)?;
    match notice.kind {
        NoticeKind::BadBranch => push_plain(out, " BadBranch\n"),
        NoticeKind::Misplaced => push_plain(out, " Misplaced\n"),
    }
}

/// `NAME joined at K`.
pub(crate) fn push_joined(out: &mut String, name: &str, at: u64) -> Result<(), AllocError>
    ensures { OnOk result (AppendsLine (joined_words name.now at) out.old out.new) }
{
    push_plain(out, name)?;
    push_named(out, " joined at ", at)?;
    push_plain(out, "\n")
}

/// `NAME join: R`.
pub(crate) fn push_not_joined(out: &mut String, name: &str, reply: &Reply) -> Result<(), AllocError>
    ensures { OnOk result (AppendsLine (not_joined_words name.now reply.now) out.old out.new) }
{
    push_plain(out, name)?;
    push_plain(out, " join: ")?;
    push_reply(out, reply)?;
    push_plain(out, "\n")
}

/// `NAME leave: R`.
pub(crate) fn push_left(out: &mut String, name: &str, reply: &Reply) -> Result<(), AllocError>
    ensures { OnOk result (AppendsLine (left_words name.now reply.now) out.old out.new) }
{
    push_plain(out, name)?;
    push_plain(out, " leave: ")?;
    push_reply(out, reply)?;
    push_plain(out, "\n")
}

/// `NAME rawjoined at K`.
pub(crate) fn push_raw_joined(out: &mut String, name: &str, at: u64) -> Result<(), AllocError>
    ensures { OnOk result (AppendsLine (raw_joined_words name.now at) out.old out.new) }
{
    push_plain(out, name)?;
    push_named(out, " rawjoined at ", at)?;
    push_plain(out, "\n")
}

/// `NAME rawjoin: R`.
pub(crate) fn push_raw_not_joined(
    out: &mut String,
    name: &str,
    reply: &Reply,
) -> Result<(), AllocError>
    ensures { OnOk result (AppendsLine (raw_not_joined_words name.now reply.now) out.old out.new) }
{
    push_plain(out, name)?;
    push_plain(out, " rawjoin: ")?;
    push_reply(out, reply)?;
    push_plain(out, "\n")
}

/// `NAME raw: R`.
pub(crate) fn push_raw(out: &mut String, name: &str, reply: &Reply) -> Result<(), AllocError>
    ensures { OnOk result (AppendsLine (raw_words name.now reply.now) out.old out.new) }
{
    push_plain(out, name)?;
    push_plain(out, " raw: ")?;
    push_reply(out, reply)?;
    push_plain(out, "\n")
}

/// `NAME raw: refused HasClient`.
pub(crate) fn push_raw_refused(out: &mut String, name: &str) -> Result<(), AllocError>
    ensures { OnOk result (AppendsLine (raw_refused_words name.now) out.old out.new) }
{
    push_plain(out, name)?;
    push_plain(out, " raw: refused HasClient\n")
}

/// `NAME WORD: refused NotJoined`.
pub(crate) fn push_no_client(out: &mut String, name: &str, word: &str) -> Result<(), AllocError>
    ensures { OnOk result (AppendsLine (no_client_words name.now word.now) out.old out.new) }
{
    push_not_joined_note(out, name, word)?;
    push_plain(out, "\n")
}

/// `NAME WORD: refused NotJoined`, without its end.
fn push_not_joined_note(out: &mut String, name: &str, word: &str) -> Result<(), AllocError>
    ensures { OnOk result (Appends (no_client_words name.now word.now) out.old out.new) }
{
    push_word_of(out, name, word)?;
    push_plain(out, ": refused NotJoined")?;
    Ok(())
}

/// `NAME WORD`.
fn push_word_of(out: &mut String, name: &str, word: &str) -> Result<(), AllocError>
    ensures { OnOk result (Appends ((name.now ++ (codes " " ++ word.now))) out.old out.new) }
{
    push_plain(out, name)?;
    push_plain(out, " ")?;
    push_plain(out, word)
}

/// `NAME edit CELL: `.
fn push_edit_head(out: &mut String, name: &str, cell: u64) -> Result<(), AllocError>
    ensures { OnOk result (Appends (edit_words name.now cell []) out.old out.new) }
{
    push_plain(out, name)?;
    push_named(out, " edit ", cell)?;
    push_plain(out, ": ")
}

/// `NAME edit CELL: ok`.
pub(crate) fn push_edited(out: &mut String, name: &str, cell: u64) -> Result<(), AllocError>
    ensures { OnOk result (AppendsLine (edit_words name.now cell (codes "ok")) out.old out.new) }
{
    push_edit_head(out, name, cell)?;
    push_plain(out, "ok\n")
}

/// `NAME edit CELL: refused WHY`.
pub(crate) fn push_edit_refused(
    out: &mut String,
    name: &str,
    cell: u64,
    why: EditError,
) -> Result<(), AllocError>
    ensures printed { OnOk result
        (AppendsLine (edit_words name.now cell (codes "refused " ++ error_words why))
        out.old out.new) }
    ensures named { OnOk result (why ≢ EditError.OutOfMemory) }
{
    push_edit_head(out, name, cell)?;
    push_plain(out, "refused ")?;
    push_edit_error(out, why)?;
    push_plain(out, "\n")
}

/// The name of an edit's error, with its number where it has one. Want of memory has none, and is
/// handed on.
fn push_edit_error(out: &mut String, why: EditError) -> Result<(), AllocError>
    ensures printed { OnOk result (Appends (error_words why) out.old out.new) }
    ensures named { OnOk result (why ≢ EditError.OutOfMemory) }
{
    match why {
        EditError::NoCell => push_plain(out, "NoCell"),
        EditError::EditTooLong => push_plain(out, "EditTooLong"),
        EditError::PastEnd { len } => push_refusal(out, &Refusal::PastEnd { len }),
        EditError::SplitsPair { at } => push_refusal(out, &Refusal::SplitsPair { at }),
        EditError::OutOfMemory => Err(AllocError),
    }
}

/// `NAME post: ok`.
pub(crate) fn push_posted(out: &mut String, name: &str) -> Result<(), AllocError>
    ensures { OnOk result (AppendsLine (posted_words name.now) out.old out.new) }
{
    push_plain(out, name)?;
    push_plain(out, " post: ok\n")
}

/// `NAME post: refused NoCell`, of a report.
pub(crate) fn push_not_posted(out: &mut String, name: &str) -> Result<(), AllocError>
    ensures { OnOk result (AppendsLine (not_posted_words name.now) out.old out.new) }
{
    push_plain(out, name)?;
    push_plain(out, " post: refused NoCell\n")
}

/// `NAME sent: R`.
pub(crate) fn push_sent(out: &mut String, name: &str, reply: &Reply) -> Result<(), AllocError>
    ensures { OnOk result (AppendsLine (sent_words name.now reply.now) out.old out.new) }
{
    push_plain(out, name)?;
    push_plain(out, " sent: ")?;
    push_reply(out, reply)?;
    push_plain(out, "\n")
}

/// `sync at K`.
pub(crate) fn push_sync(out: &mut String, at: u64) -> Result<(), AllocError>
    ensures { OnOk result (AppendsLine (sync_words at) out.old out.new) }
{
    push_named(out, "sync at ", at)?;
    push_plain(out, "\n")
}

/// `NAME sent: nothing`.
pub(crate) fn push_nothing_sent(out: &mut String, name: &str) -> Result<(), AllocError>
    ensures { OnOk result (AppendsLine (nothing_words name.now) out.old out.new) }
{
    push_plain(out, name)?;
    push_plain(out, " sent: nothing\n")
}

/// `NAME at K`.
pub(crate) fn push_received(out: &mut String, name: &str, at: u64) -> Result<(), AllocError>
    ensures { OnOk result (AppendsLine (received_words name.now at) out.old out.new) }
{
    push_plain(out, name)?;
    push_named(out, " at ", at)?;
    push_plain(out, "\n")
}

/// `NAME pending CELL: inflight DELTA buffer DELTA outbox N`, or that there is no such cell.
pub(crate) fn push_pending(
    out: &mut String,
    name: &str,
    cell: u64,
    edits: Option<PendingEdits<'_>>,
    messages: u64,
) -> Result<(), AllocError>
    ensures { (own : Option Cell) (p : Option Pending) → IsPendingOf own edits.entry p
        → OnOk result (AppendsLine (pending_words name.now cell (pending_answer own p messages))
        out.old out.new) }
{
    push_plain(out, name)?;
    push_named(out, " pending ", cell)?;
    push_plain(out, ": ")?;
    push_pending_answer(out, edits, messages)?;
    push_plain(out, "\n")
}

/// What is pending for a cell, or that there is no such cell.
fn push_pending_answer(
    out: &mut String,
    edits: Option<PendingEdits<'_>>,
    messages: u64,
) -> Result<(), AllocError>
    ensures { (own : Option Cell) (p : Option Pending) → IsPendingOf own edits.entry p
        → OnOk result (Appends (pending_answer own p messages) out.old out.new) }
{
    match edits {
        None => push_plain(out, "refused NoCell"),
        Some(edits) => push_edits(out, edits, messages),
    }
}

/// `inflight DELTA buffer DELTA outbox N`.
fn push_edits(out: &mut String, edits: PendingEdits<'_>, messages: u64) -> Result<(), AllocError>
    ensures { (own : Cell) (p : Option Pending) → IsViewOf edits.entry p
        → OnOk result (Appends (pending_answer (Some own) p messages) out.old out.new) }
{
    push_plain(out, "inflight ")?;
    push_flight(out, edits.inflight)?;
    push_plain(out, " buffer ")?;
    push_delta(out, edits.buffer)?;
    push_named(out, " outbox ", messages)
}

/// A delta in flight; `none` where there is none.
fn push_flight(out: &mut String, flight: Option<&Delta>) -> Result<(), AllocError>
    ensures { OnOk result (Appends (flight_words (option_copied flight.entry)) out.old out.new) }
{
    match flight {
        None => push_plain(out, "none"),
        Some(delta) => push_delta(out, delta),
    }
}
