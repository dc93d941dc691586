//! The printed text of replies.
ghost use Rattle.std.specs.Prelude.{◌≡◌, OnOk, IfOk, string_bytes};
ghost use Rattle.session_ops.specs.declared.entry.Reply.TheVariants.{Started};
ghost use Rattle.transcript.specs.Texts.{refusal_text, reply_text as text_of_reply};
ghost use Rattle.transcript.specs.Printed.{Appends};

use crate::words::{push_named, push_plain};
use session_ops::{Refusal, Reply};
use std::alloc::{AllocError, Global};

/// Puts a refusal's name after a text, with its number where it has one: `TooNew 3`.
pub fn push_refusal(out: &mut String, refusal: &Refusal) -> Result<(), AllocError>
    ensures { OnOk result (Appends (refusal_text refusal.now) out.old out.new) }
{
    match *refusal {
        Refusal::NotJoined => push_plain(out, "NotJoined"),
        Refusal::AlreadyJoined => push_plain(out, "AlreadyJoined"),
        Refusal::NoCell => push_plain(out, "NoCell"),
        Refusal::NoSection => push_plain(out, "NoSection"),
        Refusal::NotCode => push_plain(out, "NotCode"),
        Refusal::BadIndex { len } => push_named(out, "BadIndex ", len),
        Refusal::BadParent => push_plain(out, "BadParent"),
        Refusal::HasBranches => push_plain(out, "HasBranches"),
        Refusal::TooManyCells => push_plain(out, "TooManyCells"),
        Refusal::TooManySections => push_plain(out, "TooManySections"),
        Refusal::TooNew { now } => push_named(out, "TooNew ", now),
        Refusal::TooOld { kept } => push_named(out, "TooOld ", kept),
        Refusal::PastEnd { len } => push_named(out, "PastEnd ", len),
        Refusal::SplitsPair { at } => push_named(out, "SplitsPair ", at),
        Refusal::AncestorFailed { cell } => push_named(out, "AncestorFailed ", cell),
        Refusal::NotQueued => push_plain(out, "NotQueued"),
    }
}

/// Puts a reply after a text: `ok`, `accepted rev 2` or `refused NoCell`.
pub fn push_reply(out: &mut String, reply: &Reply) -> Result<(), AllocError>
    ensures { OnOk result (Appends (text_of_reply reply.now) out.old out.new) }
{
    match reply {
        Reply::Accepted => push_plain(out, "ok"),
        Reply::Applied { rev, .. } => push_named(out, "accepted rev ", *rev),
        Reply::NewCell { cell } => push_named(out, "cell ", *cell),
        Reply::NewSection { section } => push_named(out, "section ", *section),
        Reply::Started { eval, cell } => push_started(out, *eval, *cell),
        Reply::Stored { eval } => push_named(out, "stored ", *eval),
        Reply::Late { eval } => push_named(out, "late ", *eval),
        Reply::Refused(why) => {
            push_plain(out, "refused ")?;
            push_refusal(out, why)
        }
    }
}

/// Puts the reply to a start after a text: `eval 3 cell 2`.
fn push_started(out: &mut String, eval: u64, cell: u64) -> Result<(), AllocError>
    ensures { OnOk result (Appends (text_of_reply (Started eval cell)) out.old out.new) }
{
    push_named(out, "eval ", eval)?;
    push_named(out, " cell ", cell)
}

/// A reply's text: `ok`, `accepted rev 2` or `refused NoCell`.
pub fn reply_text(alloc: Global, reply: &Reply) -> Result<String, AllocError>
    ensures { IfOk result (λ s. string_bytes s ≡ text_of_reply reply.now) }
{
    let mut out = String::new(alloc);
    push_reply(&mut out, reply)?;
    Ok(out)
}
