//! The printed text of a cell's state.
ghost use Rattle.std.specs.Prelude.{◌≡◌, ◌++◌, Option, option_map, OnOk};
ghost use Rattle.transcript.specs.Texts.{ended_line};
ghost use Rattle.transcript.specs.States.{lane_text, status_text, validity_text, printed_text, outcome_text, shown_text, state_line};
ghost use Rattle.transcript.specs.Printed.{Appends};

use crate::words::{push_named, push_plain, push_text};
use ex_model::{Outcome, Shown, fault_text};
use notebook::{CellId, Lane, Status, Validity};
use std::alloc::{AllocError, Global};

fn status_word(status: Status) -> &'static str
    ensures { result.now ≡ status_text status }
{
    match status {
        Status::Ready => "ready",
        Status::Queued => "queued",
        Status::Evaluating => "evaluating",
    }
}

fn validity_word(validity: Validity) -> &'static str
    ensures { result.now ≡ validity_text validity }
{
    match validity {
        Validity::Fresh => "fresh",
        Validity::Evaluated => "evaluated",
        Validity::Stale => "stale",
        Validity::Aborted => "aborted",
    }
}

/// Puts a lane after a text: `main` or `branch 2`.
fn push_lane(out: &mut String, lane: Lane) -> Result<(), AllocError>
    ensures { OnOk result (Appends (lane_text lane) out.old out.new) }
{
    match lane {
        Lane::Main => push_plain(out, "main"),
        Lane::Branch(section) => push_named(out, "branch ", section),
    }
}

/// Puts the printed text of an evaluation after a text, unless it is empty.
fn push_printed(out: &mut String, printed: &str) -> Result<(), AllocError>
    ensures { OnOk result (Appends (printed_text printed.now) out.old out.new) }
{
    if printed.is_empty() {
        return Ok(());
    }
    push_plain(out, " printed ")?;
    push_text(out, printed)
}

/// Puts a value or a fault after a text.
fn push_outcome(out: &mut String, alloc: Global, outcome: &Outcome) -> Result<(), AllocError>
    ensures { OnOk result (Appends (outcome_text outcome.now) out.old out.new) }
{
    match outcome {
        Outcome::Value(value) => {
            push_plain(out, " value ")?;
            push_plain(out, value.inspect_text(alloc)?.as_str())
        }
        Outcome::Fault(fault) => {
            push_plain(out, " fault ")?;
            push_plain(out, fault_text(alloc, fault)?.as_str())
        }
    }
}

/// Puts what an evaluation showed after a text.
fn push_shown(out: &mut String, alloc: Global, shown: &Shown) -> Result<(), AllocError>
    ensures { OnOk result
        (Appends (printed_text shown.now.printed ++ outcome_text shown.now.outcome) out.old
        out.new) }
{
    push_printed(out, shown.printed.as_str())?;
    push_outcome(out, alloc, &shown.outcome)
}

/// Puts what an evaluation showed after a text, where there is one.
fn push_shown_if(out: &mut String, alloc: Global, shown: Option<&Shown>) -> Result<(), AllocError>
    ensures { OnOk result
        (Appends (shown_text (option_map (λ s. s.now) shown.entry)) out.old out.new) }
{
    match shown {
        None => Ok(()),
        Some(shown) => push_shown(out, alloc, shown),
    }
}

/// Puts what comes before the shown part of a cell's line after a text.
fn push_state_head(
    out: &mut String,
    cell: CellId,
    lane: Lane,
    status: Status,
    validity: Validity,
) -> Result<(), AllocError>
    ensures { OnOk result
        (Appends (state_line cell lane status validity Option.None) out.old out.new) }
{
    push_named(out, "code ", cell)?;
    push_plain(out, " ")?;
    push_lane(out, lane)?;
    push_plain(out, " ")?;
    push_plain(out, status_word(status))?;
    push_plain(out, " ")?;
    push_plain(out, validity_word(validity))
}

/// Puts the line of a setup or code cell after a text, with its LF: `code 2 main ready evaluated value
/// 42`. What it shows is left out where no evaluation was finished.
pub fn push_state(
    out: &mut String,
    alloc: Global,
    cell: CellId,
    lane: Lane,
    status: Status,
    validity: Validity,
    shown: Option<&Shown>,
) -> Result<(), AllocError>
    ensures { OnOk result
        (Appends (ended_line (state_line cell lane status validity (option_map (λ s. s.now)
        shown.entry))) out.old out.new) }
{
    push_state_head(out, cell, lane, status, validity)?;
    push_shown_if(out, alloc, shown)?;
    push_plain(out, "\n")
}
