//! Playing a script over a notebook, with what is printed written to a sink.
ghost use Rattle.std.specs.Prelude.{◌≡◌, ◌≤◌, [], ◌∷◌, map, OnOk, IfOk, OnErr, IsErrOf, string_bytes};
ghost use Rattle.book_outside.specs.Outside.{AppendsAll, AppendsFront};
ghost use Rattle.driver.specs.Around.{output, write_of, AreWritten, AreCut};
ghost use Rattle.notebook.specs.declared.parts.Parts.{Parts};
ghost use Rattle.transcript.specs.Texts.{as_text};
ghost use Rattle.driver.specs.Lines.{notice_line};
ghost use Rattle.driver.specs.Player.{Stage};
ghost use Rattle.session_core.specs.Session.{IsSession, history_of};
ghost use Rattle.driver.specs.Headline.{IsCut};
ghost use Rattle.driver.specs.Standing.{Stands, entries_of};
ghost use Rattle.driver.specs.Playing.{HavePlayed, HaveBrokenOff, HaveStopped};
ghost use Rattle.driver.specs.Ends.{IsPlayedSo, IsPlayedOut, IsPlayedAfter, IsCutAfter, IsFresh, EndsWritten, EndsCut, CountsFailure, EndsLeft, EndsWith, IsLeftAfter, IsLeftOf, IsLeftSo, ends_text};
ghost use Rattle.driver.specs.Plays.{game, PrintsIn};

use crate::lines::push_notice;
use crate::outcome::Report;
use crate::player::Player;
use crate::settling::settle;
use crate::statuses::push_statuses;
use book_outside::{Sink, SinkError};
use livemd_read::Notice;
use notebook::Notebook;
use plain_list::Items;
use script::{Content, ScriptLine};
use std::alloc::{AllocError, Global};
use std::sync::Wait;
use transcript::{push_book, push_plain};
use utf16_text::Text;

/// Why playing ended early.
#[derive(Clone, Copy, Debug, PartialEq, Eq)]
pub(crate) enum PlayFault {
    SinkFailed,
    OutOfMemory,
}

/// How a script was played.
#[derive(Drop)]
pub(crate) enum Played {
    /// To its end, and all was written.
    Done(Report),
    /// The sink failed; the report is of the history so far.
    SinkFailed(Report),
    OutOfMemory,
}

/// Plays a script over a notebook. The notices of the book are printed first.
pub(crate) fn play<R: Wait, K: Sink>(
    rt: &R,
    alloc: Global,
    book: Notebook,
    notices: &[Notice],
    content: &Content,
    sink: &mut K,
) -> Played
    ensures played { IsPlayedSo book (map notice_line notices.now) content.now
        (output K.writes K.faults K.written sink.old)
        (output K.writes K.faults K.written sink.new)
        result }
{
    let mut player = match Player::new(alloc, book) {
        Ok(player) => player,
        Err(_) => return Played::OutOfMemory,
    };
    match play_all(rt, &mut player, notices, content, sink) {
        Ok(()) => Played::Done(report_of(player)),
        Err(PlayFault::SinkFailed) => Played::SinkFailed(report_of(player)),
        Err(PlayFault::OutOfMemory) => Played::OutOfMemory,
    }
}

/// What the player leaves.
fn report_of(player: Player) -> Report
    ensures { (result.history ≡ history_of player.session) × (result.marks ≡ player.marks) }
{
    let Player {
        alloc: _,
        session,
        clients: _,
        marks,
    } = player;
    Report {
        history: Items::from_vec(session.into_history()),
        marks,
    }
}

/// Writes the notices, and plays all lines and the end.
fn play_all<R: Wait, K: Sink>(
    rt: &R,
    player: &mut Player,
    notices: &[Notice],
    content: &Content,
    sink: &mut K,
) -> Result<(), PlayFault>
    ensures played { (n0 : Parts) → IsFresh n0 player.old → OnOk result
        (IsPlayedOut n0 (map notice_line notices.now) content.now (entries_of player.new) player.new.marks
        (output K.writes K.faults K.written sink.old)
        (output K.writes K.faults K.written sink.new)) }
    ensures failed { (n0 : Parts) → IsFresh n0 player.old → IsErrOf result PlayFault.SinkFailed
        → IsCut n0 (map notice_line notices.now) content.now 0
        (entries_of player.new) player.new.marks
        (output K.writes K.faults K.written sink.old)
        (output K.writes K.faults K.written sink.new) }
    ensures stopped { (n0 : Parts) → IsFresh n0 player.old → IsErrOf result PlayFault.OutOfMemory
        → IsLeftSo n0 (map notice_line notices.now) content.now
        (output K.writes K.faults K.written sink.old)
        (output K.writes K.faults K.written sink.new) }
    ensures counts { K.faults sink.old ≤ K.faults sink.new }
    ensures rose { CountsFailure result (K.faults sink.old) (K.faults sink.new) }
{
    match write_notices(player.alloc, notices, sink) {
        Ok(()) => play_script(rt, player, content, sink),
        Err(fault) => Err(fault),
    }
}

/// Writes the lines of the notices as one piece, if there are any.
fn write_notices<K: Sink>(alloc: Global, notices: &[Notice], sink: &mut K) -> Result<(), PlayFault>
    ensures written { OnOk result (AreWritten (as_text (map notice_line notices.now) ∷ [])
        (output K.writes K.faults K.written sink.old)
        (output K.writes K.faults K.written sink.new)) }
    ensures cut { IsErrOf result PlayFault.SinkFailed
        → AreCut (as_text (map notice_line notices.now) ∷ [])
        (output K.writes K.faults K.written sink.old)
        (output K.writes K.faults K.written sink.new) }
    ensures stopped { IsErrOf result PlayFault.OutOfMemory
        → IsLeftOf (as_text (map notice_line notices.now))
        (output K.writes K.faults K.written sink.old)
        (output K.writes K.faults K.written sink.new) }
    ensures counts { K.faults sink.old ≤ K.faults sink.new }
    ensures rose { CountsFailure result (K.faults sink.old) (K.faults sink.new) }
{
    match notices_text(alloc, notices) {
        Ok(text) => write_piece(sink, text.as_str()),
        Err(_) => Err(PlayFault::OutOfMemory),
    }
}

/// The lines of the notices.
fn notices_text(alloc: Global, notices: &[Notice]) -> Result<String, AllocError>
    ensures { IfOk result (λ t. string_bytes t ≡ as_text (map notice_line notices.now)) }
{
    let mut out = String::new(alloc);
    for notice in notices {
        push_notice(&mut out, notice)?;
    }
    Ok(out)
}

/// Plays all lines and the end.
fn play_script<R: Wait, K: Sink>(
    rt: &R,
    player: &mut Player,
    content: &Content,
    sink: &mut K,
) -> Result<(), PlayFault>
    ensures played { (n0 : Parts) → IsFresh n0 player.old → OnOk result
        (IsPlayedAfter n0 content.now (entries_of player.new) player.new.marks
        (output K.writes K.faults K.written sink.old)
        (output K.writes K.faults K.written sink.new)) }
    ensures failed { (n0 : Parts) → IsFresh n0 player.old → IsErrOf result PlayFault.SinkFailed
        → IsCutAfter n0 content.now (entries_of player.new) player.new.marks
        (output K.writes K.faults K.written sink.old)
        (output K.writes K.faults K.written sink.new) }
    ensures stopped { (n0 : Parts) → IsFresh n0 player.old → IsErrOf result PlayFault.OutOfMemory
        → IsLeftAfter n0 content.now
        (output K.writes K.faults K.written sink.old)
        (output K.writes K.faults K.written sink.new) }
    ensures counts { K.faults sink.old ≤ K.faults sink.new }
    ensures rose { CountsFailure result (K.faults sink.old) (K.faults sink.new) }
{
    let names = content.names.as_slice();
    let lines = content.lines.as_slice();
    match play_lines(rt, player, names, lines, sink) {
        Ok(()) => play_end(rt, player, sink),
        Err(fault) => Err(fault),
    }
}

/// Plays the end: it settles and leaves a mark.
fn play_end<R: Wait, K: Sink>(rt: &R, player: &mut Player, sink: &mut K) -> Result<(), PlayFault>
    ensures played { (n0 : Parts) → IsSession n0 player.old.session → OnOk result
        (EndsWritten n0 player.old player.new
        (output K.writes K.faults K.written sink.old)
        (output K.writes K.faults K.written sink.new)) }
    ensures failed { (n0 : Parts) → IsSession n0 player.old.session
        → IsErrOf result PlayFault.SinkFailed
        → EndsCut n0 player.old player.new
        (output K.writes K.faults K.written sink.old)
        (output K.writes K.faults K.written sink.new) }
    ensures stopped { (n0 : Parts) → IsSession n0 player.old.session
        → IsErrOf result PlayFault.OutOfMemory
        → EndsLeft n0 player.old player.new
        (output K.writes K.faults K.written sink.old)
        (output K.writes K.faults K.written sink.new) }
    ensures counts { K.faults sink.old ≤ K.faults sink.new }
    ensures rose { CountsFailure result (K.faults sink.old) (K.faults sink.new) }
{
    match end_text(rt, player) {
        Ok(text) => write_piece(sink, text.as_str()),
        Err(_) => Err(PlayFault::OutOfMemory),
    }
}

/// Plays lines one after the other; what each prints is one write.
fn play_lines<R: Wait, K: Sink>(
    rt: &R,
    player: &mut Player,
    names: &[Text],
    lines: &[ScriptLine],
    sink: &mut K,
) -> Result<(), PlayFault>
    ensures played { (n0 : Parts) (s : Stage)
        → Stands (record { opening = n0; names = names.now }) player.old s
        → OnOk result
        (HavePlayed (record { opening = n0; names = names.now }) lines.now player.old player.new s
        (output K.writes K.faults K.written sink.old)
        (output K.writes K.faults K.written sink.new)) }
    ensures failed { (n0 : Parts) (s : Stage)
        → Stands (record { opening = n0; names = names.now }) player.old s
        → IsErrOf result PlayFault.SinkFailed
        → HaveBrokenOff (record { opening = n0; names = names.now })
        lines.now player.old player.new s
        (output K.writes K.faults K.written sink.old)
        (output K.writes K.faults K.written sink.new) }
    ensures stopped { (n0 : Parts) (s : Stage)
        → Stands (record { opening = n0; names = names.now }) player.old s
        → IsErrOf result PlayFault.OutOfMemory
        → HaveStopped (record { opening = n0; names = names.now }) lines.now player.old s
        (output K.writes K.faults K.written sink.old)
        (output K.writes K.faults K.written sink.new) }
    ensures counts { K.faults sink.old ≤ K.faults sink.new }
    ensures rose { CountsFailure result (K.faults sink.old) (K.faults sink.new) }
{
    for line in lines {
        let piece = line_text(rt, player, names, line)?;
        match write_piece(sink, piece.as_str()) {
            Ok(()) => {}
            Err(fault) => return Err(fault),
        }
    }
    Ok(())
}

/// What a line prints.
fn line_text<R: Wait>(
    rt: &R,
    player: &mut Player,
    names: &[Text],
    line: &ScriptLine,
) -> Result<String, PlayFault>
    ensures played { (n0 : Parts) (s : Stage) → Stands (game n0 names.now) player.old s
        → IfOk result (λ piece. PrintsIn names.now line.now player.old player.new piece n0 s) }
    ensures memory { OnErr result (IsErrOf result PlayFault.OutOfMemory) }
{
    match player.line(rt, names, line) {
        Ok(piece) => Ok(piece),
        Err(_) => Err(PlayFault::OutOfMemory),
    }
}

/// What the end prints, after it settled and left a mark.
fn end_text<R: Wait>(rt: &R, player: &mut Player) -> Result<String, AllocError>
    ensures { (n0 : Parts) → IsSession n0 player.old.session
        → IfOk result (EndsWith n0 player.old player.new) }
{
    settle(rt, player.alloc, &mut player.session, 1)?;
    player.look()?;
    let text = end_of(player)?;
    Ok(text)
}

fn end_of(player: &Player) -> Result<String, AllocError>
    ensures { (n0 : Parts) → IsSession n0 player.now.session
        → IfOk result (λ t. string_bytes t ≡ ends_text n0 player.now) }
{
    let mut out = String::new(player.alloc);
    push_plain(&mut out, "end\n")?;
    let snapshot = player.session.snapshot()?;
    push_book(&mut out, snapshot.book(), snapshot.revs())?;
    push_statuses(
        &mut out,
        player.alloc,
        player.session.book().parts(),
        &player.session,
    )?;
    Ok(out)
}

/// Writes a piece, by one write, unless it is empty.
fn write_piece<K: Sink>(sink: &mut K, piece: &str) -> Result<(), PlayFault>
    ensures asked { K.writes sink.new ≡ write_of piece.now (K.writes sink.old) }
    ensures written { OnOk result (AppendsAll (K.written sink.old) piece.now (K.written sink.new)) }
    ensures cut { OnErr result (AppendsFront (K.written sink.old) piece.now (K.written sink.new)) }
    ensures counts { K.faults sink.old ≤ K.faults sink.new }
    ensures rose { CountsFailure result (K.faults sink.old) (K.faults sink.new) }
{
    if piece.is_empty() {
        return Ok(());
    }
    match sink.write(piece.as_bytes()) {
        Ok(()) => Ok(()),
        Err(SinkError::Failed) => Err(PlayFault::SinkFailed),
        Err(SinkError::OutOfMemory) => Err(PlayFault::OutOfMemory),
    }
}
