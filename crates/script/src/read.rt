//! Bytes as a script.
ghost use Rattle.std.specs.Prelude.{◌≡◌, ◌≢◌, IfOk, IfErr, MatchResult};
ghost use Rattle.script.specs.declared.error.ScriptError.TheVariants.{OutOfMemory as ScriptMemory};
ghost use Rattle.script.specs.declared.content.Content.{Content};
ghost use Rattle.script.specs.Script.{IsScriptOf, IsScriptCause};
ghost use Rattle.script.specs.Next.{ReadsOn, IsStop};

use crate::cut::{first_line, is_skipped, said};
use crate::error::{LineError, LineFault, ScriptError};
use crate::script::Script;
use limits::MOST_FILE_BYTES;
use std::alloc::Global;
use std::str;

/// Reads a script from its bytes: UTF-8 text in lines that end with LF. CRs at a line's end and
/// then outer spaces and tabs are ignored; an empty line and one that begins with `#` are skipped.
///
/// It answers `TooLarge` exactly where there are more than 8,388,608 bytes, and else `At` exactly
/// at the first line, counted from 1, that isn't UTF-8 or isn't one of the lines `join NAME`,
/// `leave NAME`, `edit NAME CELL DELTA`, `post NAME OP`, `send NAME COUNT`, `recv NAME COUNT`,
/// `sync`, `show NAME`, `pending NAME CELL`, `settle`, `cells`, `rawjoin NAME` and `raw NAME RAWOP`
/// in its form, or has a name that would be the 65th. COUNT is a number or `all`; OP and RAWOP are
/// operations with their operands. The lines stand in any order and number; whether a client has
/// joined is not looked at.
pub fn read_script(alloc: Global, bytes: &[u8]) -> Result<Script, ScriptError>
    ensures script { MatchResult result (IsScriptOf bytes.now) (IsScriptCause bytes.now) }
    ensures single { IfOk result
        (λ script. (other : Content) → IsScriptOf bytes.now other → other ≡ script) }
    ensures none { IfErr result
        (λ error. error ≢ ScriptMemory → (other : Content) → ¬ (IsScriptOf bytes.now other)) }
{
    if bytes.len() > MOST_FILE_BYTES {
        return Err(ScriptError::TooLarge);
    }
    let mut script = Script::new(alloc);
    let mut rest = bytes;
    let mut line: u64 = 0;
    while !rest.is_empty() {
        let (piece, after) = first_line(rest);
        line += 1;
        match with_line(alloc, script, piece) {
            Ok(longer) => {
                script = longer;
                rest = after;
            }
            Err(LineError::Fault(kind)) => return Err(ScriptError::At { line, kind }),
            Err(LineError::OutOfMemory) => return Err(ScriptError::OutOfMemory),
        }
    }
    Ok(script)
}

/// The script with one more line of bytes.
fn with_line(alloc: Global, script: Script, line: &[u8]) -> Result<Script, LineError>
    ensures { MatchResult result (ReadsOn line.now script) (IsStop line.now script) }
{
    let Ok(line) = str::from_utf8(line) else {
        return Err(LineError::Fault(LineFault::NotUtf8));
    };
    let text = said(line);
    if is_skipped(text) {
        return Ok(script);
    }
    script.with(alloc, text)
}
