//! Texts as they are written in a script.
ghost use Rattle.std.specs.Prelude.{IfOk};
ghost use Rattle.script.specs.Text.{IsText};
ghost use Rattle.script.specs.Next.{Tells};

use serde_json::Value;
use std::alloc::{AllocError, Global};
use utf16_text::Text;

/// The text that a JSON string writes, or none.
pub(crate) fn text_of(alloc: Global, json: &str) -> Result<Option<Text>, AllocError>
    ensures { IfOk result (Tells (IsText json.now)) }
{
    let value = match Value::from_str(alloc, json) {
        Ok(value) => value,
        Err(error) if error.is_memory() => return Err(AllocError),
        Err(_) => return Ok(None),
    };
    let Value::String(text) = value else {
        return Ok(None);
    };
    Ok(Some(Text::of(alloc, text.as_str())?))
}
