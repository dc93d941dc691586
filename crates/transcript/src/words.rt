//! The words that all printed text is made of.
ghost use Rattle.std.specs.Prelude.{◌++◌, OnOk, decimal};
ghost use Rattle.json.specs.Print.{quoted};
ghost use Rattle.transcript.specs.Printed.{Appends};

use itoa::Buffer;
use std::alloc::AllocError;

/// Puts bytes as they are after a text.
pub fn push_plain(out: &mut String, plain: &str) -> Result<(), AllocError>
    ensures { OnOk result (Appends plain.now out.old out.new) }
{
    out.push_str(plain)?;
    Ok(())
}

/// Puts a number in decimal after a text.
pub fn push_number(out: &mut String, n: u64) -> Result<(), AllocError>
    ensures { OnOk result (Appends (decimal n) out.old out.new) }
{
    let mut buffer = Buffer::new();
    push_plain(out, buffer.format(n))
}

/// Puts a text as a compact JSON string after another: between quotes, with the shortest escapes.
pub fn push_text(out: &mut String, text: &str) -> Result<(), AllocError>
    ensures { OnOk result (Appends (quoted text.now) out.old out.new) }
{
    let alloc = *out.allocator();
    match serde_json::to_string(alloc, &text) {
        Ok(written) => push_plain(out, written.as_str()),
        Err(_) => Err(AllocError),
    }
}

/// Puts a name and a number after a text.
pub fn push_named(out: &mut String, name: &str, n: u64) -> Result<(), AllocError>
    ensures { OnOk result (Appends (name.now ++ decimal n) out.old out.new) }
{
    push_plain(out, name)?;
    push_number(out, n)
}
