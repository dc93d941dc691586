//! Texts that are put together.
use std::alloc::{AllocError, Global};
use transcript::push_named;
use utf16_text::Text;

/// Puts a text and a number behind another text.
pub fn push(out: &mut String, text: &str, number: u64) -> Result<(), AllocError> {
    push_named(out, text, number)
}

/// Puts two texts behind another one.
pub fn push_both(out: &mut String, text: &str, next: &Text) -> Result<(), AllocError> {
    out.push_str(text)?;
    out.push_str(next.as_str())
}

/// Puts texts behind another one.
pub fn push_all(out: &mut String, texts: &[&str]) -> Result<(), AllocError> {
    for text in texts {
        out.push_str(text)?;
    }
    Ok(())
}

/// Puts a text so many times behind another one.
pub fn push_many(out: &mut String, text: &str, count: u64) -> Result<(), AllocError> {
    for _ in 0..count {
        out.push_str(text)?;
    }
    Ok(())
}

/// A text with a number behind it.
pub fn numbered(alloc: Global, text: &str, number: u64) -> Option<String> {
    let mut out = String::new(alloc);
    push(&mut out, text, number).ok()?;
    Some(out)
}

/// Texts, one behind the other.
pub fn joined(alloc: Global, texts: &[&str]) -> Option<String> {
    let mut out = String::new(alloc);
    push_all(&mut out, texts).ok()?;
    Some(out)
}

/// A text so many times.
pub fn repeated(alloc: Global, text: &str, count: u64) -> Option<String> {
    let mut out = String::new(alloc);
    push_many(&mut out, text, count).ok()?;
    Some(out)
}
