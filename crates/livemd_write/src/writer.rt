//! The tidy form of a notebook, and its text.
ghost use Rattle.std.specs.Prelude.{◌≡◌, ℕ, List, [], ◌∷◌, IfOk, string_bytes};
ghost use Rattle.livemd_format.specs.Accepts.{IsAccepted, IsSmall};
ghost use Rattle.livemd_format.specs.Reads.{Reads};
ghost use Rattle.livemd_format.specs.RoundTrip.{IsPlain};
ghost use Rattle.livemd_write.specs.Book.{tidied, text_of};

use crate::page::push_tidied;
use crate::tidy_up::tidied;
use notebook::Notebook;
use std::alloc::{AllocError, Global};

/// The tidy form of a notebook: what of it a book can tell. Numbers are given anew from 1 on, and the
/// bin is empty. Tidied again, it stays as it is.
pub fn tidy(alloc: Global, book: &Notebook) -> Result<Notebook, AllocError>
    ensures tidy { IfOk result (λ n. n ≡ tidied book.now) }
    ensures twice { IfOk result (λ n. tidied n ≡ n) }
{
    let parts = tidied(alloc, book.parts())?;
    Ok(Notebook::of(parts))
}

/// A text without the line feed with which it begins.
fn without_feed(mut text: String) -> String
    ensures { (rest : List ℕ) → string_bytes text ≡ 10 ∷ rest → string_bytes result ≡ rest }
{
    if !text.is_empty() {
        text.remove(0);
    }
    text
}

/// The text of a notebook's tidy form, as a book. Where each kept line and each info is one that a
/// book can tell, a reader finds the tidy form in it, and nothing to note; it refuses the text only
/// if that is too large, or for want of memory.
pub fn text(alloc: Global, book: &Notebook) -> Result<String, AllocError>
    ensures text { IfOk result (λ t. string_bytes t ≡ text_of (tidied book.now)) }
    ensures reads_back { IfOk result
        (λ t. IsPlain book.now → Reads (string_bytes t) (tidied book.now) []) }
    ensures accepted { IfOk result
        (λ t. IsPlain book.now → IsSmall (string_bytes t) → IsAccepted (string_bytes t)) }
{
    let mut out = String::new(alloc);
    push_tidied(alloc, &mut out, book.parts())?;
    Ok(without_feed(out))
}

/// The bytes of [`text`].
pub fn write(alloc: Global, book: &Notebook) -> Result<Vec<u8>, AllocError>
    ensures text { IfOk result (λ v. v.items ≡ text_of (tidied book.now)) }
    ensures reads_back { IfOk result (λ v. IsPlain book.now → Reads v.items (tidied book.now) []) }
    ensures accepted { IfOk result (λ v. IsPlain book.now → IsSmall v.items → IsAccepted v.items) }
{
    let text = text(alloc, book)?;
    Ok(text.into_bytes())
}
