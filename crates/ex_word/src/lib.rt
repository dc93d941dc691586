//! A text that doesn't change, whose bytes all its copies share.
//!
//! The layer above may rely on this: a contract sees a [`Word`] as the list of its bytes, UTF-8, so
//! equal words are equal in every contract. A copy takes the same time however long the word is, and no
//! copy of its bytes is made.
#![tactic(auto)]

ghost use Rattle.std.specs.Prelude.{◌≡◌, ◌↔◌, IsTrue, IfOk, length, string_bytes};

use std::alloc::{AllocError, Global};
use std::marker::Model;
use std::sync::Arc;

/// A text that doesn't change. Its length counts bytes. Copies share them.
#[derive(Debug, Drop)]
pub struct Word {
    text: Arc<String, Global>,
}

impl Model for Word {
    ghost use Rattle.std.specs.Prelude.{ℕ, List};
    ghost use Rattle.std.specs.Arc.{arc_value};
    ghost use Rattle.std.specs.String.{string_bytes};

    ghost Value = { List ℕ };

    ghost view = { λ w. string_bytes (arc_value w.text) };
}

impl Word {
    /// A word of a string, whose bytes are copied.
    pub fn of(alloc: Global, s: &str) -> Result<Word, AllocError>
        ensures { IfOk result (λ w. w ≡ s.now) }
    {
        Word::from_string(alloc, String::from_str(alloc, s)?)
    }

    /// A word of a string, whose bytes it takes. After want of memory the string is dropped.
    pub fn from_string(alloc: Global, text: String) -> Result<Word, AllocError>
        ensures { IfOk result (λ w. w ≡ string_bytes text) }
    {
        match Arc::new(alloc, text) {
            Ok(text) => Ok(Word { text }),
            Err(_) => Err(AllocError),
        }
    }

    /// The word as a string slice. Takes no memory.
    pub fn as_str(&self) -> &str
        ensures { result.now ≡ self.now }
    {
        self.text.as_str()
    }

    /// The number of its bytes. Takes no memory.
    pub fn len(&self) -> usize
        ensures { result ≡ length self.now }
    {
        self.as_str().len()
    }

    /// An equal word, which shares the bytes: it takes the same time for every word.
    pub fn copy(&self) -> Result<Word, AllocError>
        ensures { IfOk result (λ w. w ≡ self.now) }
    {
        Ok(Word {
            text: Arc::try_clone(&self.text)?,
        })
    }

    /// Whether two words are the same text. Takes no memory.
    pub fn equal(&self, other: &Word) -> bool
        ensures { IsTrue result ↔ (self.now ≡ other.now) }
    {
        self.as_str() == other.as_str()
    }
}
