//! A text that was written whole.

ghost use Rattle.std.specs.Prelude.{◌≡◌, string_bytes};

use crate::TryCopy;
use hq_memory::Memory;
use std::alloc::AllocError;
use std::marker::Model;

/// A text as it was written: one of a notice, or the queue report.
#[derive(Debug, Drop)]
pub struct WrittenText {
    text: String,
}

impl Model for WrittenText {
    ghost use Rattle.std.specs.Prelude.{List, ℕ, string_bytes};

    ghost Value = { List ℕ };

    ghost view = { λ t. string_bytes t.text };
}

impl WrittenText {
    /// It keeps the text as it is, and takes no memory.
    pub fn new(text: String) -> WrittenText
        ensures { result ≡ string_bytes text }
    {
        WrittenText { text }
    }

    /// The text, without taking memory.
    pub fn as_str(&self) -> &str
        ensures { result.now ≡ self.now }
    {
        self.text.as_str()
    }
}

impl TryCopy for WrittenText {
    fn copy<M: Memory>(&self, memory: M) -> Result<WrittenText, AllocError> {
        let text = memory.text(self.text.as_str())?;
        Ok(WrittenText { text })
    }
}
