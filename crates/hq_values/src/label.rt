//! Labels: what an import goes by.

ghost use Rattle.std.specs.Prelude.{◌≡◌};
ghost use Rattle.hq_values.specs.Readers.{ReadsIn};
ghost use Rattle.hq_values.specs.Words.{is_spool, label_in};

use crate::spool::is_spool;
use crate::{Fail, Refusal, TryCopy};
use hq_memory::Memory;
use std::alloc::AllocError;
use std::marker::Model;

/// What an import goes by: 1 to 64 letters, digits, `.`, `-`, `_`, as a spool name.
#[derive(Debug, Drop)]
pub struct Label {
    text: String,
}

impl Model for Label {
    ghost use Rattle.std.specs.Prelude.{List, ℕ, IsTrue, string_bytes};
    ghost use Rattle.hq_values.specs.Words.{is_spool};

    ghost Value = { List ℕ };

    ghost view = { λ t. string_bytes t.text };

    ghost invariant = { λ t. IsTrue (is_spool (string_bytes t.text)) };
}

impl Label {
    /// Reads a label, or refuses it as 27 `BadLabel`.
    pub fn parse<M: Memory>(memory: M, text: &str) -> Result<Label, Fail>
        ensures { ReadsIn M.refused result (label_in text.now) }
    {
        if !is_spool(text.as_bytes()) {
            return Err(Fail::Refused(Refusal::BadLabel));
        }
        let text = memory.text(text)?;
        Ok(Label { text })
    }

    /// The text, without taking memory.
    pub fn as_str(&self) -> &str
        ensures { result.now ≡ self.now }
    {
        self.text.as_str()
    }
}

impl TryCopy for Label {
    fn copy<M: Memory>(&self, memory: M) -> Result<Label, AllocError> {
        let text = memory.text(self.text.as_str())?;
        Ok(Label { text })
    }
}
