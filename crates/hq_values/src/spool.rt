//! Spool names: the names under which the relay keeps messages.

ghost use Rattle.std.specs.Prelude.{◌≡◌};
ghost use Rattle.hq_values.specs.Readers.{ReadsIn};
ghost use Rattle.hq_values.specs.Words.{is_spool_byte, is_spool, spool_in};

use crate::{Fail, Refusal, TryCopy};
use hq_memory::Memory;
use std::alloc::AllocError;
use std::marker::Model;

/// The most bytes of a spool name or a label.
const SPOOL_BYTES: usize = 64;

/// Whether a byte may stand in a spool name or a label.
fn is_spool_byte(byte: u8) -> bool
    ensures { result ≡ is_spool_byte byte }
{
    byte.is_ascii_alphanumeric() || byte == b'.' || byte == b'-' || byte == b'_'
}

pub(crate) fn is_spool(text: &[u8]) -> bool
    ensures { result ≡ is_spool text.now }
{
    !text.is_empty() && text.len() <= SPOOL_BYTES && text.iter().all(|byte| is_spool_byte(*byte))
}

/// The name under which the relay keeps a message: 1 to 64 letters, digits, `.`, `-`, `_`.
#[derive(Debug, Drop)]
pub struct Spool {
    text: String,
}

impl Model for Spool {
    ghost use Rattle.std.specs.Prelude.{List, ℕ, IsTrue, string_bytes};
    ghost use Rattle.hq_values.specs.Words.{is_spool};

    ghost Value = { List ℕ };

    ghost view = { λ t. string_bytes t.text };

    ghost invariant = { λ t. IsTrue (is_spool (string_bytes t.text)) };
}

impl Spool {
    /// Reads a spool name, or refuses it as 23 `BadSpool`.
    pub fn parse<M: Memory>(memory: M, text: &str) -> Result<Spool, Fail>
        ensures { ReadsIn M.refused result (spool_in text.now) }
    {
        if !is_spool(text.as_bytes()) {
            return Err(Fail::Refused(Refusal::BadSpool));
        }
        let text = memory.text(text)?;
        Ok(Spool { text })
    }

    /// The text, without taking memory.
    pub fn as_str(&self) -> &str
        ensures { result.now ≡ self.now }
    {
        self.text.as_str()
    }
}

impl TryCopy for Spool {
    fn copy<M: Memory>(&self, memory: M) -> Result<Spool, AllocError> {
        let text = memory.text(self.text.as_str())?;
        Ok(Spool { text })
    }
}
