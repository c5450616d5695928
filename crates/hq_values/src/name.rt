//! Customers' names.

ghost use Rattle.std.specs.Prelude.{◌≡◌, ◌≤◌, length, true};
ghost use Rattle.hq_values.specs.Readers.{ReadsIn};
ghost use Rattle.hq_values.specs.Words.{is_name_byte, is_name, name_in};

use crate::{Fail, Refusal, TryCopy};
use hq_memory::Memory;
use std::alloc::AllocError;
use std::marker::Model;

/// The most bytes of a name.
const NAME_BYTES: usize = 32;

/// Whether a byte may stand in a customer's name.
fn is_name_byte(byte: u8) -> bool
    ensures { result ≡ is_name_byte byte }
{
    byte.is_ascii_lowercase() || byte.is_ascii_digit() || byte == b'-'
}

fn is_name(text: &[u8]) -> bool
    ensures { result ≡ is_name text.now }
{
    !text.is_empty() && text.len() <= NAME_BYTES && text.iter().all(|byte| is_name_byte(*byte))
}

/// A customer's name: 1 to 32 lower-case letters, digits, `-`.
#[derive(Debug, Drop)]
pub struct Name {
    text: String,
}

impl Model for Name {
    ghost use Rattle.std.specs.Prelude.{List, ℕ, IsTrue, string_bytes};
    ghost use Rattle.hq_values.specs.Words.{is_name};

    ghost Value = { List ℕ };

    ghost view = { λ t. string_bytes t.text };

    ghost invariant = { λ t. IsTrue (is_name (string_bytes t.text)) };
}

impl Name {
    /// Reads a name, or refuses it as 8 `BadField`.
    pub fn parse<M: Memory>(memory: M, text: &str) -> Result<Name, Fail>
        ensures { ReadsIn M.refused result (name_in text.now) }
    {
        if !is_name(text.as_bytes()) {
            return Err(Fail::Refused(Refusal::BadField));
        }
        let text = memory.text(text)?;
        Ok(Name { text })
    }

    /// The text, at most 32 bytes, without taking memory.
    pub fn as_str(&self) -> &str
        ensures text { result.now ≡ self.now }
        ensures short { length result.now ≤ 32 }
    {
        self.text.as_str()
    }

    /// The bytes of the text, without taking memory.
    pub fn as_bytes(&self) -> &[u8]
        ensures text { result.now ≡ self.now }
        ensures known { is_name result.now ≡ true }
        ensures short { length result.now ≤ 32 }
    {
        self.text.as_bytes()
    }
}

impl TryCopy for Name {
    fn copy<M: Memory>(&self, memory: M) -> Result<Name, AllocError> {
        let text = memory.text(self.text.as_str())?;
        Ok(Name { text })
    }
}
