//! Keys: the secrets that customers and the relay show.

ghost use Rattle.std.specs.Prelude.{◌≡◌};
ghost use Rattle.hq_values.specs.Readers.{ReadsIn};
ghost use Rattle.hq_values.specs.Words.{is_key_byte, is_key, key_in};

use crate::{Fail, Refusal, TryCopy};
use hq_memory::Memory;
use std::alloc::AllocError;
use std::fmt;
use std::marker::Model;

/// The fewest bytes of a key.
const LEAST_KEY_BYTES: usize = 16;

/// The most bytes of a key.
const MOST_KEY_BYTES: usize = 64;

/// Whether a byte may stand in a key.
fn is_key_byte(byte: u8) -> bool
    ensures { result ≡ is_key_byte byte }
{
    byte.is_ascii_alphanumeric()
}

fn is_key(text: &[u8]) -> bool
    ensures { result ≡ is_key text.now }
{
    LEAST_KEY_BYTES <= text.len()
        && text.len() <= MOST_KEY_BYTES
        && text.iter().all(|byte| is_key_byte(*byte))
}

/// The secret that a customer or the relay shows: 16 to 64 letters and digits. `Debug` hides it.
#[derive(Drop)]
pub struct Key {
    text: String,
}

impl Model for Key {
    ghost use Rattle.std.specs.Prelude.{List, ℕ, IsTrue, string_bytes};
    ghost use Rattle.hq_values.specs.Words.{is_key};

    ghost Value = { List ℕ };

    ghost view = { λ t. string_bytes t.text };

    ghost invariant = { λ t. IsTrue (is_key (string_bytes t.text)) };
}

impl Key {
    /// Reads a key, or refuses it as 8 `BadField`.
    pub fn parse<M: Memory>(memory: M, text: &str) -> Result<Key, Fail>
        ensures { ReadsIn M.refused result (key_in text.now) }
    {
        if !is_key(text.as_bytes()) {
            return Err(Fail::Refused(Refusal::BadField));
        }
        let text = memory.text(text)?;
        Ok(Key { text })
    }

    /// The text, without taking memory.
    pub fn as_str(&self) -> &str
        ensures { result.now ≡ self.now }
    {
        self.text.as_str()
    }
}

impl TryCopy for Key {
    fn copy<M: Memory>(&self, memory: M) -> Result<Key, AllocError> {
        let text = memory.text(self.text.as_str())?;
        Ok(Key { text })
    }
}

/// The secret stays out of every log.
impl fmt::Debug for Key {
    fn fmt<W: fmt::Write>(&self, f: &mut fmt::Formatter<W>) -> fmt::Result {
        write!(f, "Key(..)")
    }
}
