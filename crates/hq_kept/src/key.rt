//! The keys under which lines of access tables are looked up.

ghost use Rattle.std.specs.Prelude.{◌≡◌, string_bytes};

use hq_memory::Memory;
use hq_values::TryCopy;
use std::alloc::AllocError;
use std::marker::Model;

/// The key of the null sender.
pub const NULL_KEY: &str = "<>";

/// The text under which a line is looked up.
#[derive(Debug, Drop)]
pub struct LookupKey {
    text: String,
}

impl Model for LookupKey {
    ghost use Rattle.std.specs.Prelude.{List, ℕ, string_bytes};

    ghost Value = { List ℕ };

    ghost view = { λ k. string_bytes k.text };
}

impl LookupKey {
    /// The key of a text.
    pub fn new(text: String) -> LookupKey
        ensures { result ≡ string_bytes text }
    {
        LookupKey { text }
    }

    /// The text, without taking memory.
    pub fn as_str(&self) -> &str
        ensures { result.now ≡ self.now }
    {
        self.text.as_str()
    }
}

impl TryCopy for LookupKey {
    fn copy<M: Memory>(&self, memory: M) -> Result<LookupKey, AllocError> {
        let text = memory.text(self.text.as_str())?;
        Ok(LookupKey { text })
    }
}
