//! What is kept of an import of access table lines.

ghost use Rattle.std.specs.Prelude.{◌≡◌};

use hq_memory::Memory;
use hq_values::{Label, TryCopy};
use std::alloc::AllocError;

/// An import that was done: it is done once for its label, and what it answered is kept for good.
#[derive(Drop)]
pub struct Mark {
    /// The label that the customer gave it.
    pub label: Label,
    /// The SHA-256 digest of the file's bytes.
    pub digest: [u8; 32],
    /// How many of its rows set a line where there was none.
    pub added: u64,
    /// How many set a line to another action.
    pub changed: u64,
    /// How many found their line with that very action.
    pub same: u64,
}

impl TryCopy for Mark {
    fn copy<M: Memory>(&self, memory: M) -> Result<Mark, AllocError> {
        let label = self.label.copy(memory)?;
        Ok(Mark {
            label,
            digest: self.digest,
            added: self.added,
            changed: self.changed,
            same: self.same,
        })
    }
}
