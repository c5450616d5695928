//! Room for one line, taken once. Of a line that is too long only so much is kept as shows that it
//! is.

ghost use Rattle.std.specs.Prelude.{◌≡◌, ◌≤◌, ◌++◌, ◌∷◌, [], length, nat_lt, vec_capacity};
ghost use Rattle.std.specs.Prelude.{if◌then◌else◌};
ghost use Rattle.hq_memory.specs.Making.{MadeIn};
ghost use Rattle.hq_lines.specs.Lines.{without_return};

use crate::fields::MOST_LINE_BYTES;
use hq_memory::Memory;
use std::alloc::AllocError;

/// The bytes that are kept of a line: one more than a line may have.
const ROOM_BYTES: usize = MOST_LINE_BYTES + 1;

/// What is kept of the line that is begun.
#[derive(Drop)]
pub struct LineBuffer {
    pub bytes: Vec<u8>,
    ghost room: { 300001 ≤ vec_capacity bytes },
}

impl LineBuffer {
    /// An empty line, with room for the longest.
    pub fn new<M: Memory>(memory: M) -> Result<LineBuffer, AllocError>
        ensures { MadeIn M.refused result (λ line. line.bytes.items ≡ []) }
    {
        let bytes = memory.room(ROOM_BYTES)?;
        Ok(LineBuffer { bytes })
    }

    /// Adds a byte, or passes it over where the line is too long already.
    pub fn push(&mut self, byte: u8)
        ensures { self.new.bytes.items
            ≡ (if nat_lt (length self.old.bytes.items) 300001 then self.old.bytes.items ++ byte ∷ []
            else self.old.bytes.items) }
    {
        if self.bytes.len() < ROOM_BYTES {
            self.bytes.push(byte).unwrap();
        }
    }

    /// Forgets the line.
    pub fn clear(&mut self)
        ensures { self.new.bytes.items ≡ [] }
    {
        self.bytes.clear();
    }

    /// The line that a line feed ended: without one carriage return at its end, unless it is too
    /// long.
    #[tactic(auto, unfolding(crate::specs::Lines::without_return))]
    pub fn ended(&self) -> &[u8]
        ensures { result.now ≡ without_return self.now.bytes.items }
    {
        let line = self.bytes.as_slice();
        match line.last() {
            Some(b'\r') if line.len() <= MOST_LINE_BYTES => &line[..line.len() - 1],
            _ => line,
        }
    }
}
