//! The lines that wait for a round.

ghost use Rattle.std.specs.Prelude.{◌≡◌, ◌==◌, ◌≤◌, ◌∷◌, ◌++◌, [], Some, false, true, length};
ghost use Rattle.hq_memory.specs.Making.{MadeIn};
ghost use Rattle.hq_lines.specs.Fields.{request_in};
ghost use Rattle.hq_requests.specs.declared.exchanges.Exchange.{Exchange};
ghost use Rattle.hq_batch.specs.InRounds.{most_lines_together};
ghost use Rattle.hq_batch.specs.Waiting.{line_asked};

use crate::front::exchange_of;
use hq_bodies::JsonMemory;
use hq_lines::read_line;
use hq_memory::Memory;
use hq_together::takes_long;
use hq_wire::Exchange;
use std::alloc::AllocError;

/// How many lines share a round at most.
const MOST_TOGETHER: usize = 64;

/// What the lines ask for that wait: no more than a round may have.
#[derive(Drop)]
pub struct Waiting {
    pub exchanges: Vec<Exchange>,
    ghost few: { length exchanges.items ≤ most_lines_together },
}

impl Waiting {
    /// None waits, and there is room for a round.
    pub fn new<M: Memory>(memory: M) -> Result<Waiting, AllocError>
        ensures { MadeIn M.refused result (λ waiting. waiting.exchanges.items ≡ []) }
    {
        let exchanges = memory.room(MOST_TOGETHER)?;
        Ok(Waiting { exchanges })
    }

    /// Whether no line waits.
    pub fn is_empty(&self) -> bool
        ensures { result ≡ (length self.now.exchanges.items == 0) }
    {
        self.exchanges.is_empty()
    }

    /// Has the exchange wait that a line asks for. It leaves all as it is where as many wait as a
    /// round may have, where there is no memory for one more, and where the line asks for none, or
    /// for a call that takes long.
    pub fn add<M: JsonMemory>(&mut self, memory: M, line: &[u8]) -> bool
        ensures added { result ≡ true → (x : Exchange) × (request_in line.now ≡ Some (line_asked x))
            × (self.new.exchanges.items ≡ self.old.exchanges.items ++ x ∷ []) }
        ensures left { result ≡ false → self.new.exchanges.items ≡ self.old.exchanges.items }
    {
        if self.exchanges.len() >= MOST_TOGETHER {
            return false;
        }
        let Some(line) = read_line(line) else {
            return false;
        };
        if takes_long(line.path) {
            return false;
        }
        let Ok(exchange) = exchange_of(memory, &line) else {
            return false;
        };
        self.exchanges.push(exchange).is_ok()
    }

    /// Forgets all.
    pub fn clear(&mut self)
        ensures { self.new.exchanges.items ≡ [] }
    {
        self.exchanges.clear();
    }
}
