//! What is kept of a recipient that left the queue.

use crate::outcome::Ended;
use hq_memory::Memory;
use hq_values::{Items, Moment, TryCopy};
use std::alloc::AllocError;

/// A row of a customer's history: a recipient that left the queue.
#[derive(Drop)]
pub struct End {
    /// Its number among the customer's: as many had left when it did.
    pub number: u64,
    /// When it left.
    pub at: Moment,
    /// Of which message it was, and what became of it.
    pub ended: Ended,
}

impl TryCopy for End {
    fn copy<M: Memory>(&self, memory: M) -> Result<End, AllocError> {
        let ended = self.ended.copy(memory)?;
        Ok(End {
            number: self.number,
            at: self.at,
            ended,
        })
    }
}

/// Recipients that left the queue in one call: the last has the number `last`, and each other one
/// the number before that of the next.
#[derive(Drop)]
pub struct Ends {
    /// The number of the last.
    pub last: u64,
    /// When they left.
    pub at: Moment,
    /// Of which messages they were, and what became of them, in order.
    pub ended: Items<Ended>,
}

impl TryCopy for Ends {
    fn copy<M: Memory>(&self, memory: M) -> Result<Ends, AllocError> {
        let ended = self.ended.copy(memory)?;
        Ok(Ends {
            last: self.last,
            at: self.at,
            ended,
        })
    }
}
