//! What is told to the sender of a message of what became of it.

use crate::kind::Kind;
use hq_memory::Memory;
use hq_values::{Address, Moment, Serial, TryCopy, WrittenText};
use std::alloc::AllocError;

/// A notice to the sender of a message (bounce(5)). The desk keeps it; sending it is the relay's.
#[derive(Drop)]
pub struct Notice {
    /// Its number among the customer's: 1 to 2^40 - 1.
    pub number: u64,
    /// Whether attempts go on.
    pub kind: Kind,
    /// The serial that the message had.
    pub serial: Serial,
    /// When it was made.
    pub at: Moment,
    /// To whom it goes: the sender of the message.
    pub to: Address,
    /// What a person reads.
    pub human: WrittenText,
    /// What `message/delivery-status` holds (RFC 3464, 2.1).
    pub status: WrittenText,
}

impl TryCopy for Notice {
    fn copy<M: Memory>(&self, memory: M) -> Result<Notice, AllocError> {
        let to = self.to.copy(memory)?;
        let human = self.human.copy(memory)?;
        let status = self.status.copy(memory)?;
        Ok(Notice {
            number: self.number,
            kind: self.kind,
            serial: self.serial,
            at: self.at,
            to,
            human,
            status,
        })
    }
}
