//! What becomes of a submission, by the access tables.

use hq_memory::Memory;
use hq_values::{Address, Items, Sender, Text, TryCopy};
use std::alloc::AllocError;

/// A sender or a recipient that is refused.
#[derive(Debug, Drop)]
pub struct Refused {
    /// Who is refused.
    pub address: Sender,
    /// The code of the reply (RFC 5321, 4.2).
    pub code: u16,
    /// Its text.
    pub text: Text,
}

impl TryCopy for Refused {
    fn copy<M: Memory>(&self, memory: M) -> Result<Refused, AllocError> {
        let address = self.address.copy(memory)?;
        let text = self.text.copy(memory)?;
        Ok(Refused {
            address,
            code: self.code,
            text,
        })
    }
}

/// What becomes of a submission.
#[derive(Drop)]
pub enum Verdict {
    /// Nothing of it is taken.
    Rejected {
        /// The sender alone, or all recipients.
        refused: Items<Refused>,
    },
    /// It is taken, and nobody gets it.
    Discarded {
        /// The recipients that are refused.
        refused: Items<Refused>,
    },
    /// It is queued.
    Queue {
        /// The recipients that are not refused: at least one.
        kept: Items<Address>,
        /// The recipients that are.
        refused: Items<Refused>,
        /// Who gets it in place of all that are kept.
        redirect: Option<Address>,
        /// The reason of the first hold, where it is put on hold: not empty.
        held: Option<Text>,
    },
}
