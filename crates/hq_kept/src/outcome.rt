//! What a delivery attempt came to, recipient by recipient, and what is answered to its report.

use crate::status::Status;
use hq_memory::Memory;
use hq_values::{Address, Items, Sender, Serial, Text, TryCopy};
use std::alloc::AllocError;

/// What became of one recipient in an attempt.
#[derive(Drop)]
pub enum Delivery {
    /// It was delivered: the status and what the remote server said, where the worker tells it.
    Delivered(Option<Status>, Text),
    /// It is to be tried again: the status, and what the remote server said.
    Deferred(Status, Text),
    /// It failed for good: the status, and what the remote server said.
    Failed(Status, Text),
}

impl TryCopy for Delivery {
    fn copy<M: Memory>(&self, memory: M) -> Result<Delivery, AllocError> {
        match self {
            Delivery::Delivered(status, text) => {
                let status = match status {
                    None => None,
                    Some(status) => Some(status.copy()),
                };
                Ok(Delivery::Delivered(status, text.copy(memory)?))
            }
            Delivery::Deferred(status, text) => {
                Ok(Delivery::Deferred(status.copy(), text.copy(memory)?))
            }
            Delivery::Failed(status, text) => {
                Ok(Delivery::Failed(status.copy(), text.copy(memory)?))
            }
        }
    }
}

/// The outcome of an attempt for one recipient.
#[derive(Drop)]
pub struct Outcome {
    /// The recipient, in any case of its ASCII letters.
    pub address: Address,
    /// What became of it.
    pub result: Delivery,
}

impl TryCopy for Outcome {
    fn copy<M: Memory>(&self, memory: M) -> Result<Outcome, AllocError> {
        let address = self.address.copy(memory)?;
        let result = self.result.copy(memory)?;
        Ok(Outcome { address, result })
    }
}

/// A recipient of whom a notice tells (bounce(5)).
#[derive(Drop)]
pub struct Told {
    /// As it was submitted.
    pub address: Address,
    /// Why it is told of.
    pub status: Status,
    /// What the remote server said; it may be empty.
    pub text: Text,
}

impl TryCopy for Told {
    fn copy<M: Memory>(&self, memory: M) -> Result<Told, AllocError> {
        let address = self.address.copy(memory)?;
        let text = self.text.copy(memory)?;
        Ok(Told {
            address,
            status: self.status.copy(),
            text,
        })
    }
}

/// What became of a recipient that left the queue.
#[derive(Clone, Copy, Debug, PartialEq, Eq, Drop)]
pub enum Fate {
    /// It was delivered.
    Delivered,
    /// It failed for good.
    Failed,
    /// It was deleted with its message.
    Deleted,
    /// It was given up for age.
    Expired,
}

/// A recipient that left the queue.
#[derive(Drop)]
pub struct Ended {
    /// The serial of its message.
    pub serial: Serial,
    /// The sender of its message.
    pub sender: Sender,
    /// As it was submitted.
    pub recipient: Address,
    /// What became of it.
    pub fate: Fate,
    /// The status that was told of it last.
    pub status: Option<Status>,
    /// What the remote server said; it may be empty.
    pub text: Text,
}

impl TryCopy for Ended {
    fn copy<M: Memory>(&self, memory: M) -> Result<Ended, AllocError> {
        let sender = self.sender.copy(memory)?;
        let recipient = self.recipient.copy(memory)?;
        let status = match &self.status {
            None => None,
            Some(status) => Some(status.copy()),
        };
        let text = self.text.copy(memory)?;
        Ok(Ended {
            serial: self.serial,
            sender,
            recipient,
            fate: self.fate,
            status,
            text,
        })
    }
}

/// What the report of an attempt came to.
#[derive(Drop)]
pub enum Reported {
    /// The attempt was reported before, and nothing is changed.
    Repeat,
    /// The message is as after the attempt; where nobody is pending, the caller removes it.
    Done {
        /// How many recipients were delivered.
        delivered: u64,
        /// How many are to be tried again.
        deferred: u64,
        /// Those that failed for good, in the order of the message.
        failed: Items<Told>,
        /// Those that were delivered or failed, in the order of the message.
        ended: Items<Ended>,
    },
}
