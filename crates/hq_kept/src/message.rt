//! A message in the queue, and its pending recipients.

ghost use Rattle.std.specs.Prelude.{◌≡◌};

use crate::status::Status;
use hq_memory::Memory;
use hq_values::{Address, Items, Moment, Sender, Serial, Spool, Text, TryCopy};
use std::alloc::AllocError;

/// Where a message stands (postsuper(1)).
#[derive(Clone, Copy, Debug, PartialEq, Eq, Drop)]
pub enum QueueState {
    /// Not tried yet.
    Incoming,
    /// Tried, and to be tried again.
    Deferred,
    /// Not tried until it is released.
    Hold,
}

/// A recipient that is neither delivered nor failed.
#[derive(Drop)]
pub struct Pending {
    /// As it was submitted.
    pub address: Address,
    /// The status of the last attempt that deferred it.
    pub status: Option<Status>,
    /// The text of that attempt; empty before one.
    pub text: Text,
}

impl TryCopy for Pending {
    fn copy<M: Memory>(&self, memory: M) -> Result<Pending, AllocError> {
        let address = self.address.copy(memory)?;
        let status = match &self.status {
            None => None,
            Some(status) => Some(status.copy()),
        };
        let text = self.text.copy(memory)?;
        Ok(Pending {
            address,
            status,
            text,
        })
    }
}

/// A message in the queue of a customer.
#[derive(Drop)]
pub struct Message {
    /// Its number among the customer's own; the queue ID is its text.
    pub serial: Serial,
    /// Who is told of failures.
    pub sender: Sender,
    /// The name under which the relay keeps it.
    pub spool: Spool,
    /// Its size in bytes, at most 2,147,483,647.
    pub size: u32,
    /// When it was queued.
    pub arrival: Moment,
    /// Where it stands.
    pub state: QueueState,
    /// Why it is on hold; empty where it is not.
    pub reason: Text,
    /// When it may be tried next.
    pub next_try: Moment,
    /// How many attempts were reported.
    pub attempts: u32,
    /// Whether the sender was warned of the delay.
    pub warned: bool,
    /// The recipients that are left, 1 to 100, no two of them the same.
    pub pending: Items<Pending>,
}

impl Message {
    ghost use Rattle.hq_kept.specs.Messages.{is_due};

    /// Whether it may be tried at a moment: it is incoming or deferred, and its next try is not
    /// later. Takes no memory.
    pub fn is_due(&self, at: Moment) -> bool
        ensures { result ≡ is_due at self.now }
    {
        self.state != QueueState::Hold && self.next_try <= at
    }
}

impl TryCopy for Message {
    fn copy<M: Memory>(&self, memory: M) -> Result<Message, AllocError> {
        let sender = self.sender.copy(memory)?;
        let spool = self.spool.copy(memory)?;
        let reason = self.reason.copy(memory)?;
        let pending = self.pending.copy(memory)?;
        Ok(Message {
            serial: self.serial,
            sender,
            spool,
            size: self.size,
            arrival: self.arrival,
            state: self.state,
            reason,
            next_try: self.next_try,
            attempts: self.attempts,
            warned: self.warned,
            pending,
        })
    }
}
