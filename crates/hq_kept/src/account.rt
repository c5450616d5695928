//! What is kept and allowed of one customer beside its messages: quota, head and tally.

ghost use Rattle.std.specs.Prelude.{◌≡◌, IsTrue};
ghost use Rattle.hq_kept.specs.Limits.{is_quota, is_delay, is_history};
ghost use Rattle.hq_kept.specs.Tallies.{last_gone};

use hq_memory::Memory;
use hq_values::{Key, Name, TryCopy};
use std::alloc::AllocError;

/// How much a customer may keep: each number is within its limits.
#[derive(Clone, Copy, Debug, PartialEq, Eq, Drop)]
pub struct Quota {
    /// Queued messages, 1 to 1,000.
    pub messages: u64,
    /// Bytes of the queued messages together, 1 to 2,147,483,647,000.
    pub bytes: u64,
    /// Lines of the access tables, 1 to 5,000.
    pub lines: u64,
    /// Kept notices, 1 to 1,000.
    pub notices: u64,
    pub ghost limits: { IsTrue (is_quota messages bytes lines notices) },
}

/// What the desk knows of a customer.
#[derive(Debug, Drop)]
pub struct Entry {
    /// The customer's name.
    pub name: Name,
    /// How much it may keep.
    pub quota: Quota,
    /// After how many seconds a sender is warned, 0 to 431,999; 0 is never.
    pub delay: u64,
    /// Of how many recipients that left the queue the history is kept, 0 to 1,000,000.
    pub history: u64,
    pub ghost limit: { IsTrue (is_delay delay) },
    pub ghost span: { IsTrue (is_history history) },
}

impl TryCopy for Entry {
    fn copy<M: Memory>(&self, memory: M) -> Result<Entry, AllocError> {
        let name = self.name.copy(memory)?;
        Ok(Entry {
            name,
            quota: self.quota,
            delay: self.delay,
            history: self.history,
        })
    }
}

/// A customer of the directory: its entry, and the key that it shows.
#[derive(Debug, Drop)]
pub struct Customer {
    /// What the desk knows of it.
    pub entry: Entry,
    /// The key that it shows.
    pub key: Key,
}

impl TryCopy for Customer {
    fn copy<M: Memory>(&self, memory: M) -> Result<Customer, AllocError> {
        let entry = self.entry.copy(memory)?;
        let key = self.key.copy(memory)?;
        Ok(Customer { entry, key })
    }
}

/// Recipients that a customer's messages had, by what became of them.
#[derive(Clone, Copy, Debug, PartialEq, Eq, Drop)]
pub struct Tally {
    /// Queued.
    pub accepted: u64,
    /// Delivered.
    pub delivered: u64,
    /// Failed for good.
    pub failed: u64,
    /// Deleted with their message.
    pub deleted: u64,
    /// Given up for age.
    pub expired: u64,
}

/// What is kept of a customer beside its messages, lines, notices and imports.
#[derive(Clone, Copy, Debug, PartialEq, Eq, Drop)]
pub struct Head {
    /// The serial of the next message, 1 to 2^40; 2^40 is spent.
    pub next_serial: u64,
    /// The number of the next notice, 1 to 2^40; 2^40 is spent.
    pub next_notice: u64,
    /// What became of its recipients.
    pub tally: Tally,
}

/// How much a customer keeps.
#[derive(Clone, Copy, Debug, PartialEq, Eq, Drop)]
pub struct Counts {
    /// Queued messages.
    pub messages: u64,
    /// Their bytes together.
    pub bytes: u64,
    /// Lines of the access tables.
    pub lines: u64,
}

/// The number of the last recipient that left the queue: as many did. Takes no memory.
pub fn last_gone(tally: &Tally) -> u64
    ensures { result ≡ last_gone tally.now }
{
    tally
        .delivered
        .saturating_add(tally.failed)
        .saturating_add(tally.deleted)
        .saturating_add(tally.expired)
}
