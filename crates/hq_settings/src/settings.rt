//! The relay and its customers.

use crate::relay::Relay;
use hq_import::{NamedKey, directory_of};
use hq_kept::Customer;
use hq_requests::Directory;
use hq_values::{Fail, Host};
use std::alloc::Global;

/// What a desk is set up with.
#[derive(Drop)]
pub struct Settings {
    /// The relay's name.
    pub host: Host,
    /// The relay's key, and the customers with all their keys.
    pub directory: Directory,
}

impl Settings {
    ghost use Rattle.std.specs.Prelude.{IsTrue};
    ghost use Rattle.hq_values.specs.Readers.{Reads, seen_by};
    ghost use Rattle.hq_kept.specs.Customers.{are_customers};
    ghost use Rattle.hq_import.specs.Keys.{are_keys};
    ghost use Rattle.hq_settings.specs.Seen.{relay_seen, settings_seen};
    ghost use Rattle.hq_settings.specs.Settings.{settings_with, settings_of};

    /// The relay with these customers, whose names and keys are pairwise different, and with keys
    /// that they have beside their own. Refused as 57 `BadRelayKey` if the relay's key is a
    /// customer's, or one of these. The only other error is want of memory.
    pub fn with_keys(
        alloc: Global,
        relay: Relay,
        customers: Vec<Customer>,
        keys: Vec<NamedKey>,
    ) -> Result<Settings, Fail>
        requires apart { IsTrue (are_customers customers.items) }
        requires joined { IsTrue (are_keys customers.items keys.items) }
        ensures { Reads (seen_by settings_seen result)
            (settings_with (relay_seen relay) customers.items keys.items) }
    {
        let directory = Directory::with_keys(alloc, relay.key, customers, keys)?;
        Ok(Settings {
            host: relay.host,
            directory,
        })
    }

    /// The relay with the customers of a directory, a CSV file, without keys beside it. The file's
    /// first fault refuses it: 53 `BadDirectory`, 54 `DoubledName` or 55 `DoubledKey`. Where the
    /// file is good, 57 `BadRelayKey` does, if the relay's key is a customer's. The only other
    /// error is want of memory.
    pub fn new(alloc: Global, relay: Relay, file: &[u8]) -> Result<Settings, Fail>
        ensures { Reads (seen_by settings_seen result) (settings_of (relay_seen relay) file.now) }
    {
        let customers = directory_of(alloc, file)?;
        Settings::with_keys(alloc, relay, customers, Vec::new(alloc))
    }
}
