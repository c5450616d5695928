//! The relay's name, and the key of its workers.

ghost use Rattle.hq_values.specs.Readers.{Reads, seen_by};
ghost use Rattle.hq_settings.specs.Settings.{relay_key_in, relay_in};

use hq_values::{Fail, Host, Key, Refusal};
use std::alloc::Global;

/// Reads the relay's key, or refuses it as 57 `BadRelayKey`.
fn relay_key(alloc: Global, text: &str) -> Result<Key, Fail>
    ensures { Reads result (relay_key_in text.now) }
{
    match Key::parse(alloc, text) {
        Err(Fail::Refused(_)) => Err(Fail::Refused(Refusal::BadRelayKey)),
        read => read,
    }
}

/// The relay: its name, and the key of its workers. Whether the key is a customer's is not known
/// yet.
#[derive(Debug, Drop)]
pub struct Relay {
    /// Its name.
    pub host: Host,
    /// The key that its workers show.
    pub key: Key,
}

impl Relay {
    ghost use Rattle.hq_settings.specs.Seen.{relay_seen};

    /// The relay of this name and this key. The name is refused as 56 `BadHost`; where it is good,
    /// the key is refused as 57 `BadRelayKey`. The only other error is want of memory.
    pub fn new(alloc: Global, host: &str, key: &str) -> Result<Relay, Fail>
        ensures { Reads (seen_by relay_seen result) (relay_in host.now key.now) }
    {
        let host = Host::parse(alloc, host)?;
        let key = relay_key(alloc, key)?;
        Ok(Relay { host, key })
    }
}
