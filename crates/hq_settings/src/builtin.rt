//! The relay and the customers that the program serves without words.

ghost use Rattle.std.specs.Prelude.{◌≡◌, MatchResult};
ghost use Rattle.hq_values.specs.Refusals.{no_memory_fail};
ghost use Rattle.hq_settings.specs.Builtin as builtin;
ghost use Rattle.hq_settings.specs.Seen.{settings_seen};

use crate::settings::Settings;
use hq_kept::{Customer, Entry, Quota};
use hq_requests::Directory;
use hq_values::{Fail, Host, Key, Name};
use std::alloc::Global;

/// The name of the relay.
const HOST: &str = "relay.example";

/// The key of the relay's workers.
const RELAY_KEY: &str = "relaykey00000001";

fn acme(alloc: Global) -> Result<Customer, Fail>
    ensures { MatchResult result (λ customer. customer ≡ builtin.acme)
        (λ fail. fail ≡ no_memory_fail) }
{
    let entry = Entry {
        name: Name::parse(alloc, "acme")?,
        quota: Quota {
            messages: 2,
            bytes: 10_000,
            lines: 10,
            notices: 5,
        },
        delay: 3600,
        history: 0,
    };
    let key = Key::parse(alloc, "acmekey000000001")?;
    Ok(Customer { entry, key })
}

fn birch(alloc: Global) -> Result<Customer, Fail>
    ensures { MatchResult result (λ customer. customer ≡ builtin.birch)
        (λ fail. fail ≡ no_memory_fail) }
{
    let entry = Entry {
        name: Name::parse(alloc, "birch")?,
        quota: Quota {
            messages: 100,
            bytes: 1_000_000,
            lines: 100,
            notices: 10,
        },
        delay: 0,
        history: 0,
    };
    let key = Key::parse(alloc, "birchkey00000001")?;
    Ok(Customer { entry, key })
}

/// The relay `relay.example` and two customers: `acme` with small quotas and `birch` with large
/// ones; or want of memory.
pub fn settings(alloc: Global) -> Result<Settings, Fail>
    ensures { MatchResult result (λ settings. settings_seen settings ≡ builtin.settings)
        (λ fail. fail ≡ no_memory_fail) }
{
    let host = Host::parse(alloc, HOST)?;
    let mut customers = Vec::new(alloc);
    customers.push(acme(alloc)?)?;
    customers.push(birch(alloc)?)?;
    let relay = Key::parse(alloc, RELAY_KEY)?;
    let directory = Directory::new(alloc, relay, customers)?;
    Ok(Settings { host, directory })
}
