//! What a check of the settings finds, before any store is opened.

ghost use Rattle.std.specs.Prelude.{ℕ, ⊤, List, None, IfOk, IsTrue, option_map};
ghost use Rattle.hq_values.specs.Readers.{Reads, seen_by};
ghost use Rattle.hq_kept.specs.Customers.{are_customers};
ghost use Rattle.hq_import.specs.Directories.{customers_in, directory_in};
ghost use Rattle.hq_import.specs.Keys.{are_keys};
ghost use Rattle.hq_import.specs.Refused.{ReadsDirectory};
ghost use Rattle.hq_words.specs.Asked.{check_of};
ghost use Rattle.hq_settings.specs.Seen.{relay_seen};
ghost use Rattle.hq_settings.specs.Checked.{HasRelay, CountsCustomers, count_of};

use crate::files::keys_of;
use crate::{Files, Relay, Settings, Trouble, relay_of};
use hq_import::{DirectoryFail, NamedKey};
use hq_kept::Customer;
use hq_values::{Fail, Host};
use hq_words::Check;
use std::alloc::Global;

/// No relay, where its name is good.
fn name_alone<F: Files>(rt: &F, host: &str) -> Result<Option<Relay>, Trouble>
    ensures { HasRelay (F.reads rt.now) host.now None (seen_by (option_map relay_seen) result) }
{
    let _name = Host::parse(rt.alloc(), host)?;
    Ok(None)
}

/// The relay that a check names, as `relay_of` has it. Where no key is given there is none, and the
/// name is checked alone: 56 `BadHost`, or want of memory.
pub fn relay_given<F: Files>(rt: &F, given: &Check) -> Result<Option<Relay>, Trouble>
    ensures { HasRelay (F.reads rt.now) (check_of given.now).host (check_of given.now).relay_key
        (seen_by (option_map relay_seen) result) }
{
    match given.relay_key {
        Some(key) => Ok(Some(relay_of(rt, given.host, key)?)),
        None => name_alone(rt, given.host),
    }
}

/// The customers of a directory that was read, or its refusal as the desk tells it.
fn directory_read(read: Result<Vec<Customer>, DirectoryFail>) -> Result<Vec<Customer>, Fail>
    requires { IfOk read (λ customers. IsTrue (are_customers customers.items)) }
    ensures customers { (file : List ℕ)
        → ReadsDirectory ⊤ (seen_by (λ v. v.items) read) (directory_in file)
        → Reads (seen_by (λ v. v.items) result) (customers_in file) }
    ensures apart { IfOk result (λ v. IsTrue (are_customers v.items)) }
{
    Ok(read?)
}

/// How many of these customers a start would serve: 57 where the relay's key is one of theirs.
fn count_of(
    alloc: Global,
    relay: Option<Relay>,
    customers: Vec<Customer>,
    keys: Vec<NamedKey>,
) -> Result<usize, Fail>
    requires apart { IsTrue (are_customers customers.items) }
    requires joined { IsTrue (are_keys customers.items keys.items) }
    ensures { Reads result (count_of (option_map relay_seen relay) customers.items keys.items) }
{
    match relay {
        Some(relay) => {
            let settings = Settings::with_keys(alloc, relay, customers, keys)?;
            Ok(settings.directory.customers().len())
        }
        None => Ok(customers.len()),
    }
}

/// How many customers a start would serve, by the directory that was read, the path of the keys
/// beside it, and the relay, where one is known. Else the first of these: the directory's own
/// refusal; that the file of keys cannot be read, or where it is wrong; 57 `BadRelayKey` where the
/// relay's key is one of a customer. It may be want of memory at any of them.
pub fn count_customers<F: Files>(
    rt: &F,
    relay: Option<Relay>,
    keys: Option<&str>,
    read: Result<Vec<Customer>, DirectoryFail>,
) -> Result<usize, Trouble>
    requires { IfOk read (λ customers. IsTrue (are_customers customers.items)) }
    ensures { (file : List ℕ) → ReadsDirectory ⊤ (seen_by (λ v. v.items) read) (directory_in file)
        → CountsCustomers (F.reads rt.now) (option_map relay_seen relay)
        (option_map (λ k. k.now) keys.entry) file result }
{
    let customers = directory_read(read)?;
    let named = keys_of(rt, customers.as_slice(), keys)?;
    Ok(count_of(rt.alloc(), relay, customers, named)?)
}
