//! The directory: the relay's key, the customers with their keys, and what a key is for.

ghost use Rattle.std.specs.Prelude.{◌≡◌, ◌⊎◌, ◌<◌, ◌≤◌, ◌^◌, IsTrue, IfOk, IfSome, MatchResult};
ghost use Rattle.std.specs.Prelude.{[], length, true, false, option_map, option_and_then};
ghost use Rattle.std.specs.List.{find, list_any};
ghost use Rattle.hq_values.specs.Refusals.{no_memory_fail, refused};
ghost use Rattle.hq_requests.specs.Customers.{are_customers, has_key, has_name};
ghost use Rattle.hq_import.specs.Keys.{is_key_taken, are_keys, opens};

use crate::keys::{Caller, Holder, in_full};
use crate::routes::RouteMemory;
use crate::{Methods, Role, Routes};
use hq_import::{NamedKey, is_key_taken, opened_by, with_key, with_name};
use hq_kept::Customer;
use hq_values::{Fail, Fault, Items, Key, Name, Refusal};

/// As many customers as no memory holds. So the room for a reply that tells of each of them is a
/// number that memory can be asked for.
const MOST_CUSTOMERS: usize = 1 << 54;

/// The relay's key, the customers, their named keys, and the routes of the desk. It does not change
/// while a desk is open.
#[derive(Drop)]
pub struct Directory {
    relay: Key,
    customers: Items<Customer>,
    keys: Items<NamedKey>,
    routes: Routes,
    ghost apart: { IsTrue (are_customers customers) },
    ghost few: { length customers ≤ 2 ^ 54 },
    ghost joined: { IsTrue (are_keys customers keys) },
}

impl Directory {
    ghost use Rattle.hq_requests.specs.Directories.{relay_of, customers_of, named_keys, entry_of};
    ghost use Rattle.hq_requests.specs.Directories.{by_relay, by_customer, held_with, held_on};
    ghost use Rattle.hq_requests.specs.Directories.{held_seen, name_of, named_held, relay_alone};
    ghost use Rattle.std.specs.Ordering.{eq_by_cmp};
    ghost use Rattle.hq_tables.specs.Tables.{text_cmp};
    ghost use Rattle.hq_requests.specs.Routes.{methods_at};
    ghost use Rattle.hq_values.specs.Readers.{or_refuse, seen_by};
    ghost use Rattle.hq_values.specs.declared.failure.Refusal.TheVariants.{NoCustomer};

    /// A directory of customers whose names and keys are pairwise different, and of their named
    /// keys. Refused as 57 `BadRelayKey` exactly where the relay's key is a
    /// customer's, or one of these. Else it may end in 90 `WantOfMemory`: only where the memory
    /// refused a request, or where there are more than 2^54 customers, which no memory holds.
    pub fn with_keys<M: RouteMemory>(
        memory: M,
        relay: Key,
        customers: Vec<Customer>,
        keys: Vec<NamedKey>,
    ) -> Result<Directory, Fail>
        requires apart { IsTrue (are_customers customers.items) }
        requires joined { IsTrue (are_keys customers.items keys.items) }
        ensures { MatchResult result
            (λ d. (relay_of d ≡ relay) × (customers_of d ≡ customers.items)
            × (named_keys d ≡ keys.items) × (is_key_taken customers.items keys.items relay ≡ false))
            (λ e. ((e ≡ refused Refusal.BadRelayKey)
            × (is_key_taken customers.items keys.items relay ≡ true)) ⊎ ((e ≡ no_memory_fail)
            × (is_key_taken customers.items keys.items relay ≡ false)
            × (M.refused ⊎ (2 ^ 54 < length customers.items)))) }
    {
        if is_key_taken(customers.as_slice(), keys.as_slice(), relay.as_str()) {
            return Err(Fail::Refused(Refusal::BadRelayKey));
        }
        if customers.len() > MOST_CUSTOMERS {
            return Err(Fail::Fault(Fault::WantOfMemory));
        }
        let Ok(routes) = Routes::new(memory) else {
            return Err(Fail::Fault(Fault::WantOfMemory));
        };
        Ok(Directory {
            relay,
            customers: Items::from_vec(customers),
            keys: Items::from_vec(keys),
            routes,
        })
    }

    /// A directory of customers, as `with_keys` has it, none of whom has a named key.
    pub fn new<M: RouteMemory>(
        memory: M,
        relay: Key,
        customers: Vec<Customer>,
    ) -> Result<Directory, Fail>
        requires { IsTrue (are_customers customers.items) }
        ensures { MatchResult result
            (λ d. (relay_of d ≡ relay) × (customers_of d ≡ customers.items) × (named_keys d ≡ [])
            × (list_any (has_key relay) customers.items ≡ false))
            (λ e. ((e ≡ refused Refusal.BadRelayKey)
            × (list_any (has_key relay) customers.items ≡ true)) ⊎ ((e ≡ no_memory_fail)
            × (list_any (has_key relay) customers.items ≡ false)
            × (M.refused ⊎ (2 ^ 54 < length customers.items)))) }
    {
        Directory::with_keys(memory, relay, customers, memory.none())
    }

    /// The methods of a path, if it is one of the desk's.
    pub fn methods(&self, path: &str) -> Option<Methods>
        ensures { result ≡ methods_at path.now }
    {
        self.routes.at(path)
    }

    fn is_relay(&self, key: &str) -> bool
        ensures { result ≡ eq_by_cmp text_cmp key.now (relay_of self.now) }
    {
        key.cmp(self.relay.as_str()).is_eq()
    }

    /// The holder of a key that has a name.
    fn named_holder(&self, key: &str) -> Option<Holder<'_>>
        ensures seen { option_map held_seen result ≡ option_and_then
            (named_held (customers_of self.now)) (find (opens key.now) (named_keys self.now)) }
        ensures entry { IfSome result (λ held. held.caller.entry.now
            ≡ entry_of self.now held.caller.entry.now.name) }
    {
        let named = opened_by(self.keys.as_slice(), key)?;
        let customer = with_name(self.customers.as_slice(), named.customer.as_str())?;
        Some(Holder {
            caller: Caller {
                entry: &customer.entry,
                key: Some(&named.name),
            },
            right: named.right,
        })
    }

    /// The holder of a key that is not the relay's.
    fn held(&self, key: &str) -> Option<Holder<'_>>
        ensures seen { option_map held_seen result ≡ held_with self.now key.now }
        ensures entry { IfSome result (λ held. held.caller.entry.now
            ≡ entry_of self.now held.caller.entry.now.name) }
    {
        match with_key(self.customers.as_slice(), key) {
            Some(customer) => Some(in_full(customer)),
            None => self.named_holder(key),
        }
    }

    /// What the relay's key is for, on a route.
    fn by_relay(&self, role: Role, segment: &str) -> Result<Holder<'_>, Refusal>
        ensures seen { seen_by held_seen result
            ≡ by_relay role (find (has_name segment.now) (customers_of self.now)) }
        ensures entry { IfOk result (λ held. held.caller.entry.now
            ≡ entry_of self.now held.caller.entry.now.name) }
    {
        if matches!(role, Role::Customer) {
            return Err(Refusal::WrongRole);
        }
        match with_name(self.customers.as_slice(), segment) {
            None => Err(Refusal::NoCustomer),
            Some(customer) => Ok(in_full(customer)),
        }
    }

    /// What a key of a customer is for, on a route.
    fn by_customer(&self, role: Role, key: &str) -> Result<Holder<'_>, Refusal>
        ensures seen { seen_by held_seen result ≡ by_customer role (held_with self.now key.now) }
        ensures entry { IfOk result (λ held. held.caller.entry.now
            ≡ entry_of self.now held.caller.entry.now.name) }
    {
        match self.held(key) {
            None => Err(Refusal::NoKey),
            Some(held) => match role {
                Role::Customer => Ok(held),
                Role::Relay | Role::RelayForAll | Role::RelayFrom => Err(Refusal::WrongRole),
            },
        }
    }

    /// What a shown key is for, on a route of this role, at a path that ends in the segment: 2
    /// `NoKey`, 3 `WrongRole` or 13 `NoCustomer` where there is nobody.
    pub fn holder(
        &self,
        role: Role,
        key: Option<&str>,
        segment: &str,
    ) -> Result<Holder<'_>, Refusal>
        ensures seen { seen_by held_seen result
            ≡ held_on self.now role (option_map (λ k. k.now) key.entry) segment.now }
        ensures entry { IfOk result (λ held. held.caller.entry.now
            ≡ entry_of self.now held.caller.entry.now.name) }
    {
        match key {
            None => Err(Refusal::NoKey),
            Some(key) => {
                if self.is_relay(key) {
                    self.by_relay(role, segment)
                } else {
                    self.by_customer(role, key)
                }
            }
        }
    }

    /// The customer of this name, by its name in the directory: else 13 `NoCustomer`.
    pub fn named(&self, name: &str) -> Result<&Name, Refusal>
        ensures { seen_by (λ found. found.now) result ≡ or_refuse NoCustomer
            (option_map name_of (find (has_name name.now) (customers_of self.now))) }
    {
        let Some(customer) = with_name(self.customers.as_slice(), name) else {
            return Err(Refusal::NoCustomer);
        };
        Ok(&customer.entry.name)
    }

    /// Nothing, where the relay's key is shown: else 2 `NoKey` or 3 `WrongRole`.
    pub fn relay_alone(&self, key: Option<&str>) -> Result<(), Refusal>
        ensures { result ≡ relay_alone self.now (option_map (λ k. k.now) key.entry) }
    {
        let Some(key) = key else {
            return Err(Refusal::NoKey);
        };
        if self.is_relay(key) {
            return Ok(());
        }
        let Some(_) = self.held(key) else {
            return Err(Refusal::NoKey);
        };
        Err(Refusal::WrongRole)
    }

    /// The customers, in the order in which they were given.
    pub fn customers(&self) -> &[Customer]
        ensures { result.now ≡ customers_of self.now }
    {
        self.customers.as_slice()
    }
}
