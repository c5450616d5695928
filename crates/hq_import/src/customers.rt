//! The customers of a directory: whose a name or a key is. No call takes memory.

ghost use Rattle.std.specs.Prelude.{◌≡◌, option_map};
ghost use Rattle.std.specs.List.{find, list_any};
ghost use Rattle.hq_kept.specs.Customers.{are_customers, names_apart, keys_apart, has_key};
ghost use Rattle.hq_kept.specs.Customers.{has_name, is_same_text};

use hq_kept::Customer;

/// Whether two texts are the same, byte for byte.
pub(crate) fn is_same_text(text: &str, other: &str) -> bool
    ensures { result ≡ is_same_text text.now other.now }
{
    text.cmp(other).is_eq()
}

/// Whether a customer shows this key.
fn has_key(customer: &Customer, key: &str) -> bool
    ensures { result ≡ has_key key.now customer.now }
{
    is_same_text(key, customer.key.as_str())
}

/// Whether a customer has this name.
pub fn has_name(customer: &Customer, name: &str) -> bool
    ensures { result ≡ has_name name.now customer.now }
{
    is_same_text(name, customer.entry.name.as_str())
}

/// The first of these that shows a key.
pub fn with_key<'c>(customers: &'c [Customer], key: &str) -> Option<&'c Customer>
    ensures { option_map (λ c. c.now) result ≡ find (has_key key.now) customers.now }
{
    customers.iter().find(|customer| has_key(customer, key))
}

/// The first of these that has a name.
pub fn with_name<'c>(customers: &'c [Customer], name: &str) -> Option<&'c Customer>
    ensures { option_map (λ c. c.now) result ≡ find (has_name name.now) customers.now }
{
    customers.iter().find(|customer| has_name(customer, name))
}

/// Whether one of these shows this key.
pub(crate) fn is_taken(customers: &[Customer], key: &str) -> bool
    ensures { result ≡ list_any (has_key key.now) customers.now }
{
    customers.iter().any(|customer| has_key(customer, key))
}

/// Whether one of these has this name.
pub(crate) fn is_named(customers: &[Customer], name: &str) -> bool
    ensures { result ≡ list_any (has_name name.now) customers.now }
{
    customers.iter().any(|customer| has_name(customer, name))
}

fn names_apart(customers: &[Customer]) -> bool
    ensures { result ≡ names_apart customers.now }
{
    match customers {
        [] => true,
        [first, rest @ ..] => !is_named(rest, first.entry.name.as_str()) && names_apart(rest),
    }
}

fn keys_apart(customers: &[Customer]) -> bool
    ensures { result ≡ keys_apart customers.now }
{
    match customers {
        [] => true,
        [first, rest @ ..] => !is_taken(rest, first.key.as_str()) && keys_apart(rest),
    }
}

/// Whether these may stand in a directory: names and keys are pairwise different.
pub fn are_customers(customers: &[Customer]) -> bool
    ensures { result ≡ are_customers customers.now }
{
    names_apart(customers) && keys_apart(customers)
}
