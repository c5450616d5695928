//! What a key is for: whom it serves, and what it may ask for.

ghost use Rattle.std.specs.Prelude.{◌≡◌};
ghost use Rattle.hq_requests.specs.Directories.{held_seen, in_full};
ghost use Rattle.hq_requests.specs.Rights.{allows};

use crate::Route;
use hq_import::Right;
use hq_kept::{Customer, Entry};
use hq_values::Name;

/// Whether a right is one to a route.
pub(crate) fn allows(right: Right, route: Route) -> bool
    ensures { result ≡ allows right route }
{
    match right {
        Right::All => true,
        Right::Reading => !route.changes(),
    }
}

/// Whose an exchange is.
#[derive(Clone, Copy, Debug, Drop)]
pub struct Caller<'d> {
    /// The customer.
    pub entry: &'d Entry,
    /// The name of the key that is shown; `None` for the customer's own key, and the relay's.
    pub key: Option<&'d Name>,
}

/// What a key is for, on a route.
#[derive(Clone, Copy, Debug, Drop)]
pub struct Holder<'d> {
    /// Whom the key serves.
    pub caller: Caller<'d>,
    /// What it may ask for.
    pub right: Right,
}

/// What a key without a name is for: a customer, and every call of it.
pub(crate) fn in_full(customer: &Customer) -> Holder<'_>
    ensures seen { held_seen result ≡ in_full customer.now }
    ensures entry { result.caller.entry.now ≡ customer.now.entry }
{
    Holder {
        caller: Caller {
            entry: &customer.entry,
            key: None,
        },
        right: Right::All,
    }
}
