//! The customer that an administrator names.

ghost use Rattle.std.specs.Prelude.{◌≡◌};
ghost use Rattle.std.specs.List.{find};
ghost use Rattle.hq_values.specs.Readers.{Reads};
ghost use Rattle.hq_kept.specs.Customers.{has_name};
ghost use Rattle.hq_admin.specs.Customers.{entry_named};

use hq_import::{directory_of, has_name};
use hq_kept::{Customer, Entry};
use hq_values::{Fail, Refusal};
use std::alloc::Global;

/// The first of these with this name.
fn with_name(customers: Vec<Customer>, name: &str) -> Option<Customer>
    ensures { result ≡ find (has_name name.now) customers.items }
{
    customers
        .into_iter()
        .find(|customer| has_name(customer, name))
}

/// The customer of this name, byte for byte, in a directory, a CSV file. Refused at the file's
/// first fault, as 53 `BadDirectory`, 54 `DoubledName` or 55 `DoubledKey`; and where it is good, as
/// 13 `NoCustomer` if no customer has the name. The only other error is want of memory.
pub fn customer_in(alloc: Global, file: &[u8], name: &str) -> Result<Entry, Fail>
    ensures { Reads result (entry_named file.now name.now) }
{
    let customers = directory_of(alloc, file)?;
    match with_name(customers, name) {
        Some(customer) => Ok(customer.entry),
        None => Err(Fail::Refused(Refusal::NoCustomer)),
    }
}
