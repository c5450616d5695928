//! Whom a call of all asks: every customer, or at most 100 of them.

ghost use Rattle.std.specs.Prelude.{◌≡◌, take, drop};
ghost use Rattle.hq_requests.specs.Spans as spans;

use crate::directory::Directory;
use hq_import::has_name;
use hq_kept::Customer;
use hq_values::Name;

/// The most customers that are asked from one on.
const MOST_ASKED: usize = 100;

/// Whom a call of all asks.
#[derive(Clone, Copy, Drop)]
pub enum Span<'d> {
    /// Every customer.
    Everyone,
    /// At most 100 customers: from the one of this name on, or from the first.
    From(Option<&'d Name>),
}

/// The customers from the one of this name on.
fn from_name<'c>(customers: &'c [Customer], name: &Name) -> &'c [Customer]
    ensures { result.now ≡ spans.from_name name.now customers.now }
{
    match customers {
        [] => customers,
        [first, rest @ ..] => {
            if has_name(first, name.as_str()) {
                customers
            } else {
                from_name(rest, name)
            }
        }
    }
}

/// The first of these customers, and all others.
fn first_and_rest(customers: &[Customer]) -> (&[Customer], &[Customer])
    ensures first { result.0.now ≡ take 100 customers.now }
    ensures rest { result.1.now ≡ drop 100 customers.now }
{
    if customers.len() <= MOST_ASKED {
        return (customers, &[]);
    }
    customers.split_at(MOST_ASKED)
}

/// The customers that are asked, in the order of the directory, and those behind them, of whom the
/// reply tells the first.
pub fn asked_in<'d>(directory: &'d Directory, span: Span<'_>) -> (&'d [Customer], &'d [Customer])
    ensures asked { result.0.now ≡ spans.asked_in directory.now (spans.whom_seen span.entry) }
    ensures unasked { result.1.now ≡ spans.unasked_in directory.now (spans.whom_seen span.entry) }
{
    let customers = directory.customers();
    match span {
        Span::Everyone => (customers, &[]),
        Span::From(None) => first_and_rest(customers),
        Span::From(Some(name)) => first_and_rest(from_name(customers, name)),
    }
}
