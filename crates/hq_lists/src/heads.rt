//! The list of heads: look-up and put. None of them has counts: what a customer keeps is counted by
//! a walk over its rows.

ghost use Rattle.std.specs.Prelude.{◌≡◌, not, filter, option_map};
ghost use Rattle.std.specs.List as list;
ghost use Rattle.std.specs.FinMap as maps;
ghost use Rattle.hq_memory.specs.Making.{MadeIn};
ghost use Rattle.hq_tables.specs.Readings.{counts_told};
ghost use Rattle.hq_rows.specs.Lookups.{AreUnique, AreUniqueLines};
ghost use Rattle.hq_lists.specs.Heads.{is_head, heads_listed, head_of, with_some_head};
ghost use Rattle.hq_lists.specs.Lists.{counts_in};

use crate::{lines, messages};
use hq_kept::{Counts, Head};
use hq_memory::Memory;
use hq_rows::{LineRow, MessageRow};
use hq_tables::Account;
use hq_values::{Name, TryCopy};
use std::alloc::AllocError;

/// A customer's head.
#[derive(Drop)]
pub struct ListedHead {
    /// Whose it is.
    pub customer: Name,
    /// The head.
    pub head: Head,
}

impl TryCopy for ListedHead {
    fn copy<M: Memory>(&self, memory: M) -> Result<ListedHead, AllocError> {
        let customer = self.customer.copy(memory)?;
        Ok(ListedHead {
            customer,
            head: self.head,
        })
    }
}

impl ListedHead {
    /// Whether it is the customer's.
    #[tactic(auto, unfolding(crate::specs::Heads::is_head))]
    fn is_of(&self, customer: &Name) -> bool
        ensures { result ≡ is_head customer.now self.now }
    {
        customer.as_str().cmp(self.customer.as_str()).is_eq()
    }

    /// Whether it is another customer's.
    fn is_other(&self, customer: &Name) -> bool
        ensures { result ≡ not (is_head customer.now self.now) }
    {
        !self.is_of(customer)
    }
}

fn find_head<'a>(rows: &'a [ListedHead], customer: &Name) -> Option<&'a ListedHead>
    ensures { option_map (λ row. row.now) result ≡ list.find (is_head customer.now) rows.now }
{
    rows.iter().find(|row| row.is_of(customer))
}

/// The customer's head, or that of a customer of whom nothing is kept.
fn head_in(rows: &[ListedHead], customer: &Name) -> Head
    ensures { result ≡ head_of (heads_listed rows.now) customer.now }
{
    match find_head(rows, customer) {
        Some(row) => row.head,
        None => Account::opening().head,
    }
}

/// The customer's head, and how much it keeps: counted row by row.
pub fn account_in(
    heads: &[ListedHead],
    messages: &[MessageRow],
    lines: &[LineRow],
    customer: &Name,
) -> Account
    ensures { AreUnique messages.now → AreUniqueLines lines.now → result ≡ record {
      head = head_of (heads_listed heads.now) customer.now;
      counts = counts_told (counts_in messages.now lines.now customer.now);
    } }
{
    let counts = Counts {
        messages: messages::count_in(messages, customer),
        bytes: messages::bytes_in(messages, customer),
        lines: lines::count_in(lines, customer),
    };
    Account {
        head: head_in(heads, customer),
        counts,
    }
}

fn drop_head(rows: &mut Vec<ListedHead>, customer: &Name)
    ensures { rows.new.items ≡ filter (λ row. not (is_head customer.now row)) rows.old.items }
{
    rows.retain(|row| row.is_other(customer));
}

/// Sets the customer's head.
pub fn put_head<M: Memory>(
    memory: M,
    rows: &mut Vec<ListedHead>,
    customer: &Name,
    head: Head,
) -> Result<(), AllocError>
    ensures { MadeIn M.refused result (λ _. heads_listed rows.new.items
        ≡ maps.insert (heads_listed rows.old.items) customer.now head) }
{
    let row = ListedHead {
        customer: customer.copy(memory)?,
        head,
    };
    drop_head(rows, customer);
    memory.push(rows, row)?;
    Ok(())
}

/// Gives the customer the head of a customer of whom nothing is kept, where it has none.
pub fn keep_head<M: Memory>(
    memory: M,
    rows: &mut Vec<ListedHead>,
    customer: &Name,
) -> Result<(), AllocError>
    ensures { MadeIn M.refused result (λ _. heads_listed rows.new.items
        ≡ with_some_head customer.now (heads_listed rows.old.items)) }
{
    if find_head(rows.as_slice(), customer).is_some() {
        return Ok(());
    }
    put_head(memory, rows, customer, Account::opening().head)?;
    Ok(())
}
