//! The rows of holds: look-up, put and drop.

ghost use Rattle.std.specs.Prelude.{◌≡◌, not, [], filter, option_map};
ghost use Rattle.std.specs.List as list;
ghost use Rattle.std.specs.FinMap as maps;
ghost use Rattle.hq_memory.specs.Making.{MadeIn};
ghost use Rattle.hq_tables.specs.Tables.{reason_of, give_reason};
ghost use Rattle.hq_rows.specs.Listed.{holds_of};
ghost use Rattle.hq_rows.specs.Lookups.{is_hold};

use hq_memory::Memory;
use hq_rows::HoldRow;
use hq_values::{Name, Serial, Text, TryCopy};
use std::alloc::AllocError;

fn find_hold<'a>(rows: &'a [HoldRow], customer: &Name, serial: Serial) -> Option<&'a HoldRow>
    ensures { option_map (λ row. row.now) result
        ≡ list.find (is_hold customer.now serial) rows.now }
{
    rows.iter().find(|row| row.is_at(customer, serial))
}

/// The reason of the customer's message of this serial; empty, where there is none.
pub fn reason_in<M: Memory>(
    memory: M,
    rows: &[HoldRow],
    customer: &Name,
    serial: Serial,
) -> Result<Text, AllocError>
    ensures { MadeIn M.refused result (λ reason. reason
        ≡ reason_of customer.now serial (holds_of rows.now)) }
{
    match find_hold(rows, customer, serial) {
        Some(row) => Ok(row.reason.copy(memory)?),
        None => Ok(Text::empty(memory)),
    }
}

fn drop_row(rows: &mut Vec<HoldRow>, customer: &Name, serial: Serial)
    ensures { rows.new.items ≡ filter
        (λ row. not (is_hold customer.now serial row)) rows.old.items }
{
    rows.retain(|row| row.is_other(customer, serial));
}

/// Drops the reason of the message.
pub fn drop_hold(rows: &mut Vec<HoldRow>, customer: &Name, serial: Serial)
    ensures { holds_of rows.new.items ≡ give_reason customer.now serial []
        (holds_of rows.old.items) }
{
    drop_row(rows, customer, serial);
}

/// Sets the reason of the message, which is not empty.
fn set_hold<M: Memory>(
    memory: M,
    rows: &mut Vec<HoldRow>,
    customer: &Name,
    serial: Serial,
    reason: &Text,
) -> Result<(), AllocError>
    ensures { MadeIn M.refused result (λ _. holds_of rows.new.items
        ≡ maps.insert (holds_of rows.old.items) (customer.now, serial) reason.now) }
{
    let row = HoldRow {
        customer: customer.copy(memory)?,
        serial,
        reason: reason.copy(memory)?,
    };
    drop_row(rows, customer, serial);
    memory.push(rows, row)?;
    Ok(())
}

/// Sets the reason of the message; an empty one is not kept.
#[tactic(auto, unfolding(hq_tables::specs::Tables::give_reason))]
pub fn put_hold<M: Memory>(
    memory: M,
    rows: &mut Vec<HoldRow>,
    customer: &Name,
    serial: Serial,
    reason: &Text,
) -> Result<(), AllocError>
    ensures { MadeIn M.refused result (λ _. holds_of rows.new.items
        ≡ give_reason customer.now serial reason.now (holds_of rows.old.items)) }
{
    if reason.as_str().is_empty() {
        drop_hold(rows, customer, serial);
        return Ok(());
    }
    set_hold(memory, rows, customer, serial, reason)
}
