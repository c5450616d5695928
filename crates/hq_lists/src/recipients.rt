//! The rows of recipients: those of one message read, dealt anew, and dropped.

ghost use Rattle.std.specs.Prelude.{◌≡◌, not, OnOk, [], ◌++◌, filter};
ghost use Rattle.hq_memory.specs.Making.{MadeIn};
ghost use Rattle.hq_tables.specs.Tables.{deal};
ghost use Rattle.hq_rows.specs.Listed.{recipients_of};
ghost use Rattle.hq_rows.specs.Lookups.{is_recipient, recipient_rows, pending_in, AreDealt};

use hq_kept::Pending;
use hq_memory::Memory;
use hq_rows::RecipientRow;
use hq_values::{Items, Name, Serial, TryCopy};
use std::alloc::AllocError;

fn drop_rows(rows: &mut Vec<RecipientRow>, customer: &Name, serial: Serial)
    ensures { rows.new.items ≡ filter
        (λ row. not (is_recipient customer.now serial row)) rows.old.items }
{
    rows.retain(|row| row.is_other(customer, serial));
}

fn add_rows<M: Memory>(
    memory: M,
    rows: &mut Vec<RecipientRow>,
    customer: &Name,
    serial: Serial,
    pending: &[Pending],
) -> Result<(), AllocError>
    ensures { MadeIn M.refused result (λ _. rows.new.items ≡ rows.old.items
        ++ recipient_rows customer.now serial 1 pending.now) }
{
    let mut place = 1;
    for recipient in pending {
        let row = RecipientRow {
            customer: customer.copy(memory)?,
            serial,
            place,
            pending: recipient.copy(memory)?,
        };
        memory.push(rows, row)?;
        place += 1;
    }
    Ok(())
}

/// Deals the message these recipients in place of all that it had.
pub fn put_recipients<M: Memory>(
    memory: M,
    rows: &mut Vec<RecipientRow>,
    customer: &Name,
    serial: Serial,
    pending: &[Pending],
) -> Result<(), AllocError>
    ensures table { MadeIn M.refused result (λ _. recipients_of rows.new.items
        ≡ deal customer.now serial pending.now (recipients_of rows.old.items)) }
    ensures dealt { AreDealt rows.old.items → OnOk result (AreDealt rows.new.items) }
{
    drop_rows(rows, customer, serial);
    add_rows(memory, rows, customer, serial, pending)?;
    Ok(())
}

/// Drops all recipients of the message.
pub fn drop_recipients(rows: &mut Vec<RecipientRow>, customer: &Name, serial: Serial)
    ensures table { recipients_of rows.new.items ≡ deal customer.now serial []
        (recipients_of rows.old.items) }
    ensures dealt { AreDealt rows.old.items → AreDealt rows.new.items }
{
    drop_rows(rows, customer, serial);
}

/// The recipients of the message, in the order of their rows.
pub fn pending_in<M: Memory>(
    memory: M,
    rows: &[RecipientRow],
    customer: &Name,
    serial: Serial,
) -> Result<Items<Pending>, AllocError>
    ensures { MadeIn M.refused result
        (λ pending. pending ≡ pending_in customer.now serial rows.now) }
{
    let mut pending = memory.none();
    for row in rows {
        if row.is_at(customer, serial) {
            memory.push(&mut pending, row.pending.copy(memory)?)?;
        }
    }
    Ok(Items::from_vec(pending))
}
