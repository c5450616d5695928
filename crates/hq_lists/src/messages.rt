//! The rows of messages: look-up, put, drop, counts and pages, and messages joined with their
//! recipients.

ghost use Rattle.std.specs.Prelude.{◌≡◌, ℕ, not, OnOk, [], ◌++◌, filter, option_map};
ghost use Rattle.std.specs.Prelude.{take, None, count_by};
ghost use Rattle.std.specs.List as list;
ghost use Rattle.std.specs.List.{filter_map, cons_option, sum_by};
ghost use Rattle.std.specs.FinMap as maps;
ghost use Rattle.hq_memory.specs.Making.{MadeIn};
ghost use Rattle.hq_kept.specs.Messages.{is_due};
ghost use Rattle.hq_kept.specs.declared.message.Message.{Message};
ghost use Rattle.hq_tables.specs.Tables.{row_of, message_of, reason_of};
ghost use Rattle.hq_tables.specs.Readings.{after_serial, page_of, with_spool, saturated};
ghost use Rattle.hq_rows.specs.Listed.{messages_of, holds_of, message_value};
ghost use Rattle.hq_rows.specs.Lookups.{is_message, is_past, message_row, pending_in};
ghost use Rattle.hq_rows.specs.Lookups.{serials_where, serials_after, serials_with_spool};
ghost use Rattle.hq_rows.specs.Lookups.{rows_with, has_spool, message_at, AreUnique, AreDealt};
ghost use Rattle.hq_lists.specs.Queue.{messages_read};

use crate::list_rows::QueueRows;
use crate::{holds, recipients};
use hq_kept::Message;
use hq_memory::Memory;
use hq_rows::{HoldRow, MessageRow, RecipientRow};
use hq_values::{Items, Moment, Name, Serial, Spool, TryCopy};
use std::alloc::AllocError;

fn find_message<'a>(
    rows: &'a [MessageRow],
    customer: &Name,
    serial: Serial,
) -> Option<&'a MessageRow>
    ensures { option_map (λ row. row.now) result ≡ list.find
        (is_message customer.now serial) rows.now }
{
    rows.iter().find(|row| row.is_at(customer, serial))
}

fn drop_row(rows: &mut Vec<MessageRow>, customer: &Name, serial: Serial)
    ensures { rows.new.items ≡ filter
        (λ row. not (is_message customer.now serial row)) rows.old.items }
{
    rows.retain(|row| row.is_other(customer, serial));
}

/// Drops the message, without its recipients.
pub fn drop_message(rows: &mut Vec<MessageRow>, customer: &Name, serial: Serial)
    ensures table { messages_of rows.new.items ≡ maps.remove (messages_of rows.old.items)
        (customer.now, serial) }
    ensures unique { AreUnique rows.old.items → AreUnique rows.new.items }
{
    drop_row(rows, customer, serial);
}

fn message_row<M: Memory>(
    memory: M,
    customer: &Name,
    message: &Message,
) -> Result<MessageRow, AllocError>
    ensures { MadeIn M.refused result (λ row. row ≡ message_row customer.now message.now) }
{
    let customer = customer.copy(memory)?;
    let sender = message.sender.copy(memory)?;
    let spool = message.spool.copy(memory)?;
    Ok(MessageRow {
        customer,
        serial: message.serial,
        sender,
        spool,
        size: message.size,
        arrival: message.arrival,
        state: message.state,
        next_try: message.next_try,
        attempts: message.attempts,
        warned: message.warned,
    })
}

/// Sets the message, without its recipients.
pub fn put_message<M: Memory>(
    memory: M,
    rows: &mut Vec<MessageRow>,
    customer: &Name,
    message: &Message,
) -> Result<(), AllocError>
    ensures table { MadeIn M.refused result (λ _. messages_of rows.new.items
        ≡ maps.insert (messages_of rows.old.items) (customer.now, message.now.serial)
        (row_of message.now)) }
    ensures unique { AreUnique rows.old.items → OnOk result (AreUnique rows.new.items) }
{
    let row = message_row(memory, customer, message)?;
    drop_row(rows, customer, message.serial);
    memory.push(rows, row)?;
    Ok(())
}

/// The message of a row, with its reason and its recipients.
fn joined<M: Memory>(
    memory: M,
    row: &MessageRow,
    recipients: &[RecipientRow],
    holds: &[HoldRow],
    customer: &Name,
    serial: Serial,
) -> Result<Message, AllocError>
    ensures { MadeIn M.refused result (λ message. message
        ≡ message_of serial (message_value row.now)
        (reason_of customer.now serial (holds_of holds.now))
        (pending_in customer.now serial recipients.now)) }
{
    let sender = row.sender.copy(memory)?;
    let spool = row.spool.copy(memory)?;
    let reason = holds::reason_in(memory, holds, customer, serial)?;
    let pending = recipients::pending_in(memory, recipients, customer, serial)?;
    Ok(Message {
        serial,
        sender,
        spool,
        size: row.size,
        arrival: row.arrival,
        state: row.state,
        reason,
        next_try: row.next_try,
        attempts: row.attempts,
        warned: row.warned,
        pending,
    })
}

/// The customer's message of this serial, with its recipients.
pub fn message_in<M: Memory>(
    memory: M,
    rows: QueueRows<'_>,
    customer: &Name,
    serial: Serial,
) -> Result<Option<Message>, AllocError>
    ensures { let all = rows.entry in AreDealt all.recipients.now → MadeIn M.refused result
        (λ found. found ≡ message_at customer.now all.messages.now all.recipients.now
        all.holds.now serial) }
{
    match find_message(rows.messages, customer, serial) {
        Some(row) => Ok(Some(joined(memory, row, rows.recipients, rows.holds, customer, serial)?)),
        None => Ok(None),
    }
}

/// How many messages the customer has.
pub fn count_in(rows: &[MessageRow], customer: &Name) -> u64
    ensures { result ≡ count_by (is_past customer.now None) rows.now }
{
    rows.iter()
        .filter(|row| row.is_past(customer, None))
        .count() as u64
}

/// The bytes of the customer's messages together; they stay at the greatest `u64`.
pub fn bytes_in(rows: &[MessageRow], customer: &Name) -> u64
    ensures { result ≡ saturated (sum_by (λ row. row.size)
        (filter (is_past customer.now None) rows.now)) }
{
    let mut bytes: u64 = 0;
    for row in rows {
        if row.is_past(customer, None) {
            bytes = bytes.saturating_add(u64::from(row.size));
        }
    }
    bytes
}

/// The number of a serial, where there is one.
fn number_of(serial: Option<Serial>) -> Option<u64>
    ensures { result ≡ serial }
{
    match serial {
        None => None,
        Some(serial) => Some(serial.get()),
    }
}

fn serials_past<M: Memory>(
    memory: M,
    rows: &[MessageRow],
    customer: &Name,
    after: Option<u64>,
) -> Result<Vec<Serial>, AllocError>
    ensures { MadeIn M.refused result (λ serials. serials.items ≡ serials_where
        (is_past customer.now after) rows.now) }
{
    let mut serials = memory.none();
    for row in rows {
        if row.is_past(customer, after) {
            memory.push(&mut serials, row.serial)?;
        }
    }
    Ok(serials)
}

/// The serials of the customer's messages after a serial, in order.
fn sorted_serials<M: Memory>(
    memory: M,
    rows: &[MessageRow],
    customer: &Name,
    after: Option<u64>,
) -> Result<Vec<Serial>, AllocError>
    ensures { AreUnique rows.now → MadeIn M.refused result
        (λ serials. serials.items ≡ serials_after after (rows_with customer.now rows.now)) }
{
    let mut serials = serials_past(memory, rows, customer, after)?;
    serials.sort_unstable();
    Ok(serials)
}

fn push_found<M: Memory>(
    memory: M,
    page: &mut Vec<Message>,
    found: Option<Message>,
) -> Result<(), AllocError>
    ensures { MadeIn M.refused result
        (λ _. page.new.items ≡ page.old.items ++ cons_option found []) }
{
    if let Some(message) = found {
        memory.push(page, message)?;
    }
    Ok(())
}

fn messages_at<M: Memory>(
    memory: M,
    rows: QueueRows<'_>,
    customer: &Name,
    serials: &[Serial],
) -> Result<Vec<Message>, AllocError>
    ensures { let all = rows.entry in AreDealt all.recipients.now → MadeIn M.refused result
        (λ page. page.items ≡ filter_map (message_at customer.now all.messages.now
        all.recipients.now all.holds.now) serials.now) }
{
    let mut page = memory.none();
    for serial in serials {
        let found = message_in(memory, rows, customer, *serial)?;
        push_found(memory, &mut page, found)?;
    }
    Ok(page)
}

/// The customer's messages in order of serial: the first `limit` after the serial, or of all.
pub fn page_in<M: Memory>(
    memory: M,
    rows: QueueRows<'_>,
    customer: &Name,
    after: Option<Serial>,
    limit: usize,
) -> Result<Items<Message>, AllocError>
    ensures { let all = rows.entry in AreUnique all.messages.now → AreDealt all.recipients.now
        → MadeIn M.refused result (λ page. page ≡ page_of after limit (messages_read
        customer.now all.messages.now all.recipients.now all.holds.now)) }
{
    let mut serials = sorted_serials(memory, rows.messages, customer, number_of(after))?;
    serials.truncate(limit);
    let page = messages_at(memory, rows, customer, serials.as_slice())?;
    Ok(Items::from_vec(page))
}

/// The customer's messages that may be tried at a moment, in order of serial: the first `limit`
/// after the serial, or of all.
pub fn due_in<M: Memory>(
    memory: M,
    rows: QueueRows<'_>,
    customer: &Name,
    at: Moment,
    after: Option<Serial>,
    limit: usize,
) -> Result<Items<Message>, AllocError>
    ensures { let all = rows.entry in AreUnique all.messages.now → AreDealt all.recipients.now
        → MadeIn M.refused result (λ page. page ≡ take limit (filter (is_due at)
        (after_serial after (messages_read customer.now all.messages.now all.recipients.now
        all.holds.now)))) }
{
    let serials = sorted_serials(memory, rows.messages, customer, number_of(after))?;
    let mut page = messages_at(memory, rows, customer, serials.as_slice())?;
    page.retain(|message| message.is_due(at));
    page.truncate(limit);
    Ok(Items::from_vec(page))
}

fn serials_having<M: Memory>(
    memory: M,
    rows: &[MessageRow],
    customer: &Name,
    spool: &Spool,
) -> Result<Vec<Serial>, AllocError>
    ensures { MadeIn M.refused result (λ serials. serials.items ≡ serials_where
        (has_spool customer.now spool.now) rows.now) }
{
    let mut serials = memory.none();
    for row in rows {
        if row.has_spool(customer, spool) {
            memory.push(&mut serials, row.serial)?;
        }
    }
    Ok(serials)
}

/// The serials of the customer's messages with this spool name, in order.
fn sorted_having<M: Memory>(
    memory: M,
    rows: &[MessageRow],
    customer: &Name,
    spool: &Spool,
) -> Result<Vec<Serial>, AllocError>
    ensures { AreUnique rows.now → MadeIn M.refused result
        (λ serials. serials.items
        ≡ serials_with_spool spool.now (rows_with customer.now rows.now)) }
{
    let mut serials = serials_having(memory, rows, customer, spool)?;
    serials.sort_unstable();
    Ok(serials)
}

/// The customer's message with this spool name, the one of the smallest serial where several have
/// it.
pub fn by_spool_in<M: Memory>(
    memory: M,
    rows: QueueRows<'_>,
    customer: &Name,
    spool: &Spool,
) -> Result<Option<Message>, AllocError>
    ensures { let all = rows.entry in AreUnique all.messages.now → AreDealt all.recipients.now
        → MadeIn M.refused result (λ found. found ≡ with_spool spool.now (messages_read
        customer.now all.messages.now all.recipients.now all.holds.now)) }
{
    let serials = sorted_having(memory, rows.messages, customer, spool)?;
    match serials.as_slice().first() {
        None => Ok(None),
        Some(serial) => Ok(message_in(memory, rows, customer, *serial)?),
    }
}
