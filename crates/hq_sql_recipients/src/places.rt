//! Recipients as the parameters of statements, and out of the rows of answers.

ghost use Rattle.std.specs.Prelude.{◌≡◌, ◌↔◌, true, length, map};
ghost use Rattle.std.specs.List.{list_any};
ghost use Rattle.sqlite.specs.Values.{bound};
ghost use Rattle.sqlite.specs.Order.{column};
ghost use Rattle.hq_rows.specs.Listed.{recipient_value};
ghost use Rattle.hq_sql.specs.Causes.{EndsSo};
ghost use Rattle.hq_sql.specs.Rows.{value_text, status_read, status_column};
ghost use Rattle.hq_sql.specs.Rows.{recipient_columns, recipient_shown};
ghost use Rattle.hq_sql_recipients.specs.Places.{is_far, StandsAfter};
ghost use Rattle.hq_sql_recipients.specs.Recipients.{recipient_row, range_columns, owner_columns};

use hq_kept::{Pending, Status};
use hq_sql::{Limits, SqliteMemory, bind, read, values};
use hq_values::{Items, Name, Serial, Text};
use sqlite::types::ValueRef;
use sqlite::{Error, Row};

/// The text of a status, which reads back as the status; the empty text of none.
fn status_str(status: &Option<Status>) -> &str
    ensures text { result.now ≡ status_column status.now }
    ensures back { status_read (status_column status.now) ≡ status.now }
{
    match status {
        None => "",
        Some(status) => {
            status.reads_back();
            status.as_str()
        }
    }
}

/// How many places a list takes; an error for more than 2^32 - 1.
pub(crate) fn count<M: SqliteMemory>(memory: M, pending: &[Pending]) -> Result<u32, Error>
    ensures { EndsSo M.refused M.failed result (λ count. count ≡ length pending.now) }
{
    let count = pending.len();
    match u32::try_from(count) {
        Ok(count) => Ok(count),
        Err(_) => Err(memory.outside(Limits::Places, count as u64)),
    }
}

/// The columns of a recipient at a place, in the order of the table.
pub(crate) fn columns<'a>(
    customer: &'a Name,
    serial: Serial,
    place: u32,
    recipient: &'a Pending,
) -> [ValueRef<'a>; 6]
    ensures columns { bound result
        ≡ recipient_columns (recipient_row customer.now serial place recipient.now) }
    ensures back { status_read (status_column recipient.now.status) ≡ recipient.now.status }
{
    [
        ValueRef::Text(customer.as_str().as_bytes()),
        ValueRef::Int(bind::serial(serial)),
        ValueRef::Int(bind::small(place)),
        ValueRef::Text(recipient.address.as_str().as_bytes()),
        ValueRef::Text(status_str(&recipient.status).as_bytes()),
        ValueRef::Text(recipient.text.as_str().as_bytes()),
    ]
}

/// The parameters of a statement on all recipients of a customer.
pub(crate) fn owner<'a>(customer: &'a Name) -> [ValueRef<'a>; 1]
    ensures { bound result ≡ owner_columns customer.now }
{
    [ValueRef::Text(customer.as_str().as_bytes())]
}

/// A message, and the last place of its list.
pub(crate) fn range<'a>(customer: &'a Name, serial: Serial, last: u32) -> [ValueRef<'a>; 3]
    ensures { bound result ≡ range_columns customer.now serial last }
{
    [
        ValueRef::Text(customer.as_str().as_bytes()),
        ValueRef::Int(bind::serial(serial)),
        ValueRef::Int(bind::small(last)),
    ]
}

/// The recipient of a row.
pub fn recipient<M: SqliteMemory>(memory: M, row: &Row) -> Result<Pending, Error>
    ensures { EndsSo M.refused M.failed result
        (λ pending. pending ≡ recipient_value (recipient_shown row.now)) }
{
    let address = values::address(memory, row, 3)?;
    let status = values::status(memory, row, 4)?;
    let text = values::reason(memory, row, 5)?;
    Ok(Pending {
        address,
        status,
        text,
    })
}

/// The recipients of rows, in the order of the rows.
pub(crate) fn all<M: SqliteMemory>(memory: M, rows: &[Row]) -> Result<Items<Pending>, Error>
    ensures { EndsSo M.refused M.failed result
        (λ all. all ≡ map (λ r. recipient_value (recipient_shown r)) rows.now) }
{
    let mut all = memory.none();
    for row in rows {
        let recipient = recipient(memory, row)?;
        memory.push(&mut all, recipient)?;
    }
    Ok(Items::from_vec(all))
}

/// Whether a text is that of the column.
fn is_text<M: SqliteMemory>(memory: M, row: &Row, at: usize, text: &str) -> Result<bool, Error>
    ensures { EndsSo M.refused M.failed result
        (λ is. (is ≡ true) ↔ (value_text (column row.now at) ≡ text.now)) }
{
    let found = read::text(memory, row, at)?;
    Ok(found.as_str() == text)
}

/// Whether a row has this recipient.
fn has<M: SqliteMemory>(memory: M, row: &Row, recipient: &Pending) -> Result<bool, Error>
    ensures { EndsSo M.refused M.failed result (λ has. (has ≡ true)
        ↔ (recipient_value (recipient_shown row.now) ≡ recipient.now)) }
{
    let address = is_text(memory, row, 3, recipient.address.as_str())?;
    let status = is_text(memory, row, 4, status_str(&recipient.status))?;
    let text = is_text(memory, row, 5, recipient.text.as_str())?;
    Ok(address && status && text)
}

/// Whether the recipient stands already at the place after `last`. The rows are those of all places
/// of the message, in order.
pub(crate) fn stands<M: SqliteMemory>(
    memory: M,
    rows: &[Row],
    last: u32,
    recipient: &Pending,
) -> Result<bool, Error>
    ensures { EndsSo M.refused M.failed result
        (λ stands. (stands ≡ true) ↔ StandsAfter rows.now last recipient.now) }
{
    match rows.get(last as usize) {
        None => Ok(false),
        Some(row) => {
            let place = read::number(memory, row, 2)?;
            Ok(place == u64::from(last) + 1 && has(memory, row, recipient)?)
        }
    }
}

/// Whether a row is of a place that is none of 1 to `count`.
pub(crate) fn are_beside<M: SqliteMemory>(
    memory: M,
    rows: &[Row],
    count: u32,
) -> Result<bool, Error>
    ensures { EndsSo M.refused M.failed result (λ beside. beside
        ≡ list_any (λ r. is_far count (recipient_shown r).place) rows.now) }
{
    for row in rows {
        let place = read::number(memory, row, 2)?;
        if place < 1 || u64::from(count) < place {
            return Ok(true);
        }
    }
    Ok(false)
}
