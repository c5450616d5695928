//! Ends as the parameters of statements.

ghost use Rattle.std.specs.Prelude.{◌≡◌, ℕ, pos};
ghost use Rattle.sqlite.specs.Values.{bound};
ghost use Rattle.hq_values.specs.Senders.{sender_text};
ghost use Rattle.hq_sql.specs.Causes.{EndsSo};
ghost use Rattle.hq_sql.specs.Rows.{end_columns, fate_code, sender_of, status_column, status_read};
ghost use Rattle.hq_sql_notices.specs.Ends.{end_at, end_numbers, end_row};
ghost use Rattle.hq_sql_notices.specs.Ends.{newest_columns, page_columns, AreReadable};

use crate::numbered::NumberColumn;
use hq_kept::{Ended, Fate, Status};
use hq_sql::SqliteMemory;
use hq_sql::bind::{RowLimit, large};
use hq_values::{Moment, Name, Sender};
use sqlite::Error;
use sqlite::types::ValueRef;

/// The numbers of an end, as columns take them.
#[derive(Clone, Copy, Debug, PartialEq, Eq, Drop)]
pub(crate) struct EndNumbers {
    number: i64,
    at: i64,
    serial: i64,
    fate: i64,
}

/// The number that stands for what became of a recipient.
fn fate(fate: Fate) -> i64
    ensures { result ≡ pos (fate_code fate) }
{
    match fate {
        Fate::Delivered => 0,
        Fate::Failed => 1,
        Fate::Deleted => 2,
        Fate::Expired => 3,
    }
}

/// The numbers of an end; one of 2^63 or more fits no column.
pub(crate) fn numbers<M: SqliteMemory>(
    memory: M,
    number: u64,
    at: Moment,
    ended: &Ended,
) -> Result<EndNumbers, Error>
    ensures { EndsSo M.refused M.failed result
        (λ bound. bound ≡ end_numbers (end_at number at ended.now)) }
{
    Ok(EndNumbers {
        number: large(memory, number)?,
        at: large(memory, at.get())?,
        serial: large(memory, ended.serial.get())?,
        fate: fate(ended.fate),
    })
}

/// The text of a sender, which reads back as the sender.
fn sender(sender: &Sender) -> &str
    ensures text { result.now ≡ sender_text sender.now }
    ensures back { sender_of (sender_text sender.now) ≡ sender.now }
{
    sender.reads_back();
    sender.as_str()
}

/// The text of a status, which reads back as the status; the empty text of none.
fn status(status: &Option<Status>) -> &str
    ensures text { result.now ≡ status_column status.now }
    ensures back { status_read (status_column status.now) ≡ status.now }
{
    match status {
        None => "",
        Some(status) => {
            status.reads_back();
            status.as_str()
        }
    }
}

/// The columns of an end, in the order of the table.
pub(crate) fn end<'a>(
    customer: &'a Name,
    ended: &'a Ended,
    numbers: &EndNumbers,
) -> [ValueRef<'a>; 9]
    ensures columns { (n at : ℕ) → numbers.now ≡ end_numbers (end_at n at ended.now)
        → bound result ≡ end_columns (end_row customer.now (end_at n at ended.now)) }
    ensures back { AreReadable ended.now }
{
    [
        ValueRef::Text(customer.as_str().as_bytes()),
        ValueRef::Int(numbers.number),
        ValueRef::Int(numbers.at),
        ValueRef::Int(numbers.serial),
        ValueRef::Text(sender(&ended.sender).as_bytes()),
        ValueRef::Text(ended.recipient.as_str().as_bytes()),
        ValueRef::Int(numbers.fate),
        ValueRef::Text(status(&ended.status).as_bytes()),
        ValueRef::Text(ended.text.as_str().as_bytes()),
    ]
}

/// What the newest are asked with.
pub(crate) fn newest<'a>(customer: &'a Name, most: &RowLimit) -> [ValueRef<'a>; 2]
    ensures { (limit : ℕ) → most.now.rows ≡ pos limit
        → bound result ≡ newest_columns customer.now limit }
{
    [
        ValueRef::Text(customer.as_str().as_bytes()),
        ValueRef::Int(most.rows),
    ]
}

/// What a page is asked with.
pub(crate) fn page<'a>(
    customer: &'a Name,
    before: &NumberColumn,
    most: &RowLimit,
) -> [ValueRef<'a>; 3]
    ensures { (limit : ℕ) (n : ℕ) → most.now.rows ≡ pos limit → before.now.number ≡ pos n
        → bound result ≡ page_columns customer.now n limit }
{
    [
        ValueRef::Text(customer.as_str().as_bytes()),
        ValueRef::Int(before.number),
        ValueRef::Int(most.rows),
    ]
}
