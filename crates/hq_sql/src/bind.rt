//! Typed values as the parameters of statements.

ghost use Rattle.std.specs.Prelude.{◌≡◌, pos, [], ◌∷◌};
ghost use Rattle.sqlite.specs.Values.{bound};
ghost use Rattle.sqlite.specs.declared.types.Value.TheVariants.{Text};
ghost use Rattle.hq_tables.specs.declared.account.Account.{Account};
ghost use Rattle.hq_sql.specs.Rows.{head_columns};
ghost use Rattle.hq_sql.specs.Causes.{EndsSo};
ghost use Rattle.hq_sql.specs.Bound.{head_numbers, message_key_columns, between_columns};

use crate::memory::SqliteMemory;
use crate::unfit::Limits;
use hq_kept::Head;
use hq_tables::Account;
use hq_values::{Name, Serial};
use sqlite::Error;
use sqlite::types::ValueRef;

/// A number as a column takes it; an error for one of 2^63 or more.
pub fn large<M: SqliteMemory>(memory: M, number: u64) -> Result<i64, Error>
    ensures { EndsSo M.refused M.failed result (λ bound. bound ≡ pos number) }
{
    match i64::try_from(number) {
        Ok(bound) => Ok(bound),
        Err(_) => Err(memory.outside(Limits::Column, number)),
    }
}

/// The key of a head.
pub(crate) fn customer<'a>(customer: &'a Name) -> [ValueRef<'a>; 1]
    ensures { bound result ≡ Text customer.now ∷ [] }
{
    [ValueRef::Text(customer.as_str().as_bytes())]
}

/// The numbers of a head, as columns take them.
#[derive(Clone, Copy, Debug, PartialEq, Eq, Drop)]
pub(crate) struct HeadNumbers {
    next_serial: i64,
    next_notice: i64,
    accepted: i64,
    delivered: i64,
    failed: i64,
    deleted: i64,
    expired: i64,
    messages: i64,
    bytes: i64,
    lines: i64,
}

/// The numbers of a head; one of 2^63 or more fits no column.
pub(crate) fn numbers<M: SqliteMemory>(memory: M, account: &Account) -> Result<HeadNumbers, Error>
    ensures { EndsSo M.refused M.failed result (λ bound. bound ≡ head_numbers account.now) }
{
    let Head {
        next_serial,
        next_notice,
        tally,
    } = account.head;
    let counts = account.counts;
    Ok(HeadNumbers {
        next_serial: large(memory, next_serial)?,
        next_notice: large(memory, next_notice)?,
        accepted: large(memory, tally.accepted)?,
        delivered: large(memory, tally.delivered)?,
        failed: large(memory, tally.failed)?,
        deleted: large(memory, tally.deleted)?,
        expired: large(memory, tally.expired)?,
        messages: large(memory, counts.messages)?,
        bytes: large(memory, counts.bytes)?,
        lines: large(memory, counts.lines)?,
    })
}

/// The columns of a head, in the order of the table.
pub(crate) fn head<'a>(customer: &'a Name, numbers: &HeadNumbers) -> [ValueRef<'a>; 11]
    ensures { (account : Account) → numbers.now ≡ head_numbers account
        → bound result ≡ head_columns (record { customer = customer.now; account = account }) }
{
    [
        ValueRef::Text(customer.as_str().as_bytes()),
        ValueRef::Int(numbers.next_serial),
        ValueRef::Int(numbers.next_notice),
        ValueRef::Int(numbers.accepted),
        ValueRef::Int(numbers.delivered),
        ValueRef::Int(numbers.failed),
        ValueRef::Int(numbers.deleted),
        ValueRef::Int(numbers.expired),
        ValueRef::Int(numbers.messages),
        ValueRef::Int(numbers.bytes),
        ValueRef::Int(numbers.lines),
    ]
}

/// The most rows of a page, as a column takes it.
#[derive(Clone, Copy, Debug, PartialEq, Eq, Drop)]
pub struct RowLimit {
    /// How many.
    pub rows: i64,
}

/// A limit as a column takes it; an error for one of 2^63 or more.
pub fn limit<M: SqliteMemory>(memory: M, limit: usize) -> Result<RowLimit, Error>
    ensures { EndsSo M.refused M.failed result (λ most. most.rows ≡ pos limit) }
{
    Ok(RowLimit {
        rows: large(memory, limit as u64)?,
    })
}

/// A serial as a column takes it.
pub fn serial(serial: Serial) -> i64
    ensures { result ≡ pos serial }
{
    serial.get() as i64
}

/// A number of 32 bits as a column takes it.
pub fn small(number: u32) -> i64
    ensures { result ≡ pos number }
{
    i64::from(number)
}

/// The key of a message.
pub fn message_key<'a>(customer: &'a Name, key: Serial) -> [ValueRef<'a>; 2]
    ensures { bound result ≡ message_key_columns (customer.now, key) }
{
    [
        ValueRef::Text(customer.as_str().as_bytes()),
        ValueRef::Int(serial(key)),
    ]
}

/// What the rows of all messages from one serial to another are asked with.
pub fn between<'a>(customer: &'a Name, low: Serial, high: Serial) -> [ValueRef<'a>; 3]
    ensures { bound result ≡ between_columns customer.now low high }
{
    [
        ValueRef::Text(customer.as_str().as_bytes()),
        ValueRef::Int(serial(low)),
        ValueRef::Int(serial(high)),
    ]
}
