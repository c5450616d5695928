//! Notices as the parameters of statements.

ghost use Rattle.std.specs.Prelude.{◌≡◌, ℕ, pos, Option as AnyOption};
ghost use Rattle.sqlite.specs.Values.{bound};
ghost use Rattle.hq_sql.specs.Causes.{EndsSo};
ghost use Rattle.hq_sql.specs.Rows.{kind_code, notice_columns};
ghost use Rattle.hq_sql_notices.specs.Notices.{from_number, notice_numbers};
ghost use Rattle.hq_sql_notices.specs.Notices.{notice_row, notice_page_columns};

use crate::numbered::{NumberColumn, number};
use hq_kept::{Kind, Notice};
use hq_sql::SqliteMemory;
use hq_sql::bind::{RowLimit, large};
use hq_values::Name;
use sqlite::Error;
use sqlite::types::ValueRef;

/// The numbers of a notice, as columns take them.
#[derive(Clone, Copy, Debug, PartialEq, Eq, Drop)]
pub(crate) struct NoticeNumbers {
    number: i64,
    kind: i64,
    serial: i64,
    at: i64,
}

/// The number that stands for a kind.
fn kind(kind: Kind) -> i64
    ensures { result ≡ pos (kind_code kind) }
{
    match kind {
        Kind::Failure => 0,
        Kind::Delay => 1,
    }
}

/// The numbers of a notice; one of 2^63 or more fits no column.
pub(crate) fn numbers<M: SqliteMemory>(memory: M, notice: &Notice) -> Result<NoticeNumbers, Error>
    ensures { EndsSo M.refused M.failed result (λ bound. bound ≡ notice_numbers notice.now) }
{
    Ok(NoticeNumbers {
        number: large(memory, notice.number)?,
        kind: kind(notice.kind),
        serial: large(memory, notice.serial.get())?,
        at: large(memory, notice.at.get())?,
    })
}

/// The columns of a notice, in the order of the table.
pub(crate) fn notice<'a>(
    customer: &'a Name,
    notice: &'a Notice,
    numbers: &NoticeNumbers,
) -> [ValueRef<'a>; 8]
    ensures { numbers.now ≡ notice_numbers notice.now
        → bound result ≡ notice_columns (notice_row customer.now notice.now) }
{
    [
        ValueRef::Text(customer.as_str().as_bytes()),
        ValueRef::Int(numbers.number),
        ValueRef::Int(numbers.kind),
        ValueRef::Int(numbers.serial),
        ValueRef::Int(numbers.at),
        ValueRef::Text(notice.to.as_str().as_bytes()),
        ValueRef::Text(notice.human.as_str().as_bytes()),
        ValueRef::Text(notice.status.as_str().as_bytes()),
    ]
}

/// The number above which notices are wanted, as a column takes it: -1 for all; an error for one of
/// 2^63 or more.
pub(crate) fn after<M: SqliteMemory>(memory: M, after: Option<u64>) -> Result<NumberColumn, Error>
    ensures { EndsSo M.refused M.failed result (λ column. column.number ≡ from_number after) }
{
    match after {
        None => Ok(NumberColumn { number: -1 }),
        Some(last) => number(memory, last),
    }
}

/// What a page is asked with.
pub(crate) fn page<'a>(
    customer: &'a Name,
    from: &NumberColumn,
    most: &RowLimit,
) -> [ValueRef<'a>; 3]
    ensures { (limit : ℕ) (after : AnyOption ℕ) → most.now.rows ≡ pos limit
        → from.now.number ≡ from_number after
        → bound result ≡ notice_page_columns customer.now after limit }
{
    [
        ValueRef::Text(customer.as_str().as_bytes()),
        ValueRef::Int(from.number),
        ValueRef::Int(most.rows),
    ]
}
