//! The numbers and keys of notices and of ends as the parameters of statements.

ghost use Rattle.std.specs.Prelude.{◌≡◌, ℕ, pos};
ghost use Rattle.sqlite.specs.Values.{bound};
ghost use Rattle.hq_sql.specs.Causes.{EndsSo};
ghost use Rattle.hq_sql_notices.specs.Numbered.{number_key_columns};

use hq_sql::SqliteMemory;
use hq_sql::bind::large;
use hq_values::Name;
use sqlite::Error;
use sqlite::types::ValueRef;

/// A number, as a column takes it.
#[derive(Clone, Copy, Debug, PartialEq, Eq, Drop)]
pub(crate) struct NumberColumn {
    pub(crate) number: i64,
}

/// A number as a column takes it; an error for one of 2^63 or more.
pub(crate) fn number<M: SqliteMemory>(memory: M, number: u64) -> Result<NumberColumn, Error>
    ensures { EndsSo M.refused M.failed result (λ column. column.number ≡ pos number) }
{
    Ok(NumberColumn {
        number: large(memory, number)?,
    })
}

/// The key of what a customer has at a number.
pub(crate) fn key<'a>(customer: &'a Name, column: &NumberColumn) -> [ValueRef<'a>; 2]
    ensures { (n : ℕ) → column.now.number ≡ pos n → bound result
        ≡ number_key_columns (customer.now, n) }
{
    [
        ValueRef::Text(customer.as_str().as_bytes()),
        ValueRef::Int(column.number),
    ]
}
