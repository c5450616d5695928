//! Values of the columns of a row. A value that no row of the desk has is an error.

ghost use Rattle.std.specs.Prelude.{◌≡◌, string_bytes};
ghost use Rattle.sqlite.specs.Order.{column};
ghost use Rattle.hq_sql.specs.Causes.{EndsSo};
ghost use Rattle.hq_sql.specs.Rows.{value_text, value_number};

use crate::memory::SqliteMemory;
use sqlite::{Error, Row};

/// The number of a column; an error where its value is none, or is negative.
pub fn number<M: SqliteMemory>(memory: M, row: &Row, at: usize) -> Result<u64, Error>
    ensures { EndsSo M.refused M.failed result (λ n. n ≡ value_number (column row.now at)) }
{
    let value = memory.get(row, at)?;
    Ok(value)
}

/// The text of a column; an error where its value is none.
pub fn text<M: SqliteMemory>(memory: M, row: &Row, at: usize) -> Result<String, Error>
    ensures { EndsSo M.refused M.failed result
        (λ t. string_bytes t ≡ value_text (column row.now at)) }
{
    let value = memory.get(row, at)?;
    Ok(value)
}
