//! Rows of answers as ends. A value that no row of the desk has is an error.

ghost use Rattle.std.specs.Prelude.{◌≡◌};
ghost use Rattle.sqlite.specs.Order.{column};
ghost use Rattle.hq_sql.specs.Causes.{EndsSo};
ghost use Rattle.hq_sql.specs.Rows.{fate_of, value_number};
ghost use Rattle.hq_sql.specs.Rows.{end_shown};

use hq_kept::{End, Ended, Fate};
use hq_sql::{Limits, SqliteMemory, read, values};
use sqlite::{Error, Row};

fn fate<M: SqliteMemory>(memory: M, row: &Row, at: usize) -> Result<Fate, Error>
    ensures { EndsSo M.refused M.failed result
        (λ fate. fate ≡ fate_of (value_number (column row.now at))) }
{
    let number = read::number(memory, row, at)?;
    match number {
        0 => Ok(Fate::Delivered),
        1 => Ok(Fate::Failed),
        2 => Ok(Fate::Deleted),
        3 => Ok(Fate::Expired),
        _ => Err(memory.outside(Limits::Fates, number)),
    }
}

/// What became of the recipient of a row.
fn ended<M: SqliteMemory>(memory: M, row: &Row) -> Result<Ended, Error>
    ensures { EndsSo M.refused M.failed result (λ ended. ended ≡ (end_shown row.now).end.ended) }
{
    Ok(Ended {
        serial: values::serial(memory, row, 3)?,
        sender: values::sender(memory, row, 4)?,
        recipient: values::address(memory, row, 5)?,
        fate: fate(memory, row, 6)?,
        status: values::status(memory, row, 7)?,
        text: values::reason(memory, row, 8)?,
    })
}

/// The end of a row.
pub(crate) fn end<M: SqliteMemory>(memory: M, row: &Row) -> Result<End, Error>
    ensures { EndsSo M.refused M.failed result (λ end. end ≡ (end_shown row.now).end) }
{
    Ok(End {
        number: read::number(memory, row, 1)?,
        at: values::moment(memory, row, 2)?,
        ended: ended(memory, row)?,
    })
}
