//! Rows of answers as notices. A value that no row of the desk has is an error.

ghost use Rattle.std.specs.Prelude.{◌≡◌, option_map, slice_get};
ghost use Rattle.sqlite.specs.Order.{column};
ghost use Rattle.hq_sql.specs.Causes.{EndsSo};
ghost use Rattle.hq_sql.specs.Rows.{kind_of, value_number, value_text, notice_shown};

use hq_kept::{Kind, Notice};
use hq_sql::{Limits, SqliteMemory, read, values};
use hq_values::WrittenText;
use sqlite::{Error, Row};

fn kind<M: SqliteMemory>(memory: M, row: &Row, at: usize) -> Result<Kind, Error>
    ensures { EndsSo M.refused M.failed result
        (λ kind. kind ≡ kind_of (value_number (column row.now at))) }
{
    let number = read::number(memory, row, at)?;
    match number {
        0 => Ok(Kind::Failure),
        1 => Ok(Kind::Delay),
        _ => Err(memory.outside(Limits::Kinds, number)),
    }
}

fn text<M: SqliteMemory>(memory: M, row: &Row, at: usize) -> Result<WrittenText, Error>
    ensures { EndsSo M.refused M.failed result (λ text. text ≡ value_text (column row.now at)) }
{
    let text = read::text(memory, row, at)?;
    Ok(WrittenText::new(text))
}

/// The notice of a row.
pub(crate) fn notice<M: SqliteMemory>(memory: M, row: &Row) -> Result<Notice, Error>
    ensures { EndsSo M.refused M.failed result (λ notice. notice ≡ (notice_shown row.now).notice) }
{
    Ok(Notice {
        number: read::number(memory, row, 1)?,
        kind: kind(memory, row, 2)?,
        serial: values::serial(memory, row, 3)?,
        at: values::moment(memory, row, 4)?,
        to: values::address(memory, row, 5)?,
        human: text(memory, row, 6)?,
        status: text(memory, row, 7)?,
    })
}

pub(crate) fn first_notice<M: SqliteMemory>(
    memory: M,
    rows: &[Row],
) -> Result<Option<Notice>, Error>
    ensures { EndsSo M.refused M.failed result (λ found. found
        ≡ option_map (λ r. (notice_shown r).notice) (slice_get rows.now 0)) }
{
    match rows.first() {
        None => Ok(None),
        Some(row) => Ok(Some(notice(memory, row)?)),
    }
}
