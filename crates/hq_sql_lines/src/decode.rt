//! Rows of answers as lines and marks. A value that no row of the desk has is an error.

ghost use Rattle.std.specs.Prelude.{◌≡◌, option_map, slice_get, is_some};
ghost use Rattle.hq_rows.specs.Listed.{line_row_value, mark_value};
ghost use Rattle.hq_sql.specs.Causes.{EndsSo};
ghost use Rattle.hq_sql.specs.Rows.{line_shown, mark_shown};
ghost use Rattle.hq_sql_lines.specs.LinePages.{page_line};

use crate::read;
use hq_kept::{Action, Line, Mark};
use hq_sql::SqliteMemory;
use hq_sql::read::number;
use sqlite::{Error, Row};

pub(crate) fn first_action<M: SqliteMemory>(
    memory: M,
    rows: &[Row],
) -> Result<Option<Action>, Error>
    ensures { EndsSo M.refused M.failed result (λ found. found
        ≡ option_map (λ r. line_row_value (line_shown r)) (slice_get rows.now 0)) }
{
    match rows.first() {
        None => Ok(None),
        Some(row) => Ok(Some(read::action(memory, row, 3)?)),
    }
}

/// Whether there is a row.
pub(crate) fn has_first(rows: &[Row]) -> bool
    ensures { result ≡ is_some (slice_get rows.now 0) }
{
    rows.first().is_some()
}

/// The line of a row.
pub(crate) fn line<M: SqliteMemory>(memory: M, row: &Row) -> Result<Line, Error>
    ensures { EndsSo M.refused M.failed result (λ line. line ≡ page_line row.now) }
{
    let pattern = read::pattern(memory, row, 1, 2)?;
    let action = read::action(memory, row, 3)?;
    Ok(Line { pattern, action })
}

/// The mark of a row.
fn mark<M: SqliteMemory>(memory: M, row: &Row) -> Result<Mark, Error>
    ensures { EndsSo M.refused M.failed result (λ mark. mark ≡ mark_value (mark_shown row.now)) }
{
    Ok(Mark {
        label: read::label(memory, row, 1)?,
        digest: read::digest(memory, row, 2)?,
        added: number(memory, row, 3)?,
        changed: number(memory, row, 4)?,
        same: number(memory, row, 5)?,
    })
}

/// The mark of the first row.
pub(crate) fn first_mark<M: SqliteMemory>(memory: M, rows: &[Row]) -> Result<Option<Mark>, Error>
    ensures { EndsSo M.refused M.failed result (λ found. found
        ≡ option_map (λ r. mark_value (mark_shown r)) (slice_get rows.now 0)) }
{
    match rows.first() {
        None => Ok(None),
        Some(row) => Ok(Some(mark(memory, row)?)),
    }
}
