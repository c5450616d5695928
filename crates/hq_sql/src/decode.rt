//! Rows of answers as heads.

ghost use Rattle.std.specs.Prelude.{◌≡◌, option_map, slice_get};
ghost use Rattle.hq_rows.specs.Listed.{head_value};
ghost use Rattle.hq_sql.specs.Causes.{EndsSo};
ghost use Rattle.hq_sql.specs.Rows.{head_shown};

use crate::memory::SqliteMemory;
use crate::read;
use hq_kept::{Counts, Head, Tally};
use hq_tables::Account;
use sqlite::{Error, Row};

fn tally<M: SqliteMemory>(memory: M, row: &Row) -> Result<Tally, Error>
    ensures { EndsSo M.refused M.failed result
        (λ tally. tally ≡ (head_value (head_shown row.now)).head.tally) }
{
    Ok(Tally {
        accepted: read::number(memory, row, 3)?,
        delivered: read::number(memory, row, 4)?,
        failed: read::number(memory, row, 5)?,
        deleted: read::number(memory, row, 6)?,
        expired: read::number(memory, row, 7)?,
    })
}

fn counts<M: SqliteMemory>(memory: M, row: &Row) -> Result<Counts, Error>
    ensures { EndsSo M.refused M.failed result
        (λ counts. counts ≡ (head_value (head_shown row.now)).counts) }
{
    Ok(Counts {
        messages: read::number(memory, row, 8)?,
        bytes: read::number(memory, row, 9)?,
        lines: read::number(memory, row, 10)?,
    })
}

fn account_of<M: SqliteMemory>(memory: M, row: &Row) -> Result<Account, Error>
    ensures { EndsSo M.refused M.failed result
        (λ account. account ≡ head_value (head_shown row.now)) }
{
    let head = Head {
        next_serial: read::number(memory, row, 1)?,
        next_notice: read::number(memory, row, 2)?,
        tally: tally(memory, row)?,
    };
    let counts = counts(memory, row)?;
    Ok(Account { head, counts })
}

pub(crate) fn first_account<M: SqliteMemory>(
    memory: M,
    rows: &[Row],
) -> Result<Option<Account>, Error>
    ensures { EndsSo M.refused M.failed result (λ found. found
        ≡ option_map (λ r. head_value (head_shown r)) (slice_get rows.now 0)) }
{
    match rows.first() {
        None => Ok(None),
        Some(row) => Ok(Some(account_of(memory, row)?)),
    }
}
