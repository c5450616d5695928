//! The table of notices: one, put or found, and old ones dropped.

ghost use Rattle.std.specs.Prelude.{option_map, slice_get, IfErr};
ghost use Rattle.std.specs.FinMap.{get};
ghost use Rattle.sqlite.specs.Held.{state};
ghost use Rattle.hq_tables.specs.Tables.{Noted, notice_of};
ghost use Rattle.hq_sql.specs.Causes.{HasCause};
ghost use Rattle.hq_sql.specs.Kept.{Shows, Yields, Writes, Adds, Intact};
ghost use Rattle.hq_sql.specs.Kept.{KeepsCommitted};
ghost use Rattle.hq_sql.specs.Rows.{notice_shown};
ghost use Rattle.hq_sql_notices.specs.Notices.{notice_row, with_notice, without_notice};
ghost use Rattle.hq_sql_notices.specs.Notices.{without_below};

use crate::{notice_rows, notice_values, numbered};
use hq_kept::Notice;
use hq_sql::SqliteMemory;
use hq_values::Name;
use sqlite::{Alter, Connection, Error, Row};

fn query<S: Alter, M: SqliteMemory>(
    memory: M,
    conn: &mut Connection<S>,
    customer: &Name,
    number: u64,
) -> Result<Vec<Row>, Error>
    ensures found { Shows (state S.Store conn.old) (state S.Store conn.new) result
        (λ rows. option_map (λ r. (notice_shown r).notice) (slice_get rows.items 0))
        (λ t. option_map (λ (n : Noted). notice_of (number, n))
        (get t.notices (customer.now, number))) }
    ensures kept { Intact (state S.Store conn.old) (state S.Store conn.new) result }
    ensures cause { IfErr result (HasCause M.refused M.failed) }
{
    let column = numbered::number(memory, number)?;
    let params = numbered::key(customer, &column);
    let rows = memory.query_all(
        conn,
        "SELECT customer, number, kind, serial, moment, sender, human, status FROM notices \
         WHERE customer = ?1 AND number = ?2",
        &params,
    )?;
    Ok(rows)
}

/// The customer's notice of this number; an error for a number of 2^63 or more.
pub fn notice<S: Alter, M: SqliteMemory>(
    memory: M,
    conn: &mut Connection<S>,
    customer: &Name,
    number: u64,
) -> Result<Option<Notice>, Error>
    ensures found { Yields (state S.Store conn.old) (state S.Store conn.new) result
        (λ t. option_map (λ (n : Noted). notice_of (number, n))
        (get t.notices (customer.now, number))) }
    ensures kept { Intact (state S.Store conn.old) (state S.Store conn.new) result }
    ensures cause { IfErr result (HasCause M.refused M.failed) }
{
    let rows = query(memory, conn, customer, number)?;
    notice_rows::first_notice(memory, rows.as_slice())
}

/// Drops the notice of a number; nothing where there is none.
fn remove<S: Alter, M: SqliteMemory>(
    memory: M,
    conn: &mut Connection<S>,
    customer: &Name,
    number: u64,
) -> Result<(), Error>
    ensures made { Writes (state S.Store conn.old) (state S.Store conn.new) result
        (without_notice (customer.now, number)) }
    ensures kept { KeepsCommitted (state S.Store conn.old) (state S.Store conn.new) }
    ensures cause { IfErr result (HasCause M.refused M.failed) }
{
    let column = numbered::number(memory, number)?;
    let params = numbered::key(customer, &column);
    memory.execute(
        conn,
        "DELETE FROM notices WHERE customer = ?1 AND number = ?2",
        &params,
    )?;
    Ok(())
}

/// Adds a notice, and tells whether its number had one: then nothing changed.
fn insert<S: Alter, M: SqliteMemory>(
    memory: M,
    conn: &mut Connection<S>,
    customer: &Name,
    notice: &Notice,
) -> Result<bool, Error>
    ensures made { Adds (state S.Store conn.old) (state S.Store conn.new) result
        (λ t. get t.notices (customer.now, notice.now.number))
        (with_notice (notice_row customer.now notice.now)) }
    ensures kept { KeepsCommitted (state S.Store conn.old) (state S.Store conn.new) }
    ensures cause { IfErr result (HasCause M.refused M.failed) }
{
    let numbers = notice_values::numbers(memory, notice)?;
    let params = notice_values::notice(customer, notice, &numbers);
    let there = memory.try_insert(
        conn,
        "INSERT INTO notices (customer, number, kind, serial, moment, sender, human, status) \
         VALUES (?1, ?2, ?3, ?4, ?5, ?6, ?7, ?8)",
        &params,
    )?;
    Ok(there)
}

/// Sets the notice of its number: a new row replaces the one that is there.
pub fn put<S: Alter, M: SqliteMemory>(
    memory: M,
    conn: &mut Connection<S>,
    customer: &Name,
    notice: &Notice,
) -> Result<(), Error>
    ensures made { Writes (state S.Store conn.old) (state S.Store conn.new) result
        (with_notice (notice_row customer.now notice.now)) }
    ensures kept { KeepsCommitted (state S.Store conn.old) (state S.Store conn.new) }
    ensures cause { IfErr result (HasCause M.refused M.failed) }
{
    if insert(memory, conn, customer, notice)? {
        remove(memory, conn, customer, notice.number)?;
        insert(memory, conn, customer, notice)?;
    }
    Ok(())
}

/// Drops the notices of numbers below this one.
pub fn drop_below<S: Alter, M: SqliteMemory>(
    memory: M,
    conn: &mut Connection<S>,
    customer: &Name,
    number: u64,
) -> Result<(), Error>
    ensures made { Writes (state S.Store conn.old) (state S.Store conn.new) result
        (without_below customer.now number) }
    ensures kept { KeepsCommitted (state S.Store conn.old) (state S.Store conn.new) }
    ensures cause { IfErr result (HasCause M.refused M.failed) }
{
    let column = numbered::number(memory, number)?;
    let params = numbered::key(customer, &column);
    memory.execute(
        conn,
        "DELETE FROM notices WHERE customer = ?1 AND number < ?2",
        &params,
    )?;
    Ok(())
}
