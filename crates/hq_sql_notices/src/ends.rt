//! The table of ends: those of one call put, and old ones dropped.

ghost use Rattle.std.specs.Prelude.{IfErr};
ghost use Rattle.std.specs.FinMap.{get};
ghost use Rattle.sqlite.specs.Held.{state};
ghost use Rattle.hq_sql.specs.Causes.{HasCause};
ghost use Rattle.hq_sql.specs.Kept.{Writes, Inserts};
ghost use Rattle.hq_sql.specs.Kept.{KeepsCommitted};
ghost use Rattle.hq_sql_notices.specs.Ends.{end_at, end_row, with_end, with_ends, without_above};
ghost use Rattle.hq_sql_notices.specs.Ends.{without_to};

use crate::{end_values, numbered};
use hq_kept::{Ended, Ends};
use hq_sql::{Limits, SqliteMemory};
use hq_values::{Moment, Name};
use sqlite::{Alter, Connection, Error};

/// Drops the ends of numbers above this one.
fn drop_above<S: Alter, M: SqliteMemory>(
    memory: M,
    conn: &mut Connection<S>,
    customer: &Name,
    number: u64,
) -> Result<(), Error>
    ensures made { Writes (state S.Store conn.old) (state S.Store conn.new) result
        (without_above customer.now number) }
    ensures kept { KeepsCommitted (state S.Store conn.old) (state S.Store conn.new) }
    ensures cause { IfErr result (HasCause M.refused M.failed) }
{
    let column = numbered::number(memory, number)?;
    let params = numbered::key(customer, &column);
    memory.execute(
        conn,
        "DELETE FROM ends WHERE customer = ?1 AND number > ?2",
        &params,
    )?;
    Ok(())
}

/// Adds an end of a new number.
fn insert<S: Alter, M: SqliteMemory>(
    memory: M,
    conn: &mut Connection<S>,
    customer: &Name,
    number: u64,
    at: Moment,
    ended: &Ended,
) -> Result<(), Error>
    ensures made { Inserts (state S.Store conn.old) (state S.Store conn.new) result
        (λ t. get t.ends (customer.now, number))
        (with_end (end_row customer.now (end_at number at ended.now))) }
    ensures kept { KeepsCommitted (state S.Store conn.old) (state S.Store conn.new) }
    ensures cause { IfErr result (HasCause M.refused M.failed) }
{
    let numbers = end_values::numbers(memory, number, at, ended)?;
    let params = end_values::end(customer, ended, &numbers);
    memory.execute(
        conn,
        "INSERT INTO ends (customer, number, moment, serial, sender, recipient, fate, status, \
         reason) VALUES (?1, ?2, ?3, ?4, ?5, ?6, ?7, ?8, ?9)",
        &params,
    )?;
    Ok(())
}

/// Sets these ends, in place of all from the number of the first of them on. Each is added at once,
/// since no end stands at its number then. More of them than the number of the last are an error.
pub fn put<S: Alter, M: SqliteMemory>(
    memory: M,
    conn: &mut Connection<S>,
    customer: &Name,
    ends: &Ends,
) -> Result<(), Error>
    ensures made { Writes (state S.Store conn.old) (state S.Store conn.new) result
        (with_ends customer.now ends.now) }
    ensures kept { KeepsCommitted (state S.Store conn.old) (state S.Store conn.new) }
    ensures cause { IfErr result (HasCause M.refused M.failed) }
{
    let count = ends.ended.len() as u64;
    let Some(before) = ends.last.checked_sub(count) else {
        // The number before the first of them would be negative.
        return Err(memory.outside(Limits::UpTo(ends.last), count));
    };
    drop_above(memory, conn, customer, before)?;
    let mut number = before;
    for ended in ends.ended.as_slice() {
        number += 1;
        insert(memory, conn, customer, number, ends.at, ended)?;
    }
    Ok(())
}

/// Drops the ends of numbers up to this one.
pub fn drop_to<S: Alter, M: SqliteMemory>(
    memory: M,
    conn: &mut Connection<S>,
    customer: &Name,
    number: u64,
) -> Result<(), Error>
    ensures made { Writes (state S.Store conn.old) (state S.Store conn.new) result
        (without_to customer.now number) }
    ensures kept { KeepsCommitted (state S.Store conn.old) (state S.Store conn.new) }
    ensures cause { IfErr result (HasCause M.refused M.failed) }
{
    let column = numbered::number(memory, number)?;
    let params = numbered::key(customer, &column);
    memory.execute(
        conn,
        "DELETE FROM ends WHERE customer = ?1 AND number <= ?2",
        &params,
    )?;
    Ok(())
}
