//! The table of holds: the reasons of the messages on hold of all customers.

ghost use Rattle.std.specs.Prelude.{option_map, slice_get, IfErr};
ghost use Rattle.std.specs.FinMap.{get};
ghost use Rattle.sqlite.specs.Held.{state};
ghost use Rattle.hq_tables.specs.Tables.{reason_of};
ghost use Rattle.hq_rows.specs.Listed.{hold_value};
ghost use Rattle.hq_sql.specs.Causes.{HasCause};
ghost use Rattle.hq_sql.specs.Kept.{Shows, Yields, Writes, Adds, Intact};
ghost use Rattle.hq_sql.specs.Kept.{KeepsCommitted};
ghost use Rattle.hq_sql.specs.Rows.{hold_shown};
ghost use Rattle.hq_sql_messages.specs.Holds.{hold_row, with_hold, without_hold, with_reason};
ghost use Rattle.hq_sql_messages.specs.Moves.{AddsAll, without_holds, with_queued_held};

use crate::{hold_rows, hold_values, message_values};
use hq_sql::SqliteMemory;
use hq_sql::bind::message_key;
use hq_values::{Name, Serial, Text};
use sqlite::{Alter, Connection, Error, Row};

fn query<S: Alter, M: SqliteMemory>(
    memory: M,
    conn: &mut Connection<S>,
    customer: &Name,
    key: Serial,
) -> Result<Vec<Row>, Error>
    ensures found { Shows (state S.Store conn.old) (state S.Store conn.new) result
        (λ rows. option_map (λ r. hold_value (hold_shown r)) (slice_get rows.items 0))
        (λ t. get t.holds (customer.now, key)) }
    ensures kept { Intact (state S.Store conn.old) (state S.Store conn.new) result }
    ensures cause { IfErr result (HasCause M.refused M.failed) }
{
    let params = message_key(customer, key);
    let rows = memory.query_all(
        conn,
        "SELECT customer, serial, hold_reason FROM holds \
         WHERE customer = ?1 AND serial = ?2",
        &params,
    )?;
    Ok(rows)
}

/// The reason of the customer's message; empty where it is not on hold.
#[tactic(auto, unfolding(hq_tables::specs::Tables::reason_of))]
pub fn reason<S: Alter, M: SqliteMemory>(
    memory: M,
    conn: &mut Connection<S>,
    customer: &Name,
    key: Serial,
) -> Result<Text, Error>
    ensures found { Yields (state S.Store conn.old) (state S.Store conn.new) result
        (λ t. reason_of customer.now key t.holds) }
    ensures kept { Intact (state S.Store conn.old) (state S.Store conn.new) result }
    ensures cause { IfErr result (HasCause M.refused M.failed) }
{
    let rows = query(memory, conn, customer, key)?;
    hold_rows::first_reason(memory, rows.as_slice())
}

/// Drops the reason of a message; nothing where there is none.
pub fn remove<S: Alter, M: SqliteMemory>(
    memory: M,
    conn: &mut Connection<S>,
    customer: &Name,
    key: Serial,
) -> Result<(), Error>
    ensures made { Writes (state S.Store conn.old) (state S.Store conn.new) result
        (without_hold (customer.now, key)) }
    ensures kept { KeepsCommitted (state S.Store conn.old) (state S.Store conn.new) }
    ensures cause { IfErr result (HasCause M.refused M.failed) }
{
    let params = message_key(customer, key);
    memory.execute(
        conn,
        "DELETE FROM holds WHERE customer = ?1 AND serial = ?2",
        &params,
    )?;
    Ok(())
}

/// Drops all reasons of the customer.
pub fn remove_all<S: Alter, M: SqliteMemory>(
    memory: M,
    conn: &mut Connection<S>,
    customer: &Name,
) -> Result<(), Error>
    ensures made { Writes (state S.Store conn.old) (state S.Store conn.new) result
        (without_holds customer.now) }
    ensures kept { KeepsCommitted (state S.Store conn.old) (state S.Store conn.new) }
    ensures cause { IfErr result (HasCause M.refused M.failed) }
{
    let params = message_values::customer(customer);
    memory.execute(conn, "DELETE FROM holds WHERE customer = ?1", &params)?;
    Ok(())
}

/// Adds the reason of a message, and tells whether it had one: then nothing changed.
fn insert<S: Alter, M: SqliteMemory>(
    memory: M,
    conn: &mut Connection<S>,
    customer: &Name,
    key: Serial,
    reason: &Text,
) -> Result<bool, Error>
    ensures made { Adds (state S.Store conn.old) (state S.Store conn.new) result
        (λ t. get t.holds (customer.now, key))
        (with_hold (hold_row customer.now key reason.now)) }
    ensures kept { KeepsCommitted (state S.Store conn.old) (state S.Store conn.new) }
    ensures cause { IfErr result (HasCause M.refused M.failed) }
{
    let params = hold_values::hold(customer, key, reason);
    let there = memory.try_insert(
        conn,
        "INSERT INTO holds (customer, serial, hold_reason) VALUES (?1, ?2, ?3)",
        &params,
    )?;
    Ok(there)
}

/// Adds the reason of each message of the customer that is not on hold, in one statement. It tells
/// whether one of them had a reason: then nothing changed. The reason is kept even where it is
/// empty.
pub fn insert_for_queued<S: Alter, M: SqliteMemory>(
    memory: M,
    conn: &mut Connection<S>,
    customer: &Name,
    reason: &Text,
) -> Result<bool, Error>
    ensures made { AddsAll (state S.Store conn.old) (state S.Store conn.new) result
        (with_queued_held customer.now reason.now) }
    ensures kept { KeepsCommitted (state S.Store conn.old) (state S.Store conn.new) }
    ensures cause { IfErr result (HasCause M.refused M.failed) }
{
    let params = hold_values::reasoned(customer, reason);
    let had = memory.try_insert(
        conn,
        "INSERT INTO holds (customer, serial, hold_reason) \
         SELECT customer, serial, ?2 FROM messages WHERE customer = ?1 AND state < 2",
        &params,
    )?;
    Ok(had)
}

/// Sets the reason of a message: a new row replaces the one that is there.
fn set<S: Alter, M: SqliteMemory>(
    memory: M,
    conn: &mut Connection<S>,
    customer: &Name,
    key: Serial,
    reason: &Text,
) -> Result<(), Error>
    ensures made { Writes (state S.Store conn.old) (state S.Store conn.new) result
        (with_hold (hold_row customer.now key reason.now)) }
    ensures kept { KeepsCommitted (state S.Store conn.old) (state S.Store conn.new) }
    ensures cause { IfErr result (HasCause M.refused M.failed) }
{
    if insert(memory, conn, customer, key, reason)? {
        remove(memory, conn, customer, key)?;
        insert(memory, conn, customer, key, reason)?;
    }
    Ok(())
}

/// Sets the reason of a message; an empty one is not kept.
#[tactic(auto, unfolding(hq_tables::specs::Tables::give_reason))]
pub fn put<S: Alter, M: SqliteMemory>(
    memory: M,
    conn: &mut Connection<S>,
    customer: &Name,
    key: Serial,
    reason: &Text,
) -> Result<(), Error>
    ensures made { Writes (state S.Store conn.old) (state S.Store conn.new) result
        (with_reason customer.now key reason.now) }
    ensures kept { KeepsCommitted (state S.Store conn.old) (state S.Store conn.new) }
    ensures cause { IfErr result (HasCause M.refused M.failed) }
{
    if reason.as_str().is_empty() {
        return remove(memory, conn, customer, key);
    }
    set(memory, conn, customer, key, reason)
}
