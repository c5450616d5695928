//! One message, put and dropped with all its rows.

ghost use Rattle.std.specs.Prelude.{IfErr};
ghost use Rattle.sqlite.specs.Held.{state};
ghost use Rattle.hq_tables.specs.declared.change.Change.TheVariants.{PutMessage};
ghost use Rattle.hq_sql.specs.Causes.{HasCause};
ghost use Rattle.hq_sql.specs.Kept.{Writes, KeepsCommitted};
ghost use Rattle.hq_sql_messages.specs.Messages.{with_row};
ghost use Rattle.hq_sql_changes.specs.Accounts.{MakesTelling, size_at, with_counted_row, with_rows};
ghost use Rattle.hq_sql_changes.specs.Accounts.{made_by, without_rows};

use crate::accounts;
use hq_kept::Message;
use hq_sql::SqliteMemory;
use hq_sql_messages::{holds, messages};
use hq_sql_recipients::recipients;
use hq_values::{Name, Serial};
use sqlite::{Alter, Connection, Error};

/// Puts the row of a message, and counts it. The message has no row yet, or one of another size;
/// where it has none, one statement adds it.
fn put_recounted_row<S: Alter, M: SqliteMemory>(
    memory: M,
    conn: &mut Connection<S>,
    customer: &Name,
    message: &Message,
) -> Result<(), Error>
    ensures made { Writes (state S.Store conn.old) (state S.Store conn.new) result
        (with_counted_row customer.now message.now) }
    ensures kept { KeepsCommitted (state S.Store conn.old) (state S.Store conn.new) }
    ensures cause { IfErr result (HasCause M.refused M.failed) }
{
    if accounts::recount_message(memory, conn, customer, message.serial, message.size)? {
        messages::put(memory, conn, customer, message)
    } else {
        messages::insert(memory, conn, customer, message)
    }
}

/// Puts the row of a message, and counts it. Where it has a row of this size, one statement sets
/// that.
fn put_row<S: Alter, M: SqliteMemory>(
    memory: M,
    conn: &mut Connection<S>,
    customer: &Name,
    message: &Message,
) -> Result<(), Error>
    ensures made { Writes (state S.Store conn.old) (state S.Store conn.new) result
        (with_counted_row customer.now message.now) }
    ensures kept { KeepsCommitted (state S.Store conn.old) (state S.Store conn.new) }
    ensures cause { IfErr result (HasCause M.refused M.failed) }
{
    if messages::update_of_size(memory, conn, customer, message)? {
        return Ok(());
    }
    put_recounted_row(memory, conn, customer, message)
}

/// Puts a message, and counts it.
pub(crate) fn put_message<S: Alter, M: SqliteMemory>(
    memory: M,
    conn: &mut Connection<S>,
    customer: &Name,
    message: &Message,
) -> Result<(), Error>
    ensures made { Writes (state S.Store conn.old) (state S.Store conn.new) result
        (made_by customer.now (PutMessage message.now)) }
    ensures kept { KeepsCommitted (state S.Store conn.old) (state S.Store conn.new) }
    ensures cause { IfErr result (HasCause M.refused M.failed) }
{
    put_row(memory, conn, customer, message)?;
    recipients::put(
        memory,
        conn,
        customer,
        message.serial,
        message.pending.as_slice(),
    )?;
    holds::put(memory, conn, customer, message.serial, &message.reason)?;
    Ok(())
}

/// Puts the row of a message, counts nothing, and tells the size that it had. Where it has no row,
/// one statement adds it.
fn put_uncounted_row<S: Alter, M: SqliteMemory>(
    memory: M,
    conn: &mut Connection<S>,
    customer: &Name,
    message: &Message,
) -> Result<Option<u32>, Error>
    ensures made { MakesTelling (state S.Store conn.old) (state S.Store conn.new) result
        (size_at customer.now message.now.serial) (with_row customer.now message.now) }
    ensures kept { KeepsCommitted (state S.Store conn.old) (state S.Store conn.new) }
    ensures cause { IfErr result (HasCause M.refused M.failed) }
{
    let Some(before) = messages::size(memory, conn, customer, message.serial)? else {
        messages::insert(memory, conn, customer, message)?;
        return Ok(None);
    };
    messages::put(memory, conn, customer, message)?;
    Ok(Some(before))
}

/// Puts all rows of a message, counts nothing, and tells the size that it had.
pub(crate) fn put_uncounted<S: Alter, M: SqliteMemory>(
    memory: M,
    conn: &mut Connection<S>,
    customer: &Name,
    message: &Message,
) -> Result<Option<u32>, Error>
    ensures made { MakesTelling (state S.Store conn.old) (state S.Store conn.new) result
        (size_at customer.now message.now.serial) (with_rows customer.now message.now) }
    ensures kept { KeepsCommitted (state S.Store conn.old) (state S.Store conn.new) }
    ensures cause { IfErr result (HasCause M.refused M.failed) }
{
    let before = put_uncounted_row(memory, conn, customer, message)?;
    recipients::put(
        memory,
        conn,
        customer,
        message.serial,
        message.pending.as_slice(),
    )?;
    holds::put(memory, conn, customer, message.serial, &message.reason)?;
    Ok(before)
}

/// Drops all rows of a message, which stays counted.
#[tactic(auto, unfolding(hq_tables::specs::Tables::give_reason))]
fn drop_rows<S: Alter, M: SqliteMemory>(
    memory: M,
    conn: &mut Connection<S>,
    customer: &Name,
    serial: Serial,
) -> Result<(), Error>
    ensures made { Writes (state S.Store conn.old) (state S.Store conn.new) result
        (without_rows customer.now serial) }
    ensures kept { KeepsCommitted (state S.Store conn.old) (state S.Store conn.new) }
    ensures cause { IfErr result (HasCause M.refused M.failed) }
{
    messages::remove(memory, conn, customer, serial)?;
    recipients::remove(memory, conn, customer, serial)?;
    holds::remove(memory, conn, customer, serial)?;
    Ok(())
}

/// Drops all rows of a message, counts nothing, and tells the size that it had.
pub(crate) fn drop_uncounted<S: Alter, M: SqliteMemory>(
    memory: M,
    conn: &mut Connection<S>,
    customer: &Name,
    serial: Serial,
) -> Result<Option<u32>, Error>
    ensures made { MakesTelling (state S.Store conn.old) (state S.Store conn.new) result
        (size_at customer.now serial) (without_rows customer.now serial) }
    ensures kept { KeepsCommitted (state S.Store conn.old) (state S.Store conn.new) }
    ensures cause { IfErr result (HasCause M.refused M.failed) }
{
    let before = messages::size(memory, conn, customer, serial)?;
    drop_rows(memory, conn, customer, serial)?;
    Ok(before)
}
