//! The table of recipients: statements read, put and drop those of one message, and drop those of
//! all.

ghost use Rattle.std.specs.Prelude.{[], map, filter, IfErr};
ghost use Rattle.std.specs.FinMap.{get, entries};
ghost use Rattle.sqlite.specs.Held.{state};
ghost use Rattle.hq_owned.specs.Rows.{pairs_of};
ghost use Rattle.hq_tables.specs.Tables.{pending_of};
ghost use Rattle.hq_rows.specs.Listed.{recipient_key, recipient_value};
ghost use Rattle.hq_sql.specs.Causes.{HasCause};
ghost use Rattle.hq_sql.specs.Rows.{recipient_shown};
ghost use Rattle.hq_sql.specs.Kept.{Shows, Yields, Writes, Inserts, Updates, Intact};
ghost use Rattle.hq_sql.specs.Kept.{KeepsCommitted};
ghost use Rattle.hq_sql_recipients.specs.Places.{is_of};
ghost use Rattle.hq_sql_recipients.specs.Recipients.{Puts, recipient_row, with_recipient};
ghost use Rattle.hq_sql_recipients.specs.Recipients.{without_beside, without_all, with_pending};

use crate::places;
use hq_kept::Pending;
use hq_sql::{SqliteMemory, bind};
use hq_values::{Items, Name, Serial};
use sqlite::{Alter, Connection, Error, Row};

/// The rows of a message's recipients, in the order of their places.
fn query<S: Alter, M: SqliteMemory>(
    memory: M,
    conn: &mut Connection<S>,
    customer: &Name,
    serial: Serial,
) -> Result<Vec<Row>, Error>
    ensures found { Shows (state S.Store conn.old) (state S.Store conn.new) result
        (λ rows. pairs_of recipient_key recipient_value (map recipient_shown rows.items))
        (λ t. filter (is_of customer.now serial) (entries t.recipients)) }
    ensures kept { Intact (state S.Store conn.old) (state S.Store conn.new) result }
    ensures cause { IfErr result (HasCause M.refused M.failed) }
{
    let params = bind::message_key(customer, serial);
    let rows = memory.query_all(
        conn,
        "SELECT customer, serial, place, address, status, reason FROM recipients \
         WHERE customer = ?1 AND serial = ?2 ORDER BY customer, serial, place",
        &params,
    )?;
    Ok(rows)
}

/// The recipients of a message, in the order of their places; none, where it has none.
pub fn pending<S: Alter, M: SqliteMemory>(
    memory: M,
    conn: &mut Connection<S>,
    customer: &Name,
    serial: Serial,
) -> Result<Items<Pending>, Error>
    ensures found { Yields (state S.Store conn.old) (state S.Store conn.new) result
        (λ t. pending_of customer.now serial t.recipients) }
    ensures kept { Intact (state S.Store conn.old) (state S.Store conn.new) result }
    ensures cause { IfErr result (HasCause M.refused M.failed) }
{
    let rows = query(memory, conn, customer, serial)?;
    let all = places::all(memory, rows.as_slice())?;
    Ok(all)
}

/// Sets the recipient at a place of the message, and tells whether one stands there.
fn update<S: Alter, M: SqliteMemory>(
    memory: M,
    conn: &mut Connection<S>,
    customer: &Name,
    serial: Serial,
    place: u32,
    recipient: &Pending,
) -> Result<bool, Error>
    ensures made { Updates (state S.Store conn.old) (state S.Store conn.new) result
        (λ t. get t.recipients (customer.now, (serial, place)))
        (with_recipient (recipient_row customer.now serial place recipient.now)) }
    ensures kept { KeepsCommitted (state S.Store conn.old) (state S.Store conn.new) }
    ensures cause { IfErr result (HasCause M.refused M.failed) }
{
    let params = places::columns(customer, serial, place, recipient);
    let count = memory.execute(
        conn,
        "UPDATE recipients SET address = ?4, status = ?5, reason = ?6 \
         WHERE customer = ?1 AND serial = ?2 AND place = ?3",
        &params,
    )?;
    Ok(count != 0)
}

/// Adds a recipient at a new place of the message.
fn insert<S: Alter, M: SqliteMemory>(
    memory: M,
    conn: &mut Connection<S>,
    customer: &Name,
    serial: Serial,
    place: u32,
    recipient: &Pending,
) -> Result<(), Error>
    ensures made { Inserts (state S.Store conn.old) (state S.Store conn.new) result
        (λ t. get t.recipients (customer.now, (serial, place)))
        (with_recipient (recipient_row customer.now serial place recipient.now)) }
    ensures kept { KeepsCommitted (state S.Store conn.old) (state S.Store conn.new) }
    ensures cause { IfErr result (HasCause M.refused M.failed) }
{
    let params = places::columns(customer, serial, place, recipient);
    memory.execute(
        conn,
        "INSERT INTO recipients (customer, serial, place, address, status, reason) \
         VALUES (?1, ?2, ?3, ?4, ?5, ?6)",
        &params,
    )?;
    Ok(())
}

/// Sets the recipient at a place of the message, in the row that is there or a new one. At a place
/// that is told to be free, the row is added at once.
fn put_at<S: Alter, M: SqliteMemory>(
    memory: M,
    conn: &mut Connection<S>,
    customer: &Name,
    serial: Serial,
    place: u32,
    recipient: &Pending,
    is_free: bool,
) -> Result<(), Error>
    ensures made { Puts (state S.Store conn.old) (state S.Store conn.new) result is_free
        (λ t. get t.recipients (customer.now, (serial, place)))
        (with_recipient (recipient_row customer.now serial place recipient.now)) }
    ensures kept { KeepsCommitted (state S.Store conn.old) (state S.Store conn.new) }
    ensures cause { IfErr result (HasCause M.refused M.failed) }
{
    if is_free {
        return insert(memory, conn, customer, serial, place, recipient);
    }
    if !update(memory, conn, customer, serial, place, recipient)? {
        insert(memory, conn, customer, serial, place, recipient)?;
    }
    Ok(())
}

/// Drops the recipients of the message that stand at no place of 1 to `count`.
fn drop_beside<S: Alter, M: SqliteMemory>(
    memory: M,
    conn: &mut Connection<S>,
    customer: &Name,
    serial: Serial,
    count: u32,
) -> Result<(), Error>
    ensures made { Writes (state S.Store conn.old) (state S.Store conn.new) result
        (without_beside customer.now serial count) }
    ensures kept { KeepsCommitted (state S.Store conn.old) (state S.Store conn.new) }
    ensures cause { IfErr result (HasCause M.refused M.failed) }
{
    let params = places::range(customer, serial, count);
    memory.execute(
        conn,
        "DELETE FROM recipients WHERE customer = ?1 AND serial = ?2 AND (place < 1 OR place > ?3)",
        &params,
    )?;
    Ok(())
}

/// Puts the recipients of a message at the places 1, 2, .. instead of all that it had. A row that
/// has its recipient already is not written. Where the message had none, all are added at once, and
/// none is dropped where the list did not get shorter. More than 2^32 - 1 recipients are an error.
pub fn put<S: Alter, M: SqliteMemory>(
    memory: M,
    conn: &mut Connection<S>,
    customer: &Name,
    serial: Serial,
    pending: &[Pending],
) -> Result<(), Error>
    ensures made { Writes (state S.Store conn.old) (state S.Store conn.new) result
        (with_pending customer.now serial pending.now) }
    ensures kept { KeepsCommitted (state S.Store conn.old) (state S.Store conn.new) }
    ensures cause { IfErr result (HasCause M.refused M.failed) }
{
    let count = places::count(memory, pending)?;
    let rows = query(memory, conn, customer, serial)?;
    let are_free = rows.as_slice().is_empty();
    let mut last = 0;
    for recipient in pending {
        let is_there = places::stands(memory, rows.as_slice(), last, recipient)?;
        last += 1;
        if !is_there {
            put_at(memory, conn, customer, serial, last, recipient, are_free)?;
        }
    }
    if places::are_beside(memory, rows.as_slice(), count)? {
        drop_beside(memory, conn, customer, serial, count)?;
    }
    Ok(())
}

/// Drops all recipients of a message; nothing where it has none.
pub fn remove<S: Alter, M: SqliteMemory>(
    memory: M,
    conn: &mut Connection<S>,
    customer: &Name,
    serial: Serial,
) -> Result<(), Error>
    ensures made { Writes (state S.Store conn.old) (state S.Store conn.new) result
        (with_pending customer.now serial []) }
    ensures kept { KeepsCommitted (state S.Store conn.old) (state S.Store conn.new) }
    ensures cause { IfErr result (HasCause M.refused M.failed) }
{
    drop_beside(memory, conn, customer, serial, 0)
}

/// Drops all recipients of the customer.
pub fn remove_all<S: Alter, M: SqliteMemory>(
    memory: M,
    conn: &mut Connection<S>,
    customer: &Name,
) -> Result<(), Error>
    ensures made { Writes (state S.Store conn.old) (state S.Store conn.new) result
        (without_all customer.now) }
    ensures kept { KeepsCommitted (state S.Store conn.old) (state S.Store conn.new) }
    ensures cause { IfErr result (HasCause M.refused M.failed) }
{
    let params = places::owner(customer);
    memory.execute(conn, "DELETE FROM recipients WHERE customer = ?1", &params)?;
    Ok(())
}
