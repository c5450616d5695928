//! The table of messages: their rows, without reasons and recipients.

ghost use Rattle.std.specs.Prelude.{◌≡◌, [], ◌∷◌, ◌++◌, IfErr};
ghost use Rattle.std.specs.Prelude.{map, option_map, slice_get, take, filter};
ghost use Rattle.std.specs.FinMap.{get, entries};
ghost use Rattle.sqlite.specs.Held.{state};
ghost use Rattle.hq_owned.specs.Rows.{pairs_of};
ghost use Rattle.hq_rows.specs.Listed.{message_key, message_value};
ghost use Rattle.hq_sql.specs.Causes.{HasCause};
ghost use Rattle.hq_sql.specs.Rows.{message_shown};
ghost use Rattle.hq_sql.specs.Kept.{Shows, Yields, Writes, Inserts, Updates, Intact};
ghost use Rattle.hq_sql.specs.Kept.{KeepsCommitted};
ghost use Rattle.hq_sql_messages.specs.Messages.{UpdatesSize, with_row, without_row};
ghost use Rattle.hq_sql_messages.specs.Messages.{is_on_page, is_on_due_page, has_spool_name};
ghost use Rattle.hq_sql_messages.specs.Messages.{bare, bare_entry};

use crate::{message_rows, message_values};
use hq_kept::Message;
use hq_sql::lent::Taker;
use hq_sql::{SqliteMemory, lent};
use hq_values::{Items, Moment, Name, Serial, Spool, Text};
use sqlite::{Alter, Connection, Error, Row};

/// The row of the customer's message of a serial: one, or none.
pub fn query<S: Alter, M: SqliteMemory>(
    memory: M,
    conn: &mut Connection<S>,
    customer: &Name,
    serial: Serial,
) -> Result<Vec<Row>, Error>
    ensures found { Shows (state S.Store conn.old) (state S.Store conn.new) result
        (λ rows. option_map (λ r. message_value (message_shown r)) (slice_get rows.items 0))
        (λ t. get t.messages (customer.now, serial)) }
    ensures kept { Intact (state S.Store conn.old) (state S.Store conn.new) result }
    ensures cause { IfErr result (HasCause M.refused M.failed) }
{
    let params = hq_sql::bind::message_key(customer, serial);
    let rows = memory.query_all(
        conn,
        "SELECT customer, serial, sender, spool, size, arrival, state, next_try, attempts, warned \
         FROM messages WHERE customer = ?1 AND serial = ?2",
        &params,
    )?;
    Ok(rows)
}

/// The row of the customer's message with a spool name: of several that of the smallest serial.
pub fn query_by_spool<S: Alter, M: SqliteMemory>(
    memory: M,
    conn: &mut Connection<S>,
    customer: &Name,
    spool: &Spool,
) -> Result<Vec<Row>, Error>
    ensures found { Shows (state S.Store conn.old) (state S.Store conn.new) result
        (λ rows. pairs_of message_key message_value (map message_shown rows.items))
        (λ t. take 1 (filter (has_spool_name customer.now spool.now) (entries t.messages))) }
    ensures kept { Intact (state S.Store conn.old) (state S.Store conn.new) result }
    ensures cause { IfErr result (HasCause M.refused M.failed) }
{
    let params = message_values::spool(customer, spool);
    let rows = memory.query_all(
        conn,
        "SELECT customer, serial, sender, spool, size, arrival, state, next_try, attempts, warned \
         FROM messages WHERE customer = ?1 AND spool = ?2 ORDER BY customer, serial LIMIT 1",
        &params,
    )?;
    Ok(rows)
}

/// The messages of the rows so far, without reasons and recipients.
#[derive(Drop)]
struct TakenMessages {
    page: Vec<Message>,
}

impl Taker for TakenMessages {
    ghost takes = { λ before row after. after.page.items ≡ before.page.items ++ bare row ∷ [] };

    fn take<M: SqliteMemory>(&mut self, memory: M, row: &Row) -> Result<(), Error> {
        let serial = message_rows::serial(memory, row)?;
        let none = Items::from_vec(memory.none());
        let message = message_rows::message(memory, row, serial, Text::empty(memory), none)?;
        memory.push(&mut self.page, message)?;
        Ok(())
    }
}

/// The customer's messages after a serial, or all, without reasons and recipients, in order of
/// serial: at most `limit` of them. Their rows are lent one after another. A limit of 2^63 or more
/// is an error.
pub fn page<S: Alter, M: SqliteMemory>(
    memory: M,
    conn: &mut Connection<S>,
    customer: &Name,
    after: Option<Serial>,
    limit: usize,
) -> Result<Vec<Message>, Error>
    ensures found { Shows (state S.Store conn.old) (state S.Store conn.new) result
        (λ page. page.items)
        (λ t. map bare_entry
        (take limit (filter (is_on_page customer.now after) (entries t.messages)))) }
    ensures kept { Intact (state S.Store conn.old) (state S.Store conn.new) result }
    ensures cause { IfErr result (HasCause M.refused M.failed) }
{
    let most = hq_sql::bind::limit(memory, limit)?;
    let params = message_values::page(customer, after, &most);
    let page = memory.none();
    let taken = lent::walk(
        memory,
        conn,
        "SELECT customer, serial, sender, spool, size, arrival, state, next_try, attempts, warned \
         FROM messages WHERE customer = ?1 AND serial > ?2 ORDER BY customer, serial LIMIT ?3",
        &params,
        TakenMessages { page },
    )?;
    Ok(taken.page)
}

/// The customer's messages after a serial, or all, that may be tried by a moment, without reasons
/// and recipients, in order of serial: at most `limit` of them. Their rows are lent one after
/// another. A limit of 2^63 or more is an error.
pub fn due<S: Alter, M: SqliteMemory>(
    memory: M,
    conn: &mut Connection<S>,
    customer: &Name,
    at: Moment,
    after: Option<Serial>,
    limit: usize,
) -> Result<Vec<Message>, Error>
    ensures found { Shows (state S.Store conn.old) (state S.Store conn.new) result
        (λ page. page.items)
        (λ t. map bare_entry
        (take limit (filter (is_on_due_page customer.now at after) (entries t.messages)))) }
    ensures kept { Intact (state S.Store conn.old) (state S.Store conn.new) result }
    ensures cause { IfErr result (HasCause M.refused M.failed) }
{
    let most = hq_sql::bind::limit(memory, limit)?;
    let params = message_values::due(customer, at, after, &most);
    let page = memory.none();
    let taken = lent::walk(
        memory,
        conn,
        "SELECT customer, serial, sender, spool, size, arrival, state, next_try, attempts, warned \
         FROM messages WHERE customer = ?1 AND serial > ?2 AND state < 2 AND next_try <= ?3 \
         ORDER BY customer, serial LIMIT ?4",
        &params,
        TakenMessages { page },
    )?;
    Ok(taken.page)
}

/// The size of the customer's message of a serial, in bytes.
pub fn size<S: Alter, M: SqliteMemory>(
    memory: M,
    conn: &mut Connection<S>,
    customer: &Name,
    serial: Serial,
) -> Result<Option<u32>, Error>
    ensures found { Yields (state S.Store conn.old) (state S.Store conn.new) result
        (λ t. option_map (λ r. r.size) (get t.messages (customer.now, serial))) }
    ensures kept { Intact (state S.Store conn.old) (state S.Store conn.new) result }
    ensures cause { IfErr result (HasCause M.refused M.failed) }
{
    let rows = query(memory, conn, customer, serial)?;
    message_rows::first_size(memory, rows.as_slice())
}

/// Sets all columns of the message's row, and tells whether it has one.
fn update<S: Alter, M: SqliteMemory>(
    memory: M,
    conn: &mut Connection<S>,
    customer: &Name,
    message: &Message,
) -> Result<bool, Error>
    ensures made { Updates (state S.Store conn.old) (state S.Store conn.new) result
        (λ t. get t.messages (customer.now, message.now.serial))
        (with_row customer.now message.now) }
    ensures kept { KeepsCommitted (state S.Store conn.old) (state S.Store conn.new) }
    ensures cause { IfErr result (HasCause M.refused M.failed) }
{
    let params = message_values::message(customer, message);
    let count = memory.execute(
        conn,
        "UPDATE messages SET sender = ?3, spool = ?4, size = ?5, arrival = ?6, state = ?7, \
         next_try = ?8, attempts = ?9, warned = ?10 WHERE customer = ?1 AND serial = ?2",
        &params,
    )?;
    Ok(count != 0)
}

/// Sets all columns of the row of a message that has this size, and tells whether there is one.
pub fn update_of_size<S: Alter, M: SqliteMemory>(
    memory: M,
    conn: &mut Connection<S>,
    customer: &Name,
    message: &Message,
) -> Result<bool, Error>
    ensures made { UpdatesSize (state S.Store conn.old) (state S.Store conn.new) result
        (λ t. option_map (λ r. r.size) (get t.messages (customer.now, message.now.serial)))
        message.now.size (with_row customer.now message.now) }
    ensures kept { KeepsCommitted (state S.Store conn.old) (state S.Store conn.new) }
    ensures cause { IfErr result (HasCause M.refused M.failed) }
{
    let params = message_values::message(customer, message);
    let changed = memory.execute(
        conn,
        "UPDATE messages SET sender = ?3, spool = ?4, size = ?5, arrival = ?6, state = ?7, \
         next_try = ?8, attempts = ?9, warned = ?10 \
         WHERE customer = ?1 AND serial = ?2 AND size = ?5",
        &params,
    )?;
    Ok(changed != 0)
}

/// Adds the row of a new message, without its recipients. A spool name that another message of the
/// customer has is an error.
pub fn insert<S: Alter, M: SqliteMemory>(
    memory: M,
    conn: &mut Connection<S>,
    customer: &Name,
    message: &Message,
) -> Result<(), Error>
    ensures made { Inserts (state S.Store conn.old) (state S.Store conn.new) result
        (λ t. get t.messages (customer.now, message.now.serial))
        (with_row customer.now message.now) }
    ensures kept { KeepsCommitted (state S.Store conn.old) (state S.Store conn.new) }
    ensures cause { IfErr result (HasCause M.refused M.failed) }
{
    let params = message_values::message(customer, message);
    memory.execute(
        conn,
        "INSERT INTO messages (customer, serial, sender, spool, size, arrival, state, next_try, \
         attempts, warned) VALUES (?1, ?2, ?3, ?4, ?5, ?6, ?7, ?8, ?9, ?10)",
        &params,
    )?;
    Ok(())
}

/// Sets the message, without its recipients, in the row that it has or a new one. A spool name
/// that another message of the customer has is an error.
pub fn put<S: Alter, M: SqliteMemory>(
    memory: M,
    conn: &mut Connection<S>,
    customer: &Name,
    message: &Message,
) -> Result<(), Error>
    ensures made { Writes (state S.Store conn.old) (state S.Store conn.new) result
        (with_row customer.now message.now) }
    ensures kept { KeepsCommitted (state S.Store conn.old) (state S.Store conn.new) }
    ensures cause { IfErr result (HasCause M.refused M.failed) }
{
    if !update(memory, conn, customer, message)? {
        insert(memory, conn, customer, message)?;
    }
    Ok(())
}

/// Drops the message of a serial, without its recipients; nothing where there is none.
pub fn remove<S: Alter, M: SqliteMemory>(
    memory: M,
    conn: &mut Connection<S>,
    customer: &Name,
    serial: Serial,
) -> Result<(), Error>
    ensures made { Writes (state S.Store conn.old) (state S.Store conn.new) result
        (without_row (customer.now, serial)) }
    ensures kept { KeepsCommitted (state S.Store conn.old) (state S.Store conn.new) }
    ensures cause { IfErr result (HasCause M.refused M.failed) }
{
    let params = hq_sql::bind::message_key(customer, serial);
    memory.execute(
        conn,
        "DELETE FROM messages WHERE customer = ?1 AND serial = ?2",
        &params,
    )?;
    Ok(())
}
