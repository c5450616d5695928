//! The rows of all messages of a customer at once: which are on hold, and how all are put there,
//! released or dropped.

ghost use Rattle.std.specs.Prelude.{◌≡◌, [], ◌∷◌, ◌++◌, true, false, IfErr};
ghost use Rattle.sqlite.specs.Held.{state};
ghost use Rattle.hq_sql.specs.Causes.{HasCause};
ghost use Rattle.hq_sql.specs.Rows.{message_shown};
ghost use Rattle.hq_sql.specs.Kept.{Shows, Writes, Intact};
ghost use Rattle.hq_sql.specs.Kept.{KeepsCommitted};
ghost use Rattle.hq_sql_messages.specs.Moves.{standing_serials, all_held, all_released};
ghost use Rattle.hq_sql_messages.specs.Moves.{without_messages};

use crate::{message_rows, message_values};
use hq_sql::lent::Taker;
use hq_sql::{SqliteMemory, lent};
use hq_values::{Moment, Name, Serial};
use sqlite::{Alter, Connection, Error, Row};

/// The serials of the rows so far.
#[derive(Drop)]
struct TakenSerials {
    serials: Vec<Serial>,
}

impl Taker for TakenSerials {
    ghost takes = { λ before row after. after.serials.items
        ≡ before.serials.items ++ (message_shown row).serial ∷ [] };

    fn take<M: SqliteMemory>(&mut self, memory: M, row: &Row) -> Result<(), Error> {
        let serial = message_rows::serial(memory, row)?;
        memory.push(&mut self.serials, serial)?;
        Ok(())
    }
}

/// The serials of the customer's messages that are on hold, in order.
fn held<S: Alter, M: SqliteMemory>(
    memory: M,
    conn: &mut Connection<S>,
    customer: &Name,
) -> Result<Vec<Serial>, Error>
    ensures found { Shows (state S.Store conn.old) (state S.Store conn.new) result
        (λ serials. serials.items) (standing_serials customer.now true) }
    ensures kept { Intact (state S.Store conn.old) (state S.Store conn.new) result }
    ensures cause { IfErr result (HasCause M.refused M.failed) }
{
    let params = message_values::customer(customer);
    let serials = memory.none();
    let taken = lent::walk(
        memory,
        conn,
        "SELECT customer, serial, sender, spool, size, arrival, state, next_try, attempts, warned \
         FROM messages WHERE customer = ?1 AND state = 2 ORDER BY customer, serial",
        &params,
        TakenSerials { serials },
    )?;
    Ok(taken.serials)
}

/// The serials of the customer's messages that are not on hold, in order.
fn queued<S: Alter, M: SqliteMemory>(
    memory: M,
    conn: &mut Connection<S>,
    customer: &Name,
) -> Result<Vec<Serial>, Error>
    ensures found { Shows (state S.Store conn.old) (state S.Store conn.new) result
        (λ serials. serials.items) (standing_serials customer.now false) }
    ensures kept { Intact (state S.Store conn.old) (state S.Store conn.new) result }
    ensures cause { IfErr result (HasCause M.refused M.failed) }
{
    let params = message_values::customer(customer);
    let serials = memory.none();
    let taken = lent::walk(
        memory,
        conn,
        "SELECT customer, serial, sender, spool, size, arrival, state, next_try, attempts, warned \
         FROM messages WHERE customer = ?1 AND state < 2 ORDER BY customer, serial",
        &params,
        TakenSerials { serials },
    )?;
    Ok(taken.serials)
}

/// The serials of the customer's messages that are on hold, or of those that are not, in order.
/// Their rows are lent one after another.
pub fn serials<S: Alter, M: SqliteMemory>(
    memory: M,
    conn: &mut Connection<S>,
    customer: &Name,
    on_hold: bool,
) -> Result<Vec<Serial>, Error>
    ensures found { Shows (state S.Store conn.old) (state S.Store conn.new) result
        (λ serials. serials.items) (λ t. standing_serials customer.now on_hold t) }
    ensures kept { Intact (state S.Store conn.old) (state S.Store conn.new) result }
    ensures cause { IfErr result (HasCause M.refused M.failed) }
{
    if on_hold {
        held(memory, conn, customer)
    } else {
        queued(memory, conn, customer)
    }
}

/// Puts all messages of the customer on hold. Their reasons are not written here.
pub fn hold_all<S: Alter, M: SqliteMemory>(
    memory: M,
    conn: &mut Connection<S>,
    customer: &Name,
) -> Result<(), Error>
    ensures made { Writes (state S.Store conn.old) (state S.Store conn.new) result
        (all_held customer.now) }
    ensures kept { KeepsCommitted (state S.Store conn.old) (state S.Store conn.new) }
    ensures cause { IfErr result (HasCause M.refused M.failed) }
{
    let params = message_values::customer(customer);
    memory.execute(
        conn,
        "UPDATE messages SET state = 2 WHERE customer = ?1 AND state < 2",
        &params,
    )?;
    Ok(())
}

/// Defers all messages of the customer that are on hold, to be tried from a moment on. Their
/// reasons are not dropped here.
pub fn release_all<S: Alter, M: SqliteMemory>(
    memory: M,
    conn: &mut Connection<S>,
    customer: &Name,
    at: Moment,
) -> Result<(), Error>
    ensures made { Writes (state S.Store conn.old) (state S.Store conn.new) result
        (all_released customer.now at) }
    ensures kept { KeepsCommitted (state S.Store conn.old) (state S.Store conn.new) }
    ensures cause { IfErr result (HasCause M.refused M.failed) }
{
    let params = message_values::release(customer, at);
    memory.execute(
        conn,
        "UPDATE messages SET state = 1, next_try = ?2 WHERE customer = ?1 AND state = 2",
        &params,
    )?;
    Ok(())
}

/// Drops the rows of all messages of the customer. Their recipients and reasons stay, and the head
/// row still counts the messages.
pub fn remove_all<S: Alter, M: SqliteMemory>(
    memory: M,
    conn: &mut Connection<S>,
    customer: &Name,
) -> Result<(), Error>
    ensures made { Writes (state S.Store conn.old) (state S.Store conn.new) result
        (without_messages customer.now) }
    ensures kept { KeepsCommitted (state S.Store conn.old) (state S.Store conn.new) }
    ensures cause { IfErr result (HasCause M.refused M.failed) }
{
    let params = message_values::customer(customer);
    memory.execute(conn, "DELETE FROM messages WHERE customer = ?1", &params)?;
    Ok(())
}
