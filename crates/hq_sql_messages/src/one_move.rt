//! The row of one message, moved: put on hold, or released.

ghost use Rattle.std.specs.Prelude.{option_map, IfErr};
ghost use Rattle.std.specs.FinMap.{get};
ghost use Rattle.sqlite.specs.Held.{state};
ghost use Rattle.hq_sql.specs.Causes.{HasCause};
ghost use Rattle.hq_sql.specs.Kept.{Yields, Writes, Intact, KeepsCommitted};
ghost use Rattle.hq_sql_messages.specs.OneMove.{one_held, one_released};

use crate::{message_rows, message_values, messages};
use hq_kept::QueueState;
use hq_sql::SqliteMemory;
use hq_sql::bind::message_key;
use hq_values::{Moment, Name, Serial};
use sqlite::{Alter, Connection, Error};

/// The state of the customer's message of a serial; none, where it has no such message.
pub fn state<S: Alter, M: SqliteMemory>(
    memory: M,
    conn: &mut Connection<S>,
    customer: &Name,
    serial: Serial,
) -> Result<Option<QueueState>, Error>
    ensures found { Yields (state S.Store conn.old) (state S.Store conn.new) result
        (λ t. option_map (λ r. r.state) (get t.messages (customer.now, serial))) }
    ensures kept { Intact (state S.Store conn.old) (state S.Store conn.new) result }
    ensures cause { IfErr result (HasCause M.refused M.failed) }
{
    let rows = messages::query(memory, conn, customer, serial)?;
    message_rows::first_state(memory, rows.as_slice())
}

/// Puts the row of the customer's message of a serial on hold; nothing, where there is none. Its
/// reason is not written here.
pub fn hold<S: Alter, M: SqliteMemory>(
    memory: M,
    conn: &mut Connection<S>,
    customer: &Name,
    serial: Serial,
) -> Result<(), Error>
    ensures made { Writes (state S.Store conn.old) (state S.Store conn.new) result
        (one_held (customer.now, serial)) }
    ensures kept { KeepsCommitted (state S.Store conn.old) (state S.Store conn.new) }
    ensures cause { IfErr result (HasCause M.refused M.failed) }
{
    let params = message_key(customer, serial);
    memory.execute(
        conn,
        "UPDATE messages SET state = 2 WHERE customer = ?1 AND serial = ?2",
        &params,
    )?;
    Ok(())
}

/// Defers the row of the customer's message of a serial, to be tried from a moment on; nothing,
/// where there is none. Its reason is not dropped here.
pub fn release<S: Alter, M: SqliteMemory>(
    memory: M,
    conn: &mut Connection<S>,
    customer: &Name,
    serial: Serial,
    at: Moment,
) -> Result<(), Error>
    ensures made { Writes (state S.Store conn.old) (state S.Store conn.new) result
        (one_released (customer.now, serial) at) }
    ensures kept { KeepsCommitted (state S.Store conn.old) (state S.Store conn.new) }
    ensures cause { IfErr result (HasCause M.refused M.failed) }
{
    let params = message_values::release_one(customer, serial, at);
    memory.execute(
        conn,
        "UPDATE messages SET state = 1, next_try = ?3 WHERE customer = ?1 AND serial = ?2",
        &params,
    )?;
    Ok(())
}
