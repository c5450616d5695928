//! A move of one message, made by its row and its reason: its recipients are not looked at.

ghost use Rattle.std.specs.Prelude.{◌≡◌, IfErr, IsTrue};
ghost use Rattle.sqlite.specs.Held.{state};
ghost use Rattle.hq_sql.specs.Causes.{HasCause};
ghost use Rattle.hq_sql.specs.Kept.{Intact, KeepsCommitted, Writes, Yields};
ghost use Rattle.hq_sql_changes.specs.OneMoved.{move_applies, moves_message, one_set_moved};

use hq_kept::QueueState;
use hq_rules::Move;
use hq_sql::SqliteMemory;
use hq_sql_messages::{holds, one_move};
use hq_values::{Name, Serial, Text};
use sqlite::{Alter, Connection, Error};

/// Whether the move changes a message in this state.
fn applies(by: Move, state: QueueState) -> bool
    ensures { result ≡ move_applies by state }
{
    match (by, state) {
        (Move::Hold, QueueState::Hold) => false,
        (Move::Hold, _) => true,
        (Move::Release(_), QueueState::Hold) => true,
        (Move::Release(_), _) => false,
    }
}

/// Whether the move changes the customer's message of a serial; none, where it has no such message.
pub fn would_move<S: Alter, M: SqliteMemory>(
    memory: M,
    conn: &mut Connection<S>,
    customer: &Name,
    serial: Serial,
    by: Move,
) -> Result<Option<bool>, Error>
    ensures found { Yields (state S.Store conn.old) (state S.Store conn.new) result
        (moves_message customer.now serial by) }
    ensures kept { Intact (state S.Store conn.old) (state S.Store conn.new) result }
    ensures cause { IfErr result (HasCause M.refused M.failed) }
{
    match one_move::state(memory, conn, customer, serial)? {
        None => Ok(None),
        Some(state) => Ok(Some(applies(by, state))),
    }
}

/// Makes the move of the customer's message of a serial, which it changes.
pub(crate) fn move_one<S: Alter, M: SqliteMemory>(
    memory: M,
    conn: &mut Connection<S>,
    customer: &Name,
    serial: Serial,
    by: Move,
) -> Result<(), Error>
    ensures made { IsTrue (state S.Store conn.old).is_open
        → Writes (state S.Store conn.old) (state S.Store conn.new) result
        (one_set_moved customer.now serial by) }
    ensures kept { KeepsCommitted (state S.Store conn.old) (state S.Store conn.new) }
    ensures cause { IfErr result (HasCause M.refused M.failed) }
{
    match by {
        Move::Hold => {
            let reason = Text::customer_hold(memory)?;
            one_move::hold(memory, conn, customer, serial)?;
            holds::put(memory, conn, customer, serial, &reason)
        }
        Move::Release(at) => {
            one_move::release(memory, conn, customer, serial, at)?;
            holds::remove(memory, conn, customer, serial)
        }
    }
}
