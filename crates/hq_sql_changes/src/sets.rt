//! A move of all messages of a customer, made in sets: their rows together, and their reasons.

ghost use Rattle.std.specs.Prelude.{◌≡◌, false, IfErr, IsTrue, length};
ghost use Rattle.sqlite.specs.Held.{state};
ghost use Rattle.hq_values.specs.Words.{customer_hold};
ghost use Rattle.hq_tables.specs.Readings.{read_tables};
ghost use Rattle.hq_rules.specs.Queues.{moves_of};
ghost use Rattle.hq_rules.specs.declared.call.Move.TheVariants.{Hold};
ghost use Rattle.hq_sql.specs.Causes.{HasCause};
ghost use Rattle.hq_sql.specs.Kept.{Intact, KeepsCommitted, Writes, Yields};
ghost use Rattle.hq_sql_messages.specs.Moves.{standing_serials};
ghost use Rattle.hq_sql_changes.specs.Moved.{moves_from, set_moved, with_reasons};

use hq_rules::Move;
use hq_sql::SqliteMemory;
use hq_sql_messages::{holds, moves};
use hq_values::{Name, Serial, Text};
use sqlite::{Alter, Connection, Error};

/// Whether the move is of messages that are on hold, or of those that are not.
fn is_of_held(by: Move) -> bool
    ensures { result ≡ moves_from by }
{
    matches!(by, Move::Release(_))
}

/// How many of the customer's messages the move changes.
pub fn moving<S: Alter, M: SqliteMemory>(
    memory: M,
    conn: &mut Connection<S>,
    customer: &Name,
    by: Move,
) -> Result<u64, Error>
    ensures found { Yields (state S.Store conn.old) (state S.Store conn.new) result
        (λ t. length (moves_of by (read_tables customer.now t).messages)) }
    ensures kept { Intact (state S.Store conn.old) (state S.Store conn.new) result }
    ensures cause { IfErr result (HasCause M.refused M.failed) }
{
    let serials = moves::serials(memory, conn, customer, is_of_held(by))?;
    Ok(serials.as_slice().len() as u64)
}

/// Gives these messages the reason, one after another.
fn give_each<S: Alter, M: SqliteMemory>(
    memory: M,
    conn: &mut Connection<S>,
    customer: &Name,
    reason: &Text,
    serials: &[Serial],
) -> Result<(), Error>
    ensures made { IsTrue (state S.Store conn.old).is_open
        → Writes (state S.Store conn.old) (state S.Store conn.new) result
        (with_reasons customer.now reason.now serials.now) }
    ensures kept { KeepsCommitted (state S.Store conn.old) (state S.Store conn.new) }
    ensures cause { IfErr result (HasCause M.refused M.failed) }
{
    for serial in serials {
        holds::put(memory, conn, customer, *serial, reason)?;
    }
    Ok(())
}

/// Gives the reason of a hold to all messages of the customer that are not on hold. One statement
/// does where none of them has a reason. Otherwise they get it one after another: a store made
/// elsewhere may have such rows.
fn give_queued<S: Alter, M: SqliteMemory>(
    memory: M,
    conn: &mut Connection<S>,
    customer: &Name,
) -> Result<(), Error>
    ensures made { Writes (state S.Store conn.old) (state S.Store conn.new) result
        (λ t. with_reasons customer.now customer_hold (standing_serials customer.now false t) t) }
    ensures kept { KeepsCommitted (state S.Store conn.old) (state S.Store conn.new) }
    ensures cause { IfErr result (HasCause M.refused M.failed) }
{
    let reason = Text::customer_hold(memory)?;
    if holds::insert_for_queued(memory, conn, customer, &reason)? {
        let serials = moves::serials(memory, conn, customer, false)?;
        give_each(memory, conn, customer, &reason, serials.as_slice())?;
    }
    Ok(())
}

/// Puts all messages of the customer on hold that are not: first their reasons, and then their
/// rows, which tell which they are.
fn hold_all<S: Alter, M: SqliteMemory>(
    memory: M,
    conn: &mut Connection<S>,
    customer: &Name,
) -> Result<(), Error>
    ensures made { Writes (state S.Store conn.old) (state S.Store conn.new) result
        (set_moved customer.now Hold) }
    ensures kept { KeepsCommitted (state S.Store conn.old) (state S.Store conn.new) }
    ensures cause { IfErr result (HasCause M.refused M.failed) }
{
    give_queued(memory, conn, customer)?;
    moves::hold_all(memory, conn, customer)
}

/// Moves all messages of the customer that the move applies to.
pub(crate) fn move_all<S: Alter, M: SqliteMemory>(
    memory: M,
    conn: &mut Connection<S>,
    customer: &Name,
    by: Move,
) -> Result<(), Error>
    ensures made { Writes (state S.Store conn.old) (state S.Store conn.new) result
        (set_moved customer.now by) }
    ensures kept { KeepsCommitted (state S.Store conn.old) (state S.Store conn.new) }
    ensures cause { IfErr result (HasCause M.refused M.failed) }
{
    match by {
        Move::Hold => hold_all(memory, conn, customer),
        Move::Release(at) => {
            moves::release_all(memory, conn, customer, at)?;
            holds::remove_all(memory, conn, customer)
        }
    }
}
