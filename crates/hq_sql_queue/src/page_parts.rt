//! The parts of messages that stand in tables of their own: recipients and reasons, read for a page
//! of messages.

ghost use Rattle.std.specs.Prelude.{◌≡◌, map, refl, IfErr};
ghost use Rattle.sqlite.specs.Held.{state};
ghost use Rattle.hq_sql.specs.Causes.{HasCause};
ghost use Rattle.hq_sql.specs.Kept.{Shows, Intact};
ghost use Rattle.hq_sql_queue.specs.Dealt.{serials_of, Rise, Spans};
ghost use Rattle.hq_sql_queue.specs.Parts.{give_row_recipient, give_row_reason, with_dealt};
ghost use Rattle.hq_sql_queue.specs.Parts.{with_held};

use crate::dealing;
use crate::dealing::Part;
use hq_kept::Message;
use hq_sql::{SqliteMemory, values};
use hq_sql_recipients::places;
use hq_values::{Items, Name, Serial};
use sqlite::{Alter, Connection, Error, Row};
use std::mem;

/// Recipients: each goes behind those that its message has.
enum RecipientRows {}

/// Reasons of messages on hold.
enum ReasonRows {}

impl Part for RecipientRows {
    ghost given = { give_row_recipient };

    fn give<M: SqliteMemory>(memory: M, row: &Row, message: &mut Message) -> Result<(), Error> {
        let recipient = places::recipient(memory, row)?;
        let none = Items::from_vec(memory.none());
        let mut pending = mem::replace(&mut message.pending, none).into_vec();
        memory.push(&mut pending, recipient)?;
        message.pending = Items::from_vec(pending);
        Ok(())
    }

    ghost keeps = { λ r m. refl };
}

impl Part for ReasonRows {
    ghost given = { give_row_reason };

    fn give<M: SqliteMemory>(memory: M, row: &Row, message: &mut Message) -> Result<(), Error> {
        message.reason = values::reason(memory, row, 2)?;
        Ok(())
    }

    ghost keeps = { λ r m. refl };
}

/// Gives their recipients to messages of the customer, which stand in the order of their serials,
/// from `low` to `high`: behind those that they have, in the order of their places.
pub(crate) fn recipients<S: Alter, M: SqliteMemory>(
    memory: M,
    conn: &mut Connection<S>,
    customer: &Name,
    low: Serial,
    high: Serial,
    page: Vec<Message>,
) -> Result<Vec<Message>, Error>
    ensures found { Spans page.items low high → Rise (serials_of page.items)
        → Shows (state S.Store conn.old) (state S.Store conn.new) result
        (λ dealt. dealt.items) (λ t. map (with_dealt customer.now t) page.items) }
    ensures kept { Intact (state S.Store conn.old) (state S.Store conn.new) result }
    ensures cause { IfErr result (HasCause M.refused M.failed) }
{
    let dealt = dealing::deal::<S, RecipientRows, M>(
        memory,
        conn,
        "SELECT customer, serial, place, address, status, reason FROM recipients \
         WHERE customer = ?1 AND serial >= ?2 AND serial <= ?3 ORDER BY customer, serial, place",
        customer,
        low,
        high,
        page,
    )?;
    Ok(dealt)
}

/// Gives their reasons to messages of the customer, which stand in the order of their serials, from
/// `low` to `high`.
pub(crate) fn reasons<S: Alter, M: SqliteMemory>(
    memory: M,
    conn: &mut Connection<S>,
    customer: &Name,
    low: Serial,
    high: Serial,
    page: Vec<Message>,
) -> Result<Vec<Message>, Error>
    ensures found { Spans page.items low high → Rise (serials_of page.items)
        → Shows (state S.Store conn.old) (state S.Store conn.new) result
        (λ given. given.items) (λ t. map (with_held customer.now t) page.items) }
    ensures kept { Intact (state S.Store conn.old) (state S.Store conn.new) result }
    ensures cause { IfErr result (HasCause M.refused M.failed) }
{
    let given = dealing::deal::<S, ReasonRows, M>(
        memory,
        conn,
        "SELECT customer, serial, hold_reason FROM holds \
         WHERE customer = ?1 AND serial >= ?2 AND serial <= ?3 ORDER BY customer, serial",
        customer,
        low,
        high,
        page,
    )?;
    Ok(given)
}
