//! Whole messages: their rows with their reasons and their recipients.

ghost use Rattle.sqlite.specs.Held.{state};
ghost use Rattle.std.specs.Prelude.{map, filter, take, IfErr};
ghost use Rattle.hq_tables.specs.Tables.{joined, pending_of, reason_of};
ghost use Rattle.hq_rows.specs.Listed.{message_value};
ghost use Rattle.hq_kept.specs.Messages.{is_due};
ghost use Rattle.hq_tables.specs.Readings.{read_tables, page_of, after_serial};
ghost use Rattle.hq_sql.specs.Causes.{HasCause};
ghost use Rattle.hq_sql.specs.Rows.{message_shown};
ghost use Rattle.hq_sql.specs.Kept.{Yields, Shows, Intact};
ghost use Rattle.hq_sql_queue.specs.Queued.{whole};
ghost use Rattle.hq_sql_queue.specs.Dealt.{Spans, Rise, serials_of};
ghost use Rattle.hq_sql_queue.specs.Parts.{with_parts};

use crate::{dealing, page_parts};
use hq_kept::{Message, Pending};
use hq_sql::SqliteMemory;
use hq_sql_messages::{holds, message_rows, messages};
use hq_sql_recipients::recipients;
use hq_values::{Items, Moment, Name, Serial, Spool, Text};
use sqlite::{Alter, Connection, Error, Row};

/// The recipients and the reason of the customer's message of this serial.
fn parts<S: Alter, M: SqliteMemory>(
    memory: M,
    conn: &mut Connection<S>,
    customer: &Name,
    serial: Serial,
) -> Result<(Items<Pending>, Text), Error>
    ensures found { Yields (state S.Store conn.old) (state S.Store conn.new) result
        (λ t. (
          pending_of customer.now serial t.recipients,
          reason_of customer.now serial t.holds,
        )) }
    ensures kept { Intact (state S.Store conn.old) (state S.Store conn.new) result }
    ensures cause { IfErr result (HasCause M.refused M.failed) }
{
    let pending = recipients::pending(memory, conn, customer, serial)?;
    let reason = holds::reason(memory, conn, customer, serial)?;
    Ok((pending, reason))
}

/// The message of a row, with the recipients and the reason of the customer's message of this
/// serial.
fn joined<S: Alter, M: SqliteMemory>(
    memory: M,
    conn: &mut Connection<S>,
    customer: &Name,
    serial: Serial,
    row: &Row,
) -> Result<Message, Error>
    ensures found { Yields (state S.Store conn.old) (state S.Store conn.new) result
        (λ t. joined customer.now t.recipients t.holds serial
        (message_value (message_shown row.now))) }
    ensures kept { Intact (state S.Store conn.old) (state S.Store conn.new) result }
    ensures cause { IfErr result (HasCause M.refused M.failed) }
{
    let (pending, reason) = parts(memory, conn, customer, serial)?;
    message_rows::message(memory, row, serial, reason, pending)
}

/// The message of a row, with its recipients and its reason.
fn whole<S: Alter, M: SqliteMemory>(
    memory: M,
    conn: &mut Connection<S>,
    customer: &Name,
    row: &Row,
) -> Result<Message, Error>
    ensures found { Yields (state S.Store conn.old) (state S.Store conn.new) result
        (λ t. whole customer.now t row.now) }
    ensures kept { Intact (state S.Store conn.old) (state S.Store conn.new) result }
    ensures cause { IfErr result (HasCause M.refused M.failed) }
{
    let serial = message_rows::serial(memory, row)?;
    let message = joined(memory, conn, customer, serial, row)?;
    Ok(message)
}

/// The customer's message of a serial, with its recipients and its reason.
pub fn message<S: Alter, M: SqliteMemory>(
    memory: M,
    conn: &mut Connection<S>,
    customer: &Name,
    serial: Serial,
) -> Result<Option<Message>, Error>
    ensures found { Yields (state S.Store conn.old) (state S.Store conn.new) result
        (λ t. (read_tables customer.now t).message serial) }
    ensures kept { Intact (state S.Store conn.old) (state S.Store conn.new) result }
    ensures cause { IfErr result (HasCause M.refused M.failed) }
{
    let rows = messages::query(memory, conn, customer, serial)?;
    match rows.as_slice().first() {
        None => Ok(None),
        Some(row) => {
            let message = joined(memory, conn, customer, serial, row)?;
            Ok(Some(message))
        }
    }
}

/// The customer's message with a spool name, with its recipients and its reason: of several that
/// of the smallest serial.
pub fn by_spool<S: Alter, M: SqliteMemory>(
    memory: M,
    conn: &mut Connection<S>,
    customer: &Name,
    spool: &Spool,
) -> Result<Option<Message>, Error>
    ensures found { Yields (state S.Store conn.old) (state S.Store conn.new) result
        (λ t. (read_tables customer.now t).by_spool spool.now) }
    ensures kept { Intact (state S.Store conn.old) (state S.Store conn.new) result }
    ensures cause { IfErr result (HasCause M.refused M.failed) }
{
    let rows = messages::query_by_spool(memory, conn, customer, spool)?;
    match rows.as_slice().first() {
        None => Ok(None),
        Some(row) => {
            let message = whole(memory, conn, customer, row)?;
            Ok(Some(message))
        }
    }
}

/// Gives their recipients and reasons to messages of the customer, which stand in the order of
/// their serials, from `low` to `high`.
fn filled<S: Alter, M: SqliteMemory>(
    memory: M,
    conn: &mut Connection<S>,
    customer: &Name,
    low: Serial,
    high: Serial,
    page: Vec<Message>,
) -> Result<Vec<Message>, Error>
    ensures found { Spans page.items low high → Rise (serials_of page.items)
        → Shows (state S.Store conn.old) (state S.Store conn.new) result
        (λ filled. filled.items) (λ t. map (with_parts customer.now t) page.items) }
    ensures kept { Intact (state S.Store conn.old) (state S.Store conn.new) result }
    ensures cause { IfErr result (HasCause M.refused M.failed) }
{
    let dealt = page_parts::recipients(memory, conn, customer, low, high, page)?;
    let given = page_parts::reasons(memory, conn, customer, low, high, dealt)?;
    Ok(given)
}

/// The customer's messages after a serial, or all, with their recipients and reasons, in order of
/// serial: at most `limit` of them. A limit of 2^63 or more is an error. Nothing is held here but
/// the page: the rows of the messages are lent one after another, then those of their recipients,
/// and then those of their reasons.
pub fn page<S: Alter, M: SqliteMemory>(
    memory: M,
    conn: &mut Connection<S>,
    customer: &Name,
    after: Option<Serial>,
    limit: usize,
) -> Result<Items<Message>, Error>
    ensures found { Yields (state S.Store conn.old) (state S.Store conn.new) result
        (λ t. page_of after limit (read_tables customer.now t).messages) }
    ensures kept { Intact (state S.Store conn.old) (state S.Store conn.new) result }
    ensures cause { IfErr result (HasCause M.refused M.failed) }
{
    let page = messages::page(memory, conn, customer, after, limit)?;
    match dealing::ends(page.as_slice()) {
        None => Ok(Items::from_vec(page)),
        Some((low, high)) => {
            let filled = filled(memory, conn, customer, low, high, page)?;
            Ok(Items::from_vec(filled))
        }
    }
}

/// Of the customer's messages after the serial, or of all, those that may be tried at the moment,
/// with their recipients, in order of serial: at most `limit`. A limit of 2^63 or more is an error.
/// The store reads past the others without lending them.
pub fn due<S: Alter, M: SqliteMemory>(
    memory: M,
    conn: &mut Connection<S>,
    customer: &Name,
    at: Moment,
    after: Option<Serial>,
    limit: usize,
) -> Result<Items<Message>, Error>
    ensures found { Yields (state S.Store conn.old) (state S.Store conn.new) result
        (λ t. take limit (filter (is_due at)
        (after_serial after (read_tables customer.now t).messages))) }
    ensures kept { Intact (state S.Store conn.old) (state S.Store conn.new) result }
    ensures cause { IfErr result (HasCause M.refused M.failed) }
{
    let page = messages::due(memory, conn, customer, at, after, limit)?;
    match dealing::ends(page.as_slice()) {
        None => Ok(Items::from_vec(page)),
        Some((low, high)) => {
            let filled = filled(memory, conn, customer, low, high, page)?;
            Ok(Items::from_vec(filled))
        }
    }
}
