//! Messages out of the rows of answers. A value that no row of the desk has is an error.

ghost use Rattle.std.specs.Prelude.{◌≡◌, option_map, slice_get};
ghost use Rattle.sqlite.specs.Order.{column};
ghost use Rattle.hq_tables.specs.Tables.{message_of};
ghost use Rattle.hq_rows.specs.Listed.{message_value};
ghost use Rattle.hq_sql.specs.Causes.{EndsSo};
ghost use Rattle.hq_sql.specs.Rows.{value_text, value_number, truth_in, state_of};
ghost use Rattle.hq_sql.specs.Rows.{message_shown};

use hq_kept::{Message, Pending, QueueState};
use hq_sql::{Form, Limits, SqliteMemory, read, values};
use hq_values::{Fail, Items, Serial, Spool, Text};
use sqlite::{Error, ErrorCode, Row};

fn small<M: SqliteMemory>(memory: M, row: &Row, at: usize) -> Result<u32, Error>
    ensures { EndsSo M.refused M.failed result (λ n. n ≡ value_number (column row.now at)) }
{
    let value = memory.get(row, at)?;
    Ok(value)
}

fn truth<M: SqliteMemory>(memory: M, row: &Row, at: usize) -> Result<bool, Error>
    ensures { EndsSo M.refused M.failed result (λ b. b ≡ truth_in (column row.now at)) }
{
    let value = memory.get(row, at)?;
    Ok(value)
}

fn state<M: SqliteMemory>(memory: M, row: &Row, at: usize) -> Result<QueueState, Error>
    ensures { EndsSo M.refused M.failed result
        (λ state. state ≡ state_of (value_number (column row.now at))) }
{
    let number = read::number(memory, row, at)?;
    match number {
        0 => Ok(QueueState::Incoming),
        1 => Ok(QueueState::Deferred),
        2 => Ok(QueueState::Hold),
        _ => Err(memory.outside(Limits::States, number)),
    }
}

fn spool<M: SqliteMemory>(memory: M, row: &Row, at: usize) -> Result<Spool, Error>
    ensures { EndsSo M.refused M.failed result (λ spool. spool ≡ value_text (column row.now at)) }
{
    let text = read::text(memory, row, at)?;
    match Spool::parse(memory, text.as_str()) {
        Ok(spool) => Ok(spool),
        Err(Fail::Fault(_)) => Err(Error::SqliteFailure(ErrorCode::OutOfMemory)),
        Err(Fail::Refused(_)) => Err(memory.no_value(Form::Spool, text.as_str())),
    }
}

/// The serial of a message's row.
pub fn serial<M: SqliteMemory>(memory: M, row: &Row) -> Result<Serial, Error>
    ensures { EndsSo M.refused M.failed result (λ serial. serial ≡ (message_shown row.now).serial) }
{
    values::serial(memory, row, 1)
}

/// The message of a row, with a serial, reason and recipients that are not the row's.
pub fn message<M: SqliteMemory>(
    memory: M,
    row: &Row,
    serial: Serial,
    reason: Text,
    pending: Items<Pending>,
) -> Result<Message, Error>
    ensures { EndsSo M.refused M.failed result (λ message. message
        ≡ message_of serial (message_value (message_shown row.now)) reason pending) }
{
    let sender = values::sender(memory, row, 2)?;
    let spool = spool(memory, row, 3)?;
    let size = small(memory, row, 4)?;
    let arrival = values::moment(memory, row, 5)?;
    let state = state(memory, row, 6)?;
    let next_try = values::moment(memory, row, 7)?;
    let attempts = small(memory, row, 8)?;
    let warned = truth(memory, row, 9)?;
    Ok(Message {
        serial,
        sender,
        spool,
        size,
        arrival,
        state,
        reason,
        next_try,
        attempts,
        warned,
        pending,
    })
}

/// The size of the message of the first row.
pub(crate) fn first_size<M: SqliteMemory>(memory: M, rows: &[Row]) -> Result<Option<u32>, Error>
    ensures { EndsSo M.refused M.failed result (λ size. size
        ≡ option_map (λ r. (message_value (message_shown r)).size) (slice_get rows.now 0)) }
{
    match rows.first() {
        None => Ok(None),
        Some(row) => Ok(Some(small(memory, row, 4)?)),
    }
}

/// The state of the message of the first row.
pub(crate) fn first_state<M: SqliteMemory>(
    memory: M,
    rows: &[Row],
) -> Result<Option<QueueState>, Error>
    ensures { EndsSo M.refused M.failed result (λ found. found
        ≡ option_map (λ r. (message_value (message_shown r)).state) (slice_get rows.now 0)) }
{
    match rows.first() {
        None => Ok(None),
        Some(row) => Ok(Some(state(memory, row, 6)?)),
    }
}
