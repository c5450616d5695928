//! Values of the desk's types out of the columns of a row. A value that no row of the desk has is
//! an error.

ghost use Rattle.std.specs.Prelude.{◌≡◌};
ghost use Rattle.sqlite.specs.Order.{column};
ghost use Rattle.hq_sql.specs.Causes.{EndsSo};
ghost use Rattle.hq_sql.specs.Rows.{sender_of, status_read, value_number, value_text};

use crate::memory::SqliteMemory;
use crate::read;
use crate::unfit::{Form, Limits};
use hq_kept::Status;
use hq_values::{Address, Fail, Moment, Sender, Serial, Text};
use sqlite::{Error, ErrorCode, Row};

/// The serial of a column; an error where its number is none.
pub fn serial<M: SqliteMemory>(memory: M, row: &Row, at: usize) -> Result<Serial, Error>
    ensures { EndsSo M.refused M.failed result
        (λ serial. serial ≡ value_number (column row.now at)) }
{
    let number = read::number(memory, row, at)?;
    match Serial::new(number) {
        Some(serial) => Ok(serial),
        None => Err(memory.outside(Limits::Serials, number)),
    }
}

/// The moment of a column; an error where its number is none.
pub fn moment<M: SqliteMemory>(memory: M, row: &Row, at: usize) -> Result<Moment, Error>
    ensures { EndsSo M.refused M.failed result
        (λ moment. moment ≡ value_number (column row.now at)) }
{
    let number = read::number(memory, row, at)?;
    match Moment::new(number) {
        Some(moment) => Ok(moment),
        None => Err(memory.outside(Limits::Moments, number)),
    }
}

/// The sender of a column, the null sender where its text is empty; an error where it is none.
pub fn sender<M: SqliteMemory>(memory: M, row: &Row, at: usize) -> Result<Sender, Error>
    ensures { EndsSo M.refused M.failed result
        (λ sender. sender ≡ sender_of (value_text (column row.now at))) }
{
    let text = read::text(memory, row, at)?;
    match Sender::parse(memory, text.as_str()) {
        Ok(sender) => Ok(sender),
        Err(Fail::Fault(_)) => Err(Error::SqliteFailure(ErrorCode::OutOfMemory)),
        Err(Fail::Refused(_)) => Err(memory.no_value(Form::Sender, text.as_str())),
    }
}

/// The address of a column; an error where its text is none.
pub fn address<M: SqliteMemory>(memory: M, row: &Row, at: usize) -> Result<Address, Error>
    ensures { EndsSo M.refused M.failed result
        (λ address. address ≡ value_text (column row.now at)) }
{
    let text = read::text(memory, row, at)?;
    match Address::parse(memory, text.as_str()) {
        Ok(address) => Ok(address),
        Err(Fail::Fault(_)) => Err(Error::SqliteFailure(ErrorCode::OutOfMemory)),
        Err(Fail::Refused(_)) => Err(memory.no_value(Form::Address, text.as_str())),
    }
}

/// The status of a column, none where its text is empty; an error where it has not the form of one.
pub fn status<M: SqliteMemory>(memory: M, row: &Row, at: usize) -> Result<Option<Status>, Error>
    ensures { EndsSo M.refused M.failed result
        (λ status. status ≡ status_read (value_text (column row.now at))) }
{
    let text = read::text(memory, row, at)?;
    if text.as_str().is_empty() {
        return Ok(None);
    }
    match Status::parse(text.as_str()) {
        Ok(status) => Ok(Some(status)),
        Err(_) => Err(memory.no_value(Form::Status, text.as_str())),
    }
}

/// The reason of a column; an error where its text is none.
pub fn reason<M: SqliteMemory>(memory: M, row: &Row, at: usize) -> Result<Text, Error>
    ensures { EndsSo M.refused M.failed result (λ reason. reason ≡ value_text (column row.now at)) }
{
    let text = read::text(memory, row, at)?;
    match Text::parse(memory, text.as_str()) {
        Ok(reason) => Ok(reason),
        Err(Fail::Fault(_)) => Err(Error::SqliteFailure(ErrorCode::OutOfMemory)),
        Err(Fail::Refused(_)) => Err(memory.no_value(Form::Text, text.as_str())),
    }
}
