//! Actions, patterns, labels and digests out of the columns of a row. A value that no row of the
//! desk has is an error.

ghost use Rattle.std.specs.Prelude.{◌≡◌};
ghost use Rattle.std.specs.List.{after_first, before_first};
ghost use Rattle.sqlite.specs.Order.{column};
ghost use Rattle.hq_kept.specs.Actions.{is_space};
ghost use Rattle.hq_sql.specs.Causes.{EndsSo};
ghost use Rattle.hq_sql.specs.Rows.{blob_in, value_text, class_of, action_of, action_of_verb};

use hq_kept::{Action, Class, Pattern};
use hq_sql::read::text;
use hq_sql::{Form, Limits, SqliteMemory};
use hq_values::{Address, Fail, Label, Text};
use sqlite::{Error, ErrorCode, Row};

/// The verb and the argument of a written form, which the first space parts.
fn parts(text: &str) -> (&str, &str)
    ensures verb { result.0.now ≡ before_first is_space text.now }
    ensures argument { result.1.now ≡ after_first is_space text.now }
{
    match text.split_once(' ') {
        Some((verb, argument)) => (verb, argument),
        None => (text, ""),
    }
}

/// The text of an argument; an error where it is none.
fn text_of<M: SqliteMemory>(memory: M, argument: &str) -> Result<Text, Error>
    ensures { EndsSo M.refused M.failed result (λ text. text ≡ argument.now) }
{
    match Text::parse(memory, argument) {
        Ok(text) => Ok(text),
        Err(Fail::Fault(_)) => Err(Error::SqliteFailure(ErrorCode::OutOfMemory)),
        Err(Fail::Refused(_)) => Err(memory.no_value(Form::Text, argument)),
    }
}

/// The address of an argument; an error where it is none.
fn address_of<M: SqliteMemory>(memory: M, argument: &str) -> Result<Address, Error>
    ensures { EndsSo M.refused M.failed result (λ address. address ≡ argument.now) }
{
    match Address::parse(memory, argument) {
        Ok(address) => Ok(address),
        Err(Fail::Fault(_)) => Err(Error::SqliteFailure(ErrorCode::OutOfMemory)),
        Err(Fail::Refused(_)) => Err(memory.no_value(Form::Address, argument)),
    }
}

/// The action of a verb and an argument, as they stand.
fn action_with<M: SqliteMemory>(memory: M, verb: &str, argument: &str) -> Result<Action, Error>
    ensures { EndsSo M.refused M.failed result
        (λ action. action ≡ action_of_verb verb.now argument.now) }
{
    match verb {
        "OK" => Ok(Action::Okay(text_of(memory, argument)?)),
        "REJECT" => Ok(Action::Reject(text_of(memory, argument)?)),
        "DEFER" => Ok(Action::Defer(text_of(memory, argument)?)),
        "DUNNO" => Ok(Action::Dunno(text_of(memory, argument)?)),
        "DISCARD" => Ok(Action::Discard(text_of(memory, argument)?)),
        "HOLD" => Ok(Action::Hold(text_of(memory, argument)?)),
        _ => Ok(Action::Redirect(address_of(memory, argument)?)),
    }
}

/// An action, by its written form as it stands: an argument may begin or end with a space.
pub(crate) fn action<M: SqliteMemory>(memory: M, row: &Row, at: usize) -> Result<Action, Error>
    ensures { EndsSo M.refused M.failed result
        (λ action. action ≡ action_of (value_text (column row.now at))) }
{
    let text = text(memory, row, at)?;
    let (verb, argument) = parts(text.as_str());
    action_with(memory, verb, argument)
}

/// A class by its name; an error where no class has this name.
fn class<M: SqliteMemory>(memory: M, row: &Row, at: usize) -> Result<Class, Error>
    ensures { EndsSo M.refused M.failed result
        (λ class. class ≡ class_of (value_text (column row.now at))) }
{
    let name = text(memory, row, at)?;
    match name.as_str() {
        "recipient" => Ok(Class::RecipientSide),
        "sender" => Ok(Class::SenderSide),
        _ => Err(memory.no_value(Form::Class, name.as_str())),
    }
}

/// The pattern of a class with this text; an error where the text is none, or is not folded.
fn pattern_with<M: SqliteMemory>(memory: M, class: Class, text: &str) -> Result<Pattern, Error>
    ensures { EndsSo M.refused M.failed result (λ pattern. pattern ≡ (class, text.now)) }
{
    match Pattern::parse(memory, class, text) {
        Ok(pattern) => {
            if pattern.as_str() == text {
                Ok(pattern)
            } else {
                Err(memory.no_value(Form::Pattern(class), text))
            }
        }
        Err(Fail::Fault(_)) => Err(Error::SqliteFailure(ErrorCode::OutOfMemory)),
        Err(Fail::Refused(_)) => Err(memory.no_value(Form::Pattern(class), text)),
    }
}

/// A pattern, by the name of its class and its text.
pub(crate) fn pattern<M: SqliteMemory>(
    memory: M,
    row: &Row,
    class_at: usize,
    text_at: usize,
) -> Result<Pattern, Error>
    ensures { EndsSo M.refused M.failed result (λ pattern. pattern
        ≡ (class_of (value_text (column row.now class_at)), value_text (column row.now text_at))) }
{
    let class = class(memory, row, class_at)?;
    let text = text(memory, row, text_at)?;
    pattern_with(memory, class, text.as_str())
}

/// The bytes of a column; an error where its value is none.
fn blob<M: SqliteMemory>(memory: M, row: &Row, at: usize) -> Result<Vec<u8>, Error>
    ensures { EndsSo M.refused M.failed result
        (λ bytes. bytes.items ≡ blob_in (column row.now at)) }
{
    let value = memory.get(row, at)?;
    Ok(value)
}

/// The digest of a column; an error where it has not 32 bytes.
pub(crate) fn digest<M: SqliteMemory>(memory: M, row: &Row, at: usize) -> Result<[u8; 32], Error>
    ensures { EndsSo M.refused M.failed result (λ digest. digest ≡ blob_in (column row.now at)) }
{
    let bytes = blob(memory, row, at)?;
    match <[u8; 32]>::try_from(bytes.as_slice()) {
        Ok(digest) => Ok(digest),
        Err(_) => Err(memory.outside(Limits::DigestBytes, bytes.len() as u64)),
    }
}

/// The label of a column; an error where its text is none.
pub(crate) fn label<M: SqliteMemory>(memory: M, row: &Row, at: usize) -> Result<Label, Error>
    ensures { EndsSo M.refused M.failed result (λ label. label ≡ value_text (column row.now at)) }
{
    let text = text(memory, row, at)?;
    match Label::parse(memory, text.as_str()) {
        Ok(label) => Ok(label),
        Err(Fail::Fault(_)) => Err(Error::SqliteFailure(ErrorCode::OutOfMemory)),
        Err(Fail::Refused(_)) => Err(memory.no_value(Form::Label, text.as_str())),
    }
}
