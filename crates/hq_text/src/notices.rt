//! The texts of a notice (bounce(5)): what `message/delivery-status` holds (RFC 3464, 2.1), and
//! what a person reads. Who is told, and when, is not said here.

ghost use Rattle.std.specs.Prelude.{◌≡◌, [], ◌∷◌, ◌++◌, Some, option_map, string_bytes};
ghost use Rattle.hq_memory.specs.Making.{MadeIn};
ghost use Rattle.hq_values.specs.Serials.{serial_text};
ghost use Rattle.hq_rules.specs.TextLines.{crlf, said, text_of};
ghost use Rattle.hq_rules.specs.NoticeTexts as notices;

use crate::dates::date_text;
use hq_kept::{Kind, Message, Told};
use hq_memory::Memory;
use hq_rules::EXPIRY_SECONDS;
use hq_values::{Host, Moment, Serial};
use std::alloc::AllocError;
use std::fmt::Write;
use std::str;

/// Until when attempts go on for those who are delayed, as a date.
fn retry_date<M: Memory>(
    memory: M,
    kind: Kind,
    arrival: Moment,
) -> Result<Option<String>, AllocError>
    ensures { MadeIn M.refused result (λ date. option_map string_bytes date
        ≡ notices.retry_date kind arrival) }
{
    match kind {
        Kind::Failure => Ok(None),
        Kind::Delay => {
            let until = Moment::no_later(arrival.get() + EXPIRY_SECONDS);
            Ok(Some(date_text(memory, until)?))
        }
    }
}

/// A date that may be missing, lent.
fn lent(date: &Option<String>) -> Option<&str>
    ensures { option_map (λ text. text.now) result ≡ option_map string_bytes date.now }
{
    date.as_ref().map(String::as_str)
}

/// The queue ID as a text.
pub fn queue_id<M: Memory>(memory: M, serial: Serial) -> Result<String, AllocError>
    ensures { MadeIn M.refused result (λ id. string_bytes id ≡ serial_text serial) }
{
    let text = serial.text();
    match str::from_utf8(&text) {
        Ok(id) => memory.text(id),
        Err(_) => unreachable!(),
    }
}

/// Adds a line of a name and a value.
fn put_field<M: Memory>(
    memory: M,
    text: &mut String,
    name: &str,
    value: &str,
) -> Result<(), AllocError>
    ensures { MadeIn M.refused result (λ _. string_bytes text.new
        ≡ string_bytes text.old ++ (name.now ++ value.now ++ crlf)) }
{
    memory.write(text, format_args!("{name}{value}\r\n"))?;
    Ok(())
}

// ---- for programs

/// Adds the fields of the message.
fn put_message<M: Memory>(
    memory: M,
    text: &mut String,
    host: &Host,
    message: &Message,
) -> Result<(), AllocError>
    ensures { MadeIn M.refused result (λ _. string_bytes text.new
        ≡ string_bytes text.old ++ text_of crlf (notices.message_fields host.now message.now)) }
{
    let arrival = date_text(memory, message.arrival)?;
    let id = queue_id(memory, message.serial)?;
    put_field(memory, text, "Reporting-MTA: dns; ", host.as_str())?;
    put_field(memory, text, "Arrival-Date: ", arrival.as_str())?;
    put_field(memory, text, "X-Desk-Queue-Id: ", id.as_str())?;
    Ok(())
}

/// What is done about a recipient (RFC 3464, 2.3.3).
#[tactic(auto, unfolding(hq_rules::specs::NoticeTexts::action))]
fn action(kind: Kind) -> &'static str
    ensures { result.now ≡ notices.action kind }
{
    match kind {
        Kind::Failure => "failed",
        Kind::Delay => "delayed",
    }
}

/// Adds what the remote server said, where it said something.
fn put_diagnostic<M: Memory>(memory: M, text: &mut String, said: &str) -> Result<(), AllocError>
    ensures { MadeIn M.refused result (λ _. string_bytes text.new
        ≡ string_bytes text.old ++ text_of crlf (notices.diagnostic_lines said.now)) }
{
    if said.is_empty() {
        return Ok(());
    }
    put_field(memory, text, "Diagnostic-Code: x-desk; ", said)?;
    Ok(())
}

/// Adds until when attempts go on, where they do.
fn put_retry<M: Memory>(memory: M, text: &mut String, until: Option<&str>) -> Result<(), AllocError>
    ensures { MadeIn M.refused result (λ _. string_bytes text.new ≡ string_bytes text.old
        ++ text_of crlf (notices.retry_lines (option_map (λ date. date.now) until.entry))) }
{
    match until {
        None => Ok(()),
        Some(date) => {
            put_field(memory, text, "Will-Retry-Until: ", date)?;
            Ok(())
        }
    }
}

/// Adds the fields of a recipient, behind an empty line.
fn put_recipient<M: Memory>(
    memory: M,
    text: &mut String,
    kind: Kind,
    until: Option<&str>,
    told: &Told,
) -> Result<(), AllocError>
    ensures { MadeIn M.refused result (λ _. string_bytes text.new ≡ string_bytes text.old
        ++ text_of crlf (notices.recipient_fields kind (option_map (λ date. date.now) until.entry)
        told.now)) }
{
    put_field(memory, text, "", "")?;
    put_field(
        memory,
        text,
        "Final-Recipient: rfc822; ",
        told.address.as_str(),
    )?;
    put_field(memory, text, "Action: ", action(kind))?;
    put_field(memory, text, "Status: ", told.status.as_str())?;
    put_diagnostic(memory, text, told.text.as_str())?;
    put_retry(memory, text, until)?;
    Ok(())
}

/// The body of `message/delivery-status` for those who are told of (RFC 3464, 2.1 to 2.3): the
/// fields of the message, and for each of them, in order, an empty line and the fields of that
/// recipient. Every line ends in CR LF. The only error is want of memory.
#[tactic(auto, unfolding(hq_rules::specs::NoticeTexts::status_text, hq_rules::specs::NoticeTexts::status_lines))]
pub fn status_text<M: Memory>(
    memory: M,
    host: &Host,
    message: &Message,
    kind: Kind,
    told: &[Told],
) -> Result<String, AllocError>
    ensures { MadeIn M.refused result (λ text. string_bytes text
        ≡ notices.status_text host.now message.now kind told.now) }
{
    let until = retry_date(memory, kind, message.arrival)?;
    let until = lent(&until);
    let mut text = memory.no_text();
    put_message(memory, &mut text, host, message)?;
    for one in told {
        put_recipient(memory, &mut text, kind, until, one)?;
    }
    Ok(text)
}

// ---- for people

/// Adds a line of three parts.
fn put_line<M: Memory>(
    memory: M,
    text: &mut String,
    before: &str,
    value: &str,
    after: &str,
) -> Result<(), AllocError>
    ensures { MadeIn M.refused result (λ _. string_bytes text.new
        ≡ string_bytes text.old ++ (before.now ++ value.now ++ after.now ++ crlf)) }
{
    memory.write(text, format_args!("{before}{value}{after}\r\n"))?;
    Ok(())
}

/// What happened to the message.
#[tactic(auto, unfolding(hq_rules::specs::NoticeTexts::what_happened))]
fn what_happened(kind: Kind) -> &'static str
    ensures { result.now ≡ notices.what_happened kind }
{
    match kind {
        Kind::Failure => " could not be delivered to the recipients below.",
        Kind::Delay => " is delayed for the recipients below.",
    }
}

/// Adds what is done next.
fn put_what_follows<M: Memory>(
    memory: M,
    text: &mut String,
    until: Option<&str>,
) -> Result<(), AllocError>
    ensures { MadeIn M.refused result (λ _. string_bytes text.new ≡ string_bytes text.old
        ++ (notices.what_follows (option_map (λ date. date.now) until.entry) ++ crlf)) }
{
    match until {
        None => put_field(memory, text, "No further attempt is made for them.", ""),
        Some(date) => put_line(memory, text, "Attempts go on until ", date, "."),
    }
}

/// Adds the lines before those of the recipients.
fn put_opening<M: Memory>(
    memory: M,
    text: &mut String,
    host: &Host,
    message: &Message,
    kind: Kind,
) -> Result<(), AllocError>
    ensures { MadeIn M.refused result (λ _. string_bytes text.new
        ≡ string_bytes text.old ++ text_of crlf (notices.opening_lines host.now message.now kind)) }
{
    let until = retry_date(memory, kind, message.arrival)?;
    let id = queue_id(memory, message.serial)?;
    put_line(
        memory,
        text,
        "This is the mail relay at ",
        host.as_str(),
        ".",
    )?;
    put_field(memory, text, "", "")?;
    put_line(memory, text, "Message ", id.as_str(), what_happened(kind))?;
    put_what_follows(memory, text, lent(&until))?;
    put_field(memory, text, "", "")?;
    Ok(())
}

/// Adds the line of a recipient.
fn put_told<M: Memory>(memory: M, text: &mut String, told: &Told) -> Result<(), AllocError>
    ensures { MadeIn M.refused result (λ _. string_bytes text.new
        ≡ string_bytes text.old ++ (notices.told_line told.now ++ crlf)) }
{
    let address = told.address.as_str();
    let status = told.status.as_str();
    if told.text.as_str().is_empty() {
        memory.write(text, format_args!("{address}: {status}\r\n"))?;
        return Ok(());
    }
    let said = told.text.as_str();
    memory.write(text, format_args!("{address}: {status} {said}\r\n"))?;
    Ok(())
}

/// The text of the notice for a person: which message it is, what happened and what follows, and a
/// line for each of those who are told of, in order. Every line ends in CR LF. The only error is
/// want of memory.
#[tactic(auto, unfolding(hq_rules::specs::NoticeTexts::human_text, hq_rules::specs::NoticeTexts::human_lines))]
pub fn human_text<M: Memory>(
    memory: M,
    host: &Host,
    message: &Message,
    kind: Kind,
    told: &[Told],
) -> Result<String, AllocError>
    ensures { MadeIn M.refused result (λ text. string_bytes text
        ≡ notices.human_text host.now message.now kind told.now) }
{
    let mut text = memory.no_text();
    put_opening(memory, &mut text, host, message, kind)?;
    for one in told {
        put_told(memory, &mut text, one)?;
    }
    Ok(text)
}
