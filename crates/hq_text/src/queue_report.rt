//! The queue report, in the manner of postqueue(1), `-p`: of a list of messages, or message by
//! message, so that nobody needs to hold them all.

ghost use Rattle.std.specs.Prelude.{◌≡◌, [], ◌∷◌, ◌++◌, ◌==◌, List, OnOk, OnErr, codes};
ghost use Rattle.std.specs.Prelude.{decimal, string_bytes, if◌then◌else◌};
ghost use Rattle.hq_memory.specs.Making.{MadeIn};
ghost use Rattle.hq_kept.specs.declared.message.Message.{Message};
ghost use Rattle.hq_kept.specs.Messages.{is_on_hold};
ghost use Rattle.hq_rules.specs.TextLines.{lf, text_of};
ghost use Rattle.hq_rules.specs.QueueReports as reports;

use crate::dates::date_text;
use crate::notices::queue_id;
use hq_kept::{Message, Pending, QueueState, Status};
use hq_memory::Memory;
use hq_values::Sender;
use std::alloc::AllocError;
use std::fmt::Write;
use std::marker::Model;

/// The mark of mail on hold.
fn mark(state: QueueState) -> &'static str
    ensures { result.now ≡ reports.mark state }
{
    match state {
        QueueState::Hold => "!",
        QueueState::Incoming | QueueState::Deferred => " ",
    }
}

/// A size on the right of ten places.
#[tactic(auto, using(crate::proofs::Columns::right_padded))]
fn right_in_ten<M: Memory>(memory: M, size: u32) -> Result<String, AllocError>
    ensures { MadeIn M.refused result (λ text. string_bytes text
        ≡ reports.right_in 10 (decimal size)) }
{
    memory.show(format_args!("{size:>10}"))
}

/// How many messages on hold a message of this state counts for.
fn held_count(state: QueueState) -> u64
    ensures { result ≡ (if is_on_hold state then 1 else 0) }
{
    match state {
        QueueState::Hold => 1,
        QueueState::Incoming | QueueState::Deferred => 0,
    }
}

/// The queue ID, the mark and the size.
#[tactic(auto, unfolding(hq_rules::specs::QueueReports::left_columns))]
fn left_columns<M: Memory>(memory: M, message: &Message) -> Result<String, AllocError>
    ensures { MadeIn M.refused result (λ text. string_bytes text
        ≡ reports.left_columns message.now) }
{
    let id = queue_id(memory, message.serial)?;
    let mark = mark(message.state);
    let size = right_in_ten(memory, message.size)?;
    memory.show(format_args!("{id}{mark} {size}"))
}

/// The sender, `<>` where it is the null sender.
#[tactic(auto, unfolding(hq_rules::specs::QueueReports::shown_sender))]
fn shown_sender(sender: &Sender) -> &str
    ensures { result.now ≡ reports.shown_sender sender.now }
{
    match sender {
        Sender::Null => "<>",
        Sender::From(address) => address.as_str(),
    }
}

/// Three parts, with a space between them.
fn spaced<M: Memory>(memory: M, one: &str, two: &str, three: &str) -> Result<String, AllocError>
    ensures { MadeIn M.refused result (λ text. string_bytes text
        ≡ one.now ++ codes " " ++ two.now ++ codes " " ++ three.now) }
{
    memory.show(format_args!("{one} {two} {three}"))
}

/// The line of a message.
#[tactic(auto, unfolding(hq_rules::specs::QueueReports::message_line))]
fn message_line<M: Memory>(memory: M, message: &Message) -> Result<String, AllocError>
    ensures { MadeIn M.refused result (λ text. string_bytes text
        ≡ reports.message_line message.now) }
{
    let columns = left_columns(memory, message)?;
    let date = date_text(memory, message.arrival)?;
    let sender = shown_sender(&message.sender);
    spaced(memory, columns.as_str(), date.as_str(), sender)
}

/// Adds the line of a reason to be on hold.
fn put_hold_line<M: Memory>(memory: M, text: &mut String, reason: &str) -> Result<(), AllocError>
    ensures { MadeIn M.refused result (λ _. string_bytes text.new
        ≡ string_bytes text.old ++ (reports.hold_line reason.now ++ lf)) }
{
    memory.write(text, format_args!("    (hold: {reason})\n"))?;
    Ok(())
}

/// Adds why a message is on hold, where it is.
fn put_hold<M: Memory>(memory: M, text: &mut String, message: &Message) -> Result<(), AllocError>
    ensures { MadeIn M.refused result (λ _. string_bytes text.new
        ≡ string_bytes text.old ++ text_of lf (reports.hold_lines message.now)) }
{
    match message.state {
        QueueState::Hold => {
            put_hold_line(memory, text, message.reason.as_str())?;
            Ok(())
        }
        QueueState::Incoming | QueueState::Deferred => Ok(()),
    }
}

/// The line of a message, and why it is on hold.
fn top_text<M: Memory>(memory: M, message: &Message) -> Result<String, AllocError>
    ensures { MadeIn M.refused result (λ text. string_bytes text
        ≡ text_of lf (reports.top_lines message.now)) }
{
    let mut text = message_line(memory, message)?;
    memory.append(&mut text, "\n")?;
    put_hold(memory, &mut text, message)?;
    Ok(text)
}

/// Adds a status, and what the remote server said.
fn put_status<M: Memory>(
    memory: M,
    text: &mut String,
    status: &str,
    said: &str,
) -> Result<(), AllocError>
    ensures { MadeIn M.refused result (λ _. string_bytes text.new
        ≡ string_bytes text.old ++ (reports.reason_line status.now said.now ++ lf)) }
{
    if said.is_empty() {
        memory.write(text, format_args!("    ({status})\n"))?;
        return Ok(());
    }
    memory.write(text, format_args!("    ({status} {said})\n"))?;
    Ok(())
}

/// Adds why a recipient was deferred, where it was.
fn put_reason<M: Memory>(memory: M, text: &mut String, pending: &Pending) -> Result<(), AllocError>
    ensures { MadeIn M.refused result (λ _. string_bytes text.new ≡ string_bytes text.old
        ++ text_of lf (reports.reason_lines pending.now.status pending.now.text)) }
{
    match &pending.status {
        None => Ok(()),
        Some(status) => {
            put_status(memory, text, status.as_str(), pending.text.as_str())?;
            Ok(())
        }
    }
}

/// Adds the line of an address.
fn put_address<M: Memory>(memory: M, text: &mut String, address: &str) -> Result<(), AllocError>
    ensures { MadeIn M.refused result (λ _. string_bytes text.new
        ≡ string_bytes text.old ++ (codes "    " ++ address.now ++ lf)) }
{
    memory.write(text, format_args!("    {address}\n"))?;
    Ok(())
}

/// Adds the lines of a recipient.
fn put_recipient<M: Memory>(
    memory: M,
    text: &mut String,
    pending: &Pending,
) -> Result<(), AllocError>
    ensures { MadeIn M.refused result (λ _. string_bytes text.new
        ≡ string_bytes text.old ++ text_of lf (reports.recipient_lines pending.now)) }
{
    put_reason(memory, text, pending)?;
    put_address(memory, text, pending.address.as_str())?;
    Ok(())
}

/// The lines of a message and of its recipients.
#[tactic(auto, unfolding(hq_rules::specs::QueueReports::message_lines))]
fn message_text<M: Memory>(memory: M, message: &Message) -> Result<String, AllocError>
    ensures { MadeIn M.refused result (λ text. string_bytes text
        ≡ text_of lf (reports.message_lines message.now)) }
{
    let mut text = top_text(memory, message)?;
    for pending in message.pending.as_slice() {
        put_recipient(memory, &mut text, pending)?;
    }
    Ok(text)
}

/// What every report begins with that has a message.
const HEADER: &str = "Queue ID          Size Arrival                         Sender/Recipient";

/// The header, and lines below it.
#[tactic(auto, unfolding(hq_rules::specs::QueueReports::header))]
fn below_header<M: Memory>(memory: M, lines: &str) -> Result<String, AllocError>
    ensures { MadeIn M.refused result (λ text. string_bytes text
        ≡ reports.header ++ lf ++ lines.now) }
{
    let mut text = memory.text(HEADER)?;
    memory.append(&mut text, "\n")?;
    memory.append(&mut text, lines)?;
    Ok(text)
}

/// The lines of one more message behind so many others; those of the first stand below the header.
fn added_text<M: Memory>(memory: M, queued: u64, message: &Message) -> Result<String, AllocError>
    ensures { MadeIn M.refused result (λ text. string_bytes text
        ≡ text_of lf (reports.added_lines queued message.now)) }
{
    let lines = message_text(memory, message)?;
    if queued == 0 {
        return below_header(memory, lines.as_str());
    }
    Ok(lines)
}

/// Adds the last line of a report.
fn put_last<M: Memory>(
    memory: M,
    text: &mut String,
    queued: u64,
    bytes: u128,
    held: u64,
) -> Result<(), AllocError>
    ensures { MadeIn M.refused result (λ _. string_bytes text.new
        ≡ string_bytes text.old ++ text_of lf (reports.last_lines queued bytes held)) }
{
    if queued == 0 {
        memory.append(text, "Mail queue is empty\n")?;
    } else {
        put_summary(memory, text, queued, bytes, held)?;
    }
    Ok(())
}

/// Adds how many messages there are, their bytes together, and how many are on hold.
#[tactic(auto, unfolding(hq_rules::specs::QueueReports::summary))]
fn put_summary<M: Memory>(
    memory: M,
    text: &mut String,
    queued: u64,
    bytes: u128,
    held: u64,
) -> Result<(), AllocError>
    ensures { MadeIn M.refused result (λ _. string_bytes text.new
        ≡ string_bytes text.old ++ (reports.summary queued bytes held ++ lf)) }
{
    memory.write(
        text,
        format_args!("-- {queued} queued, {bytes} bytes, {held} on hold\n"),
    )?;
    Ok(())
}

/// A queue report as it is written, message by message.
#[derive(Drop)]
pub struct Report {
    /// The lines up to those of the last message.
    text: String,
    /// How many messages there are.
    queued: u64,
    /// Their bytes together.
    bytes: u128,
    /// How many of them are on hold.
    held: u64,
}

impl Model for Report {
    ghost use Rattle.std.specs.Prelude.{◌≤◌, ◌*◌, length, string_bytes};
    ghost use Rattle.hq_rules.specs.QueueReports.{Written};

    ghost Value = { Written };

    ghost view = { λ r. record {
      text = string_bytes r.text;
      queued = r.queued;
      bytes = r.bytes;
      held = r.held;
    } };

    // Each message has a line, so there is room for the sums as long as there is for the text.
    ghost invariant = { λ r. (r.queued ≤ length (string_bytes r.text)) × (r.held ≤ r.queued)
        × (r.bytes ≤ r.queued * 4294967295) };
}

impl Report {
    /// The report of no message, without taking memory.
    pub fn new<M: Memory>(memory: M) -> Report
        ensures { result ≡ reports.written [] }
    {
        Report {
            text: memory.no_text(),
            queued: 0,
            bytes: 0,
            held: 0,
        }
    }

    /// Adds a message with its recipients. The only error is want of memory, and then the report is
    /// as it was.
    pub fn add<M: Memory>(&mut self, memory: M, message: &Message) -> Result<(), AllocError>
        ensures added { (messages : List Message) → self.old ≡ reports.written messages
            → OnOk result (self.new ≡ reports.written (messages ++ message.now ∷ [])) }
        ensures kept { OnErr result (self.new ≡ self.old) }
        ensures cause { OnErr result M.refused }
    {
        let lines = added_text(memory, self.queued, message)?;
        memory.append(&mut self.text, lines.as_str())?;
        // The length of the text, which a `usize` holds, says that its messages can be counted.
        let _length = self.text.len();
        self.queued += 1;
        self.bytes += u128::from(message.size);
        self.held += held_count(message.state);
        Ok(())
    }

    /// Adds messages, in the order of the list. The only error is want of memory, and then some of
    /// them may be added.
    pub fn add_all<M: Memory>(&mut self, memory: M, messages: &[Message]) -> Result<(), AllocError>
        ensures { MadeIn M.refused result (λ _. (before : List Message)
            → self.old ≡ reports.written before
            → self.new ≡ reports.written (before ++ messages.now)) }
    {
        for message in messages {
            self.add(memory, message)?;
        }
        Ok(())
    }

    /// The text of the report of the messages that were added. The only error is want of memory.
    pub fn finish<M: Memory>(self, memory: M) -> Result<String, AllocError>
        ensures { MadeIn M.refused result (λ text. (messages : List Message)
            → self ≡ reports.written messages
            → string_bytes text ≡ reports.report_text messages) }
    {
        let Report {
            mut text,
            queued,
            bytes,
            held,
        } = self;
        put_last(memory, &mut text, queued, bytes, held)?;
        Ok(text)
    }
}

/// The queue report of a list of messages, in the order of the list: a header, the lines of each
/// message, and a last line; or that the mail queue is empty. Every line ends in LF. The only error
/// is want of memory.
pub fn report_text<M: Memory>(memory: M, messages: &[Message]) -> Result<String, AllocError>
    ensures { MadeIn M.refused result (λ text. string_bytes text
        ≡ reports.report_text messages.now) }
{
    let mut report = Report::new(memory);
    report.add_all(memory, messages)?;
    report.finish(memory)
}
