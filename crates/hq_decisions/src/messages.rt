//! What is answered and changed, by what was read of a message or of a page of messages. Nothing is
//! read or written here.

ghost use Rattle.std.specs.Prelude.{◌≡◌, ◌<◌, ◌≤◌, ◌^◌, IfOk, OnErr, Some};
ghost use Rattle.hq_memory.specs.Making.{MadeIn};
ghost use Rattle.hq_rules.specs.Messages as rules;

use hq_kept::{Entry, Fate, Head, Message};
use hq_memory::Memory;
use hq_queue::{end_all, hold, release, requeue};
use hq_rules::Answer;
use hq_rules::decision::{Decision, PAGE, refuse, tell};
use hq_rules::histories::keep_history;
use hq_tables::Change;
use hq_values::{Items, Moment, Refusal, Serial, Text};
use std::alloc::AllocError;

/// One message is changed to this.
fn put<M: Memory>(memory: M, message: Message) -> Result<Decision, AllocError>
    ensures { MadeIn M.refused result (λ decision. decision ≡ rules.moved (Some message)) }
{
    let changes = memory.one(Change::PutMessage(message))?;
    Ok(Decision {
        answer: Answer::Changed(1),
        changes: Items::from_vec(changes),
    })
}

/// Shows the message that was found.
pub fn show<M: Memory>(memory: M, found: Option<Message>) -> Decision
    ensures { result ≡ rules.show found }
{
    match found {
        None => refuse(memory, Refusal::NoMessage),
        Some(message) => tell(memory, Answer::Shown(message)),
    }
}

/// Puts the message that was found on hold.
pub fn hold_found<M: Memory>(memory: M, found: Option<Message>) -> Result<Decision, AllocError>
    ensures { MadeIn M.refused result (λ decision. decision ≡ rules.hold found) }
{
    let Some(mut message) = found else {
        return Ok(refuse(memory, Refusal::NoMessage));
    };
    if hold(&mut message, Text::customer_hold(memory)?) {
        put(memory, message)
    } else {
        Ok(tell(memory, Answer::Changed(0)))
    }
}

/// Releases the message that was found.
pub fn release_found<M: Memory>(
    memory: M,
    at: Moment,
    found: Option<Message>,
) -> Result<Decision, AllocError>
    ensures { MadeIn M.refused result (λ decision. decision ≡ rules.release at found) }
{
    let Some(mut message) = found else {
        return Ok(refuse(memory, Refusal::NoMessage));
    };
    if release(&mut message, at) {
        put(memory, message)
    } else {
        Ok(tell(memory, Answer::Changed(0)))
    }
}

/// Queues a message anew under the head's next serial, or refuses it where none is left.
pub fn requeue_with<M: Memory>(
    memory: M,
    mut head: Head,
    at: Moment,
    mut message: Message,
) -> Result<Decision, AllocError>
    ensures decision { 0 < head.next_serial → head.next_serial ≤ 2 ^ 40
        → IfOk result (λ decision. decision ≡ rules.requeue_with head at message) }
    ensures cause { OnErr result M.refused }
{
    let Some(serial) = Serial::new(head.next_serial) else {
        return Ok(refuse(memory, Refusal::SerialsSpent));
    };
    let old = message.serial;
    requeue(&mut message, at, serial);
    head.next_serial = serial.get() + 1;
    let mut changes = memory.one(Change::DropMessage(old))?;
    memory.push(&mut changes, Change::PutHead(head))?;
    memory.push(&mut changes, Change::PutMessage(message))?;
    Ok(Decision {
        answer: Answer::Requeued(serial),
        changes: Items::from_vec(changes),
    })
}

/// Deletes a message, and counts its recipients, of whom the history tells.
pub fn delete<M: Memory>(
    memory: M,
    entry: &Entry,
    at: Moment,
    mut head: Head,
    message: &Message,
) -> Result<Decision, AllocError>
    ensures { MadeIn M.refused result (λ decision. decision
        ≡ rules.delete entry.now at head (Some message.now)) }
{
    let recipients = message.pending.len() as u64;
    head.tally.deleted = head.tally.deleted.saturating_add(recipients);
    let mut ended = memory.none();
    end_all(memory, &mut ended, Fate::Deleted, message)?;
    let mut changes = memory.one(Change::DropMessage(message.serial))?;
    memory.push(&mut changes, Change::PutHead(head))?;
    keep_history(memory, &mut changes, entry, at, &head, ended.as_slice())?;
    Ok(Decision {
        answer: Answer::Changed(1),
        changes: Items::from_vec(changes),
    })
}

/// The first hundred of the messages, of which one more than that was asked for.
pub fn page<M: Memory>(memory: M, messages: Items<Message>) -> Decision
    ensures { result ≡ rules.page messages }
{
    let mut messages = messages.into_vec();
    let more = messages.len() > PAGE;
    messages.truncate(PAGE);
    tell(memory, Answer::Listed(Items::from_vec(messages), more))
}
