//! What is answered and changed on the report of a delivery attempt, and which messages may be
//! tried. Nothing is read or written here.

ghost use Rattle.std.specs.Prelude.{◌≡◌, Some};
ghost use Rattle.hq_memory.specs.Making.{MadeIn};
ghost use Rattle.hq_rules.specs.Outcomes as rules;

use crate::notices::{carry_out, draft_notice};
use hq_kept::{Ended, Entry, Head, Kind, Message, Reported, Told};
use hq_memory::Memory;
use hq_queue::report;
use hq_rules::decision::{Decision, PAGE, refuse, tell};
use hq_rules::{Answer, AttemptCounts, AttemptReport, Plan};
use hq_tables::Change;
use hq_values::{Fail, Host, Items, Moment};
use std::alloc::AllocError;

/// A message stays in the queue as long as somebody is left of it.
fn put_or_drop(message: Message) -> Change
    ensures { result ≡ rules.put_or_dropped message message.pending }
{
    if message.pending.is_empty() {
        Change::DropMessage(message.serial)
    } else {
        Change::PutMessage(message)
    }
}

/// What an attempt does where the message is this after it.
fn attempted<M: Memory>(
    memory: M,
    mut head: Head,
    message: Message,
    delivered: u64,
    deferred: u64,
    failed: Items<Told>,
    ended: Items<Ended>,
) -> Result<Plan, AllocError>
    ensures { MadeIn M.refused result (λ plan. plan
        ≡ rules.attempted head message delivered deferred failed ended) }
{
    let counts = AttemptCounts {
        deferred,
        delivered,
        failed: failed.len() as u64,
        left: message.pending.len() as u64,
    };
    head.tally.delivered = head.tally.delivered.saturating_add(counts.delivered);
    head.tally.failed = head.tally.failed.saturating_add(counts.failed);
    let mut drafts = memory.none();
    draft_notice(memory, &mut drafts, &message, Kind::Failure, failed)?;
    let changes = memory.one(put_or_drop(message))?;
    Ok(Plan {
        answer: Answer::Attempted(counts),
        changes: Items::from_vec(changes),
        head,
        drafts: Items::from_vec(drafts),
        ended,
    })
}

/// Takes the report of an attempt to deliver a message: the first refusal of `report`, then 44
/// `NoticesSpent`; and a repeat changes nothing.
pub fn take_report<M: Memory>(
    memory: M,
    host: &Host,
    entry: &Entry,
    at: Moment,
    head: Head,
    mut message: Message,
    asked: &AttemptReport,
) -> Result<Decision, AllocError>
    ensures { MadeIn M.refused result (λ decision. decision
        ≡ rules.outcome host.now entry.now at head asked.now (Some message)) }
{
    let outcomes = asked.outcomes.as_slice();
    match report(memory, &mut message, at, asked.attempt, outcomes) {
        Err(Fail::Refused(refusal)) => Ok(refuse(memory, refusal)),
        Err(Fail::Fault(_)) => Err(AllocError),
        Ok(Reported::Repeat) => Ok(tell(memory, Answer::AttemptRepeated(message.attempts))),
        Ok(
            Reported::Done {
                delivered,
                deferred,
                failed,
                ended,
            },
        ) => {
            let plan = attempted(memory, head, message, delivered, deferred, failed, ended)?;
            carry_out(memory, host, entry, at, plan)
        }
    }
}

/// The first hundred of these messages, which may be tried, and whether there are more.
pub fn due_page<M: Memory>(memory: M, messages: Items<Message>) -> Decision
    ensures { result ≡ rules.due_page messages }
{
    let mut messages = messages.into_vec();
    let more = messages.len() > PAGE;
    messages.truncate(PAGE);
    tell(memory, Answer::DueListed(Items::from_vec(messages), more))
}
