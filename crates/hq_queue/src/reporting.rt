//! The report of a delivery attempt: who failed, who is still pending, and when the message is
//! tried next. The message is changed after the last growth alone.

ghost use Rattle.std.specs.Prelude.{◌≡◌, IfOk, option_map, not};
ghost use Rattle.std.specs.List.{find, list_any};
ghost use Rattle.hq_memory.specs.Making.{MadeIn};
ghost use Rattle.hq_values.specs.Addresses.{same_address};
ghost use Rattle.hq_rules.specs.Attempts as rules;
ghost use Rattle.hq_rules.specs.Attempts.{Reports};

use crate::backoff::next_try;
use hq_kept::{
    Attempt, Delivery, Ended, Fate, Message, Outcome, Pending, QueueState, Reported, Told,
};
use hq_memory::Memory;
use hq_values::{Fail, Items, Moment, Refusal, TryCopy};
use std::alloc::AllocError;

/// The first outcome that names a recipient.
fn outcome_of<'o>(outcomes: &'o [Outcome], recipient: &Pending) -> Option<&'o Outcome>
    ensures { option_map (λ o. o.now) result ≡ rules.outcome_of outcomes.now recipient.now }
{
    outcomes
        .iter()
        .find(|outcome| outcome.address.same(&recipient.address))
}

/// Whether one of these outcomes names the address of another outcome.
fn is_named(outcomes: &[Outcome], outcome: &Outcome) -> bool
    ensures { result ≡ list_any (λ x. same_address outcome.now.address x.address) outcomes.now }
{
    outcomes
        .iter()
        .any(|other| outcome.address.same(&other.address))
}

/// Whether two outcomes name the same address.
fn is_doubled(outcomes: &[Outcome]) -> bool
    ensures { result ≡ rules.is_doubled outcomes.now }
{
    match outcomes {
        [] => false,
        [first, rest @ ..] => is_named(rest, first) || is_doubled(rest),
    }
}

/// Whether an outcome names one of these.
fn is_known(recipients: &[Pending], outcome: &Outcome) -> bool
    ensures { result ≡ list_any (λ p. same_address outcome.now.address p.address) recipients.now }
{
    recipients
        .iter()
        .any(|recipient| outcome.address.same(&recipient.address))
}

/// Whether an outcome names nobody of these.
fn is_unknown(recipients: &[Pending], outcome: &Outcome) -> bool
    ensures { result ≡ rules.is_unknown recipients.now outcome.now }
{
    !is_known(recipients, outcome)
}

/// Whether one of the outcomes names nobody of these.
fn is_any_unknown(recipients: &[Pending], outcomes: &[Outcome]) -> bool
    ensures { result ≡ list_any (rules.is_unknown recipients.now) outcomes.now }
{
    outcomes
        .iter()
        .any(|outcome| is_unknown(recipients, outcome))
}

/// What a recipient is after the attempt, where it is still pending.
fn left_one<M: Memory>(
    memory: M,
    recipient: &Pending,
    outcomes: &[Outcome],
) -> Result<Option<Pending>, AllocError>
    ensures { MadeIn M.refused result (λ left. left ≡ rules.left_with recipient.now
        (rules.outcome_of outcomes.now recipient.now)) }
{
    let Some(outcome) = outcome_of(outcomes, recipient) else {
        return Ok(Some(recipient.copy(memory)?));
    };
    match &outcome.result {
        Delivery::Deferred(status, text) => {
            let address = recipient.address.copy(memory)?;
            let text = text.copy(memory)?;
            Ok(Some(Pending {
                address,
                status: Some(status.copy()),
                text,
            }))
        }
        Delivery::Delivered(_, _) | Delivery::Failed(_, _) => Ok(None),
    }
}

/// Who is still pending after the attempt.
fn left<M: Memory>(
    memory: M,
    recipients: &[Pending],
    outcomes: &[Outcome],
) -> Result<Vec<Pending>, AllocError>
    ensures { MadeIn M.refused result (λ left. left.items
        ≡ rules.left outcomes.now recipients.now) }
{
    let mut left = memory.none();
    for recipient in recipients {
        if let Some(pending) = left_one(memory, recipient, outcomes)? {
            memory.push(&mut left, pending)?;
        }
    }
    Ok(left)
}

/// What is told of a recipient, where it failed.
fn failed_one<M: Memory>(
    memory: M,
    recipient: &Pending,
    outcomes: &[Outcome],
) -> Result<Option<Told>, AllocError>
    ensures { MadeIn M.refused result (λ told. told ≡ rules.told_with recipient.now
        (rules.outcome_of outcomes.now recipient.now)) }
{
    let Some(outcome) = outcome_of(outcomes, recipient) else {
        return Ok(None);
    };
    match &outcome.result {
        Delivery::Failed(status, text) => {
            let address = recipient.address.copy(memory)?;
            let text = text.copy(memory)?;
            Ok(Some(Told {
                address,
                status: status.copy(),
                text,
            }))
        }
        Delivery::Delivered(_, _) | Delivery::Deferred(_, _) => Ok(None),
    }
}

/// Who failed in the attempt.
fn failed<M: Memory>(
    memory: M,
    recipients: &[Pending],
    outcomes: &[Outcome],
) -> Result<Vec<Told>, AllocError>
    ensures { MadeIn M.refused result (λ failed. failed.items
        ≡ rules.failed outcomes.now recipients.now) }
{
    let mut failed = memory.none();
    for recipient in recipients {
        if let Some(told) = failed_one(memory, recipient, outcomes)? {
            memory.push(&mut failed, told)?;
        }
    }
    Ok(failed)
}

/// What is kept of a recipient, where it left the queue.
fn ended_one<M: Memory>(
    memory: M,
    message: &Message,
    recipient: &Pending,
    outcomes: &[Outcome],
) -> Result<Option<Ended>, AllocError>
    ensures { MadeIn M.refused result (λ ended. ended ≡ rules.ended_with message.now recipient.now
        (rules.outcome_of outcomes.now recipient.now)) }
{
    let Some(outcome) = outcome_of(outcomes, recipient) else {
        return Ok(None);
    };
    let (fate, status, text) = match &outcome.result {
        Delivery::Delivered(None, text) => (Fate::Delivered, None, text),
        Delivery::Delivered(Some(status), text) => (Fate::Delivered, Some(status.copy()), text),
        Delivery::Failed(status, text) => (Fate::Failed, Some(status.copy()), text),
        Delivery::Deferred(_, _) => return Ok(None),
    };
    let sender = message.sender.copy(memory)?;
    let address = recipient.address.copy(memory)?;
    let text = text.copy(memory)?;
    Ok(Some(Ended {
        serial: message.serial,
        sender,
        recipient: address,
        fate,
        status,
        text,
    }))
}

/// Who left the queue in the attempt.
fn ended<M: Memory>(
    memory: M,
    message: &Message,
    outcomes: &[Outcome],
) -> Result<Vec<Ended>, AllocError>
    ensures { MadeIn M.refused result (λ ended. ended.items
        ≡ rules.ended message.now outcomes.now message.now.pending) }
{
    let mut ended = memory.none();
    for recipient in message.pending.as_slice() {
        if let Some(one) = ended_one(memory, message, recipient, outcomes)? {
            memory.push(&mut ended, one)?;
        }
    }
    Ok(ended)
}

/// Whether a recipient was delivered.
fn is_delivered(recipient: &Pending, outcomes: &[Outcome]) -> bool
    ensures { result ≡ rules.delivered_with (rules.outcome_of outcomes.now recipient.now) }
{
    match outcome_of(outcomes, recipient) {
        Some(outcome) => matches!(&outcome.result, Delivery::Delivered(_, _)),
        None => false,
    }
}

/// Whether a recipient is to be tried again.
fn is_deferred(recipient: &Pending, outcomes: &[Outcome]) -> bool
    ensures { result ≡ rules.deferred_with (rules.outcome_of outcomes.now recipient.now) }
{
    match outcome_of(outcomes, recipient) {
        Some(outcome) => matches!(&outcome.result, Delivery::Deferred(_, _)),
        None => false,
    }
}

/// How many recipients were delivered.
fn delivered(recipients: &[Pending], outcomes: &[Outcome]) -> u64
    ensures { result ≡ rules.delivered outcomes.now recipients.now }
{
    recipients
        .iter()
        .filter(|recipient| is_delivered(recipient, outcomes))
        .count() as u64
}

/// How many recipients are to be tried again.
fn deferred(recipients: &[Pending], outcomes: &[Outcome]) -> u64
    ensures { result ≡ rules.deferred outcomes.now recipients.now }
{
    recipients
        .iter()
        .filter(|recipient| is_deferred(recipient, outcomes))
        .count() as u64
}

/// Takes the report of a delivery attempt at the moment `at`: its outcomes name some of the
/// recipients, and what became of each.
///
/// The first of these that applies: an attempt that was reported before is a repeat; 30
/// `AttemptAhead`, with the attempts so far, where it is not the next one; 33 `NoOutcome`; 32
/// `DoubledRecipient`, where two outcomes name the same address; 31 `UnknownRecipient`, where one
/// names nobody who is pending. Else the recipients that were delivered or failed are pending no
/// more, those that were deferred have their new status and text, an incoming message becomes
/// deferred, and it has the attempt's number and its next try. After a repeat, a refusal or want of
/// memory the message is as it was.
pub fn report<M: Memory>(
    memory: M,
    message: &mut Message,
    at: Moment,
    attempt: Attempt,
    outcomes: &[Outcome],
) -> Result<Reported, Fail>
    ensures { Reports M.refused (rules.reported message.old at attempt outcomes.now) message.old
        message.new result }
{
    let number = attempt.get();
    if number <= message.attempts {
        return Ok(Reported::Repeat);
    }
    if number > message.attempts + 1 {
        let attempts = message.attempts;
        return Err(Fail::Refused(Refusal::AttemptAhead { attempts }));
    }
    if outcomes.is_empty() {
        return Err(Fail::Refused(Refusal::NoOutcome));
    }
    if is_doubled(outcomes) {
        return Err(Fail::Refused(Refusal::DoubledRecipient));
    }
    if is_any_unknown(message.pending.as_slice(), outcomes) {
        return Err(Fail::Refused(Refusal::UnknownRecipient));
    }
    let delivered = delivered(message.pending.as_slice(), outcomes);
    let deferred = deferred(message.pending.as_slice(), outcomes);
    let failed = failed(memory, message.pending.as_slice(), outcomes)?;
    let ended = ended(memory, message, outcomes)?;
    let left = left(memory, message.pending.as_slice(), outcomes)?;
    message.pending = Items::from_vec(left);
    message.attempts = number;
    message.next_try = next_try(message.arrival, at);
    if message.state == QueueState::Incoming {
        message.state = QueueState::Deferred;
    }
    Ok(Reported::Done {
        delivered,
        deferred,
        failed: Items::from_vec(failed),
        ended: Items::from_vec(ended),
    })
}
