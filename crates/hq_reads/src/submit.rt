//! What a submission reads through a shelf: a repeat of it, what the customer keeps, and its lines.

ghost use Rattle.std.specs.Prelude.{◌≡◌, None, map};
ghost use Rattle.hq_memory.specs.Making.{MadeIn};
ghost use Rattle.hq_rules.specs.Verdicts.{verdict};
ghost use Rattle.hq_tables.specs.Readings.{account_read};
ghost use Rattle.hq_tables.specs.Shelves.{Finds, FindsSound, Keeps};
ghost use Rattle.hq_reads.specs.Memory.{with_memory};
ghost use Rattle.hq_reads.specs.ShelfLines.{FindsOpen, KeepsOpen};
ghost use Rattle.hq_rules.specs.Submissions as rules;

use crate::customer_lines::{action_for, with_actions};
use hq_access::decide as decide_verdict;
use hq_decisions::submissions::{settle, would_answer};
use hq_kept::{Action, Class, Entry};
use hq_memory::Memory;
use hq_queue::{admit as admitted, distinct};
use hq_rules::decision::{Decision, tell};
use hq_rules::{Answer, Envelope, Origin, Submission, Verdict};
use hq_tables::{Account, Shelf};
use hq_values::{Address, Fault, Items, Moment, Name, Sender};
use std::alloc::AllocError;

/// Recipients of a customer that has no line: nothing is found for them.
fn unmatched<M: Memory>(
    memory: M,
    recipients: Vec<Address>,
) -> Result<Vec<(Address, Option<Action>)>, AllocError>
    ensures { MadeIn M.refused result (λ found. found.items ≡ map
        (λ a. (a, None)) recipients.items) }
{
    let mut found = memory.room(recipients.len())?;
    for recipient in recipients {
        memory.push(&mut found, (recipient, None))?;
    }
    Ok(found)
}

/// The verdict on a submission to a customer that has no line. Nothing is looked up.
fn judge_without_lines<M: Memory>(
    memory: M,
    sender: &Sender,
    recipients: Vec<Address>,
) -> Result<Verdict, AllocError>
    ensures { MadeIn M.refused result (λ judged. judged
        ≡ verdict None sender.now (map (λ a. (a, None)) recipients.items)) }
{
    let recipients = unmatched(memory, recipients)?;
    decide_verdict(memory, None, sender, recipients.as_slice())
}

/// The verdict on a submission, whose sender and recipients are looked up. The shelf is open before
/// it.
fn judge<S: Shelf, M: Memory>(
    shelf: &mut S,
    memory: M,
    customer: &Name,
    sender: &Sender,
    recipients: Vec<Address>,
) -> Result<Verdict, Fault>
    ensures found { FindsOpen S.sight shelf.old shelf.new result customer.now
        (λ rows. rules.judged rows sender.now recipients.items) }
    ensures kept { KeepsOpen M.refused S.sight shelf.old shelf.new result }
{
    let found = action_for(shelf, memory, customer, Class::SenderSide, sender)?;
    let recipients = with_actions(shelf, memory, customer, recipients)?;
    let verdict = decide_verdict(memory, found.as_ref(), sender, recipients.as_slice())?;
    Ok(verdict)
}

/// What the customer keeps, and the verdict on a submission.
fn weigh<S: Shelf, M: Memory>(
    shelf: &mut S,
    memory: M,
    customer: &Name,
    sender: &Sender,
    recipients: Items<Address>,
) -> Result<(Account, Verdict), Fault>
    ensures found { Finds S.sight shelf.old shelf.new result customer.now (λ rows.
        (account_read rows, rules.judged rows sender.now (rules.distinct recipients))) }
    ensures kept { Keeps (with_memory M.refused S.sight) shelf.old shelf.new result }
{
    let account = shelf.account(customer)?;
    let recipients = distinct(memory, recipients.into_vec())?;
    let verdict = if account.counts.lines == 0 {
        judge_without_lines(memory, sender, recipients)?
    } else {
        judge(shelf, memory, customer, sender, recipients)?
    };
    Ok((account, verdict))
}

/// What a submission of this envelope would be answered.
pub(crate) fn decide_admit<S: Shelf, M: Memory>(
    shelf: &mut S,
    memory: M,
    entry: &Entry,
    envelope: Envelope,
) -> Result<Decision, Fault>
    ensures found { FindsSound S.sight shelf.old shelf.new result entry.now.name
        (λ rows. rules.dry_run entry.now rows envelope) }
    ensures kept { Keeps (with_memory M.refused S.sight) shelf.old shelf.new result }
{
    let Envelope {
        sender,
        recipients,
        size,
    } = envelope;
    let (account, verdict) = weigh(shelf, memory, &entry.name, &sender, recipients)?;
    let serial = admitted(&account.head, &entry.quota, &account.counts, size);
    let answer = would_answer(memory, serial, verdict)?;
    Ok(tell(memory, answer))
}

/// The answer to a submission of a new spool name, and its changes.
fn decide_new<S: Shelf, M: Memory>(
    shelf: &mut S,
    memory: M,
    at: Moment,
    entry: &Entry,
    submission: Submission,
) -> Result<Decision, Fault>
    ensures found { FindsSound S.sight shelf.old shelf.new result entry.now.name
        (λ rows. rules.submit entry.now rows at submission None) }
    ensures kept { Keeps (with_memory M.refused S.sight) shelf.old shelf.new result }
{
    let Submission {
        spool,
        sender,
        recipients,
        size,
    } = submission;
    let (account, verdict) = weigh(shelf, memory, &entry.name, &sender, recipients)?;
    let serial = admitted(&account.head, &entry.quota, &account.counts, size);
    let origin = Origin {
        spool,
        sender,
        size,
    };
    let decision = settle(memory, account.head, at, origin, serial, verdict)?;
    Ok(decision)
}

/// The answer to a submission, and its changes.
pub(crate) fn decide_submit<S: Shelf, M: Memory>(
    shelf: &mut S,
    memory: M,
    at: Moment,
    entry: &Entry,
    submission: Submission,
) -> Result<Decision, Fault>
    ensures found { FindsSound S.sight shelf.old shelf.new result entry.now.name
        (λ rows. rules.submit entry.now rows at submission (rows.by_spool submission.spool)) }
    ensures kept { Keeps (with_memory M.refused S.sight) shelf.old shelf.new result }
{
    match shelf.by_spool(&entry.name, &submission.spool)? {
        Some(known) => Ok(tell(memory, Answer::Repeated(known.serial))),
        None => decide_new(shelf, memory, at, entry, submission),
    }
}
