//! What is answered and changed on all messages of a customer, and what a customer is told of its
//! use of the desk. Nothing is read or written here.

ghost use Rattle.std.specs.Prelude.{◌≡◌, ◌++◌, List, map};
ghost use Rattle.std.specs.List.{flat_map};
ghost use Rattle.hq_memory.specs.Making.{MadeIn};
ghost use Rattle.hq_rules.specs.Leaving.{all_ended};
ghost use Rattle.hq_rules.specs.Moves.{MovesBy};
ghost use Rattle.hq_kept.specs.declared.outcome.Fate.TheVariants.{Deleted};
ghost use Rattle.hq_kept.specs.declared.message.Message.{Message};
ghost use Rattle.hq_tables.specs.Readings.{saturated};
ghost use Rattle.hq_tables.specs.Sound.{pending_count};
ghost use Rattle.hq_rules.specs.Desks.{IsAnswerTo};
ghost use Rattle.hq_rules.specs.Queues as rules;
ghost use Rattle.hq_rules.specs.declared.call.Call.TheVariants.{Usage as UsageCall};

use hq_kept::{Counts, Ended, Entry, Fate, Head, Message};
use hq_memory::Memory;
use hq_queue::{end_all, hold, release};
use hq_rules::decision::{Decision, tell};
use hq_rules::histories::keep_history;
use hq_rules::{Allowance, Answer, Move, Usage};
use hq_tables::Change;
use hq_values::{Items, Moment, Text};
use std::alloc::AllocError;

/// Moves a message, and tells whether the move applies to it; else it stays as it is.
fn make<M: Memory>(memory: M, by: &Move, message: &mut Message) -> Result<bool, AllocError>
    ensures { MadeIn M.refused result
        (MovesBy (rules.moved_by by.now message.old) message.old message.new) }
{
    match by {
        Move::Hold => {
            let reason = Text::customer_hold(memory)?;
            Ok(hold(message, reason))
        }
        Move::Release(at) => Ok(release(message, *at)),
    }
}

/// Adds the change of a message, where the move applies to it.
fn push_moved<M: Memory>(
    memory: M,
    changes: &mut Vec<Change>,
    by: &Move,
    mut message: Message,
) -> Result<(), AllocError>
    ensures { MadeIn M.refused result (λ _. changes.new.items
        ≡ changes.old.items ++ rules.put (rules.moved_by by.now message)) }
{
    if make(memory, by, &mut message)? {
        memory.push(changes, Change::PutMessage(message))?;
    }
    Ok(())
}

/// The changes of the messages that the move applies to.
fn moves_of<M: Memory>(
    memory: M,
    by: &Move,
    messages: Vec<Message>,
) -> Result<Vec<Change>, AllocError>
    ensures { MadeIn M.refused result (λ changes. changes.items
        ≡ rules.moves_of by.now messages.items) }
{
    let mut changes = memory.none();
    for message in messages {
        push_moved(memory, &mut changes, by, message)?;
    }
    Ok(changes)
}

/// Moves all messages. Where the move applies to none, nothing is changed.
pub fn move_all<M: Memory>(
    memory: M,
    by: Move,
    messages: Items<Message>,
) -> Result<Decision, AllocError>
    ensures { MadeIn M.refused result (λ decision. decision ≡ rules.move_all by messages) }
{
    let changes = moves_of(memory, &by, messages.into_vec())?;
    Ok(Decision {
        answer: Answer::Changed(changes.len() as u64),
        changes: Items::from_vec(changes),
    })
}

/// How many recipients are pending.
fn all_pending(messages: &[Message]) -> u64
    ensures { result ≡ saturated (pending_count messages.now) }
{
    let mut count: u64 = 0;
    for message in messages {
        count = count.saturating_add(message.pending.len() as u64);
    }
    count
}

/// Drops all messages.
fn drops_of<M: Memory>(memory: M, messages: &[Message]) -> Result<Vec<Change>, AllocError>
    ensures { MadeIn M.refused result (λ changes. changes.items ≡ map rules.drop messages.now) }
{
    let mut changes = memory.room(messages.len())?;
    for message in messages {
        memory.push(&mut changes, Change::DropMessage(message.serial))?;
    }
    Ok(changes)
}

/// The recipients of all messages, as they are deleted.
fn ended_of<M: Memory>(memory: M, messages: &[Message]) -> Result<Vec<Ended>, AllocError>
    ensures { MadeIn M.refused result (λ ended. ended.items
        ≡ flat_map (all_ended Deleted) messages.now) }
{
    let mut ended = memory.none();
    for message in messages {
        end_all(memory, &mut ended, Fate::Deleted, message)?;
    }
    Ok(ended)
}

/// Deletes all messages, and counts their recipients, of whom the history tells.
pub fn delete_all<M: Memory>(
    memory: M,
    entry: &Entry,
    at: Moment,
    mut head: Head,
    messages: &[Message],
) -> Result<Decision, AllocError>
    ensures { MadeIn M.refused result (λ decision. decision
        ≡ rules.delete_all entry.now at head messages.now) }
{
    if messages.is_empty() {
        return Ok(tell(memory, Answer::Changed(0)));
    }
    head.tally.deleted = head.tally.deleted.saturating_add(all_pending(messages));
    let mut changes = drops_of(memory, messages)?;
    memory.push(&mut changes, Change::PutHead(head))?;
    let ended = ended_of(memory, messages)?;
    keep_history(memory, &mut changes, entry, at, &head, ended.as_slice())?;
    Ok(Decision {
        answer: Answer::Changed(messages.len() as u64),
        changes: Items::from_vec(changes),
    })
}

/// What a customer has on the desk. No message is read for it: what is accepted and nowhere else in
/// the tally is pending, and so it is on sound tables.
pub fn usage<M: Memory>(memory: M, head: &Head, counts: Counts) -> Decision
    ensures usage { (messages : List Message) → rules.AreTold head.now messages
        → result ≡ rules.usage head.now counts messages }
    ensures kind { IsAnswerTo UsageCall result.answer }
{
    let tally = head.tally;
    let pending = tally
        .accepted
        .saturating_sub(tally.delivered)
        .saturating_sub(tally.failed)
        .saturating_sub(tally.deleted)
        .saturating_sub(tally.expired);
    tell(
        memory,
        Answer::Used(Usage {
            counts,
            pending,
            tally,
        }),
    )
}

/// How much a customer may keep, by its row of the directory.
pub fn limits<M: Memory>(memory: M, entry: &Entry) -> Decision
    ensures { result ≡ rules.limits entry.now }
{
    let quota = entry.quota;
    tell(
        memory,
        Answer::Allowed(Allowance {
            bytes: quota.bytes,
            delay: entry.delay,
            history: entry.history,
            lines: quota.lines,
            messages: quota.messages,
            notices: quota.notices,
        }),
    )
}
