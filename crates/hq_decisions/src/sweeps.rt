//! What is answered and changed by a sweep of one customer's queue. Nothing is read or written
//! here.

ghost use Rattle.std.specs.Prelude.{◌≡◌, ◌++◌, OnErr, map, option_map};
ghost use Rattle.std.specs.List.{sum_by, flat_map};
ghost use Rattle.hq_memory.specs.Making.{MadeIn};
ghost use Rattle.hq_tables.specs.Readings.{saturated};
ghost use Rattle.hq_rules.specs.Sweeps as rules;

use crate::notices::{carry_out, draft_notice};
use hq_kept::{Ended, Entry, Fate, Head, Kind, Message, Pending, Status, Told};
use hq_memory::Memory;
use hq_queue::{end_all, sweep_one};
use hq_rules::decision::{Decision, tell};
use hq_rules::{Answer, Draft, Plan, SweepCounts, Swept};
use hq_tables::Change;
use hq_values::{Host, Items, Moment, TryCopy};
use std::alloc::AllocError;

/// Sweeps each message by itself.
fn meet_all<M: Memory>(
    memory: M,
    messages: Vec<Message>,
    at: Moment,
    delay: u64,
) -> Result<Vec<(Message, Swept)>, AllocError>
    ensures { MadeIn M.refused result
        (λ rows. rows.items ≡ map (rules.message_met at delay) messages.items) }
{
    let mut rows = memory.room(messages.len())?;
    for message in messages {
        let mut message = message;
        let swept = sweep_one(&mut message, at, delay);
        memory.push(&mut rows, (message, swept))?;
    }
    Ok(rows)
}

/// Whether the sweep made this of a message.
fn is_made(made: Swept, swept: Swept) -> bool
    ensures { result ≡ rules.is_made made swept }
{
    match (made, swept) {
        (Swept::Expired, Swept::Expired)
        | (Swept::Warned, Swept::Warned)
        | (Swept::Untouched, Swept::Untouched) => true,
        _ => false,
    }
}

/// Of how many messages the sweep made this.
fn how_many(made: Swept, rows: &[(Message, Swept)]) -> u64
    ensures { result ≡ rules.messages_that made rows.now }
{
    let mut count = 0;
    for row in rows {
        if is_made(made, row.1) {
            count += 1;
        }
    }
    count
}

/// Whether no message is changed.
fn is_none_changed(expired: u64, warned: u64) -> bool
    ensures { result ≡ rules.is_none_changed expired warned }
{
    expired == 0 && warned == 0
}

/// How many recipients of a message are given up.
fn given_up(row: &(Message, Swept)) -> u64
    ensures { result ≡ rules.given_up row.now }
{
    match row.1 {
        Swept::Expired => row.0.pending.len() as u64,
        Swept::Warned | Swept::Untouched => 0,
    }
}

/// How many recipients are given up in all.
fn all_given_up(rows: &[(Message, Swept)]) -> u64
    ensures { result ≡ saturated (sum_by rules.given_up rows.now) }
{
    let mut count: u64 = 0;
    for row in rows {
        count = count.saturating_add(given_up(row));
    }
    count
}

/// Why a recipient is told of.
fn status_told(kind: Kind, status: Option<&Status>) -> Status
    ensures { result ≡ rules.status_told kind (option_map (λ s. s.now) status.entry) }
{
    match (kind, status) {
        (Kind::Failure, _) => Status::expired(),
        (Kind::Delay, Some(status)) => status.copy(),
        (Kind::Delay, None) => Status::unknown(),
    }
}

/// What is told of a recipient.
fn told_as<M: Memory>(memory: M, kind: Kind, pending: &Pending) -> Result<Told, AllocError>
    ensures { MadeIn M.refused result (λ told. told ≡ rules.last_told kind pending.now) }
{
    Ok(Told {
        address: pending.address.copy(memory)?,
        status: status_told(kind, pending.status.as_ref()),
        text: pending.text.copy(memory)?,
    })
}

/// What is told of all recipients of a message.
fn all_told<M: Memory>(memory: M, kind: Kind, pending: &[Pending]) -> Result<Vec<Told>, AllocError>
    ensures { MadeIn M.refused result
        (λ told. told.items ≡ map (rules.last_told kind) pending.now) }
{
    let mut told = memory.room(pending.len())?;
    for recipient in pending {
        memory.push(&mut told, told_as(memory, kind, recipient)?)?;
    }
    Ok(told)
}

/// Drafts the notice of a message, or nothing where memory runs out.
fn draft_row<M: Memory>(
    memory: M,
    drafts: &mut Vec<Draft>,
    row: &(Message, Swept),
) -> Result<(), AllocError>
    ensures drafted { MadeIn M.refused result (λ _. drafts.new.items
        ≡ drafts.old.items ++ rules.drafts_of row.now) }
    ensures kept { OnErr result (drafts.new.items ≡ drafts.old.items) }
{
    let (message, swept) = row;
    let kind = match swept {
        Swept::Expired => Kind::Failure,
        Swept::Warned => Kind::Delay,
        Swept::Untouched => return Ok(()),
    };
    let told = all_told(memory, kind, message.pending.as_slice())?;
    draft_notice(memory, drafts, message, kind, Items::from_vec(told))
}

/// The notices, in order of serial.
fn drafts_of<M: Memory>(memory: M, rows: &[(Message, Swept)]) -> Result<Vec<Draft>, AllocError>
    ensures { MadeIn M.refused result (λ drafts. drafts.items ≡ flat_map rules.drafts_of rows.now) }
{
    let mut drafts = memory.none();
    for row in rows {
        draft_row(memory, &mut drafts, row)?;
    }
    Ok(drafts)
}

/// The recipients that are given up, in order.
fn ended_of<M: Memory>(memory: M, rows: &[(Message, Swept)]) -> Result<Vec<Ended>, AllocError>
    ensures { MadeIn M.refused result (λ ended. ended.items ≡ flat_map rules.ended_in rows.now) }
{
    let mut ended = memory.none();
    for row in rows {
        end_row(memory, &mut ended, row)?;
    }
    Ok(ended)
}

/// Puts the recipients of a message behind others, where it is given up.
fn end_row<M: Memory>(
    memory: M,
    ended: &mut Vec<Ended>,
    row: &(Message, Swept),
) -> Result<(), AllocError>
    ensures { MadeIn M.refused result
        (λ _. ended.new.items ≡ ended.old.items ++ rules.ended_in row.now) }
{
    match row.1 {
        Swept::Expired => end_all(memory, ended, Fate::Expired, &row.0),
        Swept::Warned | Swept::Untouched => Ok(()),
    }
}

/// The changes of the messages.
fn changes_of<M: Memory>(memory: M, rows: Vec<(Message, Swept)>) -> Result<Vec<Change>, AllocError>
    ensures { MadeIn M.refused result (λ changes. changes.items
        ≡ flat_map rules.changed_by rows.items) }
{
    let mut changes = memory.none();
    for (message, swept) in rows {
        match swept {
            Swept::Expired => memory.push(&mut changes, Change::DropMessage(message.serial))?,
            Swept::Warned => memory.push(&mut changes, Change::PutMessage(message))?,
            Swept::Untouched => {}
        }
    }
    Ok(changes)
}

/// What a sweep does, where it changes a message.
fn sweep_rows<M: Memory>(
    memory: M,
    mut head: Head,
    rows: Vec<(Message, Swept)>,
    expired: u64,
    warned: u64,
) -> Result<Plan, AllocError>
    ensures { MadeIn M.refused result
        (λ plan. plan ≡ rules.swept_all head rows.items expired warned) }
{
    let drafts = drafts_of(memory, rows.as_slice())?;
    let given_up = all_given_up(rows.as_slice());
    head.tally.expired = head.tally.expired.saturating_add(given_up);
    let counts = SweepCounts {
        expired,
        notices: drafts.len() as u64,
        warned,
    };
    let ended = ended_of(memory, rows.as_slice())?;
    let changes = changes_of(memory, rows)?;
    Ok(Plan {
        answer: Answer::Swept(counts),
        changes: Items::from_vec(changes),
        head,
        drafts: Items::from_vec(drafts),
        ended: Items::from_vec(ended),
    })
}

/// Sweeps all messages of a customer, which come in order of serial: what is too old is given up,
/// what is late is warned of, and each sender is told. 44 `NoticesSpent` where more notices are
/// owed than numbers are left, and then nothing is changed.
pub fn sweep<M: Memory>(
    memory: M,
    host: &Host,
    entry: &Entry,
    at: Moment,
    head: Head,
    messages: Items<Message>,
) -> Result<Decision, AllocError>
    ensures { MadeIn M.refused result (λ decision. decision
        ≡ rules.sweep host.now entry.now at head messages) }
{
    let rows = meet_all(memory, messages.into_vec(), at, entry.delay)?;
    let expired = how_many(Swept::Expired, rows.as_slice());
    let warned = how_many(Swept::Warned, rows.as_slice());
    if is_none_changed(expired, warned) {
        let none = SweepCounts {
            expired: 0,
            notices: 0,
            warned: 0,
        };
        return Ok(tell(memory, Answer::Swept(none)));
    }
    let plan = sweep_rows(memory, head, rows, expired, warned)?;
    carry_out(memory, host, entry, at, plan)
}
