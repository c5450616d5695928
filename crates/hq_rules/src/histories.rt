//! What is kept of recipients that left the queue: their numbers, and which of all stay.

ghost use Rattle.std.specs.Prelude.{◌≡◌, ◌++◌};
ghost use Rattle.hq_memory.specs.Making.{MadeIn};
ghost use Rattle.hq_rules.specs.Histories as rules;

use hq_kept::{Ended, Ends, Entry, Head, last_gone};
use hq_memory::Memory;
use hq_tables::Change;
use hq_values::{Items, Moment, copy_all};
use std::alloc::AllocError;

/// The last so many of these.
fn last_of(ended: &[Ended], most: u64) -> &[Ended]
    ensures { result.now ≡ rules.last_of most ended.now }
{
    let others = (ended.len() as u64).saturating_sub(most);
    &ended[others as usize..]
}

/// Puts ends, where there are any: the last of them has this number.
fn put_to<M: Memory>(
    memory: M,
    changes: &mut Vec<Change>,
    at: Moment,
    last: u64,
    ended: &[Ended],
) -> Result<(), AllocError>
    ensures { MadeIn M.refused result (λ _. changes.new.items
        ≡ changes.old.items ++ rules.put_to at last ended.now) }
{
    if !ended.is_empty() {
        let ended = Items::from_vec(copy_all(memory, ended)?);
        memory.push(changes, Change::PutEnds(Ends { last, at, ended }))?;
    }
    Ok(())
}

/// Keeps the history of recipients that left the queue, of whom the customer's head after them
/// tells: where there are any, the newest of all stay, as many as its entry says.
pub fn keep_history<M: Memory>(
    memory: M,
    changes: &mut Vec<Change>,
    entry: &Entry,
    at: Moment,
    head: &Head,
    ended: &[Ended],
) -> Result<(), AllocError>
    ensures { MadeIn M.refused result (λ _. changes.new.items ≡ changes.old.items
        ++ rules.kept_history entry.now at head.now ended.now) }
{
    if ended.is_empty() {
        return Ok(());
    }
    let last = last_gone(&head.tally);
    let old = Change::DropEndsTo(last.saturating_sub(entry.history));
    memory.push(changes, old)?;
    put_to(memory, changes, at, last, last_of(ended, entry.history))
}
