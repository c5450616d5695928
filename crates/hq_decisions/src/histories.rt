//! Histories told: a page, and what is found in one. Nothing is read or written here.

ghost use Rattle.std.specs.Prelude.{◌≡◌, filter};
ghost use Rattle.hq_memory.specs.Making.{MadeIn};
ghost use Rattle.hq_rules.specs.Histories as rules;

use hq_access::{keys_of, keys_of_address};
use hq_kept::{Class, End, Pattern};
use hq_memory::Memory;
use hq_rules::Answer;
use hq_rules::decision::{Decision, PAGE, SEARCH, tell};
use hq_values::Items;
use std::alloc::AllocError;

/// The first hundred of the ends, of which one more than that was asked for.
pub fn history_page<M: Memory>(memory: M, ends: Items<End>) -> Decision
    ensures { result ≡ rules.history_page ends }
{
    let mut ends = ends.into_vec();
    let more = ends.len() > PAGE;
    ends.truncate(PAGE);
    tell(memory, Answer::HistoryListed(Items::from_vec(ends), more))
}

/// Whether a line of this pattern could be found for the address of an end.
fn is_meant<M: Memory>(memory: M, pattern: &Pattern, end: &End) -> Result<bool, AllocError>
    ensures { MadeIn M.refused result (λ meant. meant ≡ rules.is_meant pattern.now end.now) }
{
    let keys = match pattern.class() {
        Class::SenderSide => keys_of(memory, &end.ended.sender)?,
        Class::RecipientSide => keys_of_address(memory, &end.ended.recipient)?,
    };
    Ok(pattern.is_among(keys.as_slice()))
}

/// Those of the ends that are meant.
fn meant<M: Memory>(memory: M, pattern: &Pattern, ends: Vec<End>) -> Result<Vec<End>, AllocError>
    ensures { MadeIn M.refused result (λ found. found.items
        ≡ filter (rules.is_meant pattern.now) ends.items) }
{
    let mut found = memory.none();
    for end in ends {
        if is_meant(memory, pattern, &end)? {
            memory.push(&mut found, end)?;
        }
    }
    Ok(found)
}

/// The number of the last of these.
pub fn last_number(ends: &[End]) -> Option<u64>
    ensures { result ≡ rules.last_number ends.now }
{
    match ends.last() {
        None => None,
        Some(end) => Some(end.number),
    }
}

/// Of the first thousand of the ends those that are meant, the first hundred of them, and where the
/// search goes on; one more than a thousand was asked for.
pub fn find_history<M: Memory>(
    memory: M,
    pattern: &Pattern,
    ends: Items<End>,
) -> Result<Decision, AllocError>
    ensures { MadeIn M.refused result (λ decision. decision ≡ rules.find_history pattern.now ends) }
{
    let mut ends = ends.into_vec();
    let more = ends.len() > SEARCH;
    ends.truncate(SEARCH);
    let behind = if more {
        last_number(ends.as_slice())
    } else {
        None
    };
    let mut found = meant(memory, pattern, ends)?;
    let many = found.len() > PAGE;
    found.truncate(PAGE);
    let next = if many {
        last_number(found.as_slice())
    } else {
        behind
    };
    Ok(tell(memory, Answer::HistoryFound(Items::from_vec(found), next)))
}
