//! What the calls on a customer's history read through a shelf.

ghost use Rattle.hq_tables.specs.Readings.{before_end};
ghost use Rattle.hq_tables.specs.Shelves.{Finds, Keeps};
ghost use Rattle.hq_rules.specs.Histories as histories;
ghost use Rattle.hq_reads.specs.Memory.{with_memory};

use hq_decisions::histories::{find_history, history_page};
use hq_kept::{Entry, Pattern};
use hq_memory::Memory;
use hq_rules::decision::{Decision, PAGE, SEARCH};
use hq_tables::Shelf;
use hq_values::Fault;

/// The answer to a page of the history.
pub(crate) fn decide_history<S: Shelf, M: Memory>(
    shelf: &mut S,
    memory: M,
    entry: &Entry,
    before: Option<u64>,
) -> Result<Decision, Fault>
    ensures found { Finds S.sight shelf.old shelf.new result entry.now.name
        (λ rows. histories.history_page (before_end before rows.ends)) }
    ensures kept { Keeps (with_memory M.refused S.sight) shelf.old shelf.new result }
{
    let found = shelf.ends(&entry.name, before, PAGE + 1)?;
    Ok(history_page(memory, found))
}

/// The answer to a search in the history.
pub(crate) fn decide_find_history<S: Shelf, M: Memory>(
    shelf: &mut S,
    memory: M,
    entry: &Entry,
    pattern: &Pattern,
    before: Option<u64>,
) -> Result<Decision, Fault>
    ensures found { Finds S.sight shelf.old shelf.new result entry.now.name
        (λ rows. histories.find_history pattern.now (before_end before rows.ends)) }
    ensures kept { Keeps (with_memory M.refused S.sight) shelf.old shelf.new result }
{
    let found = shelf.ends(&entry.name, before, SEARCH + 1)?;
    let decision = find_history(memory, pattern, found)?;
    Ok(decision)
}
