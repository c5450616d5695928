//! What a list of messages is answered. It reads the messages of a customer page by page, and no
//! further than to one more than it shows: no more than two pages of them are ever held.

ghost use Rattle.std.specs.Prelude.{◌≡◌, ◌++◌, ◌+◌, ◌*◌, ◌≤◌, OnOk, filter, length};
ghost use Rattle.std.specs.Prelude.{option_map, take};
ghost use Rattle.hq_tables.specs.Readings.{read_tables, after_serial};
ghost use Rattle.hq_tables.specs.Shelves.{FindsSound, Keeps, OnSound};
ghost use Rattle.hq_rules.specs.Messages as messages;
ghost use Rattle.hq_rules.specs.Selections.{is_selected};
ghost use Rattle.hq_reads.specs.Memory.{with_memory};
ghost use Rattle.hq_reads.specs.Reports.{next_serial};

use crate::report::{MORE_PAGES, last_serial};
use hq_decisions::messages::page;
use hq_decisions::selections::add_selected;
use hq_kept::{Entry, Message, Pattern};
use hq_memory::Memory;
use hq_rules::decision::{Decision, PAGE};
use hq_tables::Shelf;
use hq_values::{Fault, Items, Serial};

/// The serial behind which to go on; none where these are no more than a page.
fn next_serial(messages: &[Message]) -> Option<Serial>
    ensures { result ≡ next_serial messages.now }
{
    if messages.len() > PAGE {
        last_serial(messages)
    } else {
        None
    }
}

/// Adds the messages after a serial, or from the start, that are selected: those of a page, and of
/// at most so many more, until there are more than a page of them.
fn add_found<S: Shelf, M: Memory>(
    shelf: &mut S,
    memory: M,
    entry: &Entry,
    which: Option<&Pattern>,
    found: &mut Vec<Message>,
    after: Option<Serial>,
    more: usize,
) -> Result<(), Fault>
    ensures added { OnSound S.sight shelf.old shelf.new (let all = after_serial after
        (read_tables entry.now.name (S.sight.tables shelf.old)).messages in
        length all ≤ 100 * (more + 1) → OnOk result (take 101 found.new.items ≡ take 101
        (found.old.items ++ filter (is_selected (option_map (λ p. p.now) which.entry)) all))) }
    ensures kept { Keeps (with_memory M.refused S.sight) shelf.old shelf.new result }
{
    let page = shelf.messages(&entry.name, after, PAGE + 1)?;
    let next = next_serial(page.as_slice());
    add_selected(memory, which, page, found)?;
    let Some(next) = next else {
        return Ok(());
    };
    if found.len() > PAGE {
        return Ok(());
    }
    if more == 0 {
        return Ok(());
    }
    add_found(shelf, memory, entry, which, found, Some(next), more - 1)
}

/// The answer to a list of messages: of those that are selected.
pub(crate) fn decide_list<S: Shelf, M: Memory>(
    shelf: &mut S,
    memory: M,
    entry: &Entry,
    after: Option<Serial>,
    which: Option<&Pattern>,
) -> Result<Decision, Fault>
    ensures found { FindsSound S.sight shelf.old shelf.new result entry.now.name
        (λ rows. messages.page (filter (is_selected (option_map (λ p. p.now) which.entry))
        (after_serial after rows.messages))) }
    ensures kept { Keeps (with_memory M.refused S.sight) shelf.old shelf.new result }
{
    let mut found = memory.none();
    add_found(shelf, memory, entry, which, &mut found, after, MORE_PAGES)?;
    Ok(page(memory, Items::from_vec(found)))
}
