//! The queue report, which reads the messages of a customer page by page: no more than a page of
//! them is ever held.

ghost use Rattle.std.specs.Prelude.{◌≡◌, ◌++◌, ◌+◌, ◌*◌, ◌≤◌, List, filter, OnOk, length};
ghost use Rattle.std.specs.Prelude.{option_map};
ghost use Rattle.hq_kept.specs.declared.message.Message.{Message};
ghost use Rattle.hq_tables.specs.Readings.{read_tables, after_serial};
ghost use Rattle.hq_tables.specs.Shelves.{FindsSound, Keeps, OnSound};
ghost use Rattle.hq_rules.specs.QueueReports.{written};
ghost use Rattle.hq_rules.specs.Queues as queues;
ghost use Rattle.hq_rules.specs.Selections.{is_selected};
ghost use Rattle.hq_reads.specs.Memory.{with_memory};
ghost use Rattle.hq_reads.specs.Reports.{last_serial};

use crate::relay::MOST_MESSAGES;
use hq_decisions::selections::select;
use hq_kept::{Entry, Message, Pattern};
use hq_memory::Memory;
use hq_rules::Answer;
use hq_rules::decision::{Decision, PAGE, tell};
use hq_tables::Shelf;
use hq_text::Report;
use hq_values::{Fault, Serial, WrittenText};

/// Pages behind the first, as many as a customer can have.
pub(crate) const MORE_PAGES: usize = MOST_MESSAGES / PAGE - 1;

/// The serial of the last of these messages.
pub(crate) fn last_serial(messages: &[Message]) -> Option<Serial>
    ensures { result ≡ last_serial messages.now }
{
    match messages.last() {
        None => None,
        Some(message) => Some(message.serial),
    }
}

/// Adds the messages after a serial, or from the start, that are selected: those of a page, and of
/// at most so many more.
fn add_pages<S: Shelf, M: Memory>(
    shelf: &mut S,
    memory: M,
    entry: &Entry,
    which: Option<&Pattern>,
    report: &mut Report,
    after: Option<Serial>,
    more: usize,
) -> Result<(), Fault>
    ensures added { OnSound S.sight shelf.old shelf.new ((before : List Message)
        → (let all = after_serial after
        (read_tables entry.now.name (S.sight.tables shelf.old)).messages in
        report.old ≡ written before → length all ≤ 100 * (more + 1)
        → OnOk result (report.new ≡ written (before
        ++ filter (is_selected (option_map (λ p. p.now) which.entry)) all)))) }
    ensures kept { Keeps (with_memory M.refused S.sight) shelf.old shelf.new result }
{
    let page = shelf.messages(&entry.name, after, PAGE)?;
    let last = last_serial(page.as_slice());
    let selected = select(memory, which, page)?;
    report.add_all(memory, selected.as_slice())?;
    let Some(last) = last else {
        return Ok(());
    };
    if more == 0 {
        return Ok(());
    }
    add_pages(shelf, memory, entry, which, report, Some(last), more - 1)
}

/// The answer to the call for the queue report: of the messages that are selected.
pub(crate) fn decide_report<S: Shelf, M: Memory>(
    shelf: &mut S,
    memory: M,
    entry: &Entry,
    which: Option<&Pattern>,
) -> Result<Decision, Fault>
    ensures found { FindsSound S.sight shelf.old shelf.new result entry.now.name
        (λ rows. queues.report
        (filter (is_selected (option_map (λ p. p.now) which.entry)) rows.messages)) }
    ensures kept { Keeps (with_memory M.refused S.sight) shelf.old shelf.new result }
{
    let mut report = Report::new(memory);
    add_pages(shelf, memory, entry, which, &mut report, None, MORE_PAGES)?;
    let text = WrittenText::new(report.finish(memory)?);
    Ok(tell(memory, Answer::Reported(text)))
}
