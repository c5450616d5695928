//! What the calls of relay workers on a customer's queue read through a shelf: the report of an
//! attempt, what may be tried, and a sweep.

ghost use Rattle.std.specs.Prelude.{IfOk, filter};
ghost use Rattle.hq_rules.specs.Desks.{IsAnswerTo};
ghost use Rattle.hq_rules.specs.declared.call.Call.TheVariants.{Sweep as SweepCall};
ghost use Rattle.hq_kept.specs.Messages.{is_due};
ghost use Rattle.hq_tables.specs.Readings.{after_serial};
ghost use Rattle.hq_tables.specs.Shelves.{Finds, FindsSound, Keeps};
ghost use Rattle.hq_rules.specs.Outcomes as outcomes;
ghost use Rattle.hq_rules.specs.Sweeps as sweeps;
ghost use Rattle.hq_reads.specs.Memory.{with_memory};

use hq_decisions::outcomes::{due_page, take_report};
use hq_decisions::sweeps::sweep;
use hq_kept::Entry;
use hq_memory::Memory;
use hq_rules::AttemptReport;
use hq_rules::decision::{Decision, PAGE, refuse};
use hq_tables::Shelf;
use hq_values::{Fault, Host, Moment, Refusal, Serial};

/// The most messages that a customer can have.
pub(crate) const MOST_MESSAGES: usize = 1000;

/// The answer to the report of an attempt, and its changes.
pub(crate) fn decide_outcome<S: Shelf, M: Memory>(
    shelf: &mut S,
    host: &Host,
    memory: M,
    at: Moment,
    entry: &Entry,
    report: &AttemptReport,
) -> Result<Decision, Fault>
    ensures found { Finds S.sight shelf.old shelf.new result entry.now.name
        (λ rows. outcomes.outcome host.now entry.now at rows.head report.now
        (rows.message report.now.serial)) }
    ensures kept { Keeps (with_memory M.refused S.sight) shelf.old shelf.new result }
{
    let Some(message) = shelf.message(&entry.name, report.serial)? else {
        return Ok(refuse(memory, Refusal::NoMessage));
    };
    let account = shelf.account(&entry.name)?;
    let decision = take_report(memory, host, entry, at, account.head, message, report)?;
    Ok(decision)
}

/// The answer to the question which messages may be tried.
pub(crate) fn decide_due<S: Shelf, M: Memory>(
    shelf: &mut S,
    memory: M,
    at: Moment,
    entry: &Entry,
    after: Option<Serial>,
) -> Result<Decision, Fault>
    ensures found { Finds S.sight shelf.old shelf.new result entry.now.name
        (λ rows. outcomes.due_page (filter (is_due at) (after_serial after rows.messages))) }
    ensures kept { Keeps (with_memory M.refused S.sight) shelf.old shelf.new result }
{
    let messages = shelf.due(&entry.name, at, after, PAGE + 1)?;
    Ok(due_page(memory, messages))
}

/// The answer to a sweep, and its changes.
pub(crate) fn decide_sweep<S: Shelf, M: Memory>(
    shelf: &mut S,
    host: &Host,
    memory: M,
    at: Moment,
    entry: &Entry,
) -> Result<Decision, Fault>
    ensures found { FindsSound S.sight shelf.old shelf.new result entry.now.name
        (λ rows. sweeps.sweep host.now entry.now at rows.head rows.messages) }
    ensures kind { IfOk result (λ decision. IsAnswerTo SweepCall decision.answer) }
    ensures kept { Keeps (with_memory M.refused S.sight) shelf.old shelf.new result }
{
    let messages = shelf.messages(&entry.name, None, MOST_MESSAGES)?;
    let account = shelf.account(&entry.name)?;
    let decision = sweep(memory, host, entry, at, account.head, messages)?;
    Ok(decision)
}
