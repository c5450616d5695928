//! What each call reads through a shelf, and what is answered and changed by it. The shelf is asked
//! before memory is wanted, since a closed one answers 93 alone.

ghost use Rattle.std.specs.Prelude.{IfOk, option_map};
ghost use Rattle.hq_tables.specs.Readings.{after_number, after_pattern};
ghost use Rattle.hq_tables.specs.Shelves.{Finds, FindsSound, Keeps};
ghost use Rattle.hq_rules.specs.Desks.{IsAnswerTo};
ghost use Rattle.hq_rules.specs.AccessLines as lines;
ghost use Rattle.hq_rules.specs.Decision as rules;
ghost use Rattle.hq_rules.specs.Messages as messages;
ghost use Rattle.hq_rules.specs.Notices as notices;
ghost use Rattle.hq_reads.specs.Memory.{with_memory};

use crate::customer_lines::look_up;
use crate::histories::{decide_find_history, decide_history};
use crate::imports::decide_import;
use crate::lists::decide_list;
use crate::queues::{decide_delete_all, decide_limits, decide_move_all, decide_usage};
use crate::relay::{decide_due, decide_outcome, decide_sweep};
use crate::report::decide_report;
use crate::submit::{decide_admit, decide_submit};
use hq_access::keys_of;
use hq_decisions::lines::{drop_line, line_page, put_new, put_over};
use hq_decisions::messages::{delete, hold_found, release_found, requeue_with, show};
use hq_decisions::notices::{notice_page, show_notice};
use hq_kept::{Class, Entry, Line, Pattern};
use hq_memory::Memory;
use hq_rules::decision::{Decision, PAGE, refuse, tell};
use hq_rules::{Answer, Call, CsvMemory, Move};
use hq_tables::Shelf;
use hq_values::{Fault, Host, Items, Moment, Refusal, Sender, Serial};

/// The answer and the changes of a deletion of a message.
fn decide_delete<S: Shelf, M: Memory>(
    shelf: &mut S,
    memory: M,
    at: Moment,
    entry: &Entry,
    serial: Serial,
) -> Result<Decision, Fault>
    ensures found { Finds S.sight shelf.old shelf.new result entry.now.name
        (λ rows. messages.delete entry.now at rows.head (rows.message serial)) }
    ensures kept { Keeps (with_memory M.refused S.sight) shelf.old shelf.new result }
{
    let Some(message) = shelf.message(&entry.name, serial)? else {
        return Ok(refuse(memory, Refusal::NoMessage));
    };
    let account = shelf.account(&entry.name)?;
    let decision = delete(memory, entry, at, account.head, &message)?;
    Ok(decision)
}

/// The answer to a requeue, and its changes.
fn decide_requeue<S: Shelf, M: Memory>(
    shelf: &mut S,
    memory: M,
    at: Moment,
    entry: &Entry,
    serial: Serial,
) -> Result<Decision, Fault>
    ensures found { FindsSound S.sight shelf.old shelf.new result entry.now.name
        (λ rows. messages.requeue rows.head at (rows.message serial)) }
    ensures kept { Keeps (with_memory M.refused S.sight) shelf.old shelf.new result }
{
    let Some(message) = shelf.message(&entry.name, serial)? else {
        return Ok(refuse(memory, Refusal::NoMessage));
    };
    let account = shelf.account(&entry.name)?;
    let decision = requeue_with(memory, account.head, at, message)?;
    Ok(decision)
}

/// The answer to a list of lines.
fn decide_lines<S: Shelf, M: Memory>(
    shelf: &mut S,
    memory: M,
    entry: &Entry,
    after: Option<&Pattern>,
) -> Result<Decision, Fault>
    ensures found { Finds S.sight shelf.old shelf.new result entry.now.name
        (λ rows. lines.line_page
        (after_pattern (option_map (λ p. p.now) after.entry) rows.lines)) }
    ensures kept { Keeps (with_memory M.refused S.sight) shelf.old shelf.new result }
{
    let found = shelf.lines(&entry.name, after, PAGE + 1)?;
    Ok(line_page(memory, found))
}

/// The answer to a list of notices.
fn decide_notices<S: Shelf, M: Memory>(
    shelf: &mut S,
    memory: M,
    entry: &Entry,
    after: Option<u64>,
) -> Result<Decision, Fault>
    ensures found { Finds S.sight shelf.old shelf.new result entry.now.name
        (λ rows. notices.notice_page (after_number after rows.notices)) }
    ensures kept { Keeps (with_memory M.refused S.sight) shelf.old shelf.new result }
{
    let found = shelf.notices(&entry.name, after, PAGE + 1)?;
    Ok(notice_page(memory, found))
}

/// The answer to a put of a line, and its changes.
fn decide_put_line<S: Shelf, M: Memory>(
    shelf: &mut S,
    memory: M,
    entry: &Entry,
    line: Line,
) -> Result<Decision, Fault>
    ensures found { Finds S.sight shelf.old shelf.new result entry.now.name
        (λ rows. lines.put_line entry.now.quota.lines rows.counts.lines line
        (rows.line line.pattern.0 line.pattern.1)) }
    ensures kept { Keeps (with_memory M.refused S.sight) shelf.old shelf.new result }
{
    let account = shelf.account(&entry.name)?;
    let key = line.pattern.key(memory)?;
    if let Some(known) = shelf.line(&entry.name, line.pattern.class(), &key)? {
        return Ok(put_over(memory, &known, line)?);
    }
    Ok(put_new(memory, entry.quota.lines, account.counts.lines, line)?)
}

/// The answer to a drop of a line, and its changes.
fn decide_drop_line<S: Shelf, M: Memory>(
    shelf: &mut S,
    memory: M,
    entry: &Entry,
    pattern: Pattern,
) -> Result<Decision, Fault>
    ensures found { Finds S.sight shelf.old shelf.new result entry.now.name
        (λ rows. lines.drop_line pattern (rows.line pattern.0 pattern.1)) }
    ensures kept { Keeps (with_memory M.refused S.sight) shelf.old shelf.new result }
{
    if shelf.account(&entry.name)?.counts.lines == 0 {
        return Ok(refuse(memory, Refusal::NoLine));
    }
    let key = pattern.key(memory)?;
    let known = shelf.line(&entry.name, pattern.class(), &key)?;
    Ok(drop_line(memory, pattern, known)?)
}

/// The answer to the check of an address.
fn decide_check<S: Shelf, M: Memory>(
    shelf: &mut S,
    memory: M,
    entry: &Entry,
    class: Class,
    who: &Sender,
) -> Result<Decision, Fault>
    ensures found { Finds S.sight shelf.old shelf.new result entry.now.name
        (λ rows. lines.check rows class who.now) }
    ensures kept { Keeps (with_memory M.refused S.sight) shelf.old shelf.new result }
{
    let account = shelf.account(&entry.name)?;
    let keys = Items::from_vec(keys_of(memory, who)?);
    let found = if account.counts.lines == 0 {
        None
    } else {
        look_up(shelf, memory, &entry.name, class, who)?
    };
    Ok(tell(memory, Answer::Checked(keys, found)))
}

/// The answer to a call, and its changes, by what the shelf has.
#[tactic(auto, unfolding(hq_rules::specs::Decision::decide))]
pub fn decide<S: Shelf, M: CsvMemory>(
    shelf: &mut S,
    host: &Host,
    memory: M,
    at: Moment,
    entry: &Entry,
    call: Call,
) -> Result<Decision, Fault>
    ensures found { FindsSound S.sight shelf.old shelf.new result entry.now.name
        (λ rows. rules.decide host.now entry.now rows at call) }
    ensures kind { IfOk result (λ decision. IsAnswerTo call decision.answer) }
    ensures kept { Keeps (with_memory M.refused S.sight) shelf.old shelf.new result }
{
    match call {
        Call::Submit(submission) => decide_submit(shelf, memory, at, entry, submission),
        Call::Admit(envelope) => decide_admit(shelf, memory, entry, envelope),
        Call::List(after, which) => decide_list(shelf, memory, entry, after, which.as_ref()),
        Call::Show(serial) => {
            let found = shelf.message(&entry.name, serial)?;
            Ok(show(memory, found))
        }
        Call::Hold(serial) => {
            let found = shelf.message(&entry.name, serial)?;
            Ok(hold_found(memory, found)?)
        }
        Call::Release(serial) => {
            let found = shelf.message(&entry.name, serial)?;
            Ok(release_found(memory, at, found)?)
        }
        Call::Requeue(serial) => decide_requeue(shelf, memory, at, entry, serial),
        Call::Delete(serial) => decide_delete(shelf, memory, at, entry, serial),
        Call::HoldAll(which) => decide_move_all(shelf, memory, entry, Move::Hold, which.as_ref()),
        Call::ReleaseAll(which) => {
            decide_move_all(shelf, memory, entry, Move::Release(at), which.as_ref())
        }
        Call::DeleteAll(which) => decide_delete_all(shelf, memory, at, entry, which.as_ref()),
        Call::Lines(after) => decide_lines(shelf, memory, entry, after.as_ref()),
        Call::PutLine(line) => decide_put_line(shelf, memory, entry, line),
        Call::DropLine(pattern) => decide_drop_line(shelf, memory, entry, pattern),
        Call::Check(class, who) => decide_check(shelf, memory, entry, class, &who),
        Call::Import(label, file) => decide_import(shelf, memory, entry, label, &file),
        Call::Outcome(report) => decide_outcome(shelf, host, memory, at, entry, &report),
        Call::Due(after) => decide_due(shelf, memory, at, entry, after),
        Call::Sweep => decide_sweep(shelf, host, memory, at, entry),
        Call::Notices(after) => decide_notices(shelf, memory, entry, after),
        Call::Notice(number) => {
            let found = shelf.notice(&entry.name, number)?;
            Ok(show_notice(memory, found))
        }
        Call::History(before) => decide_history(shelf, memory, entry, before),
        Call::FindHistory(pattern, before) => {
            decide_find_history(shelf, memory, entry, &pattern, before)
        }
        Call::Usage => decide_usage(shelf, memory, entry),
        Call::Limits => decide_limits(shelf, memory, entry),
        Call::Report(which) => decide_report(shelf, memory, entry, which.as_ref()),
    }
}
