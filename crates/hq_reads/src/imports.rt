//! What an import reads through a shelf: whether its label was used, and the lines that its rows
//! meet.

ghost use Rattle.std.specs.Prelude.{None, map};
ghost use Rattle.hq_tables.specs.Shelves.{Finds, Keeps};
ghost use Rattle.hq_rules.specs.Imports as rules;
ghost use Rattle.hq_reads.specs.Memory.{with_memory};
ghost use Rattle.hq_reads.specs.ShelfLines.{FindsOpen, KeepsOpen};

use hq_decisions::imports::{beside, digest, repeat, take_rows};
use hq_import::lines_of;
use hq_kept::{Entry, Line};
use hq_memory::Memory;
use hq_rules::decision::{Decision, refuse};
use hq_rules::{CsvMemory, LinePut};
use hq_tables::Shelf;
use hq_values::{Fail, Fault, Items, Label, Name};

/// What a row does to the customer's lines. The shelf is open before it.
fn met<S: Shelf, M: Memory>(
    shelf: &mut S,
    memory: M,
    customer: &Name,
    line: Line,
) -> Result<(Line, LinePut), Fault>
    ensures found { FindsOpen S.sight shelf.old shelf.new result customer.now
        (λ rows. rules.line_met rows line) }
    ensures kept { KeepsOpen M.refused S.sight shelf.old shelf.new result }
{
    let key = line.pattern.key(memory)?;
    let known = shelf.line(customer, line.pattern.class(), &key)?;
    let put = beside(memory, &line.action, known)?;
    Ok((line, put))
}

/// The rows, each with what it does to the customer's lines. The shelf is open before it.
fn all_met<S: Shelf, M: Memory>(
    shelf: &mut S,
    memory: M,
    customer: &Name,
    lines: Vec<Line>,
) -> Result<Items<(Line, LinePut)>, Fault>
    ensures found { FindsOpen S.sight shelf.old shelf.new result customer.now
        (λ rows. map (rules.line_met rows) lines.items) }
    ensures kept { KeepsOpen M.refused S.sight shelf.old shelf.new result }
{
    let mut found = memory.room(lines.len())?;
    for line in lines {
        memory.push(&mut found, met(shelf, memory, customer, line)?)?;
    }
    Ok(Items::from_vec(found))
}

/// The answer to a file, and its changes under a new label. The shelf is open before it.
fn decide_first<S: Shelf, M: CsvMemory>(
    shelf: &mut S,
    memory: M,
    entry: &Entry,
    label: Label,
    file: &[u8],
) -> Result<Decision, Fault>
    ensures found { FindsOpen S.sight shelf.old shelf.new result entry.now.name
        (λ rows. rules.import entry.now.quota.lines rows label file.now None) }
    ensures kept { KeepsOpen M.refused S.sight shelf.old shelf.new result }
{
    let lines = match lines_of(memory, file) {
        Ok(lines) => lines,
        Err(Fail::Refused(refusal)) => return Ok(refuse(memory, refusal)),
        Err(Fail::Fault(fault)) => return Err(fault),
    };
    let account = shelf.account(&entry.name)?;
    let rows = all_met(shelf, memory, &entry.name, lines)?;
    let decision = take_rows(
        memory,
        entry.quota.lines,
        account.counts.lines,
        label,
        digest(file),
        rows,
    )?;
    Ok(decision)
}

/// The answer to an import, and its changes.
pub(crate) fn decide_import<S: Shelf, M: CsvMemory>(
    shelf: &mut S,
    memory: M,
    entry: &Entry,
    label: Label,
    file: &Items<u8>,
) -> Result<Decision, Fault>
    ensures found { Finds S.sight shelf.old shelf.new result entry.now.name
        (λ rows. rules.import entry.now.quota.lines rows label file.now (rows.mark label)) }
    ensures kept { Keeps (with_memory M.refused S.sight) shelf.old shelf.new result }
{
    match shelf.mark(&entry.name, &label)? {
        Some(mark) => Ok(repeat(memory, digest(file.as_slice()), &mark)),
        None => decide_first(shelf, memory, entry, label, file.as_slice()),
    }
}
