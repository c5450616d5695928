//! What the calls on all messages of a customer that are selected, and the call for its usage, read
//! through a shelf.

ghost use Rattle.std.specs.Prelude.{IfOk, filter, option_map};
ghost use Rattle.hq_tables.specs.Shelves.{Finds, FindsSound, Keeps};
ghost use Rattle.hq_rules.specs.Desks.{IsAnswerTo};
ghost use Rattle.hq_rules.specs.declared.call.Call.TheVariants.{Usage as UsageCall};
ghost use Rattle.hq_rules.specs.Queues as queues;
ghost use Rattle.hq_rules.specs.Selections.{is_selected};
ghost use Rattle.hq_reads.specs.Memory.{with_memory};

use crate::relay::MOST_MESSAGES;
use hq_decisions::queues::{delete_all, limits, move_all, usage};
use hq_decisions::selections::select;
use hq_kept::{Entry, Pattern};
use hq_memory::Memory;
use hq_rules::Move;
use hq_rules::decision::Decision;
use hq_tables::Shelf;
use hq_values::{Fault, Moment};

/// The answer to a move of all messages that are selected, and its changes.
pub(crate) fn decide_move_all<S: Shelf, M: Memory>(
    shelf: &mut S,
    memory: M,
    entry: &Entry,
    by: Move,
    which: Option<&Pattern>,
) -> Result<Decision, Fault>
    ensures found { FindsSound S.sight shelf.old shelf.new result entry.now.name
        (λ rows. queues.move_all by
        (filter (is_selected (option_map (λ p. p.now) which.entry)) rows.messages)) }
    ensures kept { Keeps (with_memory M.refused S.sight) shelf.old shelf.new result }
{
    let messages = shelf.messages(&entry.name, None, MOST_MESSAGES)?;
    let selected = select(memory, which, messages)?;
    let decision = move_all(memory, by, selected)?;
    Ok(decision)
}

/// The answer to the deletion of all messages that are selected, and its changes.
pub(crate) fn decide_delete_all<S: Shelf, M: Memory>(
    shelf: &mut S,
    memory: M,
    at: Moment,
    entry: &Entry,
    which: Option<&Pattern>,
) -> Result<Decision, Fault>
    ensures found { FindsSound S.sight shelf.old shelf.new result entry.now.name
        (λ rows. queues.delete_all entry.now at rows.head
        (filter (is_selected (option_map (λ p. p.now) which.entry)) rows.messages)) }
    ensures kept { Keeps (with_memory M.refused S.sight) shelf.old shelf.new result }
{
    let messages = shelf.messages(&entry.name, None, MOST_MESSAGES)?;
    let account = shelf.account(&entry.name)?;
    let selected = select(memory, which, messages)?;
    let decision = delete_all(memory, entry, at, account.head, selected.as_slice())?;
    Ok(decision)
}

/// The answer to the question what the customer has on the desk.
pub(crate) fn decide_usage<S: Shelf, M: Memory>(
    shelf: &mut S,
    memory: M,
    entry: &Entry,
) -> Result<Decision, Fault>
    ensures found { FindsSound S.sight shelf.old shelf.new result entry.now.name
        (λ rows. queues.usage rows.head rows.counts rows.messages) }
    ensures kind { IfOk result (λ decision. IsAnswerTo UsageCall decision.answer) }
    ensures kept { Keeps (with_memory M.refused S.sight) shelf.old shelf.new result }
{
    let account = shelf.account(&entry.name)?;
    Ok(usage(memory, &account.head, account.counts))
}

/// The answer to the question how much the customer may keep. The shelf is asked although
/// nothing is read for it, since a closed one answers 93 alone.
pub(crate) fn decide_limits<S: Shelf, M: Memory>(
    shelf: &mut S,
    memory: M,
    entry: &Entry,
) -> Result<Decision, Fault>
    ensures found { Finds S.sight shelf.old shelf.new result entry.now.name
        (λ rows. queues.limits entry.now) }
    ensures kept { Keeps (with_memory M.refused S.sight) shelf.old shelf.new result }
{
    shelf.account(&entry.name)?;
    Ok(limits(memory, entry))
}
