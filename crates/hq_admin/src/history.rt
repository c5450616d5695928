//! A history as an administrator reads it.

ghost use Rattle.std.specs.Prelude.{◌≡◌, ◌++◌, string_bytes};
ghost use Rattle.hq_memory.specs.Making.{MadeIn};
ghost use Rattle.hq_admin.specs.Lines as lines;

use hq_decisions::histories::last_number;
use hq_kept::{End, Ended, Fate, Status};
use hq_memory::Memory;
use hq_text::queue_id;
use hq_values::Sender;
use std::alloc::AllocError;

fn fate_word(fate: Fate) -> &'static str
    ensures { result.now ≡ lines.fate_word fate }
{
    match fate {
        Fate::Delivered => "delivered",
        Fate::Failed => "failed",
        Fate::Deleted => "deleted",
        Fate::Expired => "expired",
    }
}

/// The text of a status; a hyphen where there is none.
fn shown_status(status: &Option<Status>) -> &str
    ensures { result.now ≡ lines.shown_status status.now }
{
    match status {
        None => "-",
        Some(status) => status.as_str(),
    }
}

/// The sender, and `<>` for the null sender, as the queue report has it.
fn sender_column(sender: &Sender) -> &str
    ensures { result.now ≡ lines.sender_column sender.now }
{
    match sender {
        Sender::Null => "<>",
        Sender::From(address) => address.as_str(),
    }
}

/// Adds its number, when it left, and of which message it was.
#[tactic(auto, unfolding(crate::specs::Lines::numbers_text))]
fn put_numbers<M: Memory>(memory: M, text: &mut String, end: &End) -> Result<(), AllocError>
    ensures { MadeIn M.refused result (λ _. string_bytes text.new
        ≡ string_bytes text.old ++ lines.numbers_text end.now) }
{
    let id = queue_id(memory, end.ended.serial)?;
    memory.write(text, format_args!("{} {} {id}", end.number, end.at.get()))?;
    Ok(())
}

/// Adds what became of it, whose it was, and who it was.
#[tactic(auto, unfolding(crate::specs::Lines::addresses_text))]
fn put_addresses<M: Memory>(memory: M, text: &mut String, ended: &Ended) -> Result<(), AllocError>
    ensures { MadeIn M.refused result (λ _. string_bytes text.new
        ≡ string_bytes text.old ++ lines.addresses_text ended.now) }
{
    let (fate, sender) = (fate_word(ended.fate), sender_column(&ended.sender));
    let recipient = ended.recipient.as_str();
    memory.write(text, format_args!(" {fate} {sender} {recipient}"))?;
    Ok(())
}

/// Adds a status and a text: of the report that it left by, or those that were told of it last.
#[tactic(auto, unfolding(crate::specs::Lines::told_text))]
fn put_told<M: Memory>(memory: M, text: &mut String, ended: &Ended) -> Result<(), AllocError>
    ensures { MadeIn M.refused result (λ _. string_bytes text.new
        ≡ string_bytes text.old ++ lines.told_text ended.now) }
{
    let (status, told) = (shown_status(&ended.status), ended.text.as_str());
    memory.write(text, format_args!(" {status} {told}\n"))?;
    Ok(())
}

/// Adds the line of a recipient that left the queue.
fn put_end<M: Memory>(memory: M, text: &mut String, end: &End) -> Result<(), AllocError>
    ensures { MadeIn M.refused result (λ _. string_bytes text.new
        ≡ string_bytes text.old ++ lines.end_line end.now) }
{
    put_numbers(memory, text, end)?;
    put_addresses(memory, text, &end.ended)?;
    put_told(memory, text, &end.ended)
}

/// Adds that there are more, before this number.
#[tactic(auto, unfolding(crate::specs::Lines::more_line))]
fn put_more<M: Memory>(memory: M, text: &mut String, next: Option<u64>) -> Result<(), AllocError>
    ensures { MadeIn M.refused result (λ _. string_bytes text.new
        ≡ string_bytes text.old ++ lines.more_line next) }
{
    match next {
        None => Ok(()),
        Some(number) => memory.write(text, format_args!("more before {number}\n")),
    }
}

/// The number before which those are that are not told.
pub(crate) fn more_from(ends: &[End], more: bool) -> Option<u64>
    ensures { result ≡ lines.more_from ends.now more }
{
    if more { last_number(ends) } else { None }
}

/// Adds a line for each of these, and that there are more, before this number.
pub(crate) fn put_history<M: Memory>(
    memory: M,
    text: &mut String,
    ends: &[End],
    next: Option<u64>,
) -> Result<(), AllocError>
    ensures { MadeIn M.refused result (λ _. string_bytes text.new
        ≡ string_bytes text.old ++ lines.history_lines ends.now next) }
{
    for end in ends {
        put_end(memory, text, end)?;
    }
    put_more(memory, text, next)
}
