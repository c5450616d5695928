//! The verdict on a submission, by what was found for its sender and its recipients.

ghost use Rattle.std.specs.Prelude.{◌≡◌, map, option_map};
ghost use Rattle.std.specs.List.{list_any};
ghost use Rattle.hq_memory.specs.Making.{MadeIn};
ghost use Rattle.hq_rules.specs.Verdicts as rules;

use hq_kept::Action;
use hq_memory::Memory;
use hq_rules::{Refused, Verdict};
use hq_values::{Address, Items, Sender, Text, TryCopy};
use std::alloc::AllocError;

/// The code with which `REJECT` refuses.
const REJECT_CODE: u16 = 554;

/// The code with which `DEFER` refuses.
const DEFER_CODE: u16 = 450;

/// The text of a rejection, or `Access denied` where its line has none.
fn or_denied<M: Memory>(memory: M, text: &Text) -> Result<Text, AllocError>
    ensures { MadeIn M.refused result (λ told. told ≡ rules.or_denied text.now) }
{
    if text.as_str().is_empty() {
        Text::denied(memory)
    } else {
        text.copy(memory)
    }
}

/// The text of a deferral, or `Try again later` where its line has none.
fn or_later<M: Memory>(memory: M, text: &Text) -> Result<Text, AllocError>
    ensures { MadeIn M.refused result (λ told. told ≡ rules.or_later text.now) }
{
    if text.as_str().is_empty() {
        Text::try_later(memory)
    } else {
        text.copy(memory)
    }
}

/// The reason of a hold: the text of its line, or `held by access table` where it has none.
fn or_table<M: Memory>(memory: M, text: &Text) -> Result<Text, AllocError>
    ensures { MadeIn M.refused result (λ reason. reason ≡ rules.or_table text.now) }
{
    if text.as_str().is_empty() {
        Text::table_hold(memory)
    } else {
        text.copy(memory)
    }
}

/// The code and the text with which an action refuses.
fn refusal<M: Memory>(memory: M, found: Option<&Action>) -> Result<Option<(u16, Text)>, AllocError>
    ensures { MadeIn M.refused result (λ why. why
        ≡ rules.refusal (option_map (λ a. a.now) found.entry)) }
{
    match found {
        Some(Action::Reject(text)) => Ok(Some((REJECT_CODE, or_denied(memory, text)?))),
        Some(Action::Defer(text)) => Ok(Some((DEFER_CODE, or_later(memory, text)?))),
        _ => Ok(None),
    }
}

fn refuses(found: Option<&Action>) -> bool
    ensures { result ≡ rules.refuses (option_map (λ a. a.now) found.entry) }
{
    matches!(found, Some(Action::Reject(_) | Action::Defer(_)))
}

fn discards(found: Option<&Action>) -> bool
    ensures { result ≡ rules.discards (option_map (λ a. a.now) found.entry) }
{
    matches!(found, Some(Action::Discard(_)))
}

fn redirection(found: Option<&Action>) -> Option<&Address>
    ensures { option_map (λ a. a.now) result
        ≡ rules.redirection (option_map (λ a. a.now) found.entry) }
{
    match found {
        Some(Action::Redirect(address)) => Some(address),
        _ => None,
    }
}

/// The text of a hold.
fn holding(found: Option<&Action>) -> Option<&Text>
    ensures { option_map (λ t. t.now) result ≡ rules.holding (option_map (λ a. a.now) found.entry) }
{
    match found {
        Some(Action::Hold(text)) => Some(text),
        _ => None,
    }
}

fn refusal_of(who: Sender, why: (u16, Text)) -> Refused
    ensures { result ≡ rules.refusal_of who why }
{
    let (code, text) = why;
    Refused {
        address: who,
        code,
        text,
    }
}

/// The recipient, where it is refused.
fn refused_one<M: Memory>(
    memory: M,
    recipient: &(Address, Option<Action>),
) -> Result<Option<Refused>, AllocError>
    ensures { MadeIn M.refused result (λ refused. refused ≡ rules.refused_one recipient.now) }
{
    match refusal(memory, recipient.1.as_ref())? {
        Some(why) => {
            let address = recipient.0.copy(memory)?;
            Ok(Some(refusal_of(Sender::From(address), why)))
        }
        None => Ok(None),
    }
}

/// The recipients that are refused, in order.
fn refused_in<M: Memory>(
    memory: M,
    recipients: &[(Address, Option<Action>)],
) -> Result<Vec<Refused>, AllocError>
    ensures { MadeIn M.refused result (λ refused. refused.items ≡ rules.refused_in recipients.now) }
{
    let mut refused = memory.none();
    for recipient in recipients {
        if let Some(one) = refused_one(memory, recipient)? {
            memory.push(&mut refused, one)?;
        }
    }
    Ok(refused)
}

/// The recipients that are not, in order.
fn not_refused<M: Memory>(
    memory: M,
    recipients: &[(Address, Option<Action>)],
) -> Result<Vec<Address>, AllocError>
    ensures { MadeIn M.refused result (λ kept. kept.items
        ≡ map (λ r. r.0) (rules.not_refused recipients.now)) }
{
    let mut kept = memory.none();
    for recipient in recipients {
        if !refuses(recipient.1.as_ref()) {
            memory.push(&mut kept, recipient.0.copy(memory)?)?;
        }
    }
    Ok(kept)
}

/// Whether the sender's action or a recipient's discards the message.
fn is_discarded(found: Option<&Action>, recipients: &[(Address, Option<Action>)]) -> bool
    ensures { result ≡ list_any rules.discards (rules.found_in (option_map (λ a. a.now) found.entry)
        recipients.now) }
{
    discards(found) || recipients.iter().any(|it| discards(it.1.as_ref()))
}

/// The last redirection of the sender's action and those of the recipients.
fn redirect_of<'a>(
    found: Option<&'a Action>,
    recipients: &'a [(Address, Option<Action>)],
) -> Option<&'a Address>
    ensures { option_map (λ a. a.now) result
        ≡ rules.redirect_of (rules.found_in (option_map (λ a. a.now) found.entry) recipients.now) }
{
    let mut last = redirection(found);
    for recipient in recipients {
        last = redirection(recipient.1.as_ref()).or(last);
    }
    last
}

/// The text of the first hold among the sender's action and those of the recipients.
fn held_by<'a>(
    found: Option<&'a Action>,
    recipients: &'a [(Address, Option<Action>)],
) -> Option<&'a Text>
    ensures { option_map (λ t. t.now) result
        ≡ rules.held_by (rules.found_in (option_map (λ a. a.now) found.entry) recipients.now) }
{
    let mut first = holding(found);
    for recipient in recipients {
        first = first.or(holding(recipient.1.as_ref()));
    }
    first
}

/// A copy of what is there.
fn copied<T: TryCopy, M: Memory>(memory: M, value: Option<&T>) -> Result<Option<T>, AllocError>
    ensures { MadeIn M.refused result (λ copy. copy ≡ option_map (λ it. it.now) value.entry) }
{
    match value {
        Some(value) => Ok(Some(value.copy(memory)?)),
        None => Ok(None),
    }
}

/// The reason of the first hold.
fn reason_of<M: Memory>(memory: M, held: Option<&Text>) -> Result<Option<Text>, AllocError>
    ensures { MadeIn M.refused result (λ reason. reason
        ≡ option_map rules.or_table (option_map (λ t. t.now) held.entry)) }
{
    match held {
        Some(text) => Ok(Some(or_table(memory, text)?)),
        None => Ok(None),
    }
}

/// The verdict, by the action found for the sender and those found for the recipients, which are
/// all different:
/// - A rejected sender: rejected, and the sender alone is refused.
/// - Else all recipients rejected: rejected, and they are refused.
/// - Else some `DISCARD` of the sender or of a recipient: discarded.
/// - Else queued for the recipients that are kept, or for the address of the last `REDIRECT`; on
///   hold, where there is a `HOLD`.
pub fn decide<M: Memory>(
    memory: M,
    found: Option<&Action>,
    sender: &Sender,
    recipients: &[(Address, Option<Action>)],
) -> Result<Verdict, AllocError>
    ensures { MadeIn M.refused result (λ verdict. verdict
        ≡ rules.verdict (option_map (λ a. a.now) found.entry) sender.now recipients.now) }
{
    if let Some(why) = refusal(memory, found)? {
        let refused = memory.one(refusal_of(sender.copy(memory)?, why))?;
        return Ok(Verdict::Rejected {
            refused: Items::from_vec(refused),
        });
    }
    let kept = not_refused(memory, recipients)?;
    let refused = Items::from_vec(refused_in(memory, recipients)?);
    if kept.is_empty() {
        return Ok(Verdict::Rejected { refused });
    }
    if is_discarded(found, recipients) {
        return Ok(Verdict::Discarded { refused });
    }
    Ok(Verdict::Queue {
        kept: Items::from_vec(kept),
        refused,
        redirect: copied(memory, redirect_of(found, recipients))?,
        held: reason_of(memory, held_by(found, recipients))?,
    })
}
