//! Which messages a call is for: those that a pattern is for, or all. Nothing is read or written
//! here.

ghost use Rattle.std.specs.Prelude.{◌≡◌, ◌++◌, filter, option_map};
ghost use Rattle.std.specs.List.{list_any};
ghost use Rattle.hq_memory.specs.Making.{MadeIn};
ghost use Rattle.hq_kept.specs.Keys.{is_key_of};
ghost use Rattle.hq_values.specs.declared.address.Sender.TheVariants.{From};
ghost use Rattle.hq_kept.specs.declared.message.Pending.{Pending};
ghost use Rattle.hq_rules.specs.Selections as rules;

use hq_access::{keys_of, keys_of_address};
use hq_kept::{Class, Message, Pattern, Pending};
use hq_memory::Memory;
use hq_values::Items;
use std::alloc::AllocError;

/// Whether a pattern is for one of these recipients.
fn is_for_any<M: Memory>(
    memory: M,
    pattern: &Pattern,
    recipients: &[Pending],
) -> Result<bool, AllocError>
    ensures { MadeIn M.refused result (λ is. is ≡ list_any
        (λ (p : Pending). is_key_of pattern.now.1 (From p.address)) recipients.now) }
{
    for recipient in recipients {
        let keys = keys_of_address(memory, &recipient.address)?;
        if pattern.is_among(keys.as_slice()) {
            return Ok(true);
        }
    }
    Ok(false)
}

/// Whether a pattern is for a message: for its sender, or for a pending recipient.
fn matches<M: Memory>(memory: M, pattern: &Pattern, message: &Message) -> Result<bool, AllocError>
    ensures { MadeIn M.refused result (λ is. is ≡ rules.matches pattern.now message.now) }
{
    match pattern.class() {
        Class::SenderSide => {
            let keys = keys_of(memory, &message.sender)?;
            Ok(pattern.is_among(keys.as_slice()))
        }
        Class::RecipientSide => Ok(is_for_any(memory, pattern, message.pending.as_slice())?),
    }
}

/// Whether a pattern is for a message; without a pattern every message is selected.
fn is_selected<M: Memory>(
    memory: M,
    which: Option<&Pattern>,
    message: &Message,
) -> Result<bool, AllocError>
    ensures { MadeIn M.refused result (λ is. is
        ≡ rules.is_selected (option_map (λ p. p.now) which.entry) message.now) }
{
    match which {
        None => Ok(true),
        Some(pattern) => matches(memory, pattern, message),
    }
}

/// Adds those of the messages that are selected, in order.
pub fn add_selected<M: Memory>(
    memory: M,
    which: Option<&Pattern>,
    messages: Items<Message>,
    selected: &mut Vec<Message>,
) -> Result<(), AllocError>
    ensures { MadeIn M.refused result (λ _. selected.new.items ≡ selected.old.items
        ++ filter (rules.is_selected (option_map (λ p. p.now) which.entry)) messages) }
{
    for message in messages.into_vec() {
        if is_selected(memory, which, &message)? {
            memory.push(selected, message)?;
        }
    }
    Ok(())
}

/// Those of the messages that are selected, in order.
pub fn select<M: Memory>(
    memory: M,
    which: Option<&Pattern>,
    messages: Items<Message>,
) -> Result<Items<Message>, AllocError>
    ensures { MadeIn M.refused result (λ selected. selected
        ≡ filter (rules.is_selected (option_map (λ p. p.now) which.entry)) messages) }
{
    let mut selected = memory.none();
    add_selected(memory, which, messages, &mut selected)?;
    Ok(Items::from_vec(selected))
}
