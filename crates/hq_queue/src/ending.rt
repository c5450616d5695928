//! Recipients that leave the queue with their message.

ghost use Rattle.std.specs.Prelude.{◌≡◌, ◌++◌};
ghost use Rattle.hq_memory.specs.Making.{MadeIn};
ghost use Rattle.hq_rules.specs.Leaving as rules;

use hq_kept::{Ended, Fate, Message, Pending, Tally};
use hq_memory::Memory;
use hq_values::TryCopy;
use std::alloc::AllocError;

/// What is kept of a recipient that leaves with its message.
fn ended_as<M: Memory>(
    memory: M,
    fate: Fate,
    message: &Message,
    pending: &Pending,
) -> Result<Ended, AllocError>
    ensures { MadeIn M.refused result (λ ended. ended
        ≡ rules.ended_as fate message.now pending.now) }
{
    let sender = message.sender.copy(memory)?;
    let recipient = pending.address.copy(memory)?;
    let status = match &pending.status {
        None => None,
        Some(status) => Some(status.copy()),
    };
    let text = pending.text.copy(memory)?;
    Ok(Ended {
        serial: message.serial,
        sender,
        recipient,
        fate,
        status,
        text,
    })
}

/// Puts what is kept of the recipients of a message behind others, where they leave with it.
pub fn end_all<M: Memory>(
    memory: M,
    ended: &mut Vec<Ended>,
    fate: Fate,
    message: &Message,
) -> Result<(), AllocError>
    ensures { MadeIn M.refused result (λ _. ended.new.items
        ≡ ended.old.items ++ rules.all_ended fate message.now) }
{
    for pending in message.pending.as_slice() {
        memory.push(ended, ended_as(memory, fate, message, pending)?)?;
    }
    Ok(())
}
