//! One customer's lines on a shelf, as lookups ask for them; and what is found for addresses. The
//! shelf is open before each of these calls, since memory may be wanted before it is asked.

ghost use Rattle.std.specs.Prelude.{map};
ghost use Rattle.hq_rules.specs.AccessLines as rules;
ghost use Rattle.hq_reads.specs.ShelfLines.{FindsOpen, KeepsOpen, asks_shelf};
ghost use Rattle.hq_rules.specs.Submissions.{with_action};

use hq_access::{Lines, lookup};
use hq_kept::{Action, Class, LookupKey};
use hq_memory::Memory;
use hq_tables::Shelf;
use hq_values::{Address, Fault, Items, Name, Sender, TryCopy};

/// The lines of one customer.
#[derive(Drop)]
struct CustomerLines<'a, S> {
    shelf: &'a mut S,
    customer: &'a Name,
}

impl<S: Shelf> Lines for CustomerLines<'_, S> {
    ghost gets = { asks_shelf S.sight };

    fn get(&mut self, class: Class, key: &LookupKey) -> Result<Option<Action>, Fault> {
        self.shelf.line(self.customer, class, key)
    }
}

/// What is found for a sender or a recipient. Its keys are looked up one at a time, and none after
/// the first that has a line.
pub(crate) fn look_up<S: Shelf, M: Memory>(
    shelf: &mut S,
    memory: M,
    customer: &Name,
    class: Class,
    who: &Sender,
) -> Result<Option<(LookupKey, Action)>, Fault>
    ensures found { FindsOpen S.sight shelf.old shelf.new result customer.now
        (λ rows. rules.found_for rows class who.now) }
    ensures kept { KeepsOpen M.refused S.sight shelf.old shelf.new result }
{
    let mut lines = CustomerLines { shelf, customer };
    let found = lookup(memory, &mut lines, class, who);
    let CustomerLines { shelf, .. } = lines;
    // No effect at run time. The proof reads what the shelf became from this use of it.
    let _ = &*shelf;
    found
}

/// The action that is found for a sender or a recipient.
pub(crate) fn action_for<S: Shelf, M: Memory>(
    shelf: &mut S,
    memory: M,
    customer: &Name,
    class: Class,
    who: &Sender,
) -> Result<Option<Action>, Fault>
    ensures found { FindsOpen S.sight shelf.old shelf.new result customer.now
        (λ rows. rules.action_for rows class who.now) }
    ensures kept { KeepsOpen M.refused S.sight shelf.old shelf.new result }
{
    let found = look_up(shelf, memory, customer, class, who)?;
    Ok(found.map(|(_, action)| action))
}

/// A recipient with the action that is found for it.
fn with_action<S: Shelf, M: Memory>(
    shelf: &mut S,
    memory: M,
    customer: &Name,
    recipient: Address,
) -> Result<(Address, Option<Action>), Fault>
    ensures found { FindsOpen S.sight shelf.old shelf.new result customer.now
        (λ rows. with_action rows recipient) }
    ensures kept { KeepsOpen M.refused S.sight shelf.old shelf.new result }
{
    let who = Sender::From(recipient.copy(memory)?);
    let action = action_for(shelf, memory, customer, Class::RecipientSide, &who)?;
    Ok((recipient, action))
}

/// The recipients, each with the action that is found for it.
pub(crate) fn with_actions<S: Shelf, M: Memory>(
    shelf: &mut S,
    memory: M,
    customer: &Name,
    recipients: Vec<Address>,
) -> Result<Items<(Address, Option<Action>)>, Fault>
    ensures found { FindsOpen S.sight shelf.old shelf.new result customer.now
        (λ rows. map (with_action rows) recipients.items) }
    ensures kept { KeepsOpen M.refused S.sight shelf.old shelf.new result }
{
    let mut found = memory.room(recipients.len())?;
    for recipient in recipients {
        memory.push(&mut found, with_action(shelf, memory, customer, recipient)?)?;
    }
    Ok(Items::from_vec(found))
}
