//! What a call that may make notices or ends answers and changes, before they are numbered.

use crate::answer::Answer;
use hq_kept::{Ended, Head, Kind, Message, Told};
use hq_tables::Change;
use hq_values::{Address, Items};

/// A notice to be made.
#[derive(Drop)]
pub struct Draft {
    /// The message that it tells of, as it is then.
    pub message: Message,
    /// To whom it goes: the sender of the message.
    pub to: Address,
    /// Whether attempts go on.
    pub kind: Kind,
    /// The recipients that it tells of, one at least.
    pub told: Items<Told>,
}

/// What a call answers and changes, before its notices and ends are numbered.
#[derive(Drop)]
pub struct Plan {
    /// What is answered.
    pub answer: Answer,
    /// The changes of the customer's messages, in order.
    pub changes: Items<Change>,
    /// The head after them, but for the numbers of the notices: the numbers of ends follow from it.
    pub head: Head,
    /// The notices, in order.
    pub drafts: Items<Draft>,
    /// The recipients that left the queue, in order.
    pub ended: Items<Ended>,
}
