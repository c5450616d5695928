//! A decision: what is answered to a call, and the changes that are made with it.

ghost use Rattle.std.specs.Prelude.{◌≡◌};
ghost use Rattle.hq_rules.specs.Answering as answering;

use crate::answer::Answer;
use hq_memory::Memory;
use hq_tables::Change;
use hq_values::{Items, Refusal};

/// How many messages, lines, notices or ends a page has at most.
pub const PAGE: usize = 100;

/// How many ends of a history one search looks at.
pub const SEARCH: usize = 1_000;

/// An answer, and the changes that are made with it.
#[derive(Drop)]
pub struct Decision {
    /// What is answered.
    pub answer: Answer,
    /// The changes of the customer's rows, in order.
    pub changes: Items<Change>,
}

/// An answer that changes nothing.
pub fn tell<M: Memory>(memory: M, answer: Answer) -> Decision
    ensures { result ≡ answering.tell answer }
{
    Decision {
        answer,
        changes: Items::from_vec(memory.none()),
    }
}

/// A refusal, which changes nothing.
pub fn refuse<M: Memory>(memory: M, refusal: Refusal) -> Decision
    ensures { result ≡ answering.refuse refusal }
{
    tell(memory, Answer::Refused(refusal))
}
