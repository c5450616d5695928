//! What a submission is answered and changes, and what it would be answered, by what was read.

ghost use Rattle.std.specs.Prelude.{◌≡◌, IfOk, None, map, option_map};
ghost use Rattle.hq_memory.specs.Making.{MadeIn};
ghost use Rattle.hq_rules.specs.Submissions as rules;

use hq_kept::{Head, Message, Pending, QueueState};
use hq_memory::Memory;
use hq_rules::decision::{Decision, refuse, tell};
use hq_rules::{Answer, Origin, Refused, Verdict};
use hq_tables::Change;
use hq_values::{Address, Items, Moment, Refusal, Serial, Text, TryCopy};
use std::alloc::AllocError;

/// What the verdict makes of a submission that it queues.
#[derive(Drop)]
struct Intake {
    /// To whom it goes.
    receivers: Items<Address>,
    /// The reason for which it is put on hold.
    held: Option<Text>,
    /// The recipients that are refused.
    refused: Items<Refused>,
}

/// Who gets it: the address of a redirect alone, or else all that are kept.
fn receivers<M: Memory>(
    memory: M,
    kept: Items<Address>,
    redirect: Option<Address>,
) -> Result<Items<Address>, AllocError>
    ensures { MadeIn M.refused result (λ receivers. receivers ≡ rules.receivers kept redirect) }
{
    match redirect {
        Some(address) => Ok(Items::from_vec(memory.one(address)?)),
        None => Ok(kept),
    }
}

/// On hold, where an action holds it.
fn first_state(held: Option<&Text>) -> QueueState
    ensures { result ≡ rules.first_state (option_map (λ t. t.now) held.entry) }
{
    match held {
        Some(_) => QueueState::Hold,
        None => QueueState::Incoming,
    }
}

/// For the reason of that action.
fn first_reason<M: Memory>(memory: M, held: Option<Text>) -> Text
    ensures { result ≡ rules.first_reason held }
{
    match held {
        Some(reason) => reason,
        None => Text::empty(memory),
    }
}

/// The recipients of a new message.
fn not_tried<M: Memory>(memory: M, addresses: Vec<Address>) -> Result<Vec<Pending>, AllocError>
    ensures { MadeIn M.refused result (λ pending. pending.items
        ≡ map rules.not_tried addresses.items) }
{
    let mut pending = memory.room(addresses.len())?;
    for address in addresses {
        let untried = Pending {
            address,
            status: None,
            text: Text::empty(memory),
        };
        memory.push(&mut pending, untried)?;
    }
    Ok(pending)
}

/// The message that a submission becomes.
fn new_message<M: Memory>(
    memory: M,
    serial: Serial,
    at: Moment,
    origin: Origin,
    receivers: Items<Address>,
    held: Option<Text>,
) -> Result<Message, AllocError>
    ensures { MadeIn M.refused result (λ message. message
        ≡ rules.new_message serial at origin receivers held) }
{
    let pending = not_tried(memory, receivers.into_vec())?;
    Ok(Message {
        serial,
        sender: origin.sender,
        spool: origin.spool,
        size: origin.size,
        arrival: at,
        state: first_state(held.as_ref()),
        reason: first_reason(memory, held),
        next_try: at,
        attempts: 0,
        warned: false,
        pending: Items::from_vec(pending),
    })
}

/// Takes a message into the queue.
fn enqueue<M: Memory>(
    memory: M,
    mut head: Head,
    message: Message,
    refused: Items<Refused>,
) -> Result<Decision, AllocError>
    requires { message.serial ≡ head.next_serial }
    ensures { MadeIn M.refused result (λ decision. decision ≡ rules.enqueued head message refused) }
{
    let recipients = message.pending.len() as u64;
    head.next_serial = message.serial.get() + 1;
    head.tally.accepted = head.tally.accepted.saturating_add(recipients);
    let queued = message.copy(memory)?;
    let mut changes = memory.one(Change::PutHead(head))?;
    memory.push(&mut changes, Change::PutMessage(message))?;
    Ok(Decision {
        answer: Answer::Queued(queued, refused),
        changes: Items::from_vec(changes),
    })
}

/// Takes a submission in under its serial, or refuses it.
fn admit<M: Memory>(
    memory: M,
    head: Head,
    at: Moment,
    origin: Origin,
    serial: Result<Serial, Refusal>,
    intake: Intake,
) -> Result<Decision, AllocError>
    requires { IfOk serial (λ serial. serial ≡ head.next_serial) }
    ensures { MadeIn M.refused result (λ decision. decision
        ≡ rules.admit head at origin intake.receivers intake.held intake.refused serial) }
{
    match serial {
        Err(refusal) => Ok(refuse(memory, refusal)),
        Ok(serial) => {
            let message = new_message(memory, serial, at, origin, intake.receivers, intake.held)?;
            enqueue(memory, head, message, intake.refused)
        }
    }
}

/// Does with a submission of this origin what its verdict says: it is taken in under its serial, or
/// not at all.
pub fn settle<M: Memory>(
    memory: M,
    head: Head,
    at: Moment,
    origin: Origin,
    serial: Result<Serial, Refusal>,
    verdict: Verdict,
) -> Result<Decision, AllocError>
    requires { IfOk serial (λ serial. serial ≡ head.next_serial) }
    ensures { MadeIn M.refused result
        (λ decision. decision ≡ rules.settled head at origin serial verdict) }
{
    match verdict {
        Verdict::Rejected { refused } => Ok(tell(memory, Answer::Rejected(refused))),
        Verdict::Discarded { refused } => Ok(tell(memory, Answer::Discarded(refused))),
        Verdict::Queue {
            kept,
            refused,
            redirect,
            held,
        } => {
            let intake = Intake {
                receivers: receivers(memory, kept, redirect)?,
                held,
                refused,
            };
            admit(memory, head, at, origin, serial, intake)
        }
    }
}

/// What a submission would be answered, without the queue ID.
pub fn would_answer<M: Memory>(
    memory: M,
    serial: Result<Serial, Refusal>,
    verdict: Verdict,
) -> Result<Answer, AllocError>
    ensures { MadeIn M.refused result (λ answer. answer ≡ rules.would_answer serial verdict) }
{
    match (verdict, serial) {
        (Verdict::Rejected { refused }, _) => Ok(Answer::Rejected(refused)),
        (Verdict::Discarded { refused }, _) => Ok(Answer::Discarded(refused)),
        (Verdict::Queue { .. }, Err(refusal)) => Ok(Answer::Refused(refusal)),
        (
            Verdict::Queue {
                kept,
                refused,
                redirect,
                held,
            },
            Ok(_),
        ) => {
            let recipients = receivers(memory, kept, redirect)?;
            Ok(Answer::Admissible(recipients, refused, first_state(held.as_ref())))
        }
    }
}
