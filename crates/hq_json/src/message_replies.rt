//! What is told of messages and of submissions.

ghost use Rattle.std.specs.Prelude.{◌≡◌, OnErr};
ghost use Rattle.hq_json.specs.Replies as replies;
ghost use Rattle.hq_json.specs.Writing.{after};

use crate::parts::{AsEntry, Form, put_object};
use crate::values::{Part, Plain};
use hq_kept::{Message, Pending, QueueState, Status};
use hq_memory::Memory;
use hq_rules::Refused;
use hq_values::{Address, Serial};
use std::alloc::AllocError;

fn state_name(state: QueueState) -> &'static str
    ensures { result.now ≡ replies.state_name state }
{
    match state {
        QueueState::Incoming => "incoming",
        QueueState::Deferred => "deferred",
        QueueState::Hold => "hold",
    }
}

fn status_shown(status: &Option<Status>) -> &str
    ensures { result.now ≡ replies.status_shown status.now }
{
    match status {
        None => "",
        Some(status) => status.as_str(),
    }
}

/// A message in short.
impl Form<Message> for AsEntry {
    ghost use Rattle.hq_json.specs.Replies.{entry};

    ghost told = { entry };

    fn put<M: Memory>(memory: M, body: &mut Vec<u8>, one: &Message) -> Result<(), AllocError> {
        put_object(
            memory,
            body,
            &[
                ("arrival", Plain::Count(one.arrival.get())),
                ("id", Plain::Id(one.serial)),
                ("reason", Plain::Text(one.reason.as_str())),
                ("recipients", Plain::Count(one.pending.len() as u64)),
                ("sender", Plain::Text(one.sender.as_str())),
                ("size", Plain::Count(u64::from(one.size))),
                ("state", Plain::Text(state_name(one.state))),
            ],
        )
    }
}

/// A page of messages.
#[tactic(auto, unfolding(crate::specs::Replies::listed))]
pub(crate) fn put_messages<M: Memory>(
    memory: M,
    body: &mut Vec<u8>,
    messages: &[Message],
    more: bool,
) -> Result<(), AllocError>
    ensures bytes { body.new.items ≡ after result body.old.items body.new.items
        (replies.listed messages.now more) }
    ensures cause { OnErr result M.refused }
{
    put_object(
        memory,
        body,
        &[
            ("messages", Part::Messages(messages)),
            ("more", Part::One(Plain::Flag(more))),
        ],
    )
}

/// A recipient that the message still goes to.
impl Form<Pending> for AsEntry {
    ghost use Rattle.hq_json.specs.Replies.{pending_entry};

    ghost told = { pending_entry };

    fn put<M: Memory>(memory: M, body: &mut Vec<u8>, one: &Pending) -> Result<(), AllocError> {
        put_object(
            memory,
            body,
            &[
                ("address", Plain::Text(one.address.as_str())),
                ("status", Plain::Text(status_shown(&one.status))),
                ("text", Plain::Text(one.text.as_str())),
            ],
        )
    }
}

/// A message whole.
pub(crate) fn put_message<M: Memory>(
    memory: M,
    body: &mut Vec<u8>,
    message: &Message,
) -> Result<(), AllocError>
    ensures bytes { body.new.items ≡ after result body.old.items body.new.items
        (replies.message_json message.now) }
    ensures cause { OnErr result M.refused }
{
    put_object(
        memory,
        body,
        &[
            ("arrival", Part::One(Plain::Count(message.arrival.get()))),
            (
                "attempts",
                Part::One(Plain::Count(u64::from(message.attempts))),
            ),
            ("id", Part::One(Plain::Id(message.serial))),
            ("next_try", Part::One(Plain::Count(message.next_try.get()))),
            ("pending", Part::Pending(message.pending.as_slice())),
            ("reason", Part::One(Plain::Text(message.reason.as_str()))),
            ("sender", Part::One(Plain::Text(message.sender.as_str()))),
            ("size", Part::One(Plain::Count(u64::from(message.size)))),
            ("spool", Part::One(Plain::Text(message.spool.as_str()))),
            ("state", Part::One(Plain::Text(state_name(message.state)))),
            ("warned", Part::One(Plain::Flag(message.warned))),
        ],
    )
}

// ---- submissions

/// A message that is in the queue, and who is refused.
pub(crate) fn put_queued<'a, M: Memory>(
    memory: M,
    body: &mut Vec<u8>,
    message: &'a Message,
    refused: &'a [Refused],
) -> Result<(), AllocError>
    ensures bytes { body.new.items ≡ after result body.old.items body.new.items
        (replies.queued message.now refused.now) }
    ensures cause { OnErr result M.refused }
{
    put_object(
        memory,
        body,
        &[
            ("id", Part::One(Plain::Id(message.serial))),
            (
                "recipients",
                Part::One(Plain::Addresses(message.pending.as_slice())),
            ),
            ("refused", Part::Refused(refused)),
            ("state", Part::One(Plain::Text(state_name(message.state)))),
            ("verdict", Part::One(Plain::Text("queued"))),
        ],
    )
}

/// That a submission would be queued, for whom and in which state, and who would be refused.
pub(crate) fn put_admissible<'a, M: Memory>(
    memory: M,
    body: &mut Vec<u8>,
    receivers: &'a [Address],
    refused: &'a [Refused],
    state: QueueState,
) -> Result<(), AllocError>
    ensures bytes { body.new.items ≡ after result body.old.items body.new.items
        (replies.admissible receivers.now refused.now state) }
    ensures cause { OnErr result M.refused }
{
    put_object(
        memory,
        body,
        &[
            ("recipients", Part::One(Plain::Receivers(receivers))),
            ("refused", Part::Refused(refused)),
            ("state", Part::One(Plain::Text(state_name(state)))),
            ("verdict", Part::One(Plain::Text("queued"))),
        ],
    )
}

/// That a message was queued before, under this serial.
pub(crate) fn put_repeated<M: Memory>(
    memory: M,
    body: &mut Vec<u8>,
    serial: Serial,
) -> Result<(), AllocError>
    ensures bytes { body.new.items ≡ after result body.old.items body.new.items
        (replies.repeat_json serial) }
    ensures cause { OnErr result M.refused }
{
    put_object(
        memory,
        body,
        &[
            ("id", Plain::Id(serial)),
            ("verdict", Plain::Text("repeat")),
        ],
    )
}

/// That a message is queued anew, under this serial.
pub(crate) fn put_requeued<M: Memory>(
    memory: M,
    body: &mut Vec<u8>,
    serial: Serial,
) -> Result<(), AllocError>
    ensures bytes { body.new.items ≡ after result body.old.items body.new.items
        (replies.requeue_json serial) }
    ensures cause { OnErr result M.refused }
{
    put_object(memory, body, &[("id", Plain::Id(serial))])
}

/// That a submission is rejected, and who is refused.
pub(crate) fn put_rejected<M: Memory>(
    memory: M,
    body: &mut Vec<u8>,
    refused: &[Refused],
) -> Result<(), AllocError>
    ensures bytes { body.new.items ≡ after result body.old.items body.new.items
        (replies.rejected refused.now) }
    ensures cause { OnErr result M.refused }
{
    put_object(
        memory,
        body,
        &[
            ("refused", Part::Refused(refused)),
            ("verdict", Part::One(Plain::Text("rejected"))),
        ],
    )
}

/// That a submission is discarded, and who is refused.
pub(crate) fn put_discarded<M: Memory>(
    memory: M,
    body: &mut Vec<u8>,
    refused: &[Refused],
) -> Result<(), AllocError>
    ensures bytes { body.new.items ≡ after result body.old.items body.new.items
        (replies.discarded refused.now) }
    ensures cause { OnErr result M.refused }
{
    put_object(
        memory,
        body,
        &[
            ("refused", Part::Refused(refused)),
            ("verdict", Part::One(Plain::Text("discarded"))),
        ],
    )
}

/// How many messages were changed.
pub(crate) fn put_changed<M: Memory>(
    memory: M,
    body: &mut Vec<u8>,
    count: u64,
) -> Result<(), AllocError>
    ensures bytes { body.new.items ≡ after result body.old.items body.new.items
        (replies.changed count) }
    ensures cause { OnErr result M.refused }
{
    put_object(memory, body, &[("changed", Plain::Count(count))])
}
