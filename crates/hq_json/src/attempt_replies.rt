//! What is told to the relay's workers.

ghost use Rattle.std.specs.Prelude.{◌≡◌, OnErr};
ghost use Rattle.hq_json.specs.AttemptReplies as replies;
ghost use Rattle.hq_json.specs.Writing.{after};

use crate::parts::{Form, put_object};
use crate::values::{Part, Plain};
use hq_kept::Message;
use hq_memory::Memory;
use hq_rules::{AttemptCounts, SweepCounts};
use std::alloc::AllocError;

/// What became of the recipients in an attempt.
pub(crate) fn put_attempted<M: Memory>(
    memory: M,
    body: &mut Vec<u8>,
    counts: AttemptCounts,
) -> Result<(), AllocError>
    ensures bytes { body.new.items ≡ after result body.old.items body.new.items
        (replies.attempt_json counts) }
    ensures cause { OnErr result M.refused }
{
    put_object(
        memory,
        body,
        &[
            ("deferred", Plain::Count(counts.deferred)),
            ("delivered", Plain::Count(counts.delivered)),
            ("failed", Plain::Count(counts.failed)),
            ("left", Plain::Count(counts.left)),
            ("result", Plain::Text("done")),
        ],
    )
}

/// That an attempt was reported before, and how many were.
pub(crate) fn put_repeated_attempt<M: Memory>(
    memory: M,
    body: &mut Vec<u8>,
    attempts: u32,
) -> Result<(), AllocError>
    ensures bytes { body.new.items ≡ after result body.old.items body.new.items
        (replies.attempt_repeated attempts) }
    ensures cause { OnErr result M.refused }
{
    put_object(
        memory,
        body,
        &[
            ("attempts", Plain::Count(u64::from(attempts))),
            ("result", Plain::Text("repeat")),
        ],
    )
}

/// A message with the number of its next attempt.
pub(crate) struct Due;

impl Form<Message> for Due {
    ghost use Rattle.hq_json.specs.AttemptReplies.{due_entry};

    ghost told = { due_entry };

    fn put<M: Memory>(memory: M, body: &mut Vec<u8>, one: &Message) -> Result<(), AllocError> {
        let attempt = u64::from(one.attempts) + 1;
        put_object(
            memory,
            body,
            &[
                ("attempt", Plain::Count(attempt)),
                ("id", Plain::Id(one.serial)),
                ("recipients", Plain::Addresses(one.pending.as_slice())),
                ("sender", Plain::Text(one.sender.as_str())),
                ("spool", Plain::Text(one.spool.as_str())),
            ],
        )
    }
}

/// A page of messages that may be tried.
#[tactic(auto, unfolding(crate::specs::AttemptReplies::due_listed))]
pub(crate) fn put_due<M: Memory>(
    memory: M,
    body: &mut Vec<u8>,
    messages: &[Message],
    more: bool,
) -> Result<(), AllocError>
    ensures bytes { body.new.items ≡ after result body.old.items body.new.items
        (replies.due_listed messages.now more) }
    ensures cause { OnErr result M.refused }
{
    put_object(
        memory,
        body,
        &[
            ("due", Part::Due(messages)),
            ("more", Part::One(Plain::Flag(more))),
        ],
    )
}

/// What a sweep did.
pub(crate) fn put_swept<M: Memory>(
    memory: M,
    body: &mut Vec<u8>,
    counts: SweepCounts,
) -> Result<(), AllocError>
    ensures bytes { body.new.items ≡ after result body.old.items body.new.items
        (replies.sweep_json counts) }
    ensures cause { OnErr result M.refused }
{
    put_object(
        memory,
        body,
        &[
            ("expired", Plain::Count(counts.expired)),
            ("notices", Plain::Count(counts.notices)),
            ("warned", Plain::Count(counts.warned)),
        ],
    )
}
