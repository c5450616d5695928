//! Replies to calls on histories.

ghost use Rattle.std.specs.Prelude.{◌≡◌, unwrap_or, [], OnErr};
ghost use Rattle.hq_json.specs.HistoryReplies as replies;
ghost use Rattle.hq_json.specs.Writing.{after, plain_data};

use crate::parts::{AsEntry, Form, put_object};
use crate::values::{Part, Plain};
use hq_kept::{End, Fate, Status};
use hq_memory::Memory;
use std::alloc::AllocError;

fn fate_name(fate: Fate) -> &'static str
    ensures { result.now ≡ replies.fate_name fate }
{
    match fate {
        Fate::Delivered => "delivered",
        Fate::Failed => "failed",
        Fate::Deleted => "deleted",
        Fate::Expired => "expired",
    }
}

/// The text of a status; empty where there is none.
fn status_str(status: &Option<Status>) -> &str
    ensures { result.now ≡ unwrap_or status.now [] }
{
    match status {
        None => "",
        Some(status) => status.as_str(),
    }
}

impl Form<End> for AsEntry {
    ghost use Rattle.hq_json.specs.HistoryReplies.{end_entry};

    ghost told = { end_entry };

    fn put<M: Memory>(memory: M, body: &mut Vec<u8>, one: &End) -> Result<(), AllocError> {
        put_object(
            memory,
            body,
            &[
                ("at", Plain::Count(one.at.get())),
                ("id", Plain::Id(one.ended.serial)),
                ("number", Plain::Count(one.number)),
                ("recipient", Plain::Text(one.ended.recipient.as_str())),
                ("result", Plain::Text(fate_name(one.ended.fate))),
                ("sender", Plain::Text(one.ended.sender.as_str())),
                ("status", Plain::Text(status_str(&one.ended.status))),
                ("text", Plain::Text(one.ended.text.as_str())),
            ],
        )
    }
}

/// A page of a history.
#[tactic(auto, unfolding(crate::specs::HistoryReplies::history_listed))]
pub(crate) fn put_history<M: Memory>(
    memory: M,
    body: &mut Vec<u8>,
    ends: &[End],
    more: bool,
) -> Result<(), AllocError>
    ensures bytes { body.new.items ≡ after result body.old.items body.new.items
        (replies.history_listed ends.now more) }
    ensures cause { OnErr result M.refused }
{
    put_object(
        memory,
        body,
        &[
            ("history", Part::Ends(ends)),
            ("more", Part::One(Plain::Flag(more))),
        ],
    )
}

/// The number before which a search goes on.
fn next_value(next: Option<u64>) -> Plain<'static>
    ensures { plain_data result ≡ replies.next_told next }
{
    match next {
        None => Plain::Null,
        Some(number) => Plain::Count(number),
    }
}

/// What a search found, and the number before which it goes on.
pub(crate) fn put_found<M: Memory>(
    memory: M,
    body: &mut Vec<u8>,
    ends: &[End],
    next: Option<u64>,
) -> Result<(), AllocError>
    ensures bytes { body.new.items ≡ after result body.old.items body.new.items
        (replies.history_found ends.now next) }
    ensures cause { OnErr result M.refused }
{
    put_object(
        memory,
        body,
        &[
            ("history", Part::Ends(ends)),
            ("next", Part::One(next_value(next))),
        ],
    )
}
