//! What is told of notices.

ghost use Rattle.std.specs.Prelude.{◌≡◌, OnErr};
ghost use Rattle.hq_json.specs.NoticeReplies as replies;
ghost use Rattle.hq_json.specs.Writing.{after};

use crate::parts::{AsEntry, Form, put_object};
use crate::values::{Part, Plain};
use hq_kept::{Kind, Notice};
use hq_memory::Memory;
use std::alloc::AllocError;

fn kind_name(kind: Kind) -> &'static str
    ensures { result.now ≡ replies.kind_name kind }
{
    match kind {
        Kind::Failure => "failure",
        Kind::Delay => "delay",
    }
}

/// The subject of the mail that a notice becomes (bounce(5)).
fn subject(kind: Kind) -> &'static str
    ensures { result.now ≡ replies.subject kind }
{
    match kind {
        Kind::Failure => "Undelivered Mail Returned to Sender",
        Kind::Delay => "Delayed Mail (still being retried)",
    }
}

impl Form<Notice> for AsEntry {
    ghost use Rattle.hq_json.specs.NoticeReplies.{notice_entry};

    ghost told = { notice_entry };

    fn put<M: Memory>(memory: M, body: &mut Vec<u8>, one: &Notice) -> Result<(), AllocError> {
        let number = one.number;
        put_object(
            memory,
            body,
            &[
                ("at", Plain::Count(one.at.get())),
                ("id", Plain::Id(one.serial)),
                ("kind", Plain::Text(kind_name(one.kind))),
                ("number", Plain::Count(number)),
                ("to", Plain::Text(one.to.as_str())),
            ],
        )
    }
}

/// A page of notices.
#[tactic(auto, unfolding(crate::specs::NoticeReplies::notices_listed))]
pub(crate) fn put_notices<M: Memory>(
    memory: M,
    body: &mut Vec<u8>,
    notices: &[Notice],
    more: bool,
) -> Result<(), AllocError>
    ensures bytes { body.new.items ≡ after result body.old.items body.new.items
        (replies.notices_listed notices.now more) }
    ensures cause { OnErr result M.refused }
{
    put_object(
        memory,
        body,
        &[
            ("more", Part::One(Plain::Flag(more))),
            ("notices", Part::Notices(notices)),
        ],
    )
}

/// A notice whole.
pub(crate) fn put_notice<M: Memory>(
    memory: M,
    body: &mut Vec<u8>,
    notice: &Notice,
) -> Result<(), AllocError>
    ensures bytes { body.new.items ≡ after result body.old.items body.new.items
        (replies.notice_json notice.now) }
    ensures cause { OnErr result M.refused }
{
    put_object(
        memory,
        body,
        &[
            ("at", Plain::Count(notice.at.get())),
            ("human", Plain::Text(notice.human.as_str())),
            ("id", Plain::Id(notice.serial)),
            ("kind", Plain::Text(kind_name(notice.kind))),
            ("number", Plain::Count(notice.number)),
            ("status", Plain::Text(notice.status.as_str())),
            ("subject", Plain::Text(subject(notice.kind))),
            ("to", Plain::Text(notice.to.as_str())),
        ],
    )
}
