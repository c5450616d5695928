//! What a customer is told of its use of the desk and of its queue.

ghost use Rattle.std.specs.Prelude.{◌≡◌, OnErr};
ghost use Rattle.hq_json.specs.QueueReplies as replies;
ghost use Rattle.hq_json.specs.Writing.{after};

use crate::parts::put_object;
use crate::values::Plain;
use hq_memory::Memory;
use hq_rules::{Allowance, Usage};
use std::alloc::AllocError;

/// What a customer has on the desk, and what became of its recipients.
pub(crate) fn put_used<M: Memory>(
    memory: M,
    body: &mut Vec<u8>,
    usage: Usage,
) -> Result<(), AllocError>
    ensures bytes { body.new.items ≡ after result body.old.items body.new.items
        (replies.used usage) }
    ensures cause { OnErr result M.refused }
{
    let counts = usage.counts;
    let tally = usage.tally;
    put_object(
        memory,
        body,
        &[
            ("accepted", Plain::Count(tally.accepted)),
            ("bytes", Plain::Count(counts.bytes)),
            ("deleted", Plain::Count(tally.deleted)),
            ("delivered", Plain::Count(tally.delivered)),
            ("expired", Plain::Count(tally.expired)),
            ("failed", Plain::Count(tally.failed)),
            ("lines", Plain::Count(counts.lines)),
            ("messages", Plain::Count(counts.messages)),
            ("pending", Plain::Count(usage.pending)),
        ],
    )
}

/// How much a customer may keep.
pub(crate) fn put_allowed<M: Memory>(
    memory: M,
    body: &mut Vec<u8>,
    most: Allowance,
) -> Result<(), AllocError>
    ensures bytes { body.new.items ≡ after result body.old.items body.new.items
        (replies.allowed most) }
    ensures cause { OnErr result M.refused }
{
    put_object(
        memory,
        body,
        &[
            ("bytes", Plain::Count(most.bytes)),
            ("delay", Plain::Count(most.delay)),
            ("history", Plain::Count(most.history)),
            ("lines", Plain::Count(most.lines)),
            ("messages", Plain::Count(most.messages)),
            ("notices", Plain::Count(most.notices)),
        ],
    )
}

/// The queue report.
pub(crate) fn put_report<M: Memory>(
    memory: M,
    body: &mut Vec<u8>,
    report: &str,
) -> Result<(), AllocError>
    ensures bytes { body.new.items ≡ after result body.old.items body.new.items
        (replies.report_json report.now) }
    ensures cause { OnErr result M.refused }
{
    put_object(memory, body, &[("report", Plain::Text(report))])
}
