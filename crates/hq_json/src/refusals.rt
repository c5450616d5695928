//! What is told of refusals.

ghost use Rattle.std.specs.Prelude.{◌≡◌, OnErr};
ghost use Rattle.hq_json.specs.Replies as replies;
ghost use Rattle.hq_json.specs.Writing.{after, Tellable, DetailFits};

use crate::parts::put_object;
use crate::values::Plain;
use hq_memory::Memory;
use hq_values::Refusal;
use std::alloc::AllocError;

fn put_plain<M: Memory>(memory: M, body: &mut Vec<u8>, refusal: &Refusal) -> Result<(), AllocError>
    ensures bytes { body.new.items ≡ after result body.old.items body.new.items
        (replies.refusal_json refusal.now) }
    ensures cause { OnErr result M.refused }
    ensures reads { Tellable refusal.now }
{
    put_object(
        memory,
        body,
        &[
            ("error", Plain::Count(u64::from(refusal.number()))),
            ("name", Plain::Text(refusal.name())),
        ],
    )
}

fn put_with_row<M: Memory>(
    memory: M,
    body: &mut Vec<u8>,
    refusal: &Refusal,
    row: u32,
) -> Result<(), AllocError>
    ensures bytes { body.new.items ≡ after result body.old.items body.new.items
        (replies.refused_at refusal.now row) }
    ensures cause { OnErr result M.refused }
    ensures reads { Tellable refusal.now }
{
    put_object(
        memory,
        body,
        &[
            ("error", Plain::Count(u64::from(refusal.number()))),
            ("name", Plain::Text(refusal.name())),
            ("row", Plain::Count(u64::from(row))),
        ],
    )
}

fn put_with_attempts<M: Memory>(
    memory: M,
    body: &mut Vec<u8>,
    refusal: &Refusal,
    attempts: u32,
) -> Result<(), AllocError>
    ensures bytes { body.new.items ≡ after result body.old.items body.new.items
        (replies.refused_after refusal.now attempts) }
    ensures cause { OnErr result M.refused }
    ensures reads { Tellable refusal.now }
{
    put_object(
        memory,
        body,
        &[
            ("attempts", Plain::Count(u64::from(attempts))),
            ("error", Plain::Count(u64::from(refusal.number()))),
            ("name", Plain::Text(refusal.name())),
        ],
    )
}

/// A refusal, with the row or the attempts that it names.
pub(crate) fn put_refusal<M: Memory>(
    memory: M,
    body: &mut Vec<u8>,
    refusal: &Refusal,
) -> Result<(), AllocError>
    ensures bytes { body.new.items ≡ after result body.old.items body.new.items
        (replies.refusal_data refusal.now) }
    ensures cause { OnErr result M.refused }
    ensures reads { Tellable refusal.now }
    ensures fits { DetailFits refusal.now }
{
    match refusal {
        Refusal::AttemptAhead { attempts } => put_with_attempts(memory, body, refusal, *attempts),
        Refusal::BadCsv { row }
        | Refusal::DoubledPattern { row }
        | Refusal::BadDirectory { row }
        | Refusal::DoubledName { row }
        | Refusal::DoubledKey { row } => put_with_row(memory, body, refusal, *row),
        _ => put_plain(memory, body, refusal),
    }
}
