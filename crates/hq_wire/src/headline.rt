//! Many exchanges of many customers, and what each customer sees of them.

ghost use Rattle.std.specs.Prelude.{◌≡◌, IfOk, OnErr, map};
ghost use Rattle.hq_requests.specs.Named.{whose_exchange, whose_told};
ghost use Rattle.hq_wire.specs.Exchanges.{ask_of, with_refusals};
ghost use Rattle.hq_wire.specs.Runs.{RunsSo};

use crate::answering::exchange;
use hq_bodies::JsonMemory;
use hq_requests::{Directory, Exchange, Reply};
use hq_rules::Acts;
use std::alloc::AllocError;

/// Replies to exchanges in order, one reply each.
///
/// To every customer the replies to the calls made by or for it, and what is kept of it afterwards,
/// are those of the machine of one customer, started from its own state and given its share of the
/// calls alone, whatever other calls come between. A call that is answered 503 does not count.
/// 90 is told only where `memory` refused a request, or where the store may answer it. Each reply
/// carries the customer of its exchange.
///
/// Room for all replies is taken first. The run ends in an error only where `memory` refused a
/// request; then nothing was done.
pub fn run<'d, D: Acts, M: JsonMemory>(
    memory: M,
    desk: &mut D,
    directory: &'d Directory,
    exchanges: &[Exchange],
) -> Result<Vec<Reply<'d>>, AllocError>
    ensures served { IfOk result (λ replies. RunsSo (with_refusals M.refused D.sight)
        directory.now desk.old (map (ask_of directory.now) exchanges.now) replies.items desk.new) }
    ensures whose { IfOk result (λ replies. map whose_told replies.items
        ≡ map (whose_exchange directory.now) exchanges.now) }
    ensures none { OnErr result ((desk.new ≡ desk.old) × M.refused) }
{
    let mut replies = memory.room(exchanges.len())?;
    for item in exchanges {
        let reply = exchange(memory, desk, directory, item);
        replies.push_reserved(reply);
    }
    Ok(replies)
}
