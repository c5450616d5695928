//! Exchanges in a round.

ghost use Rattle.std.specs.Prelude.{◌≡◌, IfOk, IfSome, IfNone, OnErr, map};
ghost use Rattle.hq_desk.specs.Desks.{on};
ghost use Rattle.hq_requests.specs.Named.{whose_exchange, whose_told};
ghost use Rattle.hq_wire.specs.Exchanges.{ask_of, with_refusals};
ghost use Rattle.hq_wire.specs.Runs.{RunsSo};
ghost use Rattle.hq_together.specs.Together.{GoesBack, RoundSo};

use hq_bodies::JsonMemory;
use hq_desk::Desk;
use hq_requests::{Directory, Exchange, Reply};
use hq_rounds::Rounds;
use hq_wire::run;
use std::alloc::AllocError;

/// Does exchanges one after another in a round. Without replies nothing of it is done.
fn together<'d, S: Rounds, M: JsonMemory>(
    memory: M,
    desk: Desk<S>,
    directory: &'d Directory,
    exchanges: &[Exchange],
) -> (Option<Vec<Reply<'d>>>, Desk<S>)
    ensures stands { IfSome result.0 (λ replies. RoundSo (with_refusals M.refused (on S.sight))
        directory.now desk (map (ask_of directory.now) exchanges.now) replies.items result.1) }
    ensures whose { IfSome result.0 (λ replies. map whose_told replies.items
        ≡ map (whose_exchange directory.now) exchanges.now) }
    ensures back { IfNone result.0 (GoesBack (with_refusals M.refused (on S.sight)) directory.now
        desk (map (ask_of directory.now) exchanges.now) result.1) }
{
    let (shelf, host) = desk.into_parts();
    let faults = shelf.faults();
    match shelf.begin() {
        Err(shelf) => (None, Desk::new(shelf, host)),
        Ok(round) => {
            let mut inside = Desk::new(round, host);
            let replies = run(memory, &mut inside, directory, exchanges);
            let (round, host) = inside.into_parts();
            let (stands, shelf) = S::settle(round, faults);
            let desk = Desk::new(shelf, host);
            let Ok(replies) = replies else {
                return (None, desk);
            };
            if stands {
                return (Some(replies), desk);
            }
            (None, desk)
        }
    }
}

/// Does exchanges one after another, each by itself.
fn one_by_one<'d, S: Rounds, M: JsonMemory>(
    memory: M,
    mut desk: Desk<S>,
    directory: &'d Directory,
    exchanges: &[Exchange],
) -> (Result<Vec<Reply<'d>>, AllocError>, Desk<S>)
    ensures served { IfOk result.0 (λ replies. RunsSo (with_refusals M.refused (on S.sight))
        directory.now desk (map (ask_of directory.now) exchanges.now) replies.items result.1) }
    ensures whose { IfOk result.0 (λ replies. map whose_told replies.items
        ≡ map (whose_exchange directory.now) exchanges.now) }
    ensures none { OnErr result.0 ((result.1 ≡ desk) × M.refused) }
{
    let replies = run(memory, &mut desk, directory, exchanges);
    (replies, desk)
}

/// Replies to exchanges in order, one reply each: together, by one commit; or, where that does not
/// stand, or there are fewer than two, each by itself. No reply may leave before this returns.
///
/// It ends in an error only where `memory` refused a request; then nothing was done, but where the
/// store was closed as the round was to stand, a stop may leave all that it made.
pub fn round<'d, S: Rounds, M: JsonMemory>(
    memory: M,
    desk: Desk<S>,
    directory: &'d Directory,
    exchanges: &[Exchange],
) -> (Result<Vec<Reply<'d>>, AllocError>, Desk<S>)
    ensures served { IfOk result.0 (λ replies. RoundSo (with_refusals M.refused (on S.sight))
        directory.now desk (map (ask_of directory.now) exchanges.now) replies.items result.1) }
    ensures whose { IfOk result.0 (λ replies. map whose_told replies.items
        ≡ map (whose_exchange directory.now) exchanges.now) }
    ensures none { OnErr result.0 (M.refused × GoesBack (with_refusals M.refused (on S.sight))
        directory.now desk (map (ask_of directory.now) exchanges.now) result.1) }
{
    if exchanges.len() < 2 {
        return one_by_one(memory, desk, directory, exchanges);
    }
    let (replies, desk) = together(memory, desk, directory, exchanges);
    match replies {
        Some(replies) => (Ok(replies), desk),
        None => one_by_one(memory, desk, directory, exchanges),
    }
}
