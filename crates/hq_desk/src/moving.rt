//! Calls that move one message of a customer, or all: the shelf does it in its own way.

ghost use Rattle.std.specs.Prelude.{◌≡◌, IfOk, IfSome, OnErr, OnOk};
ghost use Rattle.hq_tables.specs.Shelves.{KeepsOnErr, OnSound, OnOpenSound, StopLeavesWhole};
ghost use Rattle.hq_tables.specs.Sound.{Sound};
ghost use Rattle.hq_rules.specs.Desks.{IsRendered, IsSomeAnswer, or_memory};
ghost use Rattle.hq_rules.specs.declared.answer.Answer.{Answer};
ghost use Rattle.hq_desk.specs.Moves.{HasAnyAnswer, IsMoveOfAll, IsMoveOfOne};
ghost use Rattle.hq_desk.specs.Moves.{move_step, one_step, told_answer};

use hq_kept::Entry;
use hq_memory::Memory;
use hq_moves::MovesMessages;
use hq_rules::{Answer, Call, Move, Render, Rendered};
use hq_values::{Fault, Moment, Refusal, Serial};
use std::alloc::AllocError;

/// The move of all messages that a call at a moment asks for, where it asks for one.
pub(crate) fn move_asked(call: &Call, at: Moment) -> Option<Move>
    ensures decided { IfSome result (IsMoveOfAll at call.now) }
    ensures any { IfSome result (λ by. HasAnyAnswer call.now) }
{
    match call {
        Call::HoldAll(which) if which.is_none() => Some(Move::Hold),
        Call::ReleaseAll(which) if which.is_none() => Some(Move::Release(at)),
        _ => None,
    }
}

/// A move of one message.
#[derive(Clone, Copy)]
pub(crate) struct OneMove {
    /// The serial of the message.
    serial: Serial,
    /// The move.
    by: Move,
}

/// The move of one message that a call at a moment asks for, where it asks for one.
pub(crate) fn one_asked(call: &Call, at: Moment) -> Option<OneMove>
    ensures decided { IfSome result (λ asked. IsMoveOfOne at call.now asked.serial asked.by) }
    ensures any { IfSome result (λ asked. HasAnyAnswer call.now) }
{
    match call {
        Call::Hold(serial) => Some(OneMove {
            serial: *serial,
            by: Move::Hold,
        }),
        Call::Release(serial) => Some(OneMove {
            serial: *serial,
            by: Move::Release(at),
        }),
        _ => None,
    }
}

/// The answer by whether the move changes the message; none, where there is no such message.
fn answer_of(moves: Option<bool>) -> Answer
    ensures { result ≡ told_answer moves }
{
    match moves {
        None => Answer::Refused(Refusal::NoMessage),
        Some(moves) => Answer::Changed(u64::from(moves)),
    }
}

/// An answer as it is rendered.
fn render_answer<R: Render, M: Memory>(
    memory: M,
    answer: Answer,
    render: &R,
) -> Result<Rendered, AllocError>
    ensures rendered { IfOk result (IsRendered (R.text render.now) answer) }
    ensures shown { IfOk result (IsSomeAnswer (R.text render.now) (R.fits render.now)) }
    ensures cause { OnErr result (R.takes render.now answer → M.refused) }
{
    let number = answer.number();
    let bytes = render.render(memory, &answer)?;
    Ok(Rendered { number, bytes })
}

/// Moves one message of the customer, and tells whether the move changes it. Where it changes
/// nothing, nothing is written.
pub(crate) fn move_one<S: MovesMessages, R: Render, M: Memory>(
    shelf: &mut S,
    memory: M,
    entry: &Entry,
    asked: &OneMove,
    render: &R,
) -> Result<Rendered, Fault>
    ensures answer { OnSound S.sight shelf.old shelf.new (IfOk result (IsRendered
        (R.text render.now) (one_step entry.now.name asked.now.serial asked.now.by
        (S.sight.tables shelf.old)).0)) }
    ensures tables { OnSound S.sight shelf.old shelf.new (OnOk result (S.sight.tables shelf.new
        ≡ (one_step entry.now.name asked.now.serial asked.now.by
        (S.sight.tables shelf.old)).1)) }
    ensures sound { OnOpenSound S.sight shelf.old shelf.new (Sound (S.sight.tables shelf.new)) }
    ensures stops { OnSound S.sight shelf.old shelf.new (StopLeavesWhole S.sight shelf.old
        shelf.new (one_step entry.now.name asked.now.serial asked.now.by
        (S.sight.tables shelf.old)).1) }
    ensures shown { IfOk result (IsSomeAnswer (R.text render.now) (R.fits render.now)) }
    ensures kept { KeepsOnErr (or_memory (((answer : Answer) → R.takes render.now answer)
        → M.refused) S.sight) shelf.old shelf.new result }
{
    let moves = shelf.would_move(&entry.name, asked.serial, asked.by)?;
    let rendered = render_answer(memory, answer_of(moves), render)?;
    let Some(true) = moves else {
        return Ok(rendered);
    };
    shelf.move_one(memory, &entry.name, asked.serial, asked.by)?;
    Ok(rendered)
}

/// Moves all messages of the customer, and tells how many the move changes. Where it changes none,
/// nothing is written.
pub(crate) fn move_all<S: MovesMessages, R: Render, M: Memory>(
    shelf: &mut S,
    memory: M,
    entry: &Entry,
    by: &Move,
    render: &R,
) -> Result<Rendered, Fault>
    ensures answer { OnSound S.sight shelf.old shelf.new (IfOk result (IsRendered
        (R.text render.now) (move_step entry.now.name by.now (S.sight.tables shelf.old)).0)) }
    ensures tables { OnSound S.sight shelf.old shelf.new (OnOk result (S.sight.tables shelf.new
        ≡ (move_step entry.now.name by.now (S.sight.tables shelf.old)).1)) }
    ensures sound { OnOpenSound S.sight shelf.old shelf.new (Sound (S.sight.tables shelf.new)) }
    ensures stops { OnSound S.sight shelf.old shelf.new (StopLeavesWhole S.sight shelf.old
        shelf.new (move_step entry.now.name by.now (S.sight.tables shelf.old)).1) }
    ensures shown { IfOk result (IsSomeAnswer (R.text render.now) (R.fits render.now)) }
    ensures kept { KeepsOnErr (or_memory (((answer : Answer) → R.takes render.now answer)
        → M.refused) S.sight) shelf.old shelf.new result }
{
    let count = shelf.moving(memory, &entry.name, *by)?;
    let rendered = render_answer(memory, Answer::Changed(count), render)?;
    if count == 0 {
        return Ok(rendered);
    }
    shelf.move_all(memory, &entry.name, *by)?;
    Ok(rendered)
}
