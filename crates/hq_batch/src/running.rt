//! A batch over a shelf.

ghost use Rattle.std.specs.Prelude.{◌≡◌, []};
ghost use Rattle.hq_desk.specs.Desks.{on};
ghost use Rattle.hq_lines.specs.Ends.{RoundsEnd};
ghost use Rattle.hq_wire.specs.Exchanges.{with_refusals};
ghost use Rattle.hq_batch.specs.InRounds.{RepliedBy};
ghost use Rattle.hq_batch.specs.Steps.{AnswersInRounds};
ghost use Rattle.hq_batch.specs.Runs.{RoundsRunEnd, RunEnds, ServesInRounds, ServesOver};

use crate::batch;
use crate::rounds::RoundFront;
use crate::waiting::Waiting;
use hq_bodies::JsonMemory;
use hq_desk::Desk;
use hq_lines::answer_lines;
use hq_log::Log;
use hq_moves::MovesMessages;
use hq_rounds::Rounds;
use hq_settings::{Settings, Trouble};
use hq_values::EngineFault;
use hq_wire::Directory;
use std::io::{Read, Write};

/// Replies to the lines of an input for the customers of these settings, over a shelf that is
/// dropped when the input has ended. The log is told each reply, with what it replies to, and
/// nothing else. It ends in want of memory only where `memory` refused a request; then nothing is
/// read, written or told.
pub fn run_batch<S: MovesMessages + Drop, R: Read, W: Write, L: Log, M: JsonMemory>(
    memory: M,
    shelf: S,
    settings: Settings,
    input: &mut R,
    output: &mut W,
    log: &mut L,
) -> Result<(), Trouble>
    ensures { RunEnds (ServesOver M.refused S.sight settings L.tells log.old log.new shelf)
        (M.refused × (input.new ≡ input.old) × (output.new ≡ output.old) × (log.new ≡ log.old))
        (record { input = R.remaining input.old; output = W.contents output.old })
        (record { input = R.remaining input.new; output = W.contents output.new }) result }
{
    let Settings { host, directory } = settings;
    let mut desk = Desk::new(shelf, host);
    batch(memory, input, output, &mut desk, &directory, log)?;
    Ok(())
}

/// Replies to the lines of an input in rounds, with the desk and the log of the front.
fn answer_in_rounds<S: Rounds, R: Read, W: Write, L: Log, M: JsonMemory>(
    input: &mut R,
    output: &mut W,
    front: &mut RoundFront<'_, '_, '_, '_, S, L, M>,
) -> Result<(), EngineFault>
    requires { front.old.waiting.now.exchanges.items ≡ [] }
    ensures same_desk { front.new.desk.ghost_name ≡ front.old.desk.ghost_name }
    ensures same_log { front.new.log.ghost_name ≡ front.old.log.ghost_name }
    ensures ended { RoundsEnd (λ asked lines. AnswersInRounds
        (with_refusals M.refused (on S.sight)) L.tells front.old asked lines front.new)
        (M.refused × (input.new ≡ input.old) × (output.new ≡ output.old)
        × (front.new ≡ front.old))
        (record { input = R.remaining input.old; output = W.contents output.old })
        (record { input = R.remaining input.new; output = W.contents output.new }) result }
{
    answer_lines(*front.memory, input, output, front)
}

/// Replies to the lines of an input in rounds, and gives the desk back.
fn serve_in_rounds<S: Rounds, R: Read, W: Write, L: Log, M: JsonMemory>(
    memory: M,
    desk: Desk<S>,
    directory: &Directory,
    input: &mut R,
    output: &mut W,
    log: &mut L,
) -> (Result<(), EngineFault>, Desk<S>)
    ensures { RoundsEnd (RepliedBy (with_refusals M.refused (on S.sight)) directory.now L.tells
        log.old log.new desk result.1)
        (M.refused × (input.new ≡ input.old) × (output.new ≡ output.old) × (log.new ≡ log.old)
        × (result.1 ≡ desk))
        (record { input = R.remaining input.old; output = W.contents output.old })
        (record { input = R.remaining input.new; output = W.contents output.new }) result.0 }
{
    let Ok(mut waiting) = Waiting::new(memory) else {
        return (Err(EngineFault::WantOfMemory), desk);
    };
    let mut desk = Some(desk);
    let mut front = RoundFront {
        memory: &memory,
        desk: &mut desk,
        directory,
        log,
        waiting: &mut waiting,
    };
    let ended = answer_in_rounds(input, output, &mut front);
    match desk {
        Some(desk) => (ended, desk),
        // (every round gives it back)
        None => unreachable!(),
    }
}

/// Replies to the lines of an input as `run_batch` does, in rounds: lines that one read gave share
/// a commit, 64 of them at most, and no reply leaves before it. It gives the shelf back as the last
/// line left it.
///
/// The log is told each reply of each round, with what it replies to, and nothing else. After a
/// fault of writing the lines are done, and told, up to those of the round whose replies could not
/// be written, and no other; the replies of the rounds before went out whole.
pub fn run_batch_in_rounds<S: Rounds, R: Read, W: Write, L: Log, M: JsonMemory>(
    memory: M,
    shelf: S,
    settings: Settings,
    input: &mut R,
    output: &mut W,
    log: &mut L,
) -> (Result<(), Trouble>, S)
    ensures { RoundsRunEnd (ServesInRounds M.refused S.sight settings L.tells log.old log.new
        shelf result.1)
        (M.refused × (input.new ≡ input.old) × (output.new ≡ output.old) × (log.new ≡ log.old)
        × (result.1 ≡ shelf))
        (record { input = R.remaining input.old; output = W.contents output.old })
        (record { input = R.remaining input.new; output = W.contents output.new }) result.0 }
{
    let Settings { host, directory } = settings;
    let desk = Desk::new(shelf, host);
    let (ended, desk) = serve_in_rounds(memory, desk, &directory, input, output, log);
    let ended = match ended {
        Ok(()) => Ok(()),
        Err(fault) => Err(Trouble::from(fault)),
    };
    (ended, desk.into_shelf())
}
