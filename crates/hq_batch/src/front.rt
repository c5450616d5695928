//! The desk as what answers the lines of a batch.

ghost use Rattle.hq_wire.specs.Exchanges.{with_refusals};
ghost use Rattle.std.specs.Prelude.{◌≡◌, List, Some, ℕ};
ghost use Rattle.hq_memory.specs.Making.{MadeIn};
ghost use Rattle.hq_lines.specs.Fields.{request_in, line_request};
ghost use Rattle.hq_lines.specs.Written.{GoesOut};
ghost use Rattle.hq_batch.specs.Steps.{IsOfLine, IsLineToLog, LineAnswered, LineStep, SendsLine};

use crate::writing::write_reply;
use hq_bodies::JsonMemory;
use hq_lines::{Answers, RequestLine, read_line};
use hq_log::{Answered, Log};
use hq_memory::{Memory, own_text};
use hq_rules::Acts;
use hq_values::{Fault, Moment, Refusal};
use hq_wire::{Directory, Exchange, Reply, exchange, fault_reply, refusal_reply};
use std::alloc::AllocError;
use std::io::{self, Write};

/// The exchange that a line asks for.
pub(crate) fn exchange_of<M: Memory>(
    memory: M,
    line: &RequestLine<'_>,
) -> Result<Exchange, AllocError>
    ensures { MadeIn M.refused result (λ asked. IsOfLine asked (line_request line.now)) }
{
    Ok(Exchange {
        at: line.at,
        method: memory.text(line.method)?,
        path: memory.text(line.path)?,
        key: own_text(memory, line.key)?,
        body: memory.bytes(line.body)?,
    })
}

/// What is replied to a line, with its moment and its exchange where these could be read.
#[derive(Drop)]
struct Replied<'d> {
    at: Option<Moment>,
    asked: Option<Exchange>,
    reply: Reply<'d>,
}

impl Replied<'_> {
    /// What the log is told of.
    fn answered(&self) -> Answered<'_>
        ensures { IsLineToLog result self.now }
    {
        Answered {
            at: self.at,
            asked: self.asked.as_ref(),
            reply: &self.reply,
        }
    }
}

/// Replies to a line that can be read.
fn request_reply<'d, D: Acts, M: JsonMemory>(
    memory: M,
    desk: &mut D,
    directory: &'d Directory,
    line: &RequestLine<'_>,
) -> Replied<'d>
    ensures { SendsLine (with_refusals M.refused D.sight) directory.now desk.old
        (Some (line_request line.now)) result desk.new }
{
    match exchange_of(memory, line) {
        Ok(asked) => {
            let reply = exchange(memory, desk, directory, &asked);
            Replied {
                at: Some(line.at),
                asked: Some(asked),
                reply,
            }
        }
        Err(_) => Replied {
            at: Some(line.at),
            asked: None,
            reply: fault_reply(None, Fault::WantOfMemory),
        },
    }
}

/// Replies to a line.
fn line_reply<'d, D: Acts, M: JsonMemory>(
    memory: M,
    desk: &mut D,
    directory: &'d Directory,
    line: &[u8],
) -> Replied<'d>
    ensures { SendsLine (with_refusals M.refused D.sight) directory.now desk.old
        (request_in line.now) result desk.new }
{
    match read_line(line) {
        Some(line) => request_reply(memory, desk, directory, &line),
        None => Replied {
            at: None,
            asked: None,
            reply: refusal_reply(memory, None, Refusal::BadRequest),
        },
    }
}

/// Replies to a line by itself, tells the log just that, and writes the reply. At an error a
/// beginning of the reply went out; all else is done.
pub(crate) fn answer_alone<D: Acts, L: Log, M: JsonMemory, W: Write>(
    memory: M,
    desk: &mut D,
    directory: &Directory,
    log: &mut L,
    line: &[u8],
    writer: &mut W,
) -> io::Result<()>
    ensures { (reply : List ℕ)
        × LineAnswered (with_refusals M.refused D.sight) directory.now L.tells log.old log.new
        desk.old (request_in line.now) reply desk.new
        × GoesOut (W.contents writer.old) (W.contents writer.new) reply result }
{
    log.begin();
    let replied = line_reply(memory, desk, directory, line);
    log.replied(&replied.answered());
    write_reply(&replied.reply, writer)
}

/// The desk with the directory of its customers, a log, and the memory that requests and replies
/// take: it replies to each line by itself. The memory is lent: a value of any type beside the lent
/// desk might hold a part of it.
#[derive(Drop)]
pub struct Front<'d, 'l, 'm, D, L, M> {
    pub memory: &'m M,
    pub desk: &'d mut D,
    pub directory: &'d Directory,
    pub log: &'l mut L,
}

impl<D: Acts, L: Log, M: JsonMemory> Answers for Front<'_, '_, '_, D, L, M> {
    ghost use Rattle.std.specs.Prelude.{[], refl};
    ghost use Rattle.hq_values.specs.Turns.{InTurn};
    ghost use Rattle.hq_values.proofs.Turns.{turns_on};
    ghost use Rattle.hq_lines.specs.Rounds.{OneEach};

    ghost does = { InTurn (OneEach (LineStep (with_refusals M.refused D.sight) L.tells)) };

    ghost waiting = { λ _. [] };

    ghost none_does = { λ state. refl };

    ghost does_on = { turns_on (OneEach (LineStep (with_refusals M.refused D.sight) L.tells)) };

    fn take<W: Write>(&mut self, line: &[u8], writer: &mut W) -> io::Result<()> {
        answer_alone(
            *self.memory,
            self.desk,
            self.directory,
            self.log,
            line,
            writer,
        )
    }

    fn answer_waiting<W: Write>(&mut self, _writer: &mut W) -> io::Result<()> {
        Ok(())
    }
}
