//! The desk as what answers the lines of a batch in rounds: those that are there together share one
//! commit.

ghost use Rattle.std.specs.Prelude.{◌≡◌, ◌<◌, ◌∷◌, [], ℕ, List, map, length, IfOk, OnErr};
ghost use Rattle.std.specs.List.{concat};
ghost use Rattle.hq_values.specs.Refusals.{no_memory};
ghost use Rattle.hq_desk.specs.Desks.{on};
ghost use Rattle.hq_wire.specs.Exchanges.{with_refusals};
ghost use Rattle.hq_wire.specs.Replies.{reply_of_fault, seen};
ghost use Rattle.hq_lines.specs.Fields.{request_in};
ghost use Rattle.hq_lines.specs.Written.{GoesOut};
ghost use Rattle.hq_batch.specs.Batches.{reply_line};
ghost use Rattle.hq_batch.specs.Steps.{AnswersInRounds, DoesLines, RoundTold};
ghost use Rattle.hq_batch.specs.Steps.{replied_entries, wanted_entry};
ghost use Rattle.hq_batch.specs.Waiting.{lines_waiting};

use crate::front::answer_alone;
use crate::waiting::Waiting;
use crate::writing::write_line;
use hq_bodies::JsonMemory;
use hq_desk::Desk;
use hq_lines::Answers;
use hq_log::{Answered, Log};
use hq_requests::caller_named;
use hq_rounds::Rounds;
use hq_together::round;
use hq_values::Fault;
use hq_wire::{Directory, Exchange, Reply, fault_reply};
use std::alloc::AllocError;
use std::io::{self, ErrorKind, Write};

/// Tells each exchange and its reply to the log.
fn log_replies<L: Log>(log: &mut L, asked: &[Exchange], replies: &[Reply<'_>])
    ensures { L.tells log.old (replied_entries asked.now replies.now) log.new }
{
    for (asked, reply) in asked.iter().zip(replies) {
        log.replied(&Answered {
            at: Some(asked.at),
            asked: Some(asked),
            reply,
        });
    }
}

/// Tells the log of each exchange that memory was wanted.
fn log_wants<L: Log>(log: &mut L, directory: &Directory, asked: &[Exchange])
    ensures { L.tells log.old (map (wanted_entry directory.now) asked.now) log.new }
{
    for asked in asked {
        let want = fault_reply(caller_named(directory, asked), Fault::WantOfMemory);
        log.replied(&Answered {
            at: Some(asked.at),
            asked: Some(asked),
            reply: &want,
        });
    }
}

/// Writes replies as lines, in order, and flushes. At an error a beginning of them went out.
fn write_replies<W: Write>(replies: &[Reply<'_>], writer: &mut W) -> io::Result<()>
    ensures { GoesOut (W.contents writer.old) (W.contents writer.new)
        (concat (map (λ r. reply_line (seen r)) replies.now)) result }
{
    for reply in replies {
        write_line(reply, writer)?;
    }
    writer.flush()
}

/// Writes a line for each exchange, that memory was wanted, and flushes. At an error a beginning of
/// them went out.
fn write_wants<W: Write>(asked: &[Exchange], want: &Reply<'_>, writer: &mut W) -> io::Result<()>
    ensures { GoesOut (W.contents writer.old) (W.contents writer.new)
        (concat (map (λ x. reply_line (seen want.now)) asked.now)) result }
{
    for _asked in asked {
        write_line(want, writer)?;
    }
    writer.flush()
}

/// Tells the log what a round replied, and writes its replies; or, where there are none, that
/// memory was wanted. At an error a beginning of the lines went out.
fn tell_round<L: Log, W: Write>(
    log: &mut L,
    directory: &Directory,
    asked: &[Exchange],
    replies: Result<Vec<Reply<'_>>, AllocError>,
    writer: &mut W,
) -> io::Result<()>
    ensures replied { IfOk replies.entry (λ rs. GoesOut (W.contents writer.old)
        (W.contents writer.new) (concat (map (λ r. reply_line (seen r)) rs.items)) result) }
    ensures wanted { OnErr replies.entry (GoesOut (W.contents writer.old) (W.contents writer.new)
        (concat (map (λ x. reply_line (reply_of_fault no_memory)) asked.now)) result) }
    ensures told_replies { IfOk replies.entry (λ rs. L.tells log.old
        (replied_entries asked.now rs.items) log.new) }
    ensures told_wants { OnErr replies.entry (L.tells log.old
        (map (wanted_entry directory.now) asked.now) log.new) }
{
    match replies {
        Ok(replies) => {
            log_replies(log, asked, replies.as_slice());
            write_replies(replies.as_slice(), writer)
        }
        Err(_) => {
            log_wants(log, directory, asked);
            let want = fault_reply(None, Fault::WantOfMemory);
            write_wants(asked, &want, writer)
        }
    }
}

/// Does the lines that wait in a round of a desk: tells the log what it replied, and writes its
/// replies. At an error a beginning of them went out.
fn do_round<S: Rounds, L: Log, M: JsonMemory, W: Write>(
    memory: M,
    desk: Desk<S>,
    directory: &Directory,
    log: &mut L,
    waiting: &Waiting,
    writer: &mut W,
) -> (io::Result<()>, Desk<S>)
    requires { 0 < length waiting.now.exchanges.items }
    ensures { (lines : List (List ℕ)) × RoundTold (with_refusals M.refused (on S.sight))
        directory.now L.tells (record { desk = desk; log = log.old })
        (lines_waiting waiting.now.exchanges.items) lines
        (record { desk = result.1; log = log.new })
        × GoesOut (W.contents writer.old) (W.contents writer.new) (concat lines) result.0 }
{
    log.begin();
    let asked = waiting.exchanges.as_slice();
    let (replies, desk) = round(memory, desk, directory, asked);
    let told = tell_round(log, directory, asked, replies, writer);
    (told, desk)
}

/// A desk with the directory of its customers, a log, and the memory that requests and replies
/// take: it replies to lines in rounds. All of it is lent, since a value that owns memory might
/// hold a part of the lent log.
#[derive(Drop)]
pub struct RoundFront<'d, 'l, 'm, 'w, S, L, M> {
    pub memory: &'m M,
    /// None only while a round is done, which takes it by value.
    pub desk: &'d mut Option<Desk<S>>,
    pub directory: &'d Directory,
    pub log: &'l mut L,
    pub waiting: &'w mut Waiting,
}

impl<S: Rounds, L: Log, M: JsonMemory> RoundFront<'_, '_, '_, '_, S, L, M> {
    /// Answers the lines that wait, in one round.
    fn answer_round<W: Write>(&mut self, writer: &mut W) -> io::Result<()>
        ensures answered { DoesLines (with_refusals M.refused (on S.sight)) L.tells [] self.old
            self.new (W.contents writer.old) (W.contents writer.new) result }
        ensures none_wait { self.new.waiting.now.exchanges.items ≡ [] }
    {
        if self.waiting.is_empty() {
            return Ok(());
        }
        // (it is there: every round gives it back)
        let Some(desk) = self.desk.take() else {
            self.waiting.clear();
            return Err(io::Error::from(ErrorKind::Other));
        };
        let (told, desk) = do_round(
            *self.memory,
            desk,
            self.directory,
            self.log,
            self.waiting,
            writer,
        );
        *self.desk = Some(desk);
        self.waiting.clear();
        told
    }

    /// Answers a line by itself, where none waits.
    fn answer_by_itself<W: Write>(&mut self, line: &[u8], writer: &mut W) -> io::Result<()>
        requires { self.old.waiting.now.exchanges.items ≡ [] }
        ensures { DoesLines (with_refusals M.refused (on S.sight)) L.tells
            (request_in line.now ∷ []) self.old self.new (W.contents writer.old)
            (W.contents writer.new) result }
    {
        let Some(mut desk) = self.desk.take() else {
            return Err(io::Error::from(ErrorKind::Other));
        };
        let told = answer_alone(
            *self.memory,
            &mut desk,
            self.directory,
            self.log,
            line,
            writer,
        );
        *self.desk = Some(desk);
        told
    }
}

impl<S: Rounds, L: Log, M: JsonMemory> Answers for RoundFront<'_, '_, '_, '_, S, L, M> {
    ghost use Rattle.std.proofs.Common.{Bor, refl, subst, ◌∙◌};
    ghost use Rattle.hq_values.specs.Turns.{InTurn};
    ghost use Rattle.hq_values.proofs.Turns.{turns_on};
    ghost use Rattle.hq_requests.specs.declared.directory.Directory.{Directory};
    ghost use Rattle.hq_batch.specs.Steps.{front_with};

    ghost does = { AnswersInRounds (with_refusals M.refused (on S.sight)) L.tells };

    ghost waiting = { λ front. lines_waiting front.waiting.now.exchanges.items };

    ghost none_does = { λ front. record {
      directory = refl;
      same_desk = refl;
      same_log = refl;
      run = λ before is. (before, is, refl);
    } };

    ghost does_on = { λ old mid new asked more replies others p q. record {
      directory = q.directory ∙ p.directory;
      same_desk = q.same_desk ∙ p.same_desk;
      same_log = q.same_log ∙ p.same_log;
      run = λ before is.
          let first = p.run before is in
          let second = q.run first.0 first.1 in (
            second.0,
            second.1,
            turns_on (RoundTold (with_refusals M.refused (on S.sight)) old.directory.now L.tells)
                _ _ _ asked more replies others first.2
                (subst (λ (d : Bor Directory). InTurn
                (RoundTold (with_refusals M.refused (on S.sight)) d.now L.tells)
                (front_with first.0 mid) more others (front_with second.0 new)) p.directory
                second.2),
          );
    } };

    /// Has a line wait that can be read, unless its call takes long or there is no memory for it.
    /// Where a round is full it is done first; each other line is answered by itself, behind those
    /// that wait.
    fn take<W: Write>(&mut self, line: &[u8], writer: &mut W) -> io::Result<()> {
        if self.waiting.add(*self.memory, line) {
            return Ok(());
        }
        self.answer_round(writer)?;
        if self.waiting.add(*self.memory, line) {
            return Ok(());
        }
        self.answer_by_itself(line, writer)
    }

    fn answer_waiting<W: Write>(&mut self, writer: &mut W) -> io::Result<()> {
        self.answer_round(writer)
    }
}
