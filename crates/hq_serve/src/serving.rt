//! One connection with the desk.

ghost use Rattle.hq_wire.specs.Exchanges.{with_refusals};
ghost use Rattle.std.specs.Prelude.{◌≡◌, List, ℕ, Option, IfOk, IfErr};
ghost use Rattle.hq_http.specs.Stages.{request_seen, InputIs, LeavesOpen};
ghost use Rattle.hq_lines.specs.Written.{GoesOut};
ghost use Rattle.hq_wire.specs.Replies.{seen};
ghost use Rattle.hq_serve.specs.Connections.{response_of, ConnectionEnds};
ghost use Rattle.hq_serve.specs.Logged.{LogEnds};
ghost use Rattle.hq_serve.specs.Steps.{IsOfRequest, IsToLog, Sends};

use hq_bodies::JsonMemory;
use hq_http::{Input, Reads, Request, read_request, write_response};
use hq_log::{Answered, Log};
use hq_memory::Memory;
use hq_rules::Acts;
use hq_values::{EngineFault, Fault, Moment};
use hq_wire::{Directory, Exchange, Reply, exchange, fault_reply, refusal_reply};
use std::io::{self, Read, Write};

/// Reads what a connection asks for, with 300,000 reads at most.
fn read_input<R: Read, M: Memory>(memory: M, reader: &mut R) -> Result<Input, EngineFault>
    ensures told { IfOk result (InputIs M.refused (R.remaining reader.old)
        (R.remaining reader.new)) }
    ensures fault { IfErr result (LeavesOpen (R.remaining reader.old) (R.remaining reader.new)) }
{
    read_request(memory, &mut Reads::new(reader))
}

/// The exchange that a request asks for at a moment.
pub(crate) fn exchange_of(request: Request, at: Moment) -> Exchange
    ensures { IsOfRequest result at (request_seen request) }
{
    Exchange {
        at,
        method: request.method,
        path: request.path,
        key: request.key,
        body: request.body,
    }
}

/// What is replied, and the exchange where there is one.
#[derive(Drop)]
struct RequestReplied<'d> {
    asked: Option<Exchange>,
    reply: Reply<'d>,
}

impl RequestReplied<'_> {
    /// What the log is told of, at the moment of the connection.
    fn answered(&self, at: Moment) -> Answered<'_>
        ensures { IsToLog result at self.now }
    {
        Answered {
            at: Some(at),
            asked: self.asked.as_ref(),
            reply: &self.reply,
        }
    }
}

/// Replies to what a connection asks for; to nothing there is no reply.
fn reply_to<'d, D: Acts, M: JsonMemory>(
    memory: M,
    desk: &mut D,
    directory: &'d Directory,
    at: Moment,
    input: Input,
) -> Option<RequestReplied<'d>>
    ensures { (read_old read_new : Option (List ℕ)) → InputIs M.refused read_old read_new input
        → Sends (with_refusals M.refused D.sight) directory.now at read_old read_new desk.old result
        desk.new }
{
    match input {
        Input::Nothing => None,
        Input::Refused(refusal) => Some(RequestReplied {
            asked: None,
            reply: refusal_reply(memory, None, refusal),
        }),
        Input::NoRoom => Some(RequestReplied {
            asked: None,
            reply: fault_reply(None, Fault::WantOfMemory),
        }),
        Input::Request(request) => {
            let asked = exchange_of(request, at);
            let reply = exchange(memory, desk, directory, &asked);
            Some(RequestReplied {
                asked: Some(asked),
                reply,
            })
        }
    }
}

/// Writes a reply as a response, and flushes; at an error a beginning of it went out.
fn write_reply<W: Write>(writer: &mut W, reply: &Reply<'_>) -> io::Result<()>
    ensures { GoesOut (W.contents writer.old) (W.contents writer.new)
        (response_of (seen reply.now)) result }
{
    write_response(writer, reply.status, reply.body.as_bytes())
}

/// Serves one connection: one request is read, replied to at this moment, and its response is
/// written and flushed. Where no byte comes, nothing is written.
///
/// What is read asks for what the whole input asks for, however its bytes are cut (`hq_http`). A
/// refusal is told, or 503 with 90 `WantOfMemory` in its place, and changes nothing; a request is
/// replied to as its exchange is. Where there is no room for the request, 503 with 90 is told, and
/// nothing was done. 90 is told only where `memory` refused a request, or where the store may
/// answer it.
///
/// To every customer the reply to its call, and what is kept of it afterwards, are those of the
/// machine of one customer, started from its own state and given its share of the calls alone; a
/// call that is replied to with 503 does not count.
///
/// The log is told the reply, with what was read, and nothing else.
///
/// An error is `Read` or `TooManyReads`: no head had ended, or the body of one was not whole, and
/// nothing was done and nothing written; or `Write`: what was asked was done, and a beginning of
/// its response went out. At most 300,000 reads are made, an interrupted one counted.
pub fn serve_one<R: Read, W: Write, D: Acts, L: Log, M: JsonMemory>(
    memory: M,
    reader: &mut R,
    writer: &mut W,
    desk: &mut D,
    directory: &Directory,
    at: Moment,
    log: &mut L,
) -> Result<(), EngineFault>
    ensures ends { ConnectionEnds (with_refusals M.refused D.sight) directory.now at
        (record { input = R.remaining reader.old; output = W.contents writer.old })
        (record { input = R.remaining reader.new; output = W.contents writer.new })
        (writer.new ≡ writer.old) desk.old desk.new result }
    ensures logged { LogEnds (with_refusals M.refused D.sight) directory.now at
        (record { input = R.remaining reader.old; output = W.contents writer.old })
        (record { input = R.remaining reader.new; output = W.contents writer.new })
        desk.old desk.new L.tells log.old log.new result }
{
    let input = match read_input(memory, reader) {
        Ok(input) => input,
        Err(fault) => return Err(fault),
    };
    log.begin();
    match reply_to(memory, desk, directory, at, input) {
        None => Ok(()),
        Some(replied) => {
            log.replied(&replied.answered(at));
            match write_reply(writer, &replied.reply) {
                Ok(()) => Ok(()),
                Err(_) => Err(EngineFault::Write),
            }
        }
    }
}
