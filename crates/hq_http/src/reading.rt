//! One request from any reader, however its bytes are cut.

ghost use Rattle.std.specs.Prelude.{◌≡◌, ◌<◌, ◌≤◌, List, ℕ, Option, length, IfOk, IfErr, OnOk};
ghost use Rattle.std.specs.Io.KnownBytes.{Consumes};
ghost use Rattle.hq_http.specs.Reads.{StopsAtLast, FailsOpen, last_given};
ghost use Rattle.hq_http.specs.Stages.{StageIs, IsAtStage, InputIs, TurnIs, EndIs};
ghost use Rattle.hq_http.specs.Turns.{IsUnderWay, MoreIs};
ghost use Rattle.hq_http.specs.declared.reads.Reads.{Reads};

use crate::begun::Begun;
use crate::reads::{ReadResult, Reads};
use crate::stages::{Request, Stage, Step, advance};
use hq_memory::Memory;
use hq_values::{EngineFault, Refusal};
use std::io::Read;

/// What a connection asks for.
#[derive(Drop)]
pub enum Input {
    /// No byte came.
    Nothing,
    /// It is refused.
    Refused(Refusal),
    /// There was no room for it: memory was refused.
    NoRoom,
    /// A whole request.
    Request(Request),
}

/// What one read makes.
#[derive(Drop)]
pub(crate) enum Turn {
    /// Another read is needed.
    Again(Stage),
    /// The reading is done.
    Done(Input),
}

/// What the end of the input makes of what was read.
pub(crate) fn at_end(stage: &Stage) -> Input
    ensures { (bytes : List ℕ) → StageIs bytes stage.now → EndIs bytes result }
{
    match stage {
        Stage::Head(begun) if begun.bytes.is_empty() => Input::Nothing,
        Stage::Head(_) => Input::Refused(Refusal::BadRequest),
        Stage::Body(_, _) => Input::Refused(Refusal::BadRequest),
    }
}

/// What some more bytes make.
fn take_chunk<M: Memory>(memory: M, stage: Stage, chunk: &[u8]) -> Turn
    requires { 0 < length chunk.now }
    ensures { (read_old read_mid read_new : Option (List ℕ)) → IsAtStage read_old read_mid stage
        → Consumes read_mid read_new chunk.now → length chunk.now ≤ 4096
        → TurnIs M.refused read_old read_new result }
{
    match advance(memory, stage, chunk) {
        Ok(Step::Open(stage)) => Turn::Again(stage),
        Ok(Step::Refused(refusal)) => Turn::Done(Input::Refused(refusal)),
        Ok(Step::Whole(whole)) => Turn::Done(Input::Request(whole)),
        Err(_) => Turn::Done(Input::NoRoom),
    }
}

/// One read, and what it makes of the request.
fn read_more<R: Read, M: Memory>(
    memory: M,
    reads: &mut Reads<'_, R>,
    stage: Stage,
) -> Result<Turn, EngineFault>
    ensures same_reference { reads.new.reader.ghost_name ≡ reads.old.reader.ghost_name }
    ensures turn { (first : Reads R) → IsUnderWay R.remaining first reads.old stage
        → IfOk result (MoreIs M.refused R.remaining first reads.new) }
    ensures fault { (first : Reads R) → IsUnderWay R.remaining first reads.old stage
        → IfErr result (FailsOpen R.remaining first reads.new) }
    ensures counted { OnOk result (reads.new.left < reads.old.left) }
{
    match reads.read() {
        Ok(ReadResult::Bytes) => Ok(take_chunk(memory, stage, reads.given())),
        Ok(ReadResult::Interruption) => Ok(Turn::Again(stage)),
        Ok(ReadResult::End) => Ok(Turn::Done(at_end(&stage))),
        Err(fault) => Err(fault),
    }
}

/// Reads one request: what it asks for is what the whole input asks for, however it is cut. A read
/// gives 4,096 bytes at most, and another one is made only where fewer than 16,384 bytes came and
/// none of them ended a head, or the body of a head is not whole. An interrupted read is tried
/// again and counts as a read, and at most 300,000 are made. None is made behind one that failed
/// or told the end.
///
/// A head has at most 16,384 bytes, empty lines before it counted, and 64 fields; a body 262,144
/// bytes. The key is the field `X-Desk-Key`. All that is no request is refused as 1 `BadRequest`,
/// a second `Content-Length` or `X-Desk-Key` and any `Transfer-Encoding` among it; a longer body,
/// told by a head with no other fault, as 6 `BodyTooLong`. An error is a read that failed or one
/// too many: up to it no head had ended, or the body of one was not whole. Bytes that can be no
/// head are refused where an empty line ends them, and not before.
///
/// `NoRoom` is told only where the memory refused a request.
pub fn read_request<R: Read, M: Memory>(
    memory: M,
    reads: &mut Reads<'_, R>,
) -> Result<Input, EngineFault>
    ensures same_reference { reads.new.reader.ghost_name ≡ reads.old.reader.ghost_name }
    ensures told { IfOk result (InputIs M.refused (R.remaining reads.old.reader.now)
        (R.remaining reads.new.reader.now)) }
    ensures last { OnOk result (StopsAtLast R.remaining reads.old reads.new) }
    ensures room { IfOk result (λ input. input ≡ Input.NoRoom → 0 < length (last_given reads.new)) }
    ensures fault { IfErr result (FailsOpen R.remaining reads.old reads.new) }
{
    let mut stage = Stage::Head(Begun::new(memory));
    loop {
        match read_more(memory, reads, stage) {
            Ok(Turn::Again(next)) => stage = next,
            Ok(Turn::Done(input)) => return Ok(input),
            Err(fault) => return Err(fault),
        }
    }
}
