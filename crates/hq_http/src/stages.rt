//! How far a request has come, from chunk to chunk.

ghost use Rattle.std.specs.Prelude.{◌≡◌, ◌≢◌, ◌<◌, ◌++◌, [], length, List, ℕ};
ghost use Rattle.hq_memory.specs.Making.{MadeIn};
ghost use Rattle.hq_http.specs.Ends.{HasEnd};
ghost use Rattle.hq_http.specs.Stages.{BodyBegun, StageIs, StepIs, IsOf};

use crate::begun::Begun;
use crate::ends::HeadPlace;
use crate::head::{HEAD_BYTES, ParsedHead, WholeHead, head_of};
use hq_memory::{Memory, own_text};
use hq_values::Refusal;
use std::alloc::AllocError;

/// A request as it came.
#[derive(Drop)]
pub struct Request {
    /// The method, as `GET`.
    pub method: String,
    /// The path, as it stands.
    pub path: String,
    /// The key that was shown.
    pub key: Option<String>,
    /// The body.
    pub body: Vec<u8>,
}

/// How far a request has come.
#[derive(Drop)]
pub(crate) enum Stage {
    /// Bytes in which no head has ended.
    Head(Begun),
    /// A request with the first bytes of its body, and how many its body has in all.
    Body(Request, u64),
}

/// What more bytes make of a request.
#[derive(Drop)]
pub(crate) enum Step {
    /// Still more are needed.
    Open(Stage),
    /// However they go on, they are refused.
    Refused(Refusal),
    /// A whole request, whatever follows.
    Whole(Request),
}

/// A request whose body has begun, or is whole already.
fn with_body(request: Request, length: u64) -> Step
    ensures { (bytes : List ℕ) → BodyBegun bytes request length → StepIs bytes result }
{
    if (request.body.len() as u64) < length {
        return Step::Open(Stage::Body(request, length));
    }
    let mut request = request;
    request.body.truncate(length as usize);
    Step::Whole(request)
}

/// The request of a head, with the first bytes of its body.
fn request_of<M: Memory>(
    memory: M,
    head: &WholeHead<'_>,
    rest: &[u8],
) -> Result<Request, AllocError>
    ensures { MadeIn M.refused result (λ request. IsOf request head.now rest.now) }
{
    Ok(Request {
        method: memory.text(head.method)?,
        path: memory.text(head.path)?,
        key: own_text(memory, head.key)?,
        body: memory.bytes(rest)?,
    })
}

/// What bytes with the end of a head make.
fn behind_end<M: Memory>(memory: M, held: &[u8]) -> Result<Step, AllocError>
    requires { HasEnd held.now }
    ensures { MadeIn M.refused result (StepIs held.now) }
{
    match head_of(held) {
        ParsedHead::Refused(refusal) => Ok(Step::Refused(refusal)),
        ParsedHead::Whole(head) => {
            let request = request_of(memory, &head, &held[head.start..])?;
            Ok(with_body(request, head.length))
        }
    }
}

/// What bytes make, where there was no end of a head.
fn behind_begun<M: Memory>(memory: M, begun: Begun) -> Result<Step, AllocError>
    ensures { begun.bytes.items ≢ [] → MadeIn M.refused result (StepIs begun.bytes.items) }
{
    if begun.place == HeadPlace::Ended {
        return behind_end(memory, begun.bytes.as_slice());
    }
    if begun.bytes.len() >= HEAD_BYTES {
        return Ok(Step::Refused(Refusal::BadRequest));
    }
    Ok(Step::Open(Stage::Head(begun)))
}

/// More bytes of a body.
fn more_of_body<M: Memory>(
    memory: M,
    request: Request,
    length: u64,
    chunk: &[u8],
) -> Result<Step, AllocError>
    ensures { (bytes : List ℕ) → StageIs bytes (Stage.Body request length)
        → MadeIn M.refused result (StepIs (bytes ++ chunk.now)) }
{
    let mut request = request;
    memory.extend(&mut request.body, chunk)?;
    Ok(with_body(request, length))
}

/// What more bytes make of a request. At want of memory what was read is lost.
pub(crate) fn advance<M: Memory>(memory: M, stage: Stage, chunk: &[u8]) -> Result<Step, AllocError>
    requires { 0 < length chunk.now }
    ensures { (bytes : List ℕ) → StageIs bytes stage
        → MadeIn M.refused result (StepIs (bytes ++ chunk.now)) }
{
    match stage {
        Stage::Head(begun) => behind_begun(memory, begun.more(memory, chunk)?),
        Stage::Body(request, length) => more_of_body(memory, request, length, chunk),
    }
}
