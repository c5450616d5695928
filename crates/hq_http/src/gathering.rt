//! One request whose bytes come in chunks, for a server that reads from several clients at once.

ghost use Rattle.std.specs.Prelude.{◌<◌, ◌++◌, [], List, ℕ, length};
ghost use Rattle.hq_http.specs.Gathered.{Gathers, IsGathered};
ghost use Rattle.hq_http.specs.Stages.{EndIs};

use crate::begun::Begun;
use crate::reading::{Input, at_end};
use crate::stages::{Stage, Step, advance};
use hq_memory::Memory;

/// A request of which more has to come.
#[derive(Drop)]
pub struct Gathering {
    stage: Stage,
}

/// What more bytes make of a request.
#[derive(Drop)]
pub enum Gathered {
    /// Still more are needed.
    Open(Gathering),
    /// It is settled, whatever follows.
    Done(Input),
}

impl Gathering {
    /// One of which nothing came. It takes no memory.
    pub fn new<M: Memory>(memory: M) -> Gathering
        ensures { IsGathered [] result }
    {
        Gathering {
            stage: Stage::Head(Begun::new(memory)),
        }
    }

    /// With more bytes: what the request asks for is what all its bytes ask for, however they are
    /// cut, as `read_request` has it. `NoRoom` is told only where the memory refused a request.
    pub fn more<M: Memory>(self, memory: M, chunk: &[u8]) -> Gathered
        requires { 0 < length chunk.now }
        ensures { (bytes : List ℕ) → IsGathered bytes self
            → Gathers M.refused (bytes ++ chunk.now) result }
    {
        match advance(memory, self.stage, chunk) {
            Ok(Step::Open(stage)) => Gathered::Open(Gathering { stage }),
            Ok(Step::Refused(refusal)) => Gathered::Done(Input::Refused(refusal)),
            Ok(Step::Whole(whole)) => Gathered::Done(Input::Request(whole)),
            Err(_) => Gathered::Done(Input::NoRoom),
        }
    }

    /// What it asks for where no more comes: nothing, or it is refused.
    pub fn end(&self) -> Input
        ensures { (bytes : List ℕ) → IsGathered bytes self.now → EndIs bytes result }
    {
        at_end(&self.stage)
    }
}
