//! The reads of a request.

ghost use Rattle.std.specs.Prelude.{◌≡◌, ◌≤◌, false};

use hq_values::EngineFault;
use std::io::{ErrorKind, Read};

/// The most reads of a request. An interrupted read counts.
const MOST_READS: u32 = 300_000;

/// The bytes that one read may give.
const CHUNK_BYTES: usize = 4096;

/// A reader, how many reads may still be made of it, what the last one gave, and whether one
/// failed. No read is made behind one that failed or told the end.
#[derive(Drop)]
pub struct Reads<'r, R> {
    reader: &'r mut R,
    left: u32,
    over: bool,
    failed: bool,
    room: [u8; CHUNK_BYTES],
    given: usize,
    ghost fits: { given ≤ 4096 },
}

/// What a read tells.
#[derive(Drop)]
pub(crate) enum ReadResult {
    /// Some bytes came.
    Bytes,
    /// It was interrupted.
    Interruption,
    /// No more will come.
    End,
}

impl<'r, R: Read> Reads<'r, R> {
    ghost use Rattle.hq_http.specs.Reads.{last_given, ReadIs};

    /// A reader of which 300,000 reads may be made.
    pub fn new(reader: &'r mut R) -> Reads<'r, R>
        ensures same_reference { result.reader.ghost_name ≡ reader.entry.ghost_name }
        ensures reader { result.reader.now ≡ reader.old }
        ensures left { result.left ≡ 300000 }
        ensures over { result.over ≡ false }
        ensures failed { result.failed ≡ false }
    {
        Reads {
            reader,
            left: MOST_READS,
            over: false,
            failed: false,
            room: [0; CHUNK_BYTES],
            given: 0,
        }
    }

    /// What the last read gave.
    pub(crate) fn given(&self) -> &[u8]
        ensures { result.now ≡ last_given self.now }
    {
        &self.room[..self.given]
    }

    /// Makes one read, unless none may be made.
    pub(crate) fn read(&mut self) -> Result<ReadResult, EngineFault>
        ensures same_reference { self.new.reader.ghost_name ≡ self.old.reader.ghost_name }
        ensures once { ReadIs R.remaining self.old self.new result }
    {
        if self.over {
            return Err(EngineFault::Read);
        }
        if self.left == 0 {
            return Err(EngineFault::TooManyReads);
        }
        self.left -= 1;
        self.given = 0;
        match self.reader.read(&mut self.room) {
            Ok(0) => {
                self.over = true;
                Ok(ReadResult::End)
            }
            Ok(count) => {
                self.given = count;
                Ok(ReadResult::Bytes)
            }
            Err(error) if error.kind() == ErrorKind::Interrupted => Ok(ReadResult::Interruption),
            Err(_) => {
                self.over = true;
                self.failed = true;
                Err(EngineFault::Read)
            }
        }
    }
}
