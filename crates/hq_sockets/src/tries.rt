//! One attempt at a socket that never waits.

ghost use Rattle.std.specs.Prelude.{◌<◌, length};
ghost use Rattle.hq_sockets.specs.Tries.{HasRead, HasWritten, IsFailure};

use crate::talking::Connection;
use std::io::{self, ErrorKind};

/// What an attempt at a socket gave.
#[derive(Drop)]
pub(crate) enum Tried {
    /// So many bytes.
    Bytes(usize),
    /// Nothing, for a signal.
    Again,
    /// It would have waited.
    Waits,
    /// It is closed.
    Closed,
    /// It failed.
    Failed,
}

/// What the fault of a socket tells.
fn failure_of(error: io::Error) -> Tried
    ensures { IsFailure result }
{
    match error.kind() {
        ErrorKind::Interrupted => Tried::Again,
        ErrorKind::WouldBlock => Tried::Waits,
        _ => Tried::Failed,
    }
}

/// Reads what has come.
pub(crate) fn read_some<C: Connection>(stream: &mut C, chunk: &mut [u8]) -> Tried
    requires { 0 < length chunk.old }
    ensures { HasRead C.talks C.ends stream.old stream.new chunk.new result }
{
    match stream.read(chunk) {
        Ok(0) => Tried::Closed,
        Ok(count) => Tried::Bytes(count),
        Err(error) => failure_of(error),
    }
}

/// Writes as much as the socket takes.
pub(crate) fn write_some<C: Connection>(stream: &mut C, bytes: &[u8]) -> Tried
    ensures { HasWritten C.talks stream.old stream.new bytes.now result }
{
    match stream.write(bytes) {
        Ok(0) => Tried::Closed,
        Ok(count) => Tried::Bytes(count),
        Err(error) => failure_of(error),
    }
}
