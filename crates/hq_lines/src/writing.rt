//! Writing that tells how far it came.

ghost use Rattle.hq_lines.specs.Written.{GoesOut};

use std::io::{self, ErrorKind, Write};

/// Writes the bytes as `write_all` does: an interrupted write is tried again, and one that takes
/// nothing is an error. Where it fails, a beginning of the bytes went out.
pub fn write_whole<W: Write>(writer: &mut W, bytes: &[u8]) -> io::Result<()>
    ensures { GoesOut (W.contents writer.old) (W.contents writer.new) bytes.now result }
{
    let mut done = 0;
    for _ in 0..u64::MAX {
        if done >= bytes.len() {
            return Ok(());
        }
        match writer.write(&bytes[done..]) {
            Ok(0) => return Err(io::Error::from(ErrorKind::WriteZero)),
            Ok(count) => done += count,
            Err(error) if error.kind() == ErrorKind::Interrupted => {}
            Err(error) => return Err(error),
        }
    }
    Err(io::Error::from(ErrorKind::TimedOut))
}
