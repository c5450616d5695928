//! Replies as lines.

ghost use Rattle.std.specs.Prelude.{◌≡◌, ◌+◌, ◌%◌};
ghost use Rattle.hq_batch.specs.Batches.{three_digits, reply_line};
ghost use Rattle.hq_lines.specs.Written.{GoesOut};
ghost use Rattle.hq_wire.specs.Replies.{seen};

use hq_lines::write_whole;
use hq_wire::Reply;
use std::io::{self, Write};

/// The last decimal digit of a number.
fn last_digit(number: u16) -> u8
    ensures { result ≡ 48 + number % 10 }
{
    b'0' + (number % 10) as u8
}

/// The three digits of a status.
#[tactic(auto, unfolding(crate::specs::Batches::three_digits))]
fn three_digits(status: u16) -> [u8; 3]
    ensures { result ≡ three_digits status }
{
    [
        last_digit(status / 100),
        last_digit(status / 10),
        last_digit(status),
    ]
}

/// Writes a reply as a line: its status, a space, its body and a line feed. At an error a beginning
/// of the line went out.
pub(crate) fn write_line<W: Write>(reply: &Reply<'_>, writer: &mut W) -> io::Result<()>
    ensures { GoesOut (W.contents writer.old) (W.contents writer.new)
        (reply_line (seen reply.now)) result }
{
    write_whole(writer, &three_digits(reply.status))?;
    write_whole(writer, b" ")?;
    write_whole(writer, reply.body.as_bytes())?;
    write_whole(writer, b"\n")
}

/// Writes a reply as a line, and flushes. At an error a beginning of the line went out.
pub(crate) fn write_reply<W: Write>(reply: &Reply<'_>, writer: &mut W) -> io::Result<()>
    ensures { GoesOut (W.contents writer.old) (W.contents writer.new)
        (reply_line (seen reply.now)) result }
{
    write_line(reply, writer)?;
    writer.flush()
}
