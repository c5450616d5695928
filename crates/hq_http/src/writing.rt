//! The head and the body of a response, written from fixed texts and digits.

ghost use Rattle.std.specs.Prelude.{◌≡◌, ◌++◌, List, [], ℕ, length, codes, decimal, unwrap_or};
ghost use Rattle.http.specs.StatusCode.{reason_phrase};
ghost use Rattle.hq_http.specs.Responses.{phrase_of, status_line, fields, response_text};
ghost use Rattle.hq_lines.specs.Written.{GoesOut};

use hq_lines::write_whole;
use http::StatusCode;
use std::io::{self, Write};

/// Writes a number in decimal digits.
fn put_number<W: Write>(writer: &mut W, number: usize) -> io::Result<()>
    ensures { GoesOut (W.contents writer.old) (W.contents writer.new) (decimal number) result }
{
    let mut buffer = itoa::Buffer::new();
    write_whole(writer, buffer.format(number).as_bytes())
}

/// The phrase of a status, which is empty where it has none.
fn reason(code: StatusCode) -> &'static str
    ensures { result.now ≡ unwrap_or (reason_phrase code) [] }
{
    code.canonical_reason().unwrap_or("")
}

/// The phrase of a status; a number that is no status, or has no phrase, has an empty one.
#[tactic(auto, unfolding(crate::specs::Responses::phrase_of))]
fn phrase_of(status: u16) -> &'static str
    ensures { result.now ≡ phrase_of status }
{
    match StatusCode::from_u16(status) {
        Ok(code) => reason(code),
        Err(_) => "",
    }
}

/// Writes the first line, without its end.
#[tactic(auto, unfolding(crate::specs::Responses::status_line))]
fn write_status<W: Write>(writer: &mut W, status: u16) -> io::Result<()>
    ensures { GoesOut (W.contents writer.old) (W.contents writer.new) (status_line status) result }
{
    write_whole(writer, b"HTTP/1.1 ")?;
    put_number(writer, status as usize)?;
    write_whole(writer, b" ")?;
    write_whole(writer, phrase_of(status).as_bytes())
}

/// Writes the fields for a body of this size, and the empty line.
#[tactic(auto, unfolding(crate::specs::Responses::fields))]
fn write_fields<W: Write>(writer: &mut W, size: usize) -> io::Result<()>
    ensures { GoesOut (W.contents writer.old) (W.contents writer.new) (fields size) result }
{
    write_whole(
        writer,
        b"\r\nContent-Type: application/json\r\nContent-Length: ",
    )?;
    put_number(writer, size)?;
    write_whole(writer, b"\r\nConnection: close\r\n\r\n")
}

/// Writes a response: its status with the phrase that belongs to it, its type, the length of its
/// body, that the connection is closed, and the body; and flushes. It takes no memory. At an error
/// a beginning of it went out.
#[tactic(auto, unfolding(crate::specs::Responses::response_text))]
pub fn write_response<W: Write>(writer: &mut W, status: u16, body: &[u8]) -> io::Result<()>
    ensures { GoesOut (W.contents writer.old) (W.contents writer.new)
        (response_text status body.now) result }
{
    write_status(writer, status)?;
    write_fields(writer, body.len())?;
    write_whole(writer, body)?;
    writer.flush()
}
