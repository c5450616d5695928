//! What is printed: texts that words ask for, and how calls of an administrator are told.

ghost use Rattle.std.specs.Prelude.{◌≡◌, ◌≤◌};
ghost use Rattle.std.specs.Io.KnownBytes.{Appends};
ghost use Rattle.hq_lines.specs.Written.{AppendsPart, GoesOut};
ghost use Rattle.hq_batch.specs.Printing.{ArePrinted, AreShown, IsPrinted, IsPut, IsShown};

use crate::telling::{DONE, FAILED, tell};
use hq_lines::write_whole;
use hq_rules::Rendered;
use hq_settings::Trouble;
use std::io::{self, Write};

/// Writes a text to the output, and flushes. At an error a beginning of the text went out.
fn write_out<W: Write>(text: &[u8], output: &mut W) -> io::Result<()>
    ensures { GoesOut (W.contents output.old) (W.contents output.new) text.now result }
{
    write_whole(output, text)?;
    output.flush()
}

/// Writes a text to the output, and flushes. Where either fails it is `Output`, and a beginning of
/// the text went out.
pub fn put<W: Write>(text: &[u8], output: &mut W) -> Result<(), Trouble>
    ensures { IsPut text.now (W.contents output.old) (W.contents output.new) result }
{
    match write_out(text, output) {
        Ok(()) => Ok(()),
        Err(_) => Err(Trouble::Output),
    }
}

/// Writes a text to the output, and answers the exit status: 0, or 1 where it cannot be written,
/// which is told. Then a beginning of the text went out.
fn put_or_tell<W: Write, E: Write>(text: &[u8], output: &mut W, errors: &mut E) -> u8
    ensures status { result ≤ 1 }
    ensures shown { result ≡ 0
        → Appends (W.contents output.old) (W.contents output.new) text.now }
    ensures begun { AppendsPart (W.contents output.old) (W.contents output.new) text.now }
{
    let done = put(text, output);
    tell(done, errors)
}

/// Tells a refusal in one line, as `hq: 52 LabelUsed`.
fn tell_refused<E: Write>(text: &[u8], errors: &mut E) -> io::Result<()> {
    errors.write_all(b"hq: ")?;
    errors.write_all(text)?;
    errors.write_all(b"\n")
}

/// Shows a text that was asked for, and answers the exit status: 0, or 1 where it cannot be
/// written. Then a beginning of the text went out.
pub fn show<W: Write, E: Write>(text: &str, output: &mut W, errors: &mut E) -> u8
    ensures status { result ≤ 1 }
    ensures shown { result ≡ 0
        → Appends (W.contents output.old) (W.contents output.new) text.now }
    ensures begun { AppendsPart (W.contents output.old) (W.contents output.new) text.now }
{
    put_or_tell(text.as_bytes(), output, errors)
}

/// Prints what a call was answered: an answer on the output, a refusal in one line of `errors`.
/// Answers the exit status, or `Output` where the output fails.
fn print_answer<W: Write, E: Write>(
    rendered: &Rendered,
    output: &mut W,
    errors: &mut E,
) -> Result<u8, Trouble>
    ensures { IsShown rendered.now (output.new ≡ output.old) (W.contents output.old)
        (W.contents output.new) result }
{
    if rendered.number != 0 {
        let _told = tell_refused(rendered.bytes.as_slice(), errors);
        return Ok(FAILED);
    }
    put(rendered.bytes.as_slice(), output)?;
    Ok(DONE)
}

/// Prints what a call was answered, and answers the exit status: 0 when it is on the output; and 1
/// for a refusal, a fault, or an output that fails, with one line of `errors`. Where that line
/// cannot be written, the status tells it alone.
pub fn print<W: Write, E: Write>(
    done: Result<Rendered, Trouble>,
    output: &mut W,
    errors: &mut E,
) -> u8
    ensures { IsPrinted done (output.new ≡ output.old) (W.contents output.old)
        (W.contents output.new) result }
{
    let rendered = match done {
        Ok(rendered) => rendered,
        Err(trouble) => return tell(Err(trouble), errors),
    };
    match print_answer(&rendered, output, errors) {
        Ok(status) => status,
        Err(trouble) => tell(Err(trouble), errors),
    }
}

/// Prints what calls were answered, one after the other, up to an output that fails. Answers the
/// exit status, or `Output`.
fn print_answers<W: Write, E: Write>(
    told: &[Rendered],
    output: &mut W,
    errors: &mut E,
) -> Result<u8, Trouble>
    ensures { AreShown told.now (W.contents output.old) (W.contents output.new) result }
{
    let mut status = DONE;
    for rendered in told {
        status = status.max(print_answer(rendered, output, errors)?);
    }
    Ok(status)
}

/// Prints what calls were answered, one after the other, and answers the exit status: 0 when none
/// is a refusal and all are on the output, and else 1. An output that fails is told, and ends it.
pub fn print_all<W: Write, E: Write>(told: &[Rendered], output: &mut W, errors: &mut E) -> u8
    ensures { ArePrinted told.now (W.contents output.old) (W.contents output.new) result }
{
    match print_answers(told, output, errors) {
        Ok(status) => status,
        Err(trouble) => tell(Err(trouble), errors),
    }
}
