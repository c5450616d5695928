//! The loop over the lines of an input: each line that is not empty is answered, in order.

ghost use Rattle.std.specs.Prelude.{◌≡◌, ◌<◌, ◌==◌, ◌++◌, ◌∷◌, [], List, ℕ, Option, Err, false};
ghost use Rattle.std.specs.Prelude.{length, nat_lt, IfOk, OnOk, IfErr};
ghost use Rattle.std.specs.Prelude.{if◌then◌else◌};
ghost use Rattle.std.specs.List.{filter};
ghost use Rattle.std.specs.Io.KnownBytes.{IsAtEnd};
ghost use Rattle.hq_lines.specs.Fields.{LineRequest, request_in};
ghost use Rattle.hq_lines.specs.Lines.{is_filled, without_return, requests};
ghost use Rattle.hq_lines.specs.Rounds.{DoesFirst};
ghost use Rattle.hq_lines.specs.Ends.{RoundsEnd};
ghost use Rattle.hq_lines.specs.Progress.{Progress, Cut, Going};

use crate::buffer::LineBuffer;
use hq_memory::Memory;
use hq_values::EngineFault;
use std::io::{self, ErrorKind, Read, Write};

/// The most reads of a batch, 2^26. An interrupted read counts.
const MOST_READS: u32 = 67_108_864;

/// The bytes that one read may give, as many as a pipe of Linux holds.
const CHUNK_BYTES: usize = 65_536;

/// What answers the requests of a batch, round by round: each line by itself, or those together
/// that are there already.
pub trait Answers {
    // Rounds one after another: the state before, what the lines of each ask for (none of one that
    // cannot be read), the bytes of their replies, and the state after.
    ghost does: { Self → List (List (Option LineRequest)) → List (List (List ℕ)) → Self
        → Type 0 };

    // What the lines ask for that were taken and are not answered yet.
    ghost waiting: { Self → List (Option LineRequest) };

    // No round does nothing.
    ghost none_does: { (state : Self) → does state [] [] state };

    // Rounds behind rounds are rounds.
    ghost does_on: { (old mid new : Self) (asked more : List (List (Option LineRequest)))
        (replies others : List (List (List ℕ))) → does old asked replies mid
        → does mid more others new → does old (asked ++ more) (replies ++ others) new };

    /// Takes a line that is not empty, and goes by what `read_line` tells that it asks for. It may
    /// do rounds of the lines that wait and of this one, in order, and writes their replies, each
    /// whole and with its line feed. An error says that of the last round's replies only a
    /// beginning was written; the round is done all the same.
    fn take<W: Write>(&mut self, line: &[u8], writer: &mut W) -> io::Result<()>
        ensures { DoesFirst Self.does Self.waiting (request_in line.now ∷ []) self.old self.new
            (W.contents writer.old) (W.contents writer.new) result };

    /// Answers the lines that wait, as `take` does: no other line is there now.
    fn answer_waiting<W: Write>(&mut self, writer: &mut W) -> io::Result<()>
        ensures answered { DoesFirst Self.does Self.waiting [] self.old self.new
            (W.contents writer.old) (W.contents writer.new) result }
        ensures none_wait { OnOk result (Self.waiting self.new ≡ []) };
}

/// Answers the lines of an input in order. Lines that end in what one read gave are answered before
/// the next read. Room for a line is taken before the first read. The batch ends in want of memory
/// only where the memory refused a request; then nothing is touched.
pub fn answer_lines<R: Read, W: Write, A: Answers, M: Memory>(
    memory: M,
    reader: &mut R,
    writer: &mut W,
    answers: &mut A,
) -> Result<(), EngineFault>
    requires { A.waiting answers.old ≡ [] }
    ensures { RoundsEnd (λ asked replies. A.does answers.old asked replies answers.new)
        (M.refused × (reader.new ≡ reader.old) × (writer.new ≡ writer.old)
        × (answers.new ≡ answers.old))
        (record { input = R.remaining reader.old; output = W.contents writer.old })
        (record { input = R.remaining reader.new; output = W.contents writer.new }) result }
{
    let Ok(mut line) = LineBuffer::new(memory) else {
        return Err(EngineFault::WantOfMemory);
    };
    answer_reads(MOST_READS, &mut line, reader, writer, answers)
}

/// Answers the lines of an input, with at most so many reads.
pub(crate) fn answer_reads<R: Read, W: Write, A: Answers>(
    most_reads: u32,
    line: &mut LineBuffer,
    reader: &mut R,
    writer: &mut W,
    answers: &mut A,
) -> Result<(), EngineFault>
    requires none_read { line.old.bytes.items ≡ [] }
    requires none_wait { A.waiting answers.old ≡ [] }
    ensures { RoundsEnd (λ asked replies. A.does answers.old asked replies answers.new)
        ⊥
        (record { input = R.remaining reader.old; output = W.contents writer.old })
        (record { input = R.remaining reader.new; output = W.contents writer.new }) result }
{
    let mut chunk = [0; CHUNK_BYTES];
    for _ in 0..most_reads {
        if !answer_read(line, &mut chunk, reader, writer, answers)? {
            return answer_last(line.bytes.as_slice(), writer, answers);
        }
    }
    Err(EngineFault::TooManyReads)
}

/// One read, and the replies to the lines that end in what it gave. At `false` the input has ended.
fn answer_read<R: Read, W: Write, A: Answers>(
    line: &mut LineBuffer,
    chunk: &mut [u8],
    reader: &mut R,
    writer: &mut W,
    answers: &mut A,
) -> Result<bool, EngineFault>
    requires { 0 < length chunk.old }
    ensures going { (read_old write_old : Option (List ℕ)) (old : A)
        → Going A.does A.waiting read_old (R.remaining reader.old) write_old
        (W.contents writer.old) old answers.old line.old.bytes.items
        → OnOk result (Going A.does A.waiting read_old (R.remaining reader.new) write_old
        (W.contents writer.new) old answers.new line.new.bytes.items) }
    ensures end { IfOk result (λ more. more ≡ false → IsAtEnd (R.remaining reader.new)) }
    ensures fault { (read_old write_old : Option (List ℕ)) (old : A) → A.waiting old ≡ []
        → Going A.does A.waiting read_old (R.remaining reader.old) write_old
        (W.contents writer.old) old answers.old line.old.bytes.items
        → IfErr result (λ fault. RoundsEnd
        (λ asked replies. A.does old asked replies answers.new) ⊥
        (record { input = read_old; output = write_old })
        (record { input = R.remaining reader.new; output = W.contents writer.new }) (Err fault)) }
{
    match reader.read(chunk) {
        Ok(0) => Ok(false),
        Ok(count) => {
            answer_chunk(line, &chunk[..count], writer, answers)?;
            Ok(true)
        }
        Err(error) if error.kind() == ErrorKind::Interrupted => Ok(true),
        Err(_) => Err(EngineFault::Read),
    }
}

/// Takes the bytes of a chunk, and answers each line that ends there.
fn answer_chunk<W: Write, A: Answers>(
    line: &mut LineBuffer,
    chunk: &[u8],
    writer: &mut W,
    answers: &mut A,
) -> Result<(), EngineFault>
    ensures progress { (before : List ℕ) (write_old : Option (List ℕ)) (old : A)
        → Progress A.does A.waiting before write_old
        (W.contents writer.old) old answers.old line.old.bytes.items → OnOk result
        (Progress A.does A.waiting (before ++ chunk.now) write_old
        (W.contents writer.new) old answers.new line.new.bytes.items) }
    ensures none_wait { OnOk result (A.waiting answers.new ≡ []) }
    ensures cut { (before : List ℕ) (write_old : Option (List ℕ)) (old : A)
        → Progress A.does A.waiting before write_old
        (W.contents writer.old) old answers.old line.old.bytes.items → IfErr result
        (λ e. (e ≡ EngineFault.Write) × Cut A.does A.waiting (before ++ chunk.now) write_old
        (W.contents writer.new) old answers.new) }
{
    for byte in chunk {
        take_byte(line, *byte, writer, answers)?;
    }
    answer_waiting(writer, answers)
}

/// Takes a byte, and the line that it ends.
fn take_byte<W: Write, A: Answers>(
    line: &mut LineBuffer,
    byte: u8,
    writer: &mut W,
    answers: &mut A,
) -> Result<(), EngineFault>
    ensures line { OnOk result
        (line.new.bytes.items
        ≡ (if byte == 10 then [] else
        (if nat_lt (length line.old.bytes.items) 300001 then line.old.bytes.items ++ byte ∷ []
        else line.old.bytes.items))) }
    ensures taken { DoesFirst A.does A.waiting
        (requests (if byte == 10 then filter is_filled (without_return line.old.bytes.items ∷ [])
        else [])) answers.old answers.new (W.contents writer.old) (W.contents writer.new) result }
    ensures fault { IfErr result (λ e. e ≡ EngineFault.Write) }
{
    if byte != b'\n' {
        line.push(byte);
        return Ok(());
    }
    take_line(line.ended(), writer, answers)?;
    line.clear();
    Ok(())
}

/// Takes a line, where it is not empty.
fn take_line<W: Write, A: Answers>(
    line: &[u8],
    writer: &mut W,
    answers: &mut A,
) -> Result<(), EngineFault>
    ensures taken { DoesFirst A.does A.waiting (requests (filter is_filled (line.now ∷ [])))
        answers.old answers.new (W.contents writer.old) (W.contents writer.new) result }
    ensures fault { IfErr result (λ e. e ≡ EngineFault.Write) }
{
    if line.is_empty() {
        return Ok(());
    }
    match answers.take(line, writer) {
        Ok(()) => Ok(()),
        Err(_) => Err(EngineFault::Write),
    }
}

/// Answers the lines that wait.
fn answer_waiting<W: Write, A: Answers>(writer: &mut W, answers: &mut A) -> Result<(), EngineFault>
    ensures answered { DoesFirst A.does A.waiting [] answers.old answers.new
        (W.contents writer.old) (W.contents writer.new) result }
    ensures none_wait { OnOk result (A.waiting answers.new ≡ []) }
    ensures fault { IfErr result (λ e. e ≡ EngineFault.Write) }
{
    match answers.answer_waiting(writer) {
        Ok(()) => Ok(()),
        Err(_) => Err(EngineFault::Write),
    }
}

/// Answers the last line, which has no line feed, where it is not empty.
fn answer_last<W: Write, A: Answers>(
    line: &[u8],
    writer: &mut W,
    answers: &mut A,
) -> Result<(), EngineFault>
    ensures answered { DoesFirst A.does A.waiting (requests (filter is_filled (line.now ∷ [])))
        answers.old answers.new (W.contents writer.old) (W.contents writer.new) result }
    ensures none_wait { OnOk result (A.waiting answers.new ≡ []) }
    ensures fault { IfErr result (λ e. e ≡ EngineFault.Write) }
{
    take_line(line, writer, answers)?;
    answer_waiting(writer, answers)
}
