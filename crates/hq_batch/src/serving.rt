//! A batch with the desk.

ghost use Rattle.hq_wire.specs.Exchanges.{with_refusals};
ghost use Rattle.std.specs.Prelude.{◌≡◌};
ghost use Rattle.hq_lines.specs.Ends.{InputEnds};
ghost use Rattle.hq_batch.specs.Batches.{Replied};

use crate::front::Front;
use hq_bodies::JsonMemory;
use hq_lines::answer_lines;
use hq_log::Log;
use hq_rules::Acts;
use hq_values::EngineFault;
use hq_wire::Directory;
use std::io::{Read, Write};

/// Replies to the lines of an input with the desk that is lent to the front.
fn serve_front<R: Read, W: Write, D: Acts + Drop, L: Log, M: JsonMemory>(
    reader: &mut R,
    writer: &mut W,
    front: &mut Front<'_, '_, '_, D, L, M>,
) -> Result<(), EngineFault>
    ensures same_reference { front.new.desk.ghost_name ≡ front.old.desk.ghost_name }
    ensures same_log { front.new.log.ghost_name ≡ front.old.log.ghost_name }
    ensures ended { InputEnds (λ asked lines. Replied (with_refusals M.refused D.sight)
        front.old.directory.now L.tells front.old.log.now front.new.log.now front.old.desk.now
        asked lines front.new.desk.now)
        (M.refused × (reader.new ≡ reader.old) × (writer.new ≡ writer.old)
        × (front.new.log.now ≡ front.old.log.now) × (front.new.desk.now ≡ front.old.desk.now))
        (record { input = R.remaining reader.old; output = W.contents writer.old })
        (record { input = R.remaining reader.new; output = W.contents writer.new }) result }
{
    answer_lines(*front.memory, reader, writer, front)
}

/// Replies to the lines of an input in order, one line `STATUS BODY` each.
///
/// A line is `AT METHOD PATH KEY BODY`, fields parted by one space and ended by a line feed; a
/// carriage return before it is dropped, empty lines are passed over, and the last line may lack
/// its line feed. The key `-` is none, and the body may be missing with its space. A line that
/// cannot be read, or has more than 300,000 bytes, is refused as 1 `BadRequest`. A line whose
/// exchange has no room is replied to with 90, and nothing is done.
///
/// To every customer the replies to the lines of its calls, and what is kept of it afterwards, are
/// those of the machine of one customer, started from its own state and given its share of the
/// calls alone, whatever other lines come between. A call that is replied to with 503 does not
/// count.
///
/// 90 `WantOfMemory` is told only where `memory` refused a request, or where the store may answer
/// it. The log is told each reply, with what it replies to, and nothing else. Neither the replies
/// nor what is kept depend on the log.
///
/// Room for a line is taken before the first read. The batch ends in want of memory only where
/// `memory` refused a request; then nothing is read, written, done or told. At most 67,108,864
/// reads are made, an interrupted one counted. After a fault of reading the whole lines before it
/// are replied to. After a fault of writing the exchanges of the first lines are done, up to that
/// whose reply could not be written, and no other; the replies before went out whole, and of this
/// one a beginning.
pub fn batch<R: Read, W: Write, D: Acts + Drop, L: Log, M: JsonMemory>(
    memory: M,
    reader: &mut R,
    writer: &mut W,
    desk: &mut D,
    directory: &Directory,
    log: &mut L,
) -> Result<(), EngineFault>
    ensures { InputEnds (λ asked lines. Replied (with_refusals M.refused D.sight) directory.now
        L.tells log.old log.new desk.old asked lines desk.new)
        (M.refused × (reader.new ≡ reader.old) × (writer.new ≡ writer.old)
        × (log.new ≡ log.old) × (desk.new ≡ desk.old))
        (record { input = R.remaining reader.old; output = W.contents writer.old })
        (record { input = R.remaining reader.new; output = W.contents writer.new }) result }
{
    let mut front = Front {
        memory: &memory,
        desk,
        directory,
        log,
    };
    serve_front(reader, writer, &mut front)
}
