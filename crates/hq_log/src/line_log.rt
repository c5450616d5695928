//! A log that is written in lines.

ghost use Rattle.std.specs.Prelude.{◌≡◌, false};
ghost use Rattle.hq_log.specs.Files.{LineEnds, line_state};
ghost use Rattle.hq_log.specs.Lines.{entry_seen};

use crate::entry::ExchangeEntry;
use crate::keeping::{Answered, Log, entry_of};
use std::io::{self, Write};
use std::rt::Clock;
use std::time::Instant;

/// What is told where a line is lost.
const LOST: &[u8] = b"hq: log\n";

/// The file of a log. What was appended to it is a fact of this value alone: it is obtained by
/// appending it, and by nothing else.
pub trait LogFile {
    ghost use Rattle.std.specs.Prelude.{◌∷◌, []};
    ghost use Rattle.hq_log.specs.Files.{Appending, appending};

    // from one state to another this was done, in this order, and nothing else
    ghost does: { Appending Self };

    /// Appends bytes. At an error a part of them may be there.
    fn append(&mut self, bytes: &[u8]) -> io::Result<()>
        ensures { does self.old (appending bytes.now result ∷ []) self.new };
}

/// Appends a line for each exchange to a file. One that cannot be appended is lost, and the first
/// of those that are lost in turn is told on the errors in a line, `hq: log`. A line after lost
/// ones begins with a line feed, since a part of one may be before it.
#[derive(Drop)]
pub struct LineLog<'h, C, F, E> {
    clock: &'h C,
    file: F,
    errors: E,
    begun: Option<Instant>,
    is_losing: bool,
}

impl<'h, C: Clock + AllocGlobal, F: LogFile, E: Write> LineLog<'h, C, F, E> {
    /// A log of a file, with its own way to tell of lines that are lost. Nothing is done to the
    /// file yet, and no line was lost.
    pub fn new(clock: &'h C, file: F, errors: E) -> LineLog<'h, C, F, E>
        ensures { line_state result.file result.is_losing ≡ line_state file false }
    {
        LineLog {
            clock,
            file,
            errors,
            begun: None,
            is_losing: false,
        }
    }

    /// How long it is since the exchange began.
    fn milliseconds(&self) -> Option<u64> {
        let now = Instant::now(self.clock).ok()?;
        u64::try_from(now.duration_since(self.begun?).as_millis()).ok()
    }

    /// Appends the line of an entry. Whether it was lost.
    fn append(&mut self, entry: &ExchangeEntry<'_>) -> bool
        ensures lost { LineEnds F.does (line_state self.old.file self.old.is_losing)
            (entry_seen entry.now) self.new.file result }
        ensures losing { self.new.is_losing ≡ self.old.is_losing }
    {
        match entry.line_after(self.is_losing, self.clock.alloc()) {
            Err(_) => true,
            Ok(line) => match self.file.append(line.as_slice()) {
                Ok(()) => false,
                Err(_) => true,
            },
        }
    }

    /// The last line was lost, or was not. The first that is lost is told.
    fn note(&mut self, is_lost: bool)
        ensures file { self.new.file ≡ self.old.file }
        ensures losing { self.new.is_losing ≡ is_lost }
    {
        if is_lost && !self.is_losing {
            let _told = self.errors.write_all(LOST);
        }
        self.is_losing = is_lost;
    }
}

impl<C: Clock + AllocGlobal, F: LogFile, E: Write> Log for LineLog<'_, C, F, E> {
    ghost use Rattle.std.specs.Prelude.{refl};
    ghost use Rattle.hq_log.specs.Files.{AppendsLines, line_state};
    ghost use Rattle.hq_log.specs.InOrder.{lines_on};

    ghost tells = { λ old told new. AppendsLines F.does (line_state old.file old.is_losing) told
        (line_state new.file new.is_losing) };

    ghost none_told = { λ log. refl };

    ghost told_on = { λ old mid new told more. lines_on F.does
        (line_state old.file old.is_losing) (line_state mid.file mid.is_losing)
        (line_state new.file new.is_losing) told more };

    fn begin(&mut self) {
        self.begun = Instant::now(self.clock).ok();
    }

    fn replied(&mut self, answered: &Answered<'_>) {
        let entry = entry_of(answered, self.milliseconds());
        let is_lost = self.append(&entry);
        self.note(is_lost);
    }
}
