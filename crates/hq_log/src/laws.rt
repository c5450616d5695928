//! Laws over logs, with no program in them: empty functions whose contracts are the laws.

ghost use Rattle.std.specs.Prelude.{List, Option};
ghost use Rattle.hq_log.specs.Entries.{tells_some};
ghost use Rattle.hq_log.specs.Files.{AppendsLines, line_state};
ghost use Rattle.hq_log.specs.Lines.{LogEntry};
ghost use Rattle.hq_log.specs.declared.line_log.LineLog.{LineLog};

use crate::keeping::Log;
use crate::line_log::{LineLog, LogFile};
use std::io::Write;
use std::rt::Clock;

/// What a log of lines is told, it appends to its file: one line for each exchange, in order. A
/// line may be lost, and nothing else is done to the file.
pub fn each_has_its_line<'h, C: Clock + AllocGlobal, F: LogFile, E: Write>()
    ensures { (old new : LineLog C F E) (told : List LogEntry)
        → ⟦<LineLog<'h, C, F, E> as Log>⟧.tells old told new
        → AppendsLines F.does (line_state old.file old.is_losing) told
        (line_state new.file new.is_losing) }
{}

/// A log that may be there is told the same, if it is.
pub fn one_that_is_there_is_told<L: Log>()
    ensures { (old new : Option L) (told : List LogEntry)
        → ⟦<Option<L> as Log>⟧.tells old told new → tells_some L.tells old told new }
{}
