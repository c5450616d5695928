//! Where a log goes, by its name.

use crate::keeping::Log;
use crate::line_log::{LineLog, LogFile};
use std::fs::OpenOptions;
use std::io::{self, Write};
use std::os::unix::fs::OpenOptionsExt;
use std::rt::Stderr;

/// A new log is for its owner alone.
const OWNER_ALONE: u32 = 0o600;

/// Standard error for `-`; and else the end of the file of this name, which is opened for each
/// line, and made if it is missing. So a log that is moved away is begun anew. Of what happens to
/// it no contract says anything.
#[derive(Clone, Copy, Drop)]
pub struct LogTarget<'h> {
    host: &'h HostRuntime,
    name: &'h str,
}

impl<'h> LogTarget<'h> {
    /// The target of this name. Nothing is opened yet.
    pub fn new(host: &'h HostRuntime, name: &'h str) -> LogTarget<'h> {
        LogTarget { host, name }
    }
}

impl LogFile for LogTarget<'_> {
    ghost use Rattle.std.specs.Prelude.{⊤};

    ghost does = { λ _ _ _. ⊤ };

    fn append(&mut self, bytes: &[u8]) -> io::Result<()> {
        match self.name {
            "-" => self.host.stderr().write_all(bytes),
            path => OpenOptions::new()
                .append(true)
                .create(true)
                .mode(OWNER_ALONE)
                .open(self.host, path)?
                .write_all(bytes),
        }
    }
}

/// The log of a program: lines to a target, and lost ones told on standard error.
pub type HostLog<'h> = LineLog<'h, HostRuntime, LogTarget<'h>, Stderr>;

/// What opens the logs that words name. Which logs were opened, and how each was closed, are facts
/// of this value alone: they are obtained by its methods, and by nothing else.
pub trait Logs<'h> {
    ghost use Rattle.std.specs.Prelude.{List, [], ◌∷◌, ◌++◌, option_map};
    ghost use Rattle.hq_log.specs.Logs.{LogEvent, Logging, log_closed, log_opened};

    /// A log.
    type Log: Log + Drop;

    // from one state to another this was done, in this order, and nothing else
    ghost does: { Logging Self Self.Log };

    // nothing was
    ghost none_does: { (state : Self) → does state [] state };

    // one after another
    ghost does_on: { (old mid new : Self) (events more : List (LogEvent Self.Log))
        → does old events mid → does mid more new → does old (events ++ more) new };

    /// The log of this name; without a name, one that keeps nothing.
    fn open(&mut self, name: Option<&'h str>) -> Self::Log
        ensures { does self.old (log_opened (option_map (λ n. n.now) name.entry) result ∷ [])
            self.new };

    /// Ends with a log.
    fn close(&mut self, log: Self::Log)
        ensures { does self.old (log_closed log ∷ []) self.new };
}

/// The logs of the machine, of which no contract says anything.
#[derive(Drop)]
pub struct HostLogs<'h> {
    host: &'h HostRuntime,
}

impl<'h> HostLogs<'h> {
    /// Those of a machine.
    pub fn new(host: &'h HostRuntime) -> HostLogs<'h> {
        HostLogs { host }
    }
}

impl<'h> Logs<'h> for HostLogs<'h> {
    ghost use Rattle.std.specs.Prelude.{⊤};

    type Log = Option<HostLog<'h>>;

    ghost does = { λ _ _ _. ⊤ };

    ghost none_does = { λ _. tt };

    ghost does_on = { λ _ _ _ _ _ _ _. tt };

    fn open(&mut self, name: Option<&'h str>) -> Option<HostLog<'h>> {
        let target = LogTarget::new(self.host, name?);
        Some(LineLog::new(self.host, target, self.host.stderr()))
    }

    fn close(&mut self, _log: Option<HostLog<'h>>) {}
}
