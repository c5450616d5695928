//! How long clients may take, and by when one has to go on.

use std::time::{Duration, Instant};

/// How long a client may take where its socket gives or takes nothing. A limit of zero leaves no
/// time to wait: what came already is served.
#[derive(Clone, Copy, Debug, PartialEq, Eq)]
pub struct Limits {
    /// From one byte that comes or goes to the next, in seconds.
    pub idle: u32,
    /// For its whole request to arrive, from the acceptance of the connection on, however its bytes
    /// are cut, in seconds. Its response has as long again, from when that begins to leave. The
    /// time of rounds is not counted, its own or others'.
    pub request: u32,
}

/// By when a client has to go on. `None` is no limit, where the clock tells none.
#[derive(Clone, Copy, Drop)]
pub(crate) struct Deadlines {
    /// By when the phase has to have ended.
    pub phase: Option<Instant>,
    /// By when a byte has to come or go.
    pub idle: Option<Instant>,
}

/// So many seconds.
pub(crate) fn seconds(count: u32) -> Duration {
    Duration::from_secs(u64::from(count))
}

/// An instant so long from now; `None` where no clock counts as far.
pub(crate) fn after(now: Option<Instant>, time: Duration) -> Option<Instant> {
    now?.checked_add(time)
}

/// Whether an instant has come.
pub(crate) fn is_past(end: Option<Instant>, now: Option<Instant>) -> bool {
    match (end, now) {
        (Some(end), Some(now)) => end <= now,
        _ => false,
    }
}

/// Those of a phase that begins now, within these limits.
pub(crate) fn deadlines_from(now: Option<Instant>, limits: Limits) -> Deadlines {
    Deadlines {
        phase: after(now, seconds(limits.request)),
        idle: after(now, seconds(limits.idle)),
    }
}

impl Deadlines {
    /// The same, so much later.
    pub fn put_off(self, time: Duration) -> Deadlines {
        Deadlines {
            phase: after(self.phase, time),
            idle: after(self.idle, time),
        }
    }
}
