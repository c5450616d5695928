//! How long a round is delayed, so that more requests share its commit.

use hq_serve::MOST_TOGETHER;
use std::time::{Duration, Instant};

/// The longest delay is the time of the round before, divided by this.
const PARTS: u32 = 3;

/// The shortest delay, since waits for sockets end by whole milliseconds.
const SHORTEST_MILLISECONDS: u64 = 1;

/// The longest delay.
const LONGEST_MILLISECONDS: u64 = 10;

/// How many requests the next round is delayed for, and until when. Clients that got their
/// responses together ask again together, and else would wait for the commit of others.
#[derive(Default, Drop)]
pub(crate) struct RoundDelay {
    hoped: usize,
    counted: bool,
    until: Option<Instant>,
}

impl RoundDelay {
    /// The delay behind a round of so many calls. There is none behind no call, or where it would
    /// be too short.
    pub fn after(calls: usize, from: Option<Instant>, to: Option<Instant>) -> RoundDelay {
        let (Some(from), Some(to)) = (from, to) else {
            return RoundDelay::default();
        };
        let longest = Duration::from_millis(LONGEST_MILLISECONDS);
        let time = (to.duration_since(from) / PARTS).min(longest);
        if calls == 0 || time < Duration::from_millis(SHORTEST_MILLISECONDS) {
            return RoundDelay::default();
        }
        RoundDelay {
            hoped: calls,
            counted: false,
            until: to.checked_add(time),
        }
    }

    /// Adds the requests that came during the round. Only its first call behind a round
    /// adds any.
    pub fn hope_for(&mut self, come: usize) {
        if !self.counted {
            self.counted = true;
            self.hoped = self.hoped.saturating_add(come).min(MOST_TOGETHER);
        }
    }

    /// Until when the round is delayed, where so many requests have come; `None` where it is not.
    pub fn until(&self, come: usize, now: Option<Instant>) -> Option<Instant> {
        let until = self.until?;
        (come < self.hoped && now? < until).then_some(until)
    }
}
