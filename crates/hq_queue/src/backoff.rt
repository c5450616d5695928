//! When a message is tried next (qmgr(8), minimal_backoff_time and maximal_backoff_time).

ghost use Rattle.std.specs.Prelude.{◌≡◌};
ghost use Rattle.hq_rules.specs.Backoff as rules;

use hq_values::Moment;

/// How many seconds a message waits at least after an attempt.
const SHORTEST_WAIT_SECONDS: u64 = 300;

/// How many seconds a message waits at most after an attempt.
const LONGEST_WAIT_SECONDS: u64 = 4_000;

/// How many seconds old a message is at a moment: 0 where it arrives later.
pub(crate) fn age(arrival: Moment, at: Moment) -> u64
    ensures { result ≡ rules.age arrival at }
{
    at.get().saturating_sub(arrival.get())
}

/// When a message of this arrival is tried next after an attempt at the moment `at`: after as long
/// a time as it is old then, at least 300 and at most 4,000 seconds, and no later than the last
/// moment. Takes no memory.
pub fn next_try(arrival: Moment, at: Moment) -> Moment
    ensures { result ≡ rules.next_try arrival at }
{
    let wait = age(arrival, at)
        .max(SHORTEST_WAIT_SECONDS)
        .min(LONGEST_WAIT_SECONDS);
    Moment::no_later(at.get() + wait)
}
