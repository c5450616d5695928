//! What a sweep makes of one message, by its age (qmgr(8), maximal_queue_lifetime and
//! delay_warning_time).

ghost use Rattle.std.specs.Prelude.{◌≡◌};
ghost use Rattle.hq_rules.specs.Ages.{swept, after_sweep};

use crate::backoff::age;
use hq_kept::{Message, QueueState};
use hq_rules::{EXPIRY_SECONDS, Swept};
use hq_values::Moment;

/// Sweeps one message at a moment, for a customer whose senders are warned after `delay` seconds,
/// or never where that is 0.
///
/// A message on hold stays as it is. Any other that is 432,000 seconds old expires: it is left as
/// it is, for the caller to remove. Else, where it is as old as the delay and its sender was not
/// warned, it counts as warned from then on. Takes no memory.
pub fn sweep_one(message: &mut Message, at: Moment, delay: u64) -> Swept
    ensures answer { result ≡ swept at delay message.old }
    ensures message { message.new ≡ after_sweep result message.old }
{
    if message.state == QueueState::Hold {
        return Swept::Untouched;
    }
    let age = age(message.arrival, at);
    if age >= EXPIRY_SECONDS {
        return Swept::Expired;
    }
    if delay > 0 && age >= delay && !message.warned {
        message.warned = true;
        return Swept::Warned;
    }
    Swept::Untouched
}
