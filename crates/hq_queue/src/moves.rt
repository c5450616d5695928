//! The moves that a customer makes with a message of its own (postsuper(1)). What a report, an
//! attempt or the passing of time does to a message is not said here.

ghost use Rattle.std.specs.Prelude.{◌≡◌};
ghost use Rattle.hq_rules.specs.Moves.{held, released, MovesBy};

use hq_kept::{Message, QueueState};
use hq_values::{Moment, Text};

/// Puts a message on hold (postsuper(1), `-h`), so that it is not tried until it is released.
///
/// An incoming or deferred message goes on hold for this reason, and the answer is true. A message
/// on hold stays as it is, its reason too, and the answer is false. Takes no memory.
pub fn hold(message: &mut Message, reason: Text) -> bool
    ensures { MovesBy (held reason message.old) message.old message.new result }
{
    match message.state {
        QueueState::Incoming | QueueState::Deferred => {
            message.state = QueueState::Hold;
            message.reason = reason;
            true
        }
        QueueState::Hold => false,
    }
}

/// Releases a message from hold (postsuper(1), `-H`): it may be tried from the moment `at` on.
///
/// A message on hold becomes deferred with `at` as its next try, and has no reason any more; the
/// answer is true. Any other message stays as it is, and the answer is false. Takes no memory.
pub fn release(message: &mut Message, at: Moment) -> bool
    ensures { MovesBy (released at message.old) message.old message.new result }
{
    match message.state {
        QueueState::Hold => {
            message.state = QueueState::Deferred;
            message.reason.clear();
            message.next_try = at;
            true
        }
        QueueState::Incoming | QueueState::Deferred => false,
    }
}
