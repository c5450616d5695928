//! Messages that are queued anew (postsuper(1)).

ghost use Rattle.std.specs.Prelude.{◌≡◌, map};
ghost use Rattle.hq_rules.specs.Moves.{requeued, cleared};

use hq_kept::{Message, Pending, QueueState};
use hq_values::{Items, Moment, Serial};

/// Clears what the last attempt left at a recipient.
fn clear(recipient: &mut Pending)
    ensures { recipient.new ≡ cleared recipient.old }
{
    recipient.status = None;
    recipient.text.clear();
}

/// Clears what the last attempt left at each recipient.
fn clear_all(recipients: &mut [Pending])
    ensures { recipients.new ≡ map cleared recipients.old }
{
    for recipient in recipients.iter_mut() {
        clear(recipient);
    }
}

/// Requeues a message (postsuper(1), `-r`): it is as if it were submitted at the moment `at`, under
/// another serial.
///
/// In any state it becomes incoming, with `at` as its arrival and its next try, without attempts
/// and not warned; its recipients stay, without what the last attempt left at them. Takes no
/// memory.
pub fn requeue(message: &mut Message, at: Moment, serial: Serial)
    ensures { message.new ≡ requeued at serial message.old }
{
    let mut pending = message.pending.take();
    clear_all(pending.as_mut_slice());
    message.serial = serial;
    message.arrival = at;
    message.state = QueueState::Incoming;
    message.reason.clear();
    message.next_try = at;
    message.attempts = 0;
    message.warned = false;
    message.pending = Items::from_vec(pending);
}
