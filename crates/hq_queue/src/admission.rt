//! Whether a customer's new message is taken in, by what the customer keeps already.

ghost use Rattle.std.specs.Prelude.{◌≡◌, ◌<◌, ◌≤◌, ◌^◌, IfOk};
ghost use Rattle.hq_rules.specs.Admission.{admitted};

use hq_kept::{Counts, Head, Quota};
use hq_values::{Refusal, Serial};

/// The serial of a new message of `size` bytes, which is the head's next serial, or why it is
/// refused.
///
/// The first of these that applies: 40 `QuotaMessages` where the customer has as many messages as
/// its quota, 41 `QuotaBytes` where their bytes and `size` together pass the quota, 43
/// `SerialsSpent` where no serial is left. So it is for each next serial that a customer's head can
/// have, 1 to 2^40; under any other none is admitted. Takes no memory.
pub fn admit(head: &Head, quota: &Quota, counts: &Counts, size: u32) -> Result<Serial, Refusal>
    ensures rule { 0 < head.now.next_serial → head.now.next_serial ≤ 2 ^ 40
        → result ≡ admitted head.now quota.now counts.now size }
    ensures serial { IfOk result (λ serial. serial ≡ head.now.next_serial) }
{
    if counts.messages >= quota.messages {
        return Err(Refusal::QuotaMessages);
    }
    if counts.bytes > quota.bytes || u64::from(size) > quota.bytes - counts.bytes {
        return Err(Refusal::QuotaBytes);
    }
    match Serial::new(head.next_serial) {
        Some(serial) => Ok(serial),
        None => Err(Refusal::SerialsSpent),
    }
}
