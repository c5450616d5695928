//! The numbers of notices, as they stand in a path.

ghost use Rattle.std.specs.Prelude.{◌≡◌};
ghost use Rattle.hq_requests.specs.Numbers.{notice_number};

use hq_values::read_number;

/// The most digits of a number.
const MOST_DIGITS: usize = 13;

/// The number that 1 to 13 decimal digits write, of which the first is not `0`.
#[tactic(auto, unfolding(crate::specs::Numbers::notice_number))]
pub fn notice_number(text: &str) -> Option<u64>
    ensures { result ≡ notice_number text.now }
{
    let digits = text.as_bytes();
    let [first, ..] = digits else {
        return None;
    };
    if *first == b'0' {
        return None;
    }
    read_number(digits, MOST_DIGITS)
}
