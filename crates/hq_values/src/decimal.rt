//! Numbers that decimal digits write.

ghost use Rattle.std.specs.Prelude.{◌≡◌, ◌≤◌, length};
ghost use Rattle.hq_values.specs.Decimals.{number_from, number_in};

/// The number that at most 13 decimal digits write.
fn read_digits(digits: &[u8]) -> Option<u64>
    requires { length digits.now ≤ 13 }
    ensures { result ≡ number_from 0 digits.now }
{
    let mut number = 0;
    for byte in digits {
        if !byte.is_ascii_digit() {
            return None;
        }
        number = number * 10 + u64::from(*byte - b'0');
    }
    Some(number)
}

/// The number that 1 to `most` decimal digits write, where `most` is at most 13. Its first digits
/// may be zeros.
#[tactic(auto, unfolding(crate::specs::Decimals::number_in))]
pub fn read_number(digits: &[u8], most: usize) -> Option<u64>
    requires { most ≤ 13 }
    ensures { result ≡ number_in most digits.now }
{
    if digits.is_empty() || digits.len() > most {
        return None;
    }
    read_digits(digits)
}
