//! Laws over the written form of serials, with no program in them. Each is an empty function whose
//! contract is the law.

ghost use Rattle.std.specs.Prelude.{◌≡◌, ◌<◌, ◌^◌, ℕ, List, Some};
ghost use Rattle.hq_values.specs.Serials.{serial_text, serial_in};

/// Serials and queue IDs determine each other: each serial is read from its text, and each text
/// that is read is that of its serial.
pub fn queue_ids_are_inverse()
    ensures read { (n : ℕ) → 0 < n → n < 2 ^ 40 → serial_in (serial_text n) ≡ Some n }
    ensures written { (text : List ℕ) (n : ℕ) → serial_in text ≡ Some n → serial_text n ≡ text }
{}
