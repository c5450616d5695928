//! Serials, whose written form is the queue ID.

ghost use Rattle.std.specs.Prelude.{◌≡◌, ◌<◌, ◌^◌};
ghost use Rattle.std.specs.Option.{SomeIff};
ghost use Rattle.hq_values.specs.Serials.{hex_digit, hex_value, serial_text, serial_in};

use std::marker::Model;

/// The first number that is no serial: 2^40.
const SERIAL_LIMIT: u64 = 1 << 40;

/// The number of a message of one customer, 1 to 2^40 - 1. Its text is the queue ID.
#[derive(Clone, Copy, Debug, PartialEq, Eq, PartialOrd, Ord)]
pub struct Serial {
    number: u64,
}

impl Model for Serial {
    ghost use Rattle.std.specs.Prelude.{ℕ, ◌<◌, ◌^◌};

    ghost Value = { ℕ };

    ghost view = { λ s. s.number };

    ghost invariant = { λ s. (0 < s.number) × (s.number < 2 ^ 40) };

    ghost inverse = { λ n. record { number = n } };
}

/// The upper-case hexadecimal digit of a value below 16.
fn hex_digit(value: u64) -> u8
    requires { value < 16 }
    ensures { result ≡ hex_digit value }
{
    if value < 10 {
        b'0' + value as u8
    } else {
        b'A' - 10 + value as u8
    }
}

/// What an upper-case hexadecimal digit stands for.
fn hex_value(byte: u8) -> Option<u64>
    ensures { result ≡ hex_value byte }
{
    match byte {
        b'0'..=b'9' => Some(u64::from(byte) - 48),
        b'A'..=b'F' => Some(u64::from(byte) - 55),
        _ => None,
    }
}

impl Serial {
    /// The serial of a number, or nothing for 0 and from 2^40 on.
    pub fn new(number: u64) -> Option<Serial>
        ensures { SomeIff result ((0 < number) × (number < 2 ^ 40)) number }
    {
        if 0 < number && number < SERIAL_LIMIT {
            Some(Serial { number })
        } else {
            None
        }
    }

    /// The number.
    pub fn get(self) -> u64
        ensures value { result ≡ self }
        ensures positive { 0 < self }
        ensures below { self < 2 ^ 40 }
    {
        self.number
    }

    /// The queue ID: ten upper-case hexadecimal digits.
    pub fn text(self) -> [u8; 10]
        ensures { result ≡ serial_text self }
    {
        let mut text = [b'0'; 10];
        let mut rest = self.number;
        for i in 0..10 {
            text[9 - i] = hex_digit(rest % 16);
            rest /= 16;
        }
        text
    }

    /// The serial whose queue ID the text is, or nothing where it is none's.
    #[tactic(auto, unfolding(crate::specs::Serials::serial_in))]
    pub fn parse(text: &str) -> Option<Serial>
        ensures { result ≡ serial_in text.now }
    {
        if text.len() != 10 {
            return None;
        }
        let mut number = 0;
        for byte in text.as_bytes() {
            number = 16 * number + hex_value(*byte)?;
        }
        Serial::new(number)
    }
}
