//! The numbers of delivery attempts.

ghost use Rattle.std.specs.Prelude.{◌≡◌, ◌<◌, ◌≤◌};
ghost use Rattle.std.specs.Option.{SomeIff};

use std::marker::Model;

/// The most attempts of one message that are told apart.
const LAST_ATTEMPT: u32 = 1_000_000;

/// The number of a delivery attempt of one message, 1 to 1,000,000.
#[derive(Clone, Copy, Debug, PartialEq, Eq, PartialOrd, Ord)]
pub struct Attempt {
    number: u32,
}

impl Model for Attempt {
    ghost use Rattle.std.specs.Prelude.{ℕ, ◌<◌, ◌≤◌};

    ghost Value = { ℕ };

    ghost view = { λ a. a.number };

    ghost invariant = { λ a. (0 < a.number) × (a.number ≤ 1000000) };

    ghost inverse = { λ n. record { number = n } };
}

impl Attempt {
    /// The attempt of a number, or nothing for 0 and above 1,000,000.
    pub fn new(number: u32) -> Option<Attempt>
        ensures { SomeIff result ((0 < number) × (number ≤ 1000000)) number }
    {
        if 0 < number && number <= LAST_ATTEMPT {
            Some(Attempt { number })
        } else {
            None
        }
    }

    /// The number.
    pub fn get(self) -> u32
        ensures value { result ≡ self }
        ensures positive { 0 < self }
        ensures in_range { self ≤ 1000000 }
    {
        self.number
    }
}
