//! Moments, in whole seconds. No clock is read here.

ghost use Rattle.std.specs.Prelude.{◌≡◌, ◌≤◌};
ghost use Rattle.std.specs.Option.{SomeIff};
ghost use Rattle.hq_values.specs.Moments.{no_later};

use std::marker::Model;

/// The last second of the year 2099.
const LAST_MOMENT: u64 = 4_102_444_799;

/// Seconds since 1970-01-01T00:00:00Z, 0 to 4,102,444,799 (the end of 2099).
#[derive(Clone, Copy, Debug, PartialEq, Eq, PartialOrd, Ord)]
pub struct Moment {
    seconds: u64,
}

impl Model for Moment {
    ghost use Rattle.std.specs.Prelude.{ℕ, ◌≤◌};

    ghost Value = { ℕ };

    ghost view = { λ m. m.seconds };

    ghost invariant = { λ m. m.seconds ≤ 4102444799 };

    ghost inverse = { λ n. record { seconds = n } };
}

impl Moment {
    /// The moment of so many seconds, or nothing past the end of 2099.
    pub fn new(seconds: u64) -> Option<Moment>
        ensures { SomeIff result (seconds ≤ 4102444799) seconds }
    {
        if seconds <= LAST_MOMENT {
            Some(Moment { seconds })
        } else {
            None
        }
    }

    /// The moment of so many seconds, or the last one where they are past it.
    pub fn no_later(seconds: u64) -> Moment
        ensures { result ≡ no_later seconds }
    {
        Moment {
            seconds: seconds.min(LAST_MOMENT),
        }
    }

    /// The seconds.
    pub fn get(self) -> u64
        ensures value { result ≡ self }
        ensures in_range { self ≤ 4102444799 }
    {
        self.seconds
    }
}
