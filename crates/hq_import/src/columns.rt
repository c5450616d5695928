//! The columns of a directory and of a file of keys, and the limits of each number.

ghost use Rattle.std.specs.Prelude.{◌≡◌};
ghost use Rattle.hq_import.specs.Columns.{place, is_in};

/// A column of a number.
#[derive(Clone, Copy, Debug, PartialEq, Eq, Drop)]
pub enum Number {
    /// How many messages may be queued.
    Messages,
    /// How many bytes these may have together.
    Bytes,
    /// How many access lines may be kept.
    Lines,
    /// How many notices are kept.
    Notices,
    /// After how many seconds a sender is warned.
    Delay,
    /// Of how many recipients the history is kept.
    History,
}

/// A column of a directory, or of a file of keys.
#[derive(Clone, Copy, Debug, PartialEq, Eq, Drop)]
pub enum Column {
    /// The customer of a key.
    Customer,
    /// The name, of a customer or of a key.
    Name,
    /// The key.
    Key,
    /// What a key may ask for.
    Right,
    /// A number.
    Number(Number),
}

impl Number {
    /// Where the number stands in its row, from 0.
    pub(crate) fn place(self) -> usize
        ensures { result ≡ place self }
    {
        match self {
            Number::Messages => 2,
            Number::Bytes => 3,
            Number::Lines => 4,
            Number::Notices => 5,
            Number::Delay => 6,
            Number::History => 7,
        }
    }

    /// Whether a number is within the limits of its column.
    pub(crate) fn allows(self, value: u64) -> bool
        ensures { result ≡ is_in self value }
    {
        match self {
            Number::Messages | Number::Notices => (1..=1000).contains(&value),
            Number::Bytes => (1..=2_147_483_647_000).contains(&value),
            Number::Lines => (1..=5000).contains(&value),
            Number::Delay => value < 432_000,
            Number::History => value <= 1_000_000,
        }
    }
}
