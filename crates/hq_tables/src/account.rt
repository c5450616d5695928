//! What a head row keeps of a customer.

ghost use Rattle.std.specs.Prelude.{◌≡◌, ◌≤◌, ◌⊎◌, ◌+◌, ◌^◌, MatchOption};
ghost use Rattle.hq_tables.specs.Tables.{opening_account, recounted, with_message, without_message};
ghost use Rattle.hq_tables.specs.Tables.{with_line, without_line};

use hq_kept::{Counts, Head, Tally};

/// A customer's head, and how much it keeps.
#[derive(Clone, Copy, Debug, PartialEq, Eq, Drop)]
pub struct Account {
    /// The head.
    pub head: Head,
    /// How much the customer keeps.
    pub counts: Counts,
}

impl Account {
    /// That of a customer of whom nothing is kept yet.
    pub fn opening() -> Account
        ensures { result ≡ opening_account }
    {
        Account {
            head: Head {
                next_serial: 1,
                next_notice: 1,
                tally: Tally {
                    accepted: 0,
                    delivered: 0,
                    failed: 0,
                    deleted: 0,
                    expired: 0,
                },
            },
            counts: Counts {
                messages: 0,
                bytes: 0,
                lines: 0,
            },
        }
    }

    /// With one message more, of this size in bytes; nothing exactly where a count would have more
    /// than 64 bits, as no count of sound tables has.
    pub fn with_message(self, size: u32) -> Option<Account>
        ensures { MatchOption result
            ((2 ^ 64 ≤ self.counts.messages + 1) ⊎ (2 ^ 64 ≤ self.counts.bytes + size))
            (λ more. more ≡ recounted (with_message size) self) }
    {
        let messages = self.counts.messages.checked_add(1)?;
        let bytes = self.counts.bytes.checked_add(u64::from(size))?;
        Some(Account {
            head: self.head,
            counts: Counts {
                messages,
                bytes,
                lines: self.counts.lines,
            },
        })
    }

    /// With one message fewer, of this size in bytes.
    pub fn without_message(self, size: u32) -> Account
        ensures { result ≡ recounted (without_message size) self }
    {
        let counts = Counts {
            messages: self.counts.messages.saturating_sub(1),
            bytes: self.counts.bytes.saturating_sub(u64::from(size)),
            lines: self.counts.lines,
        };
        Account { counts, ..self }
    }

    /// With one line more; nothing exactly where their count would have more than 64 bits, as no
    /// count of sound tables has.
    pub fn with_line(self) -> Option<Account>
        ensures { MatchOption result (2 ^ 64 ≤ self.counts.lines + 1)
            (λ more. more ≡ recounted with_line self) }
    {
        let lines = self.counts.lines.checked_add(1)?;
        let counts = Counts {
            lines,
            ..self.counts
        };
        Some(Account { counts, ..self })
    }

    /// With one line fewer.
    pub fn without_line(self) -> Account
        ensures { result ≡ recounted without_line self }
    {
        let counts = Counts {
            lines: self.counts.lines.saturating_sub(1),
            ..self.counts
        };
        Account { counts, ..self }
    }
}
