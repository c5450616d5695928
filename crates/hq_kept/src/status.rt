//! Status codes of RFC 3463, as written. Which class an outcome may have is not said here.

ghost use Rattle.std.specs.Prelude.{◌≡◌, ◌≤◌, [], ◌∷◌, MatchOption, Ok, string_bytes};
ghost use Rattle.std.specs.List.{slice_split};
ghost use Rattle.hq_memory.specs.Making.{MadeIn};
ghost use Rattle.hq_values.specs.Addresses.{is_dot};
ghost use Rattle.hq_kept.specs.Statuses.{is_class, is_number, is_status, status_in, first_digit};
ghost use Rattle.hq_kept.specs.Statuses.{unknown_status, expired_status};

use hq_memory::Memory;
use hq_values::Refusal;
use std::alloc::AllocError;
use std::marker::Model;
use std::str;

/// The most bytes that a status code has, as `5.100.999` does.
const STATUS_BYTES: usize = 9;

/// Whether a text is one digit.
fn is_class(text: &[u8]) -> bool
    ensures { result ≡ is_class text.now }
{
    matches!(text, [b'0'..=b'9'])
}

/// Whether a text is one to three digits, two or three of them without a leading zero.
fn is_number(text: &[u8]) -> bool
    ensures { result ≡ is_number text.now }
{
    matches!(
        text,
        [b'0'..=b'9'] | [b'1'..=b'9', b'0'..=b'9'] | [b'1'..=b'9', b'0'..=b'9', b'0'..=b'9']
    )
}

/// What stands before and after the first dot of a text.
fn cut(text: &str) -> Option<(&str, &str)>
    ensures { MatchOption result (slice_split is_dot text.now ≡ text.now ∷ [])
        (λ cut. slice_split is_dot text.now ≡ cut.0.now ∷ slice_split is_dot cut.1.now) }
{
    text.split_once('.')
}

/// Whether a text has the form of a status code.
fn is_status(text: &str) -> bool
    ensures { result ≡ is_status text.now }
{
    let Some((class, rest)) = cut(text) else {
        return false;
    };
    let Some((subject, detail)) = cut(rest) else {
        return false;
    };
    is_class(class.as_bytes()) && is_number(subject.as_bytes()) && is_number(detail.as_bytes())
}

/// A status code, as written: a digit, a dot, 1 to 3 digits, a dot, 1 to 3 digits (RFC 3463, 2). A
/// number of two or three digits does not begin with `0`.
#[derive(Drop)]
pub struct Status {
    bytes: [u8; STATUS_BYTES],
    len: usize,
}

impl Model for Status {
    ghost use Rattle.std.specs.Prelude.{List, ℕ, ◌≤◌, IsTrue, take};
    ghost use Rattle.hq_kept.specs.Statuses.{is_status};

    ghost Value = { List ℕ };

    ghost view = { λ s. take s.len s.bytes };

    ghost invariant = { λ s. (s.len ≤ 9) × IsTrue (is_status (take s.len s.bytes)) };
}

impl Status {
    /// Reads a status code, or refuses it as 26 `BadStatus`. Takes no memory.
    #[tactic(auto, using(crate::proofs::Forms::status_short, crate::proofs::Forms::room_for))]
    pub fn parse(text: &str) -> Result<Status, Refusal>
        ensures { result ≡ status_in text.now }
    {
        if !is_status(text) {
            return Err(Refusal::BadStatus);
        }
        let mut bytes = [0; STATUS_BYTES];
        bytes[..text.len()].copy_from_slice(text.as_bytes());
        Ok(Status {
            bytes,
            len: text.len(),
        })
    }

    /// `4.0.0`: a failure that may pass, of which no more is known (RFC 3463, 3.1 and 3.2). Takes
    /// no memory.
    pub fn unknown() -> Status
        ensures { result ≡ unknown_status }
    {
        Status {
            bytes: *b"4.0.0\0\0\0\0",
            len: 5,
        }
    }

    /// `4.4.7`: the time for delivery has run out (RFC 3463, 3.5). Takes no memory.
    pub fn expired() -> Status
        ensures { result ≡ expired_status }
    {
        Status {
            bytes: *b"4.4.7\0\0\0\0",
            len: 5,
        }
    }

    /// The text, without taking memory.
    pub fn as_str(&self) -> &str
        ensures { result.now ≡ self.now }
    {
        match str::from_utf8(&self.bytes[..self.len]) {
            Ok(text) => text,
            Err(_) => unreachable!(),
        }
    }

    /// Says that its text reads back as the status; it does nothing.
    pub fn reads_back(&self)
        ensures { status_in self.now ≡ Ok self.now }
    {
        let _ = &self.bytes;
    }

    /// The text, on its own. The only error is want of memory.
    pub fn text<M: Memory>(&self, memory: M) -> Result<String, AllocError>
        ensures { MadeIn M.refused result (λ text. string_bytes text ≡ self.now) }
    {
        memory.text(self.as_str())
    }

    /// The class as a number, 0 to 9: 4 is a failure that may pass, 5 one for good (RFC 3463, 3.1).
    pub fn first_digit(&self) -> u8
        ensures digit { result ≡ first_digit self.now }
        ensures in_range { result ≤ 9 }
    {
        self.bytes[0] - b'0'
    }

    /// An equal value, without taking memory.
    pub fn copy(&self) -> Status
        ensures { result ≡ self.now }
    {
        Status {
            bytes: self.bytes,
            len: self.len,
        }
    }
}
