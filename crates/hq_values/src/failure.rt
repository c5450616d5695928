//! Why a call did not do what it was asked: the request was at fault, or the desk could not. What a
//! refusal means for HTTP is not said here.

ghost use Rattle.std.specs.Prelude.{◌≡◌, Some, option_map};
ghost use Rattle.hq_values.specs.Refusals.{refusal_number, refusal_name, fault_number, fault_name};
ghost use Rattle.hq_values.specs.Refusals.{refusal_detail, refusal_shown, fault_shown, fail_shown};
ghost use Rattle.hq_values.specs.Refusals.{no_memory, no_memory_fail, refused, faulted};

use std::alloc::{AllocError, AllocFailed};
use std::error::Error;
use std::fmt;

/// What was at fault in a request. Each has a number and a name, and neither ever changes.
#[derive(Clone, Copy, Debug, PartialEq, Eq, Drop)]
pub enum Refusal {
    /// 1: the head, its framing or a batch line is malformed.
    BadRequest,
    /// 2: no key, or one that the directory does not have.
    NoKey,
    /// 3: a customer's key on a relay route, or the relay's key on a customer route.
    WrongRole,
    /// 4: the path is no route.
    NoRoute,
    /// 5: the path is a route, with other methods.
    WrongMethod,
    /// 6: the body has more than 262,144 bytes.
    BodyTooLong,
    /// 7: the body is not read as JSON.
    BadJson,
    /// 8: a member is missing, unknown, of the wrong kind or out of range.
    BadField,
    /// 10: the customer has no such message.
    NoMessage,
    /// 11: the customer has no such line.
    NoLine,
    /// 12: the customer has no such notice.
    NoNotice,
    /// 13: the relay named a customer that is not in the directory.
    NoCustomer,
    /// 20: not an address.
    BadAddress,
    /// 23: not a spool name.
    BadSpool,
    /// 24: not a pattern.
    BadPattern,
    /// 25: not an action.
    BadAction,
    /// 26: not a status code, or one of another class.
    BadStatus,
    /// 27: not an import's label.
    BadLabel,
    /// 28: over 1,000 bytes, or a byte outside 32 to 126.
    BadText,
    /// 30: a report of an attempt after the next one.
    AttemptAhead {
        /// The attempts so far.
        attempts: u32,
    },
    /// 31: an outcome names an address that is not pending.
    UnknownRecipient,
    /// 32: two outcomes name the same address.
    DoubledRecipient,
    /// 33: the list of outcomes is empty.
    NoOutcome,
    /// 40: the customer has as many messages as its quota.
    QuotaMessages,
    /// 41: the queued bytes and the new size together pass the quota.
    QuotaBytes,
    /// 42: the lines after the call would pass the quota.
    QuotaLines,
    /// 43: the next serial would be 2^40.
    SerialsSpent,
    /// 44: too few notice numbers are left.
    NoticesSpent,
    /// 50: not an access table.
    BadCsv {
        /// The first bad row, from 1; 0 is the header or the whole file.
        row: u32,
    },
    /// 51: the row's class and pattern stand in an earlier row.
    DoubledPattern {
        /// That row, from 1.
        row: u32,
    },
    /// 52: the label was used for another file.
    LabelUsed,
    /// 53: not a directory.
    BadDirectory {
        /// The first bad row, from 1; 0 is the header or the whole file.
        row: u32,
    },
    /// 54: the row's name stands in an earlier row.
    DoubledName {
        /// That row, from 1.
        row: u32,
    },
    /// 55: the row's key stands in an earlier row.
    DoubledKey {
        /// That row, from 1.
        row: u32,
    },
    /// 56: the host is not a domain.
    BadHost,
    /// 57: the relay's key has not the form of a key, or is a customer's.
    BadRelayKey,
}

/// Why the desk could not do what it was asked.
#[derive(Clone, Copy, Debug, PartialEq, Eq, Drop)]
pub enum Fault {
    /// 90: memory ran out.
    WantOfMemory,
    /// 91: the store failed.
    Disk,
    /// 92: the store is of another schema. Only opening answers it.
    BadSchema,
    /// 93: the store is closed until it is opened again.
    Closed,
}

/// A refusal or a fault.
#[derive(Clone, Copy, Debug, PartialEq, Eq, Drop)]
pub enum Fail {
    /// The request was at fault.
    Refused(Refusal),
    /// The desk could not.
    Fault(Fault),
}

impl Refusal {
    /// The number that replies and the command line show.
    pub fn number(&self) -> u16
        ensures { result ≡ refusal_number self.now }
    {
        match self {
            Refusal::BadRequest => 1,
            Refusal::NoKey => 2,
            Refusal::WrongRole => 3,
            Refusal::NoRoute => 4,
            Refusal::WrongMethod => 5,
            Refusal::BodyTooLong => 6,
            Refusal::BadJson => 7,
            Refusal::BadField => 8,
            Refusal::NoMessage => 10,
            Refusal::NoLine => 11,
            Refusal::NoNotice => 12,
            Refusal::NoCustomer => 13,
            Refusal::BadAddress => 20,
            Refusal::BadSpool => 23,
            Refusal::BadPattern => 24,
            Refusal::BadAction => 25,
            Refusal::BadStatus => 26,
            Refusal::BadLabel => 27,
            Refusal::BadText => 28,
            Refusal::AttemptAhead { .. } => 30,
            Refusal::UnknownRecipient => 31,
            Refusal::DoubledRecipient => 32,
            Refusal::NoOutcome => 33,
            Refusal::QuotaMessages => 40,
            Refusal::QuotaBytes => 41,
            Refusal::QuotaLines => 42,
            Refusal::SerialsSpent => 43,
            Refusal::NoticesSpent => 44,
            Refusal::BadCsv { .. } => 50,
            Refusal::DoubledPattern { .. } => 51,
            Refusal::LabelUsed => 52,
            Refusal::BadDirectory { .. } => 53,
            Refusal::DoubledName { .. } => 54,
            Refusal::DoubledKey { .. } => 55,
            Refusal::BadHost => 56,
            Refusal::BadRelayKey => 57,
        }
    }

    /// The name that replies and the command line show.
    pub fn name(&self) -> &'static str
        ensures { result.now ≡ refusal_name self.now }
    {
        match self {
            Refusal::BadRequest => "BadRequest",
            Refusal::NoKey => "NoKey",
            Refusal::WrongRole => "WrongRole",
            Refusal::NoRoute => "NoRoute",
            Refusal::WrongMethod => "WrongMethod",
            Refusal::BodyTooLong => "BodyTooLong",
            Refusal::BadJson => "BadJson",
            Refusal::BadField => "BadField",
            Refusal::NoMessage => "NoMessage",
            Refusal::NoLine => "NoLine",
            Refusal::NoNotice => "NoNotice",
            Refusal::NoCustomer => "NoCustomer",
            Refusal::BadAddress => "BadAddress",
            Refusal::BadSpool => "BadSpool",
            Refusal::BadPattern => "BadPattern",
            Refusal::BadAction => "BadAction",
            Refusal::BadStatus => "BadStatus",
            Refusal::BadLabel => "BadLabel",
            Refusal::BadText => "BadText",
            Refusal::AttemptAhead { .. } => "AttemptAhead",
            Refusal::UnknownRecipient => "UnknownRecipient",
            Refusal::DoubledRecipient => "DoubledRecipient",
            Refusal::NoOutcome => "NoOutcome",
            Refusal::QuotaMessages => "QuotaMessages",
            Refusal::QuotaBytes => "QuotaBytes",
            Refusal::QuotaLines => "QuotaLines",
            Refusal::SerialsSpent => "SerialsSpent",
            Refusal::NoticesSpent => "NoticesSpent",
            Refusal::BadCsv { .. } => "BadCsv",
            Refusal::DoubledPattern { .. } => "DoubledPattern",
            Refusal::LabelUsed => "LabelUsed",
            Refusal::BadDirectory { .. } => "BadDirectory",
            Refusal::DoubledName { .. } => "DoubledName",
            Refusal::DoubledKey { .. } => "DoubledKey",
            Refusal::BadHost => "BadHost",
            Refusal::BadRelayKey => "BadRelayKey",
        }
    }
}

impl Fault {
    /// The number that replies and the command line show.
    pub fn number(&self) -> u16
        ensures { result ≡ fault_number self.now }
    {
        match self {
            Fault::WantOfMemory => 90,
            Fault::Disk => 91,
            Fault::BadSchema => 92,
            Fault::Closed => 93,
        }
    }

    /// The name that replies and the command line show.
    pub fn name(&self) -> &'static str
        ensures { result.now ≡ fault_name self.now }
    {
        match self {
            Fault::WantOfMemory => "WantOfMemory",
            Fault::Disk => "Disk",
            Fault::BadSchema => "BadSchema",
            Fault::Closed => "Closed",
        }
    }
}

impl Refusal {
    /// What it carries beside its name: the word for it, and the number.
    fn detail(&self) -> Option<(&'static str, u32)>
        ensures { option_map (λ detail. (detail.0.now, detail.1)) result ≡ refusal_detail self.now }
    {
        match self {
            Refusal::AttemptAhead { attempts } => Some(("attempts", *attempts)),
            Refusal::BadCsv { row }
            | Refusal::DoubledPattern { row }
            | Refusal::BadDirectory { row }
            | Refusal::DoubledName { row }
            | Refusal::DoubledKey { row } => Some(("row", *row)),
            _ => None,
        }
    }
}

/// The number and the name, and the row or the attempts where it has them, as in `50 BadCsv row 3`.
impl fmt::Display for Refusal {
    ghost output = { λ refusal. Some (refusal_shown refusal) };

    fn fmt<W: fmt::Write>(&self, f: &mut fmt::Formatter<W>) -> fmt::Result {
        let number = self.number();
        let name = self.name();
        match self.detail() {
            Some((word, value)) => write!(f, "{number} {name} {word} {value}"),
            None => write!(f, "{number} {name}"),
        }
    }
}

impl Error for Refusal {}

/// The number and the name, as in `91 Disk`.
impl fmt::Display for Fault {
    ghost output = { λ fault. Some (fault_shown fault) };

    fn fmt<W: fmt::Write>(&self, f: &mut fmt::Formatter<W>) -> fmt::Result {
        let number = self.number();
        let name = self.name();
        write!(f, "{number} {name}")
    }
}

impl Error for Fault {}

impl fmt::Display for Fail {
    ghost output = { λ fail. Some (fail_shown fail) };

    fn fmt<W: fmt::Write>(&self, f: &mut fmt::Formatter<W>) -> fmt::Result {
        match self {
            Fail::Refused(refusal) => write!(f, "{refusal}"),
            Fail::Fault(fault) => write!(f, "{fault}"),
        }
    }
}

impl Error for Fail {}

impl From<AllocError> for Fault {
    ghost from_gives = { λ _ fault. fault ≡ no_memory };

    fn from(_error: AllocError) -> Fault {
        Fault::WantOfMemory
    }
}

impl<T: Drop> From<AllocFailed<T>> for Fault {
    ghost from_gives = { λ _ fault. fault ≡ no_memory };

    fn from(_error: AllocFailed<T>) -> Fault {
        Fault::WantOfMemory
    }
}

impl From<AllocError> for Fail {
    ghost from_gives = { λ _ fail. fail ≡ no_memory_fail };

    fn from(_error: AllocError) -> Fail {
        Fail::Fault(Fault::WantOfMemory)
    }
}

impl<T: Drop> From<AllocFailed<T>> for Fail {
    ghost from_gives = { λ _ fail. fail ≡ no_memory_fail };

    fn from(_error: AllocFailed<T>) -> Fail {
        Fail::Fault(Fault::WantOfMemory)
    }
}

impl From<Refusal> for Fail {
    ghost from_gives = { λ refusal fail. fail ≡ refused refusal };

    fn from(refusal: Refusal) -> Fail {
        Fail::Refused(refusal)
    }
}

impl From<Fault> for Fail {
    ghost from_gives = { λ fault fail. fail ≡ faulted fault };

    fn from(fault: Fault) -> Fail {
        Fail::Fault(fault)
    }
}
