//! Why a directory, or a file of keys, is refused, and how that is told.

ghost use Rattle.std.specs.Prelude.{◌≡◌, Some};
ghost use Rattle.hq_values.specs.Refusals.{no_memory};
ghost use Rattle.hq_values.specs.declared.failure.Fail.TheVariants as fail;
ghost use Rattle.hq_import.specs.Refused.{desk_refusal, fail_of, wrong_shown};
ghost use Rattle.hq_import.specs.declared.refused.DirectoryFail.TheVariants.{Refused};
ghost use Rattle.hq_import.specs.declared.refused.DirectoryFail.TheVariants.{Fault as Faulted};

use crate::columns::{Column, Number};
use hq_values::{Fail, Fault, Refusal};
use std::alloc::{AllocError, AllocFailed};
use std::fmt;

/// What is wrong in a directory, or in a file of keys.
#[derive(Clone, Copy, Debug, PartialEq, Eq, Drop)]
pub enum Wrong {
    /// The file has more than 262,144 bytes.
    TooLong,
    /// There is no row below the header.
    NoRow,
    /// The header of a directory is neither of the two.
    Header,
    /// The header of a file of keys is another.
    KeysHeader,
    /// There are more than 1,000 rows.
    TooMany,
    /// A row has not the seven fields of a header without a history.
    Fields,
    /// A row has not the eight fields of a header with one.
    HistoryFields,
    /// A row of a file of keys has not its four fields.
    KeyFields,
    /// A field is not as its column has it.
    Field(Column),
    /// The customer of a key is not in the directory.
    NoCustomer,
    /// A name stands in a row before; of a key, in a row of the same customer.
    DoubledName,
    /// A key stands in a row before.
    DoubledKey,
    /// A key beside those of the directory is a customer's own, or stands in a row before.
    TakenKey,
}

impl fmt::Display for Wrong {
    ghost output = { λ wrong. Some (wrong_shown wrong) };

    /// Writes it as it is told behind `row N`: the column with its limits, and no field.
    fn fmt<W: fmt::Write>(&self, f: &mut fmt::Formatter<W>) -> fmt::Result {
        f.write_str(match self {
            Wrong::TooLong => ": more than 262144 bytes",
            Wrong::NoRow => ": no row below the header",
            Wrong::Header => ": the header is not name,key,messages,bytes,lines,notices,delay",
            Wrong::KeysHeader => ": the header is not customer,name,key,right",
            Wrong::TooMany => ": more than 1000 rows",
            Wrong::Fields => ": not 7 fields",
            Wrong::HistoryFields => ": not 8 fields",
            Wrong::KeyFields => ": not 4 fields",
            Wrong::Field(Column::Customer) => {
                ", column customer: not 1 to 32 lower-case letters, digits and hyphens"
            }
            Wrong::Field(Column::Right) => ", column right: not all or read",
            Wrong::Field(Column::Name) => {
                ", column name: not 1 to 32 lower-case letters, digits and hyphens"
            }
            Wrong::Field(Column::Key) => ", column key: not 16 to 64 letters and digits",
            Wrong::Field(Column::Number(Number::Messages)) => {
                ", column messages: no number from 1 to 1000"
            }
            Wrong::Field(Column::Number(Number::Bytes)) => {
                ", column bytes: no number from 1 to 2147483647000"
            }
            Wrong::Field(Column::Number(Number::Lines)) => {
                ", column lines: no number from 1 to 5000"
            }
            Wrong::Field(Column::Number(Number::Notices)) => {
                ", column notices: no number from 1 to 1000"
            }
            Wrong::Field(Column::Number(Number::Delay)) => {
                ", column delay: no number from 0 to 431999"
            }
            Wrong::Field(Column::Number(Number::History)) => {
                ", column history: no number from 0 to 1000000"
            }
            Wrong::NoCustomer => ", column customer: not in the directory",
            Wrong::DoubledName => ", column name: as in a row before",
            Wrong::DoubledKey => ", column key: as in a row before",
            Wrong::TakenKey => ", column key: as that of a customer or of a row before",
        })
    }
}

/// Where a directory, or a file of keys, is wrong, and what is wrong there.
#[derive(Clone, Copy, Debug, PartialEq, Eq, Drop)]
pub struct DirectoryRefusal {
    /// The row, from 1 for the first below the header; 0 is the header or the whole file.
    pub row: u32,
    /// What is wrong.
    pub wrong: Wrong,
}

impl DirectoryRefusal {
    /// The refusal of the desk: 54 `DoubledName`, 55 `DoubledKey`, or else 53 `BadDirectory`.
    fn at_desk(self) -> Refusal
        ensures { result ≡ desk_refusal self }
    {
        let row = self.row;
        match self.wrong {
            Wrong::DoubledName => Refusal::DoubledName { row },
            Wrong::DoubledKey => Refusal::DoubledKey { row },
            _ => Refusal::BadDirectory { row },
        }
    }
}

/// Why a directory, or a file of keys, was not read: it is refused, or memory ran out.
#[derive(Clone, Copy, Debug, PartialEq, Eq, Drop)]
pub enum DirectoryFail {
    /// The file is none.
    Refused(DirectoryRefusal),
    /// 90 `WantOfMemory`, and no other.
    Fault(Fault),
}

impl From<DirectoryRefusal> for DirectoryFail {
    ghost from_gives = { λ refusal fail. fail ≡ Refused refusal };

    fn from(refusal: DirectoryRefusal) -> DirectoryFail {
        DirectoryFail::Refused(refusal)
    }
}

impl From<AllocError> for DirectoryFail {
    ghost from_gives = { λ _ fail. fail ≡ Faulted no_memory };

    fn from(_error: AllocError) -> DirectoryFail {
        DirectoryFail::Fault(Fault::WantOfMemory)
    }
}

impl<T: Drop> From<AllocFailed<T>> for DirectoryFail {
    ghost from_gives = { λ _ fail. fail ≡ Faulted no_memory };

    fn from(_error: AllocFailed<T>) -> DirectoryFail {
        DirectoryFail::Fault(Fault::WantOfMemory)
    }
}

impl From<DirectoryFail> for Fail {
    ghost from_gives = { λ unread fail. fail ≡ fail_of unread };

    fn from(unread: DirectoryFail) -> Fail {
        match unread {
            DirectoryFail::Refused(refusal) => Fail::Refused(refusal.at_desk()),
            DirectoryFail::Fault(fault) => Fail::Fault(fault),
        }
    }
}
