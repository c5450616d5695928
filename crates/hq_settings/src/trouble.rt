//! Why a program did not do what its words asked for, and how that is told.

ghost use Rattle.std.specs.Prelude.{◌≡◌, Some};
ghost use Rattle.hq_values.specs.declared.failure.Fail.TheVariants.{Fault as AsFault};
ghost use Rattle.hq_settings.specs.Troubles.{trouble_of, trouble_shown};
ghost use Rattle.hq_settings.specs.declared.trouble.Trouble.TheVariants.{Desk};

use hq_import::DirectoryRefusal;
use hq_values::{EngineFault, Fail, Fault};
use std::fmt;

/// Why the program did not do what its words asked for.
#[derive(Clone, Copy, Debug, PartialEq, Eq, Drop)]
pub enum Trouble {
    /// A file that words name could not be read.
    File,
    /// The input could not be read, or had not ended after the most reads.
    Input,
    /// What was to be written could not be.
    Output,
    /// An address could not be listened on, or a connection not be accepted.
    Network,
    /// The clock tells no moment of the desk.
    Clock,
    /// The file of the keys that customers have beside their own is wrong.
    Keys(DirectoryRefusal),
    /// The desk refused it, or could not do it.
    Desk(Fail),
}

impl fmt::Display for Trouble {
    ghost output = { λ trouble. Some (trouble_shown trouble) };

    fn fmt<W: fmt::Write>(&self, f: &mut fmt::Formatter<W>) -> fmt::Result {
        match self {
            Trouble::File => f.write_str("file"),
            Trouble::Input => f.write_str("input"),
            Trouble::Output => f.write_str("output"),
            Trouble::Network => f.write_str("network"),
            Trouble::Clock => f.write_str("clock"),
            Trouble::Keys(refusal) => write!(f, "keys row {}{}", refusal.row, refusal.wrong),
            Trouble::Desk(fail) => write!(f, "{fail}"),
        }
    }
}

impl From<Fail> for Trouble {
    ghost from_gives = { λ fail trouble. trouble ≡ Desk fail };

    fn from(fail: Fail) -> Trouble {
        Trouble::Desk(fail)
    }
}

impl From<Fault> for Trouble {
    ghost from_gives = { λ fault trouble. trouble ≡ Desk (AsFault fault) };

    fn from(fault: Fault) -> Trouble {
        Trouble::Desk(Fail::Fault(fault))
    }
}

impl From<EngineFault> for Trouble {
    ghost from_gives = { λ fault trouble. trouble ≡ trouble_of fault };

    fn from(fault: EngineFault) -> Trouble {
        match fault {
            EngineFault::Read | EngineFault::TooManyReads => Trouble::Input,
            EngineFault::Write => Trouble::Output,
            EngineFault::WantOfMemory => Trouble::Desk(Fail::Fault(Fault::WantOfMemory)),
        }
    }
}
