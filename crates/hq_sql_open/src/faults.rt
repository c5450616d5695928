//! Errors of the store as faults.

ghost use Rattle.std.specs.Prelude.{◌≡◌};
ghost use Rattle.hq_sql_open.specs.Faults.{fault_in};

use hq_values::Fault;
use sqlite::{Error, ErrorCode};

/// The fault of an error: 90 `WantOfMemory` for want of memory, 91 `Disk` for any other.
pub fn fault_of(error: Error) -> Fault
    ensures { result ≡ fault_in error }
{
    match error {
        Error::SqliteFailure(ErrorCode::OutOfMemory) => Fault::WantOfMemory,
        _ => Fault::Disk,
    }
}
