//! The shelf over a file, and the migration of a file.

ghost use Rattle.std.specs.Prelude.{IfOk};
ghost use Rattle.sqlite.specs.Files.{file_state};
ghost use Rattle.sqlite.specs.State.{HasCleanDisk};
ghost use Rattle.hq_tables.specs.Shelves.{StopLeavesTables};
ghost use Rattle.hq_sql_open.specs.Transactions.{IsSettled};
ghost use Rattle.hq_sql_shelf.specs.Shelf.{IsOurs};
ghost use Rattle.hq_sql_shelf.specs.Opened.{IsOpened};

use crate::{SqlShelf, migrate};
use hq_sql_open::fault_of;
use hq_tables::Shelf;
use hq_values::Fault;
use sqlite::{Connection, File, FileStore};
use std::alloc::Global;
use std::fs::{self, OpenOptions};
use std::io::ErrorKind;
use std::os::unix::fs::OpenOptionsExt;

/// The shelf over a store in a file.
pub type FileShelf = SqlShelf<FileStore<File>, Global>;

/// Who may read and write a store that is made: its owner.
const OWNER_ALONE: u32 = 0o600;

/// Makes an empty file, which is opened as an empty store, where there is none at a path. Where it
/// cannot be made, opening it tells why. What SQLite takes for something else than a file is left.
fn make(rt: &HostRuntime, path: &str) {
    if path != ":memory:" && !path.starts_with("file:") {
        let _made = OpenOptions::new()
            .write(true)
            .create_new(true)
            .mode(OWNER_ALONE)
            .open(rt, path);
    }
}

/// The desk in a file, which is made for its owner alone if it is missing. The file beside it with
/// the ending `-wal` belongs to it, and is made for the same users; one process at a time has them.
///
/// 90 is want of memory, 91 a file that cannot be opened or read, 92 a store that is no desk, and
/// 93 one whose connection is gone. Where the process or its machine stops behind it, a desk that
/// is ours is left with the tables that it has (`rests`).
pub(crate) fn open_file(rt: &HostRuntime, path: &str) -> Result<FileShelf, Fault>
    ensures settled { IfOk result (λ s. HasCleanDisk (file_state s.conn)
        → IsSettled (file_state s.conn)) }
    ensures fresh { IfOk result (IsOpened ⟦<FileShelf as Shelf>⟧.sight) }
    ensures rests { IfOk result (λ s. HasCleanDisk (file_state s.conn)
        → IsOurs (file_state s.conn) → StopLeavesTables ⟦<FileShelf as Shelf>⟧.sight s) }
{
    make(rt, path);
    let conn = match Connection::open(rt, path) {
        Ok(conn) => conn,
        Err(error) => return Err(fault_of(error)),
    };
    match SqlShelf::adopt(rt.alloc(), conn) {
        Ok(shelf) => Ok(shelf),
        Err((fault, _)) => Err(fault),
    }
}

/// Whether the file at a path has no byte; 90 or 91 where that cannot be told, so where there is
/// none.
fn is_empty(rt: &HostRuntime, path: &str) -> Result<bool, Fault> {
    match fs::metadata(rt, path) {
        Ok(found) => Ok(found.is_file() && found.len() == 0),
        Err(error) if error.kind() == ErrorKind::OutOfMemory => Err(Fault::WantOfMemory),
        Err(_) => Err(Fault::Disk),
    }
}

/// Migrates the desk in a file, as `migrate` does. No file is made: a path at which there is none
/// is 91, and an empty file is 92 and stays empty.
///
/// 90 is want of memory, 91 a file that is not there or cannot be opened or read, 92 a store of
/// neither version, and 93 one whose connection is gone.
pub(crate) fn migrate_file(rt: &HostRuntime, path: &str) -> Result<u64, Fault> {
    // (an empty file that is opened becomes an empty store)
    if is_empty(rt, path)? {
        return Err(Fault::BadSchema);
    }
    match Connection::open(rt, path) {
        Ok(mut conn) => migrate(rt.alloc(), &mut conn),
        Err(error) => Err(fault_of(error)),
    }
}
