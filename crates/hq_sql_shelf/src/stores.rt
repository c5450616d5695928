//! The stores that words name: how they are opened, left and migrated.

use crate::SqlShelf;
use crate::file::{FileShelf, migrate_file, open_file};
use hq_rounds::Rounds;
use hq_values::Fault;
use sqlite::{Alter, Connection, Error, ErrorCode, File, FileStore};
use std::alloc::Global;
use std::fs;

/// What opens the stores that words name, and leaves them. What was done to a store is a fact of
/// this value alone: it is obtained by doing it, and by nothing else. So a program that is generic
/// over it has opened the store of the path that it was given, has left it as its contract says,
/// and has done nothing else to any store.
pub trait Stores {
    ghost use Rattle.std.specs.Prelude.{◌∷◌, ◌++◌, [], List, IfOk};
    ghost use Rattle.hq_sql_shelf.specs.Opened.{IsOpened};
    ghost use Rattle.hq_sql_shelf.specs.Stores.{Doing, StoreEvent, opened, left, migrated};

    /// A store that is open. Dropping one says nothing of how it was left.
    type Store: Rounds;

    // what was done to stores from one state of all to another, in order, and nothing else
    ghost does: { Doing Self Self.Store };

    // nothing was done
    ghost none_does: { (state : Self) → does state [] state };

    // things were done one after another
    ghost does_on: { (old mid new : Self) (first second : List (StoreEvent Self.Store))
        → does old first mid → does mid second new → does old (first ++ second) new };

    /// Opens the store of a path, which is made if it is missing. 90 is want of memory, 91 a file
    /// that cannot be opened or read, 92 a store that is no desk, and 93 one that is gone.
    fn open(&mut self, path: &str) -> Result<Self::Store, Fault>
        ensures fresh { IfOk result (IsOpened Self.Store.sight) }
        ensures done { does self.old (opened path.now result ∷ []) self.new };

    /// Leaves a store that was opened, as it is.
    fn leave(&mut self, store: Self::Store)
        ensures { does self.old (left store ∷ []) self.new };

    /// Makes the store of a path, which is of an earlier release, one of this release, and tells
    /// how many messages are on hold. No file is made: a path without a file is 91, and an empty
    /// file is 92 and stays empty. 90 is want of memory, 91 a file that cannot be opened or read,
    /// 92 a store of no release, and 93 one that is gone.
    fn migrate(&mut self, path: &str) -> Result<u64, Fault>
        ensures { does self.old (migrated path.now result ∷ []) self.new };

    /// Whether another process has the store of a path. A path without a file stays so.
    fn is_taken(&self, path: &str) -> bool;
}

/// Files that are opened as desks, and migrated.
pub trait Disk {
    ghost use Rattle.std.specs.Prelude.{⊤, IfOk};
    ghost use Rattle.sqlite.specs.Held.{state};
    ghost use Rattle.hq_sql_shelf.specs.Opened.{IsOpened};
    ghost use Rattle.hq_sql_shelf.specs.Shelf.{sight_over};

    /// A store of `sqlite` in a file.
    type File: Alter + Drop;

    /// Opens the file of a path, as `Stores::open` does.
    fn open(&mut self, path: &str) -> Result<SqlShelf<Self::File, Global>, Fault>
        ensures { IfOk result (IsOpened (sight_over ⊤ ⊤ (state Self.File.Store))) };

    /// Migrates the file of a path, as `Stores::migrate` does.
    fn migrate(&mut self, path: &str) -> Result<u64, Fault>;

    /// Whether another process has the file of a path. A path without a file stays so.
    fn is_taken(&self, path: &str) -> bool;
}

/// The stores in files. Of what happens to these no contract says anything.
#[derive(Drop)]
pub struct DiskStores<D> {
    disk: D,
}

impl<D> DiskStores<D> {
    /// Those of a disk.
    pub fn new(disk: D) -> DiskStores<D> {
        DiskStores { disk }
    }
}

impl<D: Disk> Stores for DiskStores<D> {
    ghost use Rattle.std.specs.Prelude.{⊤};

    type Store = SqlShelf<D::File, Global>;

    ghost does = { λ _ _ _. ⊤ };

    ghost none_does = { λ _. tt };

    ghost does_on = { λ _ _ _ _ _ _ _. tt };

    fn open(&mut self, path: &str) -> Result<SqlShelf<D::File, Global>, Fault> {
        self.disk.open(path)
    }

    fn leave(&mut self, _store: SqlShelf<D::File, Global>) {}

    fn migrate(&mut self, path: &str) -> Result<u64, Fault> {
        self.disk.migrate(path)
    }

    fn is_taken(&self, path: &str) -> bool {
        self.disk.is_taken(path)
    }
}

/// The files of the machine.
#[derive(Drop)]
pub struct HostDisk<'r> {
    rt: &'r HostRuntime,
}

impl<'r> HostDisk<'r> {
    /// Those of this machine.
    pub fn new(rt: &'r HostRuntime) -> HostDisk<'r> {
        HostDisk { rt }
    }
}

impl Disk for HostDisk<'_> {
    type File = FileStore<File>;

    fn open(&mut self, path: &str) -> Result<FileShelf, Fault> {
        open_file(self.rt, path)
    }

    fn migrate(&mut self, path: &str) -> Result<u64, Fault> {
        migrate_file(self.rt, path)
    }

    /// A store that nobody has is opened, and closed again.
    fn is_taken(&self, path: &str) -> bool {
        // (a path without a file is opened as a new store)
        match fs::metadata(self.rt, path) {
            Ok(found) if found.is_file() => {}
            _ => return false,
        }
        matches!(
            Connection::open(self.rt, path),
            Err(Error::SqliteFailure(ErrorCode::DatabaseBusy))
        )
    }
}
