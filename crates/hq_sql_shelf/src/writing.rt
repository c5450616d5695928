//! Work in one transaction, and what a crash leaves of it.

ghost use Rattle.std.specs.Prelude.{◌≡◌, true, false, OnOk};
ghost use Rattle.sqlite.specs.Held.{state};
ghost use Rattle.sqlite.specs.State.{HasCleanDisk};
ghost use Rattle.hq_tables.specs.Shelves.{OnClean, KeepsOnErr};
ghost use Rattle.hq_tables.specs.Tables.{write_all};
ghost use Rattle.hq_sql.specs.Tables.{tables_in};
ghost use Rattle.hq_sql_changes.specs.Done.{worked};
ghost use Rattle.hq_sql_shelf.specs.Shelf.{sight_over, is_gone, IsOurs};
ghost use Rattle.hq_sql_shelf.specs.Stops.{LeavesWhole, LeavesOnly};

use crate::shelf::SqlShelf;
use hq_sql::SqliteMemory;
use hq_sql_changes::{Work, apply};
use hq_sql_open::transaction::sees_database;
use hq_tables::Change;
use hq_values::{Fault, Name};
use sqlite::Alter;

impl<S: Alter, M: SqliteMemory> SqlShelf<S, M> {
    /// Makes all changes of the customer's rows, in order, or none: what `Shelf::apply` does.
    ///
    /// Wherever in it the process or its machine stops, the disk holds the trees of a desk with the
    /// tables before it or with those after it, and after `Ok` with those after it alone (`stops`,
    /// `durable`). It closes the shelf only where the connection is gone (`gone`).
    pub fn write(&mut self, customer: &Name, changes: &[Change]) -> Result<(), Fault>
        ensures made { OnClean (sight_over M.refused M.failed (state S.Store)) self.old self.new
            (OnOk result (tables_in (state S.Store self.new.conn).committed
            ≡ write_all customer.now changes.now
            (tables_in (state S.Store self.old.conn).committed))) }
        ensures kept { KeepsOnErr (sight_over M.refused M.failed (state S.Store)) self.old self.new
            result }
        ensures gone { HasCleanDisk (state S.Store self.new.conn)
            → is_gone self.old.standing ≡ false → is_gone self.new.standing ≡ true
            → (state S.Store self.new.conn).is_open ≡ false }
        ensures stops { IsOurs (state S.Store self.old.conn)
            → LeavesWhole (state S.Store self.old.conn) (state S.Store self.new.conn)
            (tables_in (state S.Store self.old.conn).committed)
            (write_all customer.now changes.now
            (tables_in (state S.Store self.old.conn).committed)) }
        ensures durable { HasCleanDisk (state S.Store self.new.conn)
            → IsOurs (state S.Store self.old.conn)
            → OnOk result (LeavesOnly (state S.Store self.new.conn) (write_all customer.now
            changes.now (tables_in (state S.Store self.old.conn).committed))) }
    {
        self.do_work(customer, &Work::Changes(changes))
    }

    /// Does the work on the customer's rows, or nothing: what `write` and the changes of
    /// `MovesMessages` do.
    pub(crate) fn do_work(&mut self, customer: &Name, work: &Work<'_>) -> Result<(), Fault>
        ensures made { OnClean (sight_over M.refused M.failed (state S.Store)) self.old self.new
            (OnOk result (tables_in (state S.Store self.new.conn).committed
            ≡ worked customer.now work.now
            (tables_in (state S.Store self.old.conn).committed))) }
        ensures kept { KeepsOnErr (sight_over M.refused M.failed (state S.Store)) self.old self.new
            result }
        ensures gone { HasCleanDisk (state S.Store self.new.conn)
            → is_gone self.old.standing ≡ false → is_gone self.new.standing ≡ true
            → (state S.Store self.new.conn).is_open ≡ false }
        ensures stops { IsOurs (state S.Store self.old.conn)
            → LeavesWhole (state S.Store self.old.conn) (state S.Store self.new.conn)
            (tables_in (state S.Store self.old.conn).committed)
            (worked customer.now work.now (tables_in (state S.Store self.old.conn).committed)) }
        ensures durable { HasCleanDisk (state S.Store self.new.conn)
            → IsOurs (state S.Store self.old.conn)
            → OnOk result (LeavesOnly (state S.Store self.new.conn) (worked customer.now work.now
            (tables_in (state S.Store self.old.conn).committed))) }
    {
        sees_database(&self.conn);
        self.ready()?;
        match apply(self.memory, &mut self.conn, customer, work) {
            Ok(()) => Ok(()),
            Err(error) => Err(self.give_up(error)),
        }
    }
}
