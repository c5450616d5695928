//! The shelf while a round is open: all that is done in it stands in one transaction.

ghost use Rattle.std.specs.Prelude.{◌≡◌, false, OnOk};
ghost use Rattle.sqlite.specs.Held.{state};
ghost use Rattle.hq_values.specs.declared.failure.Fault.TheVariants.{Closed};
ghost use Rattle.hq_keyed.specs.Left.{LeavesNoMore};
ghost use Rattle.hq_tables.specs.Shelves.{Keeps, KeepsOnErr, OnClean};
ghost use Rattle.hq_sql.specs.Tables.{tables_in};
ghost use Rattle.hq_sql_changes.specs.Done.{worked};
ghost use Rattle.hq_sql_open.specs.Standings.{Settles};
ghost use Rattle.hq_sql_shelf.specs.Rounds.{ended_round, sight_inside};

use crate::known::Known;
use crate::shelf::SqlShelf;
use hq_kept::{Action, Class, End, Line, LookupKey, Mark, Message, Notice, Pattern};
use hq_rounds::Rounds;
use hq_sql::SqliteMemory;
use hq_sql_changes::{Work, account};
use hq_sql_lines::{line_pages, lines, marks};
use hq_sql_notices::{end_pages, notice_pages, notices};
use hq_sql_open::transaction::{Standing, begin, commit, sees_database, settle};
use hq_sql_queue::queued;
use hq_tables::{Account, Change, Shelf};
use hq_values::{Fault, Items, Label, Moment, Name, Serial, Spool};
use sqlite::Alter;

/// A shelf in whose connection a transaction was begun. Where a statement fails the round is over:
/// it does not stand, and every further call answers 93.
#[derive(Drop)]
pub struct SqlRound<S: Alter, M: SqliteMemory> {
    pub(crate) shelf: SqlShelf<S, M>,
    pub(crate) over: bool,
}

impl<S: Alter, M: SqliteMemory> SqlRound<S, M> {
    /// Ends the round, so that it does not stand. The fault is counted.
    pub(crate) fn end(&mut self) -> Fault
        ensures over { self.new ≡ ended_round self.old }
        ensures told { result ≡ Closed }
    {
        self.over = true;
        self.shelf.faults = self.shelf.faults.saturating_add(1);
        Fault::Closed
    }

    /// Makes ready for a call: one that is over refuses every call.
    pub(crate) fn ready(&mut self) -> Result<(), Fault>
        ensures kept { Keeps (sight_inside (state S.Store)) self.old self.new result }
        ensures same { OnOk result ((self.new ≡ self.old) × (self.old.over ≡ false)) }
    {
        if self.over {
            return Err(self.end());
        }
        Ok(())
    }

    /// Does the work on the customer's rows, in the transaction.
    pub(crate) fn make(&mut self, customer: &Name, work: &Work<'_>) -> Result<(), Fault>
        ensures made { OnClean (sight_inside (state S.Store)) self.old self.new
            (OnOk result (tables_in (state S.Store self.new.shelf.conn).now
            ≡ worked customer.now work.now (tables_in (state S.Store self.old.shelf.conn).now))) }
        ensures kept { KeepsOnErr (sight_inside (state S.Store)) self.old self.new result }
    {
        self.ready()?;
        match work.make(self.shelf.memory, &mut self.shelf.conn, customer) {
            Ok(()) => Ok(()),
            Err(_) => Err(self.end()),
        }
    }
}

impl<S: Alter, M: SqliteMemory> Shelf for SqlRound<S, M> {
    ghost use Rattle.sqlite.specs.Held.{state};
    ghost use Rattle.hq_sql_shelf.specs.Rounds.{sight_inside};

    ghost sight = { sight_inside (state S.Store) };

    fn account(&mut self, customer: &Name) -> Result<Account, Fault> {
        self.ready()?;
        match account(self.shelf.memory, &mut self.shelf.conn, customer) {
            Ok(account) => Ok(account),
            Err(_) => Err(self.end()),
        }
    }

    fn message(&mut self, customer: &Name, serial: Serial) -> Result<Option<Message>, Fault> {
        self.ready()?;
        match queued::message(self.shelf.memory, &mut self.shelf.conn, customer, serial) {
            Ok(found) => Ok(found),
            Err(_) => Err(self.end()),
        }
    }

    fn by_spool(&mut self, customer: &Name, spool: &Spool) -> Result<Option<Message>, Fault> {
        self.ready()?;
        match queued::by_spool(self.shelf.memory, &mut self.shelf.conn, customer, spool) {
            Ok(found) => Ok(found),
            Err(_) => Err(self.end()),
        }
    }

    fn messages(
        &mut self,
        customer: &Name,
        after: Option<Serial>,
        limit: usize,
    ) -> Result<Items<Message>, Fault> {
        self.ready()?;
        match queued::page(
            self.shelf.memory,
            &mut self.shelf.conn,
            customer,
            after,
            limit,
        ) {
            Ok(page) => Ok(page),
            Err(_) => Err(self.end()),
        }
    }

    fn due(
        &mut self,
        customer: &Name,
        at: Moment,
        after: Option<Serial>,
        limit: usize,
    ) -> Result<Items<Message>, Fault> {
        self.ready()?;
        match queued::due(
            self.shelf.memory,
            &mut self.shelf.conn,
            customer,
            at,
            after,
            limit,
        ) {
            Ok(page) => Ok(page),
            Err(_) => Err(self.end()),
        }
    }

    fn line(
        &mut self,
        customer: &Name,
        class: Class,
        key: &LookupKey,
    ) -> Result<Option<Action>, Fault> {
        self.ready()?;
        match lines::line(
            self.shelf.memory,
            &mut self.shelf.conn,
            customer,
            class,
            key,
        ) {
            Ok(found) => Ok(found),
            Err(_) => Err(self.end()),
        }
    }

    fn lines(
        &mut self,
        customer: &Name,
        after: Option<&Pattern>,
        limit: usize,
    ) -> Result<Items<Line>, Fault> {
        self.ready()?;
        match line_pages::page(
            self.shelf.memory,
            &mut self.shelf.conn,
            customer,
            after,
            limit,
        ) {
            Ok(page) => Ok(page),
            Err(_) => Err(self.end()),
        }
    }

    fn mark(&mut self, customer: &Name, label: &Label) -> Result<Option<Mark>, Fault> {
        self.ready()?;
        match marks::mark(self.shelf.memory, &mut self.shelf.conn, customer, label) {
            Ok(found) => Ok(found),
            Err(_) => Err(self.end()),
        }
    }

    fn notice(&mut self, customer: &Name, number: u64) -> Result<Option<Notice>, Fault> {
        self.ready()?;
        match notices::notice(self.shelf.memory, &mut self.shelf.conn, customer, number) {
            Ok(found) => Ok(found),
            Err(_) => Err(self.end()),
        }
    }

    fn notices(
        &mut self,
        customer: &Name,
        after: Option<u64>,
        limit: usize,
    ) -> Result<Items<Notice>, Fault> {
        self.ready()?;
        match notice_pages::page(
            self.shelf.memory,
            &mut self.shelf.conn,
            customer,
            after,
            limit,
        ) {
            Ok(page) => Ok(page),
            Err(_) => Err(self.end()),
        }
    }

    fn ends(
        &mut self,
        customer: &Name,
        before: Option<u64>,
        limit: usize,
    ) -> Result<Items<End>, Fault> {
        self.ready()?;
        match end_pages::page(
            self.shelf.memory,
            &mut self.shelf.conn,
            customer,
            before,
            limit,
        ) {
            Ok(page) => Ok(page),
            Err(_) => Err(self.end()),
        }
    }

    fn apply(&mut self, customer: &Name, changes: &[Change]) -> Result<(), Fault> {
        self.make(customer, &Work::Changes(changes))
    }

    fn faults(&self) -> u64 {
        self.shelf.faults
    }
}

impl<S: Alter, M: SqliteMemory> SqlShelf<S, M> {
    /// Undoes what was begun, asks what became of the connection, and counts so many faults.
    fn go_back(&mut self, faults: u64)
        ensures kept { Settles (state S.Store self.old.conn) (state S.Store self.new.conn)
            self.new.standing }
        ensures counted { self.new.faults ≡ faults }
    {
        let standing = settle(self.memory, &mut self.conn);
        self.standing = Known::new(self.memory, standing);
        self.faults = faults;
    }
}

impl<S: Alter + Drop, M: SqliteMemory> Rounds for SqlShelf<S, M> {
    ghost use Rattle.std.proofs.Common.{inl};

    type Round = SqlRound<S, M>;

    ghost same_faults = { λ fault is. inl is };

    fn begin(mut self) -> Result<SqlRound<S, M>, SqlShelf<S, M>> {
        sees_database(&self.conn);
        let faults = self.faults;
        let Ok(()) = self.ready() else {
            self.faults = faults;
            return Err(self);
        };
        match begin(self.memory, &mut self.conn) {
            Ok(()) => Ok(SqlRound {
                shelf: self,
                over: false,
            }),
            Err(error) => {
                self.give_up(error);
                self.faults = faults;
                Err(self)
            }
        }
    }

    fn settle(round: SqlRound<S, M>, faults: u64) -> (bool, SqlShelf<S, M>) {
        let SqlRound { mut shelf, over } = round;
        sees_database(&shelf.conn);
        if over {
            shelf.go_back(faults);
            sees_database(&shelf.conn);
            return (false, shelf);
        }
        match commit(shelf.memory, &mut shelf.conn) {
            Ok(()) => {
                sees_database(&shelf.conn);
                shelf.standing = Known::new(shelf.memory, Standing::Open);
                (true, shelf)
            }
            Err(_) => {
                shelf.go_back(faults);
                sees_database(&shelf.conn);
                (false, shelf)
            }
        }
    }
}
