//! The calls of a shelf, over the statements of the store.

use crate::shelf::SqlShelf;
use hq_kept::{Action, Class, End, Line, LookupKey, Mark, Message, Notice, Pattern};
use hq_sql::SqliteMemory;
use hq_sql_changes::account;
use hq_sql_lines::{line_pages, lines, marks};
use hq_sql_notices::{end_pages, notice_pages, notices};
use hq_sql_queue::queued;
use hq_tables::{Account, Change, Shelf};
use hq_values::{Fault, Items, Label, Moment, Name, Serial, Spool};
use sqlite::Alter;

impl<S: Alter, M: SqliteMemory> Shelf for SqlShelf<S, M> {
    ghost use Rattle.sqlite.specs.Held.{state};
    ghost use Rattle.hq_sql_shelf.specs.Shelf.{sight_over};

    ghost sight = { sight_over M.refused M.failed (state S.Store) };

    fn account(&mut self, customer: &Name) -> Result<Account, Fault> {
        self.ready()?;
        match account(self.memory, &mut self.conn, customer) {
            Ok(account) => Ok(account),
            Err(error) => Err(self.give_up(error)),
        }
    }

    fn message(&mut self, customer: &Name, serial: Serial) -> Result<Option<Message>, Fault> {
        self.ready()?;
        match queued::message(self.memory, &mut self.conn, customer, serial) {
            Ok(found) => Ok(found),
            Err(error) => Err(self.give_up(error)),
        }
    }

    fn by_spool(&mut self, customer: &Name, spool: &Spool) -> Result<Option<Message>, Fault> {
        self.ready()?;
        match queued::by_spool(self.memory, &mut self.conn, customer, spool) {
            Ok(found) => Ok(found),
            Err(error) => Err(self.give_up(error)),
        }
    }

    fn messages(
        &mut self,
        customer: &Name,
        after: Option<Serial>,
        limit: usize,
    ) -> Result<Items<Message>, Fault> {
        self.ready()?;
        match queued::page(self.memory, &mut self.conn, customer, after, limit) {
            Ok(page) => Ok(page),
            Err(error) => Err(self.give_up(error)),
        }
    }

    fn due(
        &mut self,
        customer: &Name,
        at: Moment,
        after: Option<Serial>,
        limit: usize,
    ) -> Result<Items<Message>, Fault> {
        self.ready()?;
        match queued::due(self.memory, &mut self.conn, customer, at, after, limit) {
            Ok(page) => Ok(page),
            Err(error) => Err(self.give_up(error)),
        }
    }

    fn line(
        &mut self,
        customer: &Name,
        class: Class,
        key: &LookupKey,
    ) -> Result<Option<Action>, Fault> {
        self.ready()?;
        match lines::line(self.memory, &mut self.conn, customer, class, key) {
            Ok(found) => Ok(found),
            Err(error) => Err(self.give_up(error)),
        }
    }

    fn lines(
        &mut self,
        customer: &Name,
        after: Option<&Pattern>,
        limit: usize,
    ) -> Result<Items<Line>, Fault> {
        self.ready()?;
        match line_pages::page(self.memory, &mut self.conn, customer, after, limit) {
            Ok(page) => Ok(page),
            Err(error) => Err(self.give_up(error)),
        }
    }

    fn mark(&mut self, customer: &Name, label: &Label) -> Result<Option<Mark>, Fault> {
        self.ready()?;
        match marks::mark(self.memory, &mut self.conn, customer, label) {
            Ok(found) => Ok(found),
            Err(error) => Err(self.give_up(error)),
        }
    }

    fn notice(&mut self, customer: &Name, number: u64) -> Result<Option<Notice>, Fault> {
        self.ready()?;
        match notices::notice(self.memory, &mut self.conn, customer, number) {
            Ok(found) => Ok(found),
            Err(error) => Err(self.give_up(error)),
        }
    }

    fn notices(
        &mut self,
        customer: &Name,
        after: Option<u64>,
        limit: usize,
    ) -> Result<Items<Notice>, Fault> {
        self.ready()?;
        match notice_pages::page(self.memory, &mut self.conn, customer, after, limit) {
            Ok(page) => Ok(page),
            Err(error) => Err(self.give_up(error)),
        }
    }

    fn ends(
        &mut self,
        customer: &Name,
        before: Option<u64>,
        limit: usize,
    ) -> Result<Items<End>, Fault> {
        self.ready()?;
        match end_pages::page(self.memory, &mut self.conn, customer, before, limit) {
            Ok(page) => Ok(page),
            Err(error) => Err(self.give_up(error)),
        }
    }

    fn apply(&mut self, customer: &Name, changes: &[Change]) -> Result<(), Fault> {
        self.write(customer, changes)
    }

    fn faults(&self) -> u64 {
        self.faults
    }
}
