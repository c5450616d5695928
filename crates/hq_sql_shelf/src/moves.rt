//! Moves of one message and of all, and the deletion of all, over the statements of the store.

ghost use Rattle.std.specs.Prelude.{◌≡◌, drop};

use crate::rounds::SqlRound;
use crate::shelf::SqlShelf;
use hq_memory::Memory;
use hq_moves::MovesMessages;
use hq_rules::Move;
use hq_sql::SqliteMemory;
use hq_sql_changes::{Work, moving, would_move};
use hq_tables::Change;
use hq_values::{Fault, Name, Serial};
use sqlite::Alter;

/// The changes behind the first `dropped`; none, where there are no more.
fn behind(changes: &[Change], dropped: usize) -> &[Change]
    ensures { result.now ≡ drop dropped changes.now }
{
    match changes.get(dropped..) {
        Some(rest) => rest,
        None => &[],
    }
}

impl<S: Alter, M: SqliteMemory> MovesMessages for SqlShelf<S, M> {
    fn would_move(
        &mut self,
        customer: &Name,
        serial: Serial,
        by: Move,
    ) -> Result<Option<bool>, Fault> {
        self.ready()?;
        match would_move(self.memory, &mut self.conn, customer, serial, by) {
            Ok(moves) => Ok(moves),
            Err(error) => Err(self.give_up(error)),
        }
    }

    fn move_one<N: Memory>(
        &mut self,
        _memory: N,
        customer: &Name,
        serial: Serial,
        by: Move,
    ) -> Result<(), Fault> {
        self.do_work(customer, &Work::MoveOne(serial, by))
    }

    fn moving<N: Memory>(&mut self, _memory: N, customer: &Name, by: Move) -> Result<u64, Fault> {
        self.ready()?;
        match moving(self.memory, &mut self.conn, customer, by) {
            Ok(count) => Ok(count),
            Err(error) => Err(self.give_up(error)),
        }
    }

    fn move_all<N: Memory>(&mut self, _memory: N, customer: &Name, by: Move) -> Result<(), Fault> {
        self.do_work(customer, &Work::MoveAll(by))
    }

    fn apply_dropping_all(
        &mut self,
        customer: &Name,
        changes: &[Change],
        dropped: usize,
    ) -> Result<(), Fault> {
        self.do_work(customer, &Work::DropAllThen(behind(changes, dropped)))
    }
}

impl<S: Alter, M: SqliteMemory> MovesMessages for SqlRound<S, M> {
    fn would_move(
        &mut self,
        customer: &Name,
        serial: Serial,
        by: Move,
    ) -> Result<Option<bool>, Fault> {
        self.ready()?;
        match would_move(
            self.shelf.memory,
            &mut self.shelf.conn,
            customer,
            serial,
            by,
        ) {
            Ok(moves) => Ok(moves),
            Err(_) => Err(self.end()),
        }
    }

    fn move_one<N: Memory>(
        &mut self,
        _memory: N,
        customer: &Name,
        serial: Serial,
        by: Move,
    ) -> Result<(), Fault> {
        self.make(customer, &Work::MoveOne(serial, by))
    }

    fn moving<N: Memory>(&mut self, _memory: N, customer: &Name, by: Move) -> Result<u64, Fault> {
        self.ready()?;
        match moving(self.shelf.memory, &mut self.shelf.conn, customer, by) {
            Ok(count) => Ok(count),
            Err(_) => Err(self.end()),
        }
    }

    fn move_all<N: Memory>(&mut self, _memory: N, customer: &Name, by: Move) -> Result<(), Fault> {
        self.make(customer, &Work::MoveAll(by))
    }

    fn apply_dropping_all(
        &mut self,
        customer: &Name,
        changes: &[Change],
        dropped: usize,
    ) -> Result<(), Fault> {
        self.make(customer, &Work::DropAllThen(behind(changes, dropped)))
    }
}
