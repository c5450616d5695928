//! Queries whose rows are lent one after another: each is taken as it comes, and none is held.

ghost use Rattle.std.specs.Prelude.{IfOk, IfErr, OnOk};
ghost use Rattle.sqlite.specs.State.{HasCleanDisk};
ghost use Rattle.sqlite.specs.Values.{bound};
ghost use Rattle.sqlite.specs.Held.{state};
ghost use Rattle.hq_sql.specs.Tables.{IsDesk};
ghost use Rattle.hq_sql.specs.Causes.{HasCause};
ghost use Rattle.hq_sql.specs.Kept.{Intact};
ghost use Rattle.hq_sql.specs.Lent.{IsQuery, TakesAll};

use crate::memory::SqliteMemory;
use crate::unfit::Limits;
use sqlite::types::ValueRef;
use sqlite::{Alter, Connection, Error, Row};

/// What takes the rows of an answer, one after another.
pub trait Taker: Drop {
    ghost use Rattle.sqlite.specs.Order.{Row};

    /// What it may be after it took a row.
    ghost takes: { Self → Row → Self → Type 0 };

    /// Takes the next row. After an error it is of no use.
    fn take<M: SqliteMemory>(&mut self, memory: M, row: &Row) -> Result<(), Error>
        ensures took { OnOk result (takes self.old row.now self.new) }
        ensures cause { IfErr result (HasCause M.refused M.failed) };
}

/// Has all rows of a query's answer taken, in their order.
pub fn walk<'k, S: Alter, T: Taker, M: SqliteMemory>(
    memory: M,
    conn: &mut Connection<S>,
    sql: &'k str,
    params: &'k [ValueRef<'k>],
    mut taker: T,
) -> Result<T, Error>
    ensures found { IsQuery sql.now → HasCleanDisk (state S.Store conn.new)
        → IsDesk (state S.Store conn.old).now → IfOk result (TakesAll T.takes sql.now
        (bound params.now) (state S.Store conn.old) (state S.Store conn.new) taker) }
    ensures kept { IsQuery sql.now
        → Intact (state S.Store conn.old) (state S.Store conn.new) result }
    ensures cause { IfErr result (HasCause M.refused M.failed) }
{
    let mut rows = M::query(conn, sql, params)?;
    'rows: for _ in 0..u64::MAX {
        memory.advance(&mut rows)?;
        match rows.get() {
            Some(row) => taker.take(memory, row)?,
            None => return Ok(taker),
        }
    }
    // No column counts so many rows.
    Err(memory.outside(Limits::Column, u64::MAX))
}
