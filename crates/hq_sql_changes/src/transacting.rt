//! One transaction.

ghost use Rattle.std.specs.Prelude.{OnOk, IfErr};
ghost use Rattle.sqlite.specs.Held.{state};
ghost use Rattle.sqlite.specs.State.{HasCleanDisk};
ghost use Rattle.hq_tables.specs.Sound.{AreCounted};
ghost use Rattle.hq_sql.specs.Causes.{HasCause};
ghost use Rattle.hq_sql.specs.Tables.{tables_in};
ghost use Rattle.hq_sql_open.specs.Transactions.{IsAtRest, Commits};
ghost use Rattle.hq_sql_changes.specs.Done.{made_of, worked};
ghost use Rattle.hq_sql_changes.specs.Transacted.{KeepsTransaction};

use crate::work::Work;
use hq_sql::SqliteMemory;
use hq_sql_open::transaction::{begin, commit, sees_database};
use hq_values::Name;
use sqlite::{Alter, Connection, Error};

/// Does the work in one transaction, whatever the counts are. For a list of no changes none begins.
fn transact<S: Alter, M: SqliteMemory>(
    memory: M,
    conn: &mut Connection<S>,
    customer: &Name,
    work: &Work<'_>,
) -> Result<(), Error>
    ensures made { HasCleanDisk (state S.Store conn.new) → IsAtRest (state S.Store conn.old)
        → OnOk result (Commits (state S.Store conn.new)
        (made_of customer.now work.now (tables_in (state S.Store conn.old).committed))) }
    ensures kept { KeepsTransaction (state S.Store conn.old) (state S.Store conn.new) result
        (made_of customer.now work.now (tables_in (state S.Store conn.old).committed)) }
    ensures cause { IfErr result (HasCause M.refused M.failed) }
{
    if work.has_no_changes() {
        return Ok(());
    }
    begin(memory, conn)?;
    work.make(memory, conn, customer)?;
    sees_database(conn);
    commit(memory, conn)
}

/// Does the work in one transaction.
pub fn apply<S: Alter, M: SqliteMemory>(
    memory: M,
    conn: &mut Connection<S>,
    customer: &Name,
    work: &Work<'_>,
) -> Result<(), Error>
    ensures made { HasCleanDisk (state S.Store conn.new) → IsAtRest (state S.Store conn.old)
        → AreCounted (tables_in (state S.Store conn.old).committed)
        → OnOk result (Commits (state S.Store conn.new)
        (worked customer.now work.now (tables_in (state S.Store conn.old).committed))) }
    ensures kept { KeepsTransaction (state S.Store conn.old) (state S.Store conn.new) result
        (worked customer.now work.now (tables_in (state S.Store conn.old).committed)) }
    ensures cause { IfErr result (HasCause M.refused M.failed) }
{
    transact(memory, conn, customer, work)
}
