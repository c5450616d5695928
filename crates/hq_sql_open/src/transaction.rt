//! Transactions, by the statements that begin, commit and roll back.

ghost use Rattle.std.specs.Prelude.{◌≡◌, OnOk, IfErr};
ghost use Rattle.sqlite.specs.Held.{state};
ghost use Rattle.sqlite.specs.State.{HasCleanDisk, IsLive};
ghost use Rattle.hq_sql.specs.Causes.{HasCause};
ghost use Rattle.hq_sql_open.specs.Transactions.{IsBegun, IsDone, KeepsUnlessDone, KeepsOrCommits};
ghost use Rattle.hq_sql_open.specs.Transactions.{Undoes, Probes};
ghost use Rattle.hq_sql_open.specs.Standings.{HasReason, Settles, unasked_for};

use crate::faults::fault_of;
use hq_sql::SqliteMemory;
use hq_values::Fault;
use sqlite::{Alter, Connection, Error, ErrorCode};

/// What is known of a connection after a statement failed.
#[derive(Clone, Copy, Debug, PartialEq, Eq)]
pub enum Standing {
    /// It is open.
    Open,
    /// It is gone, and every further statement fails.
    Gone,
    /// It is gone, and was in doubt before; `settle` does not tell it.
    Lost,
    /// It could not be asked, for want of memory.
    InDoubt,
    /// It could not be asked, since `sqlite` failed.
    Unasked,
}

/// What an open connection sees, and what it committed, are databases: their trees list their
/// schema, and obey it. A connection keeps them so, and is not asked.
pub fn sees_database<S: Alter>(conn: &Connection<S>)
    ensures { IsLive (state S.Store conn.now) }
{
    let _schema = conn.schema();
}

/// Begins a transaction; an error where there is one.
pub fn begin<S: Alter, M: SqliteMemory>(memory: M, conn: &mut Connection<S>) -> Result<(), Error>
    ensures begun { HasCleanDisk (state S.Store conn.new)
        → OnOk result (IsBegun (state S.Store conn.old) (state S.Store conn.new)) }
    ensures kept { KeepsUnlessDone (state S.Store conn.old) (state S.Store conn.new) result }
    ensures cause { IfErr result (HasCause M.refused M.failed) }
{
    memory.execute(conn, "BEGIN", &[])?;
    Ok(())
}

/// Commits the transaction. One that fails is undone.
pub fn commit<S: Alter, M: SqliteMemory>(memory: M, conn: &mut Connection<S>) -> Result<(), Error>
    ensures done { HasCleanDisk (state S.Store conn.new)
        → OnOk result (IsDone (state S.Store conn.old) (state S.Store conn.new)) }
    ensures kept { KeepsOrCommits (state S.Store conn.old) (state S.Store conn.new) result }
    ensures cause { IfErr result (HasCause M.refused M.failed) }
{
    memory.execute(conn, "COMMIT", &[])?;
    Ok(())
}

/// Undoes the transaction, where there is one.
fn roll_back<S: Alter, M: SqliteMemory>(memory: M, conn: &mut Connection<S>)
    ensures { Undoes (state S.Store conn.old) (state S.Store conn.new) }
{
    if !conn.is_autocommit() {
        let _ = memory.execute(conn, "ROLLBACK", &[]);
    }
}

/// Asks whether the connection is open, by a statement that does nothing. It takes memory where the
/// connection has not kept the statement from an earlier time.
fn ask<S: Alter, M: SqliteMemory>(memory: M, conn: &mut Connection<S>) -> Result<(), Error>
    ensures probes { Probes (state S.Store conn.old) (state S.Store conn.new) result }
    ensures cause { IfErr result (HasCause M.refused M.failed) }
{
    match memory.execute(conn, "", &[]) {
        Ok(_) => Ok(()),
        Err(error) => Err(error),
    }
}

/// What is known of a connection that could not be asked, for the reason that this fault tells.
fn unasked(fault: Fault) -> Standing
    ensures { result ≡ unasked_for fault }
{
    match fault {
        Fault::WantOfMemory => Standing::InDoubt,
        _ => Standing::Unasked,
    }
}

/// Undoes the transaction, where there is one, and asks what became of the connection. After `Open`
/// it is in no transaction; after `Gone` nothing more can be done with it. After `InDoubt` and
/// `Unasked` it was not told: what was begun is undone, and it can be asked again.
#[tactic(auto, using(crate::proofs::Reasons::has_reason))]
pub fn settle<S: Alter, M: SqliteMemory>(memory: M, conn: &mut Connection<S>) -> Standing
    ensures settled { Settles (state S.Store conn.old) (state S.Store conn.new) result }
    ensures cause { HasReason M.refused M.failed result }
{
    roll_back(memory, conn);
    match ask(memory, conn) {
        Ok(()) => Standing::Open,
        Err(Error::SqliteFailure(ErrorCode::Closed)) => Standing::Gone,
        Err(error) => unasked(fault_of(error)),
    }
}
