//! The migration of a store of version 1 or 2 to one of version 3.

ghost use Rattle.std.specs.Prelude.{◌≡◌, IfOk, IfErr};
ghost use Rattle.sqlite.specs.Held.{state};
ghost use Rattle.sqlite.specs.State.{HasCleanDisk};
ghost use Rattle.hq_schema.specs.Schema.{first_schema, second_schema, desk_schema};
ghost use Rattle.hq_sql.specs.Causes.{HasCause};
ghost use Rattle.hq_sql_open.specs.Transactions.{IsSettled};
ghost use Rattle.hq_sql_open.specs.Migration.{MigratesBy, KeepsAny};

use crate::is_current;
use crate::lifting::{migrate, upgrade};
use crate::version::{is_first_version, is_second_version};
use hq_schema::{is_desk, is_first_desk, is_second_desk};
use hq_sql::SqliteMemory;
use sqlite::{Alter, Connection, Error};

/// Migrates a store with the first schema, where its version is 1.
fn migrate_first<S: Alter, M: SqliteMemory>(
    memory: M,
    conn: &mut Connection<S>,
    reason: &str,
) -> Result<Option<usize>, Error>
    ensures done { (state S.Store conn.old).now.schema ≡ first_schema
        → HasCleanDisk (state S.Store conn.new) → IsSettled (state S.Store conn.old)
        → IfOk result (λ told.
        MigratesBy reason.now told (state S.Store conn.old) (state S.Store conn.new)) }
    ensures kept { (state S.Store conn.old).now.schema ≡ first_schema
        → KeepsAny reason.now (state S.Store conn.old) (state S.Store conn.new) result }
    ensures cause { IfErr result (HasCause M.refused M.failed) }
{
    if !is_first_version(memory, conn)? {
        return Ok(None);
    }
    let count = migrate(memory, conn, reason)?;
    Ok(Some(count))
}

/// Migrates a store with the second schema, where its version is 2.
fn migrate_second<S: Alter, M: SqliteMemory>(
    memory: M,
    conn: &mut Connection<S>,
    reason: &str,
) -> Result<Option<usize>, Error>
    ensures done { (state S.Store conn.old).now.schema ≡ second_schema
        → HasCleanDisk (state S.Store conn.new) → IsSettled (state S.Store conn.old)
        → IfOk result (λ told.
        MigratesBy reason.now told (state S.Store conn.old) (state S.Store conn.new)) }
    ensures kept { (state S.Store conn.old).now.schema ≡ second_schema
        → KeepsAny reason.now (state S.Store conn.old) (state S.Store conn.new) result }
    ensures cause { IfErr result (HasCause M.refused M.failed) }
{
    if !is_second_version(memory, conn)? {
        return Ok(None);
    }
    upgrade(memory, conn)?;
    Ok(Some(0))
}

/// Takes a store with schema 3 as it is, where its version is 3.
fn take_third<S: Alter, M: SqliteMemory>(
    memory: M,
    conn: &mut Connection<S>,
    reason: &str,
) -> Result<Option<usize>, Error>
    ensures done { (state S.Store conn.old).now.schema ≡ desk_schema
        → HasCleanDisk (state S.Store conn.new) → IsSettled (state S.Store conn.old)
        → IfOk result (λ told.
        MigratesBy reason.now told (state S.Store conn.old) (state S.Store conn.new)) }
    ensures kept { (state S.Store conn.old).now.schema ≡ desk_schema
        → KeepsAny reason.now (state S.Store conn.old) (state S.Store conn.new) result }
    ensures cause { IfErr result (HasCause M.refused M.failed) }
{
    if !is_current(memory, conn)? {
        return Ok(None);
    }
    Ok(Some(0))
}

/// Makes a store of version 3 of one of version 1 or 2, in one transaction. Of version 1 each
/// message on hold gets this reason, all else stays, and how many are on hold is told. Of version 2
/// all stays, and 0 is told. One of version 3 stays as it is, and 0 is told. For any other store it
/// answers none, and changes nothing.
///
/// It asks for a connection in no transaction. After an error `settle` undoes what was begun.
pub fn migration<S: Alter, M: SqliteMemory>(
    memory: M,
    conn: &mut Connection<S>,
    reason: &str,
) -> Result<Option<usize>, Error>
    ensures done { HasCleanDisk (state S.Store conn.new) → IsSettled (state S.Store conn.old)
        → IfOk result (λ told.
        MigratesBy reason.now told (state S.Store conn.old) (state S.Store conn.new)) }
    ensures kept { KeepsAny reason.now (state S.Store conn.old) (state S.Store conn.new) result }
    ensures cause { IfErr result (HasCause M.refused M.failed) }
{
    if is_first_desk(conn.schema()) {
        return migrate_first(memory, conn, reason);
    }
    if is_second_desk(conn.schema()) {
        return migrate_second(memory, conn, reason);
    }
    if is_desk(conn.schema()) {
        return take_third(memory, conn, reason);
    }
    Ok(None)
}
