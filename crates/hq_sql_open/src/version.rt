//! Whether a store of an earlier schema is of its version.

ghost use Rattle.std.specs.Prelude.{◌≡◌, ◌↔◌, IsTrue, IfOk, IfErr};
ghost use Rattle.sqlite.specs.Held.{state};
ghost use Rattle.sqlite.specs.State.{HasCleanDisk, IsUnchanged};
ghost use Rattle.hq_sql.specs.Causes.{HasCause};
ghost use Rattle.hq_sql_open.specs.Opening.{ShowVersions, TellsWhether};
ghost use Rattle.hq_sql_open.specs.Stores.{IsEarlier};
ghost use Rattle.hq_sql_open.specs.Migration.{IsVersion, ShowsVersion, KeepsVersion};

use hq_sql::SqliteMemory;
use sqlite::types::ValueRef;
use sqlite::{Alter, Connection, Error, Row};

/// The rows of the version table.
fn versions<S: Alter, M: SqliteMemory>(
    memory: M,
    conn: &mut Connection<S>,
) -> Result<Vec<Row>, Error>
    ensures found { HasCleanDisk (state S.Store conn.new)
        → IsEarlier (state S.Store conn.old).now.schema
        → IfOk result (λ rows. ShowVersions (state S.Store conn.old).now rows.items
        × IsUnchanged (state S.Store conn.old) (state S.Store conn.new)) }
    ensures kept { KeepsVersion (state S.Store conn.old) (state S.Store conn.new) result }
    ensures cause { IfErr result (HasCause M.refused M.failed) }
{
    let rows = memory.query_all(conn, "SELECT version FROM desk_schema", &[])?;
    Ok(rows)
}

/// Whether the rows are one, which shows 1.
fn is_one(rows: &[Row]) -> bool
    ensures { IsTrue result ↔ ShowsVersion 1 rows.now }
{
    match rows {
        [row] => matches!(row.get_ref(0), Ok(ValueRef::Int(1))),
        _ => false,
    }
}

/// Whether the rows are one, which shows 2.
fn is_two(rows: &[Row]) -> bool
    ensures { IsTrue result ↔ ShowsVersion 2 rows.now }
{
    match rows {
        [row] => matches!(row.get_ref(0), Ok(ValueRef::Int(2))),
        _ => false,
    }
}

/// Whether the one version is 1.
pub(crate) fn is_first_version<S: Alter, M: SqliteMemory>(
    memory: M,
    conn: &mut Connection<S>,
) -> Result<bool, Error>
    ensures found { HasCleanDisk (state S.Store conn.new)
        → IsEarlier (state S.Store conn.old).now.schema
        → IfOk result (λ yes. TellsWhether yes (IsVersion 1 (state S.Store conn.old).now)
        (state S.Store conn.old) (state S.Store conn.new)) }
    ensures kept { KeepsVersion (state S.Store conn.old) (state S.Store conn.new) result }
    ensures cause { IfErr result (HasCause M.refused M.failed) }
{
    let rows = versions(memory, conn)?;
    Ok(is_one(rows.as_slice()))
}

/// Whether the one version is 2.
pub(crate) fn is_second_version<S: Alter, M: SqliteMemory>(
    memory: M,
    conn: &mut Connection<S>,
) -> Result<bool, Error>
    ensures found { HasCleanDisk (state S.Store conn.new)
        → IsEarlier (state S.Store conn.old).now.schema
        → IfOk result (λ yes. TellsWhether yes (IsVersion 2 (state S.Store conn.old).now)
        (state S.Store conn.old) (state S.Store conn.new)) }
    ensures kept { KeepsVersion (state S.Store conn.old) (state S.Store conn.new) result }
    ensures cause { IfErr result (HasCause M.refused M.failed) }
{
    let rows = versions(memory, conn)?;
    Ok(is_two(rows.as_slice()))
}
