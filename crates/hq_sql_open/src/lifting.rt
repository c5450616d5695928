//! A store of version 1 or 2 becomes one of version 3: the tables that it lacks are made, that of
//! the reasons of messages on hold is filled, and the version written, in one transaction.

ghost use Rattle.std.specs.Prelude.{◌≡◌, ℕ, [], ◌∷◌, IsTrue, IfOk, OnOk, IfErr};
ghost use Rattle.sqlite.specs.Held.{state};
ghost use Rattle.sqlite.specs.State.{HasCleanDisk};
ghost use Rattle.sqlite.specs.Values.{bound};
ghost use Rattle.sqlite.specs.declared.types.Value.TheVariants.{Text};
ghost use Rattle.hq_keyed.specs.Left.{IsQuiet};
ghost use Rattle.hq_keyed.specs.Made.{CreatesTable};
ghost use Rattle.hq_schema.specs.Schema.{holds, ends, first_schema, second_schema, desk_schema};
ghost use Rattle.hq_sql.specs.Causes.{HasCause};
ghost use Rattle.hq_sql_open.specs.Making.{GoesOn};
ghost use Rattle.hq_sql_open.specs.Transactions.{IsSettled, KeepsAll};
ghost use Rattle.hq_sql_open.specs.Stores.{HasVersion, IsFirst, IsSecond, lifted_in};
ghost use Rattle.hq_sql_open.specs.Stores.{second_tables_in};
ghost use Rattle.hq_sql_open.specs.Migration.{HasEmptyHolds, Fills, Stamps, Lifts, Migrates};
ghost use Rattle.hq_sql_open.specs.Migration.{KeepsMigration, Raises, Upgrades, Widens};

use crate::transaction::{begin, commit, sees_database};
use hq_sql::SqliteMemory;
use sqlite::types::ValueRef;
use sqlite::{Alter, Connection, Error};

/// Makes the table of holds, without a row.
fn make_holds<S: Alter, M: SqliteMemory>(memory: M, conn: &mut Connection<S>) -> Result<(), Error>
    ensures made { (state S.Store conn.old).now.schema ≡ first_schema
        → HasCleanDisk (state S.Store conn.new)
        → OnOk result (CreatesTable (state S.Store conn.old) (state S.Store conn.new) first_schema
        holds) }
    ensures kept { (state S.Store conn.old).now.schema ≡ first_schema
        → IsTrue (state S.Store conn.old).in_transaction
        → KeepsAll (state S.Store conn.old) (state S.Store conn.new) }
    ensures quiet { IsQuiet (state S.Store conn.old) (state S.Store conn.new) }
    ensures cause { IfErr result (HasCause M.refused M.failed) }
{
    memory.execute(
        conn,
        "CREATE TABLE holds (customer TEXT NOT NULL, serial INTEGER NOT NULL, \
         hold_reason TEXT NOT NULL, PRIMARY KEY (customer, serial)) STRICT",
        &[],
    )?;
    Ok(())
}

/// Makes the table of ends, without a row.
fn make_ends<S: Alter, M: SqliteMemory>(memory: M, conn: &mut Connection<S>) -> Result<(), Error>
    ensures made { (state S.Store conn.old).now.schema ≡ second_schema
        → HasCleanDisk (state S.Store conn.new)
        → OnOk result (CreatesTable (state S.Store conn.old) (state S.Store conn.new) second_schema
        ends) }
    ensures kept { (state S.Store conn.old).now.schema ≡ second_schema
        → IsTrue (state S.Store conn.old).in_transaction
        → KeepsAll (state S.Store conn.old) (state S.Store conn.new) }
    ensures quiet { IsQuiet (state S.Store conn.old) (state S.Store conn.new) }
    ensures cause { IfErr result (HasCause M.refused M.failed) }
{
    memory.execute(
        conn,
        "CREATE TABLE ends (customer TEXT NOT NULL, number INTEGER NOT NULL, \
         moment INTEGER NOT NULL, serial INTEGER NOT NULL, sender TEXT NOT NULL, \
         recipient TEXT NOT NULL, fate INTEGER NOT NULL, status TEXT NOT NULL, \
         reason TEXT NOT NULL, PRIMARY KEY (customer, number)) STRICT",
        &[],
    )?;
    Ok(())
}

/// Makes the tables that a store of version 1 lacks, without a row.
fn make_tables<S: Alter, M: SqliteMemory>(memory: M, conn: &mut Connection<S>) -> Result<(), Error>
    ensures made { (state S.Store conn.old).now.schema ≡ first_schema
        → HasCleanDisk (state S.Store conn.new)
        → OnOk result (Widens (state S.Store conn.old) (state S.Store conn.new)) }
    ensures kept { (state S.Store conn.old).now.schema ≡ first_schema
        → IsTrue (state S.Store conn.old).in_transaction
        → KeepsAll (state S.Store conn.old) (state S.Store conn.new) }
    ensures quiet { IsQuiet (state S.Store conn.old) (state S.Store conn.new) }
    ensures cause { IfErr result (HasCause M.refused M.failed) }
{
    make_holds(memory, conn)?;
    make_ends(memory, conn)?;
    Ok(())
}

/// What the rows of holds are made with.
fn bind<'a>(reason: &'a str) -> [ValueRef<'a>; 1]
    ensures { bound result ≡ Text reason.now ∷ [] }
{
    [ValueRef::Text(reason.as_bytes())]
}

/// Adds a row with this reason for each message on hold, and tells how many there are.
fn fill_holds<S: Alter, M: SqliteMemory>(
    memory: M,
    conn: &mut Connection<S>,
    reason: &str,
) -> Result<usize, Error>
    ensures made { HasEmptyHolds (state S.Store conn.old).now
        → HasCleanDisk (state S.Store conn.new)
        → IfOk result (λ count.
        Fills reason.now count (state S.Store conn.old) (state S.Store conn.new)) }
    ensures goes { (state S.Store conn.old).now.schema ≡ desk_schema
        → HasCleanDisk (state S.Store conn.new)
        → OnOk result (((state S.Store conn.new).now.schema ≡ desk_schema)
        × GoesOn (state S.Store conn.old) (state S.Store conn.new)) }
    ensures kept { (state S.Store conn.old).now.schema ≡ desk_schema
        → IsTrue (state S.Store conn.old).in_transaction
        → KeepsAll (state S.Store conn.old) (state S.Store conn.new) }
    ensures quiet { IsQuiet (state S.Store conn.old) (state S.Store conn.new) }
    ensures cause { IfErr result (HasCause M.refused M.failed) }
{
    let params = bind(reason);
    let count = memory.execute(
        conn,
        "INSERT INTO holds (customer, serial, hold_reason) SELECT customer, serial, ?1 \
         FROM messages WHERE state = 2 ORDER BY customer, serial",
        &params,
    )?;
    Ok(count)
}

/// Writes the version 3 in the place of another.
fn set_version<S: Alter, M: SqliteMemory>(memory: M, conn: &mut Connection<S>) -> Result<(), Error>
    ensures made { (version : ℕ) → (state S.Store conn.old).now.schema ≡ desk_schema
        → HasVersion (state S.Store conn.old).now version
        → HasCleanDisk (state S.Store conn.new)
        → OnOk result (Stamps (state S.Store conn.old) (state S.Store conn.new)) }
    ensures kept { (state S.Store conn.old).now.schema ≡ desk_schema
        → IsTrue (state S.Store conn.old).in_transaction
        → KeepsAll (state S.Store conn.old) (state S.Store conn.new) }
    ensures quiet { IsQuiet (state S.Store conn.old) (state S.Store conn.new) }
    ensures cause { IfErr result (HasCause M.refused M.failed) }
{
    memory.execute(conn, "UPDATE desk_schema SET version = 3", &[])?;
    Ok(())
}

/// Makes the tables that a store of version 1 lacks, fills that of holds, and writes the version.
fn lift<S: Alter, M: SqliteMemory>(
    memory: M,
    conn: &mut Connection<S>,
    reason: &str,
) -> Result<usize, Error>
    ensures made { IsFirst (state S.Store conn.old).now
        → HasCleanDisk (state S.Store conn.new)
        → IfOk result (λ count.
        Lifts reason.now count (state S.Store conn.old) (state S.Store conn.new)) }
    ensures kept { (state S.Store conn.old).now.schema ≡ first_schema
        → IsTrue (state S.Store conn.old).in_transaction
        → KeepsAll (state S.Store conn.old) (state S.Store conn.new) }
    ensures quiet { IsQuiet (state S.Store conn.old) (state S.Store conn.new) }
    ensures cause { IfErr result (HasCause M.refused M.failed) }
{
    make_tables(memory, conn)?;
    let count = fill_holds(memory, conn, reason)?;
    set_version(memory, conn)?;
    Ok(count)
}

/// Makes the table that a store of version 2 lacks, and writes the version.
fn raise<S: Alter, M: SqliteMemory>(memory: M, conn: &mut Connection<S>) -> Result<(), Error>
    ensures made { IsSecond (state S.Store conn.old).now
        → HasCleanDisk (state S.Store conn.new)
        → OnOk result (Raises (state S.Store conn.old) (state S.Store conn.new)) }
    ensures kept { (state S.Store conn.old).now.schema ≡ second_schema
        → IsTrue (state S.Store conn.old).in_transaction
        → KeepsAll (state S.Store conn.old) (state S.Store conn.new) }
    ensures quiet { IsQuiet (state S.Store conn.old) (state S.Store conn.new) }
    ensures cause { IfErr result (HasCause M.refused M.failed) }
{
    make_ends(memory, conn)?;
    set_version(memory, conn)?;
    Ok(())
}

/// Makes a store of version 3 of one of version 1, in one transaction, and tells how many messages
/// are on hold. It asks for a connection in no transaction. After an error `settle` undoes what was
/// begun.
pub(crate) fn migrate<S: Alter, M: SqliteMemory>(
    memory: M,
    conn: &mut Connection<S>,
    reason: &str,
) -> Result<usize, Error>
    ensures made { IsFirst (state S.Store conn.old).now → IsSettled (state S.Store conn.old)
        → HasCleanDisk (state S.Store conn.new)
        → IfOk result (λ count.
        Migrates reason.now count (state S.Store conn.old) (state S.Store conn.new)) }
    ensures kept { (state S.Store conn.old).now.schema ≡ first_schema
        → IsSettled (state S.Store conn.old)
        → KeepsMigration IsFirst (lifted_in reason.now) (state S.Store conn.old)
        (state S.Store conn.new) result }
    ensures quiet { IsQuiet (state S.Store conn.old) (state S.Store conn.new) }
    ensures cause { IfErr result (HasCause M.refused M.failed) }
{
    begin(memory, conn)?;
    let count = lift(memory, conn, reason)?;
    sees_database(conn);
    commit(memory, conn)?;
    Ok(count)
}

/// Makes a store of version 3 of one of version 2, in one transaction, as `migrate` does.
pub(crate) fn upgrade<S: Alter, M: SqliteMemory>(
    memory: M,
    conn: &mut Connection<S>,
) -> Result<(), Error>
    ensures made { IsSecond (state S.Store conn.old).now → IsSettled (state S.Store conn.old)
        → HasCleanDisk (state S.Store conn.new)
        → OnOk result (Upgrades (state S.Store conn.old) (state S.Store conn.new)) }
    ensures kept { (state S.Store conn.old).now.schema ≡ second_schema
        → IsSettled (state S.Store conn.old)
        → KeepsMigration IsSecond second_tables_in (state S.Store conn.old)
        (state S.Store conn.new) result }
    ensures quiet { IsQuiet (state S.Store conn.old) (state S.Store conn.new) }
    ensures cause { IfErr result (HasCause M.refused M.failed) }
{
    begin(memory, conn)?;
    raise(memory, conn)?;
    sees_database(conn);
    commit(memory, conn)
}
