//! Opening: what is in a store decides whether it gets the tables of a desk, is taken as one, or is
//! left alone.

ghost use Rattle.std.specs.Prelude.{◌≡◌, ◌↔◌, [], ◌∷◌, List, map, fold, IsTrue, IfOk, OnOk, IfErr};
ghost use Rattle.sqlite.specs.Change.{created};
ghost use Rattle.sqlite.specs.Held.{state};
ghost use Rattle.sqlite.specs.Schema.{Schema};
ghost use Rattle.sqlite.specs.State.{HasCleanDisk, IsUnchanged};
ghost use Rattle.sqlite.specs.Table.{Table};
ghost use Rattle.hq_keyed.specs.Left.{IsQuiet};
ghost use Rattle.hq_schema.specs.Schema.{no_schema, version_alone, desk_schema};
ghost use Rattle.hq_tables.specs.Tables.{no_tables};
ghost use Rattle.hq_sql.specs.Tables.{Leaves};
ghost use Rattle.hq_sql.specs.Causes.{HasCause};
ghost use Rattle.hq_sql_open.specs.Making.{MakeTables, AreEmpty};
ghost use Rattle.hq_sql_open.specs.Opening.{IsUnmade, IsVersioned, Opens, KeepsOpening};
ghost use Rattle.hq_sql_open.specs.Opening.{ShowVersions, ShowsOne, HasVersions, TellsWhether};
ghost use Rattle.hq_sql_open.specs.Opening.{KeepsReading};
ghost use Rattle.hq_sql_open.specs.Transactions.{IsSettled, Commits, KeepsAll};

use crate::create::create_all;
use crate::transaction::{begin, commit, sees_database};
use hq_schema::{is_blank, is_desk, is_version_alone};
use hq_sql::SqliteMemory;
use sqlite::types::ValueRef;
use sqlite::{Alter, Connection, Error, Row};

/// The texts of the tables of a desk, in the order in which they are made.
const TABLES: [&str; 9] = [
    "CREATE TABLE desk_schema (version INTEGER NOT NULL) STRICT",
    "CREATE TABLE heads (customer TEXT NOT NULL, next_serial INTEGER NOT NULL, \
     next_notice INTEGER NOT NULL, accepted INTEGER NOT NULL, delivered INTEGER NOT NULL, \
     failed INTEGER NOT NULL, deleted INTEGER NOT NULL, expired INTEGER NOT NULL, \
     messages INTEGER NOT NULL, bytes INTEGER NOT NULL, lines INTEGER NOT NULL, \
     PRIMARY KEY (customer)) STRICT",
    "CREATE TABLE messages (customer TEXT NOT NULL, serial INTEGER NOT NULL, \
     sender TEXT NOT NULL, spool TEXT NOT NULL, size INTEGER NOT NULL, arrival INTEGER NOT NULL, \
     state INTEGER NOT NULL, next_try INTEGER NOT NULL, attempts INTEGER NOT NULL, \
     warned INTEGER NOT NULL, PRIMARY KEY (customer, serial), UNIQUE (customer, spool)) STRICT",
    "CREATE TABLE recipients (customer TEXT NOT NULL, serial INTEGER NOT NULL, \
     place INTEGER NOT NULL, address TEXT NOT NULL, status TEXT NOT NULL, reason TEXT NOT NULL, \
     PRIMARY KEY (customer, serial, place)) STRICT",
    "CREATE TABLE lines (customer TEXT NOT NULL, class TEXT NOT NULL, pattern TEXT NOT NULL, \
     action TEXT NOT NULL, PRIMARY KEY (customer, class, pattern)) STRICT",
    "CREATE TABLE notices (customer TEXT NOT NULL, number INTEGER NOT NULL, \
     kind INTEGER NOT NULL, serial INTEGER NOT NULL, moment INTEGER NOT NULL, \
     sender TEXT NOT NULL, human TEXT NOT NULL, status TEXT NOT NULL, \
     PRIMARY KEY (customer, number)) STRICT",
    "CREATE TABLE marks (customer TEXT NOT NULL, label TEXT NOT NULL, digest BLOB NOT NULL, \
     added INTEGER NOT NULL, changed INTEGER NOT NULL, same INTEGER NOT NULL, \
     PRIMARY KEY (customer, label)) STRICT",
    "CREATE TABLE holds (customer TEXT NOT NULL, serial INTEGER NOT NULL, \
     hold_reason TEXT NOT NULL, PRIMARY KEY (customer, serial)) STRICT",
    "CREATE TABLE ends (customer TEXT NOT NULL, number INTEGER NOT NULL, moment INTEGER NOT NULL, \
     serial INTEGER NOT NULL, sender TEXT NOT NULL, recipient TEXT NOT NULL, \
     fate INTEGER NOT NULL, status TEXT NOT NULL, reason TEXT NOT NULL, \
     PRIMARY KEY (customer, number)) STRICT",
];

/// Writes the version, where no table has a row.
fn stamp<S: Alter, M: SqliteMemory>(memory: M, conn: &mut Connection<S>) -> Result<(), Error>
    ensures made { (state S.Store conn.old).now.schema ≡ desk_schema
        → AreEmpty desk_schema.tables (state S.Store conn.old).now.trees
        → HasCleanDisk (state S.Store conn.new)
        → OnOk result (Leaves (state S.Store conn.old) (state S.Store conn.new) no_tables) }
    ensures kept { (state S.Store conn.old).now.schema ≡ desk_schema
        → IsTrue (state S.Store conn.old).in_transaction
        → KeepsAll (state S.Store conn.old) (state S.Store conn.new) }
    ensures quiet { IsQuiet (state S.Store conn.old) (state S.Store conn.new) }
    ensures cause { IfErr result (HasCause M.refused M.failed) }
{
    memory.execute(conn, "INSERT INTO desk_schema (version) VALUES (3)", &[])?;
    Ok(())
}

/// Makes the tables that are missing, and writes the version.
fn fill<S: Alter, M: SqliteMemory>(
    memory: M,
    conn: &mut Connection<S>,
    texts: &[&str],
) -> Result<(), Error>
    ensures made { (s : Schema) → (tables : List Table)
        → MakeTables s (map (λ t. t.now) texts.now) tables → fold created s tables ≡ desk_schema
        → (state S.Store conn.old).now.schema ≡ s
        → AreEmpty s.tables (state S.Store conn.old).now.trees
        → HasCleanDisk (state S.Store conn.new)
        → OnOk result (Leaves (state S.Store conn.old) (state S.Store conn.new) no_tables) }
    ensures kept { (s : Schema) → (tables : List Table)
        → MakeTables s (map (λ t. t.now) texts.now) tables → fold created s tables ≡ desk_schema
        → (state S.Store conn.old).now.schema ≡ s
        → AreEmpty s.tables (state S.Store conn.old).now.trees
        → IsTrue (state S.Store conn.old).in_transaction
        → KeepsAll (state S.Store conn.old) (state S.Store conn.new) }
    ensures quiet { IsQuiet (state S.Store conn.old) (state S.Store conn.new) }
    ensures cause { IfErr result (HasCause M.refused M.failed) }
{
    create_all(memory, conn, texts)?;
    stamp(memory, conn)
}

/// Makes an empty desk of a store in which these tables are missing, in one transaction.
fn make_desk<S: Alter, M: SqliteMemory>(
    memory: M,
    conn: &mut Connection<S>,
    texts: &[&str],
) -> Result<(), Error>
    ensures made { (s : Schema) → (tables : List Table)
        → MakeTables s (map (λ t. t.now) texts.now) tables → fold created s tables ≡ desk_schema
        → (state S.Store conn.old).now.schema ≡ s
        → AreEmpty s.tables (state S.Store conn.old).now.trees
        → IsSettled (state S.Store conn.old) → HasCleanDisk (state S.Store conn.new)
        → OnOk result (Commits (state S.Store conn.new) no_tables) }
    ensures kept { (s : Schema) → (tables : List Table)
        → MakeTables s (map (λ t. t.now) texts.now) tables → fold created s tables ≡ desk_schema
        → (state S.Store conn.old).now.schema ≡ s
        → AreEmpty s.tables (state S.Store conn.old).now.trees
        → IsUnmade (state S.Store conn.old).now
        → KeepsOpening (state S.Store conn.old) (state S.Store conn.new) result }
    ensures quiet { IsQuiet (state S.Store conn.old) (state S.Store conn.new) }
    ensures cause { IfErr result (HasCause M.refused M.failed) }
{
    begin(memory, conn)?;
    fill(memory, conn, texts)?;
    sees_database(conn);
    commit(memory, conn)
}

/// Makes an empty desk of a store in which nothing was made yet.
fn make_all<S: Alter, M: SqliteMemory>(memory: M, conn: &mut Connection<S>) -> Result<(), Error>
    ensures made { (state S.Store conn.old).now.schema ≡ no_schema
        → IsSettled (state S.Store conn.old) → HasCleanDisk (state S.Store conn.new)
        → OnOk result (Commits (state S.Store conn.new) no_tables) }
    ensures kept { (state S.Store conn.old).now.schema ≡ no_schema
        → KeepsOpening (state S.Store conn.old) (state S.Store conn.new) result }
    ensures quiet { IsQuiet (state S.Store conn.old) (state S.Store conn.new) }
    ensures cause { IfErr result (HasCause M.refused M.failed) }
{
    make_desk(memory, conn, &TABLES)
}

/// Makes an empty desk of a store that has the version table alone, without a row.
fn make_others<S: Alter, M: SqliteMemory>(memory: M, conn: &mut Connection<S>) -> Result<(), Error>
    ensures made { (state S.Store conn.old).now.schema ≡ version_alone
        → (state S.Store conn.old).now.trees 0 ≡ []
        → IsSettled (state S.Store conn.old) → HasCleanDisk (state S.Store conn.new)
        → OnOk result (Commits (state S.Store conn.new) no_tables) }
    ensures kept { (state S.Store conn.old).now.schema ≡ version_alone
        → (state S.Store conn.old).now.trees 0 ≡ []
        → KeepsOpening (state S.Store conn.old) (state S.Store conn.new) result }
    ensures quiet { IsQuiet (state S.Store conn.old) (state S.Store conn.new) }
    ensures cause { IfErr result (HasCause M.refused M.failed) }
{
    make_desk(memory, conn, &TABLES[1..])
}

/// The rows of the version table.
fn versions<S: Alter, M: SqliteMemory>(
    memory: M,
    conn: &mut Connection<S>,
) -> Result<Vec<Row>, Error>
    ensures found { HasCleanDisk (state S.Store conn.new)
        → HasVersions (state S.Store conn.old).now
        → IfOk result (λ rows. ShowVersions (state S.Store conn.old).now rows.items
        × IsUnchanged (state S.Store conn.old) (state S.Store conn.new)) }
    ensures kept { KeepsReading (state S.Store conn.old) (state S.Store conn.new) result }
    ensures cause { IfErr result (HasCause M.refused M.failed) }
{
    let rows = memory.query_all(conn, "SELECT version FROM desk_schema", &[])?;
    Ok(rows)
}

/// Whether the rows are one, which shows 3.
fn is_one(rows: &[Row]) -> bool
    ensures { IsTrue result ↔ ShowsOne rows.now }
{
    match rows {
        [row] => matches!(row.get_ref(0), Ok(ValueRef::Int(3))),
        _ => false,
    }
}

/// Whether the one version of a desk is 3.
pub fn is_current<S: Alter, M: SqliteMemory>(
    memory: M,
    conn: &mut Connection<S>,
) -> Result<bool, Error>
    ensures found { HasCleanDisk (state S.Store conn.new)
        → HasVersions (state S.Store conn.old).now
        → IfOk result (λ yes. TellsWhether yes (IsVersioned (state S.Store conn.old).now)
        (state S.Store conn.old) (state S.Store conn.new)) }
    ensures kept { KeepsReading (state S.Store conn.old) (state S.Store conn.new) result }
    ensures cause { IfErr result (HasCause M.refused M.failed) }
{
    let rows = versions(memory, conn)?;
    Ok(is_one(rows.as_slice()))
}

fn are_none(rows: &[Row]) -> bool
    ensures { IsTrue result ↔ (rows.now ≡ []) }
{
    rows.is_empty()
}

/// Whether the version table has no row.
fn is_unversioned<S: Alter, M: SqliteMemory>(
    memory: M,
    conn: &mut Connection<S>,
) -> Result<bool, Error>
    ensures found { HasCleanDisk (state S.Store conn.new)
        → HasVersions (state S.Store conn.old).now
        → IfOk result (λ yes. TellsWhether yes ((state S.Store conn.old).now.trees 0 ≡ [])
        (state S.Store conn.old) (state S.Store conn.new)) }
    ensures kept { KeepsReading (state S.Store conn.old) (state S.Store conn.new) result }
    ensures cause { IfErr result (HasCause M.refused M.failed) }
{
    let rows = versions(memory, conn)?;
    Ok(are_none(rows.as_slice()))
}

/// Makes an empty desk of a store that has the version table alone, where it has no row; else it
/// answers false.
fn complete<S: Alter, M: SqliteMemory>(memory: M, conn: &mut Connection<S>) -> Result<bool, Error>
    ensures opened { (state S.Store conn.old).now.schema ≡ version_alone
        → HasCleanDisk (state S.Store conn.new) → IsSettled (state S.Store conn.old)
        → IfOk result (λ is. Opens is (state S.Store conn.old) (state S.Store conn.new)) }
    ensures kept { (state S.Store conn.old).now.schema ≡ version_alone
        → KeepsOpening (state S.Store conn.old) (state S.Store conn.new) result }
    ensures cause { IfErr result (HasCause M.refused M.failed) }
{
    if !is_unversioned(memory, conn)? {
        return Ok(false);
    }
    make_others(memory, conn)?;
    Ok(true)
}

/// Opens a store as a desk. It decides by the schema, before any statement: a store in which
/// nothing was made yet, or the version table alone and without a row, gets the tables of a desk in
/// one transaction; one that has exactly the tables of schema 3, and its one version is 3, stays as
/// it is. For any other store it answers false, and changes nothing.
///
/// It asks for a connection in no transaction. After an error `settle` undoes what was begun.
pub fn open<S: Alter, M: SqliteMemory>(memory: M, conn: &mut Connection<S>) -> Result<bool, Error>
    ensures opened { HasCleanDisk (state S.Store conn.new) → IsSettled (state S.Store conn.old)
        → IfOk result (λ is. Opens is (state S.Store conn.old) (state S.Store conn.new)) }
    ensures kept { KeepsOpening (state S.Store conn.old) (state S.Store conn.new) result }
    ensures cause { IfErr result (HasCause M.refused M.failed) }
{
    if is_blank(conn.schema()) {
        make_all(memory, conn)?;
        return Ok(true);
    }
    if is_desk(conn.schema()) {
        return is_current(memory, conn);
    }
    if is_version_alone(conn.schema()) {
        return complete(memory, conn);
    }
    Ok(false)
}
