//! The tables of a desk, made in turn.

ghost use Rattle.std.specs.Prelude.{◌≡◌, ◌∷◌, List, map, IsTrue, OnOk, IfErr};
ghost use Rattle.sqlite.specs.Held.{state};
ghost use Rattle.sqlite.specs.Schema.{Schema};
ghost use Rattle.sqlite.specs.State.{HasCleanDisk};
ghost use Rattle.sqlite.specs.Table.{Table};
ghost use Rattle.hq_keyed.specs.Left.{IsQuiet};
ghost use Rattle.hq_keyed.specs.Made.{CreatesTable};
ghost use Rattle.hq_sql.specs.Causes.{HasCause};
ghost use Rattle.hq_sql_open.specs.Making.{MakesTable, MakeTables, AreEmpty, HasMade};
ghost use Rattle.hq_sql_open.specs.Transactions.{KeepsAll};

use hq_sql::SqliteMemory;
use sqlite::{Alter, Connection, Error};

/// Makes a table by the text that defines it.
fn create<S: Alter, M: SqliteMemory>(
    memory: M,
    conn: &mut Connection<S>,
    text: &str,
) -> Result<(), Error>
    ensures made { (s : Schema) → (table : Table) → MakesTable s text.now table
        → (state S.Store conn.old).now.schema ≡ s → HasCleanDisk (state S.Store conn.new)
        → OnOk result (CreatesTable (state S.Store conn.old) (state S.Store conn.new) s table) }
    ensures kept { (s : Schema) → (table : Table) → MakesTable s text.now table
        → (state S.Store conn.old).now.schema ≡ s → IsTrue (state S.Store conn.old).in_transaction
        → KeepsAll (state S.Store conn.old) (state S.Store conn.new) }
    ensures quiet { IsQuiet (state S.Store conn.old) (state S.Store conn.new) }
    ensures cause { IfErr result (HasCause M.refused M.failed) }
{
    memory.execute(conn, text, &[])?;
    Ok(())
}

/// Makes the table of a text, and then those of others, up to the first that fails.
#[cycle(creating)]
fn create_from<S: Alter, M: SqliteMemory>(
    memory: M,
    conn: &mut Connection<S>,
    first: &str,
    rest: &[&str],
) -> Result<(), Error>
    ensures made { (s : Schema) → (tables : List Table)
        → MakeTables s (first.now ∷ map (λ t. t.now) rest.now) tables
        → (state S.Store conn.old).now.schema ≡ s
        → AreEmpty s.tables (state S.Store conn.old).now.trees
        → HasCleanDisk (state S.Store conn.new)
        → OnOk result (HasMade s tables (state S.Store conn.old) (state S.Store conn.new)) }
    ensures kept { (s : Schema) → (tables : List Table)
        → MakeTables s (first.now ∷ map (λ t. t.now) rest.now) tables
        → (state S.Store conn.old).now.schema ≡ s → IsTrue (state S.Store conn.old).in_transaction
        → KeepsAll (state S.Store conn.old) (state S.Store conn.new) }
    ensures quiet { IsQuiet (state S.Store conn.old) (state S.Store conn.new) }
    ensures cause { IfErr result (HasCause M.refused M.failed) }
{
    create(memory, conn, first)?;
    create_all(memory, conn, rest)
}

/// Makes tables by their texts, one after another, up to the first that fails.
#[cycle(creating)]
pub(crate) fn create_all<S: Alter, M: SqliteMemory>(
    memory: M,
    conn: &mut Connection<S>,
    texts: &[&str],
) -> Result<(), Error>
    ensures made { (s : Schema) → (tables : List Table)
        → MakeTables s (map (λ t. t.now) texts.now) tables
        → (state S.Store conn.old).now.schema ≡ s
        → AreEmpty s.tables (state S.Store conn.old).now.trees
        → HasCleanDisk (state S.Store conn.new)
        → OnOk result (HasMade s tables (state S.Store conn.old) (state S.Store conn.new)) }
    ensures kept { (s : Schema) → (tables : List Table)
        → MakeTables s (map (λ t. t.now) texts.now) tables
        → (state S.Store conn.old).now.schema ≡ s → IsTrue (state S.Store conn.old).in_transaction
        → KeepsAll (state S.Store conn.old) (state S.Store conn.new) }
    ensures quiet { IsQuiet (state S.Store conn.old) (state S.Store conn.new) }
    ensures cause { IfErr result (HasCause M.refused M.failed) }
{
    match texts {
        [] => Ok(()),
        [first, rest @ ..] => create_from(memory, conn, first, rest),
    }
}
