//! The table of marks: the imports of all customers.

ghost use Rattle.std.specs.Prelude.{option_map, slice_get, IfErr};
ghost use Rattle.std.specs.FinMap.{get};
ghost use Rattle.sqlite.specs.Held.{state};
ghost use Rattle.hq_rows.specs.Listed.{mark_value};
ghost use Rattle.hq_sql.specs.Causes.{HasCause};
ghost use Rattle.hq_sql.specs.Kept.{Shows, Yields, Writes, Adds, Intact};
ghost use Rattle.hq_sql.specs.Kept.{KeepsCommitted};
ghost use Rattle.hq_sql.specs.Rows.{mark_shown};
ghost use Rattle.hq_sql_lines.specs.Marks.{mark_row, with_mark, without_mark};

use crate::{bind, decode};
use hq_kept::Mark;
use hq_sql::SqliteMemory;
use hq_values::{Label, Name};
use sqlite::{Alter, Connection, Error, Row};

fn query<S: Alter, M: SqliteMemory>(
    memory: M,
    conn: &mut Connection<S>,
    customer: &Name,
    label: &Label,
) -> Result<Vec<Row>, Error>
    ensures found { Shows (state S.Store conn.old) (state S.Store conn.new) result
        (λ rows. option_map (λ r. mark_value (mark_shown r)) (slice_get rows.items 0))
        (λ t. get t.marks (customer.now, label.now)) }
    ensures kept { Intact (state S.Store conn.old) (state S.Store conn.new) result }
    ensures cause { IfErr result (HasCause M.refused M.failed) }
{
    let params = bind::mark_key(customer, label);
    let rows = memory.query_all(
        conn,
        "SELECT customer, label, digest, added, changed, same FROM marks \
         WHERE customer = ?1 AND label = ?2",
        &params,
    )?;
    Ok(rows)
}

/// The customer's mark of this label.
pub fn mark<S: Alter, M: SqliteMemory>(
    memory: M,
    conn: &mut Connection<S>,
    customer: &Name,
    label: &Label,
) -> Result<Option<Mark>, Error>
    ensures found { Yields (state S.Store conn.old) (state S.Store conn.new) result
        (λ t. get t.marks (customer.now, label.now)) }
    ensures kept { Intact (state S.Store conn.old) (state S.Store conn.new) result }
    ensures cause { IfErr result (HasCause M.refused M.failed) }
{
    let rows = query(memory, conn, customer, label)?;
    decode::first_mark(memory, rows.as_slice())
}

/// Drops the mark of a label; nothing where there is none.
fn remove<S: Alter, M: SqliteMemory>(
    memory: M,
    conn: &mut Connection<S>,
    customer: &Name,
    label: &Label,
) -> Result<(), Error>
    ensures made { Writes (state S.Store conn.old) (state S.Store conn.new) result
        (without_mark (customer.now, label.now)) }
    ensures kept { KeepsCommitted (state S.Store conn.old) (state S.Store conn.new) }
    ensures cause { IfErr result (HasCause M.refused M.failed) }
{
    let params = bind::mark_key(customer, label);
    memory.execute(
        conn,
        "DELETE FROM marks WHERE customer = ?1 AND label = ?2",
        &params,
    )?;
    Ok(())
}

/// Adds a mark, and tells whether its label had one: then nothing changed.
fn insert<S: Alter, M: SqliteMemory>(
    memory: M,
    conn: &mut Connection<S>,
    customer: &Name,
    mark: &Mark,
) -> Result<bool, Error>
    ensures made { Adds (state S.Store conn.old) (state S.Store conn.new) result
        (λ t. get t.marks (customer.now, mark.now.label))
        (with_mark (mark_row customer.now mark.now)) }
    ensures kept { KeepsCommitted (state S.Store conn.old) (state S.Store conn.new) }
    ensures cause { IfErr result (HasCause M.refused M.failed) }
{
    let numbers = bind::numbers(memory, mark)?;
    let params = bind::mark(customer, mark, &numbers);
    let there = memory.try_insert(
        conn,
        "INSERT INTO marks (customer, label, digest, added, changed, same) \
         VALUES (?1, ?2, ?3, ?4, ?5, ?6)",
        &params,
    )?;
    Ok(there)
}

/// Sets the mark of its label: a new row replaces the one that is there.
pub fn put<S: Alter, M: SqliteMemory>(
    memory: M,
    conn: &mut Connection<S>,
    customer: &Name,
    mark: &Mark,
) -> Result<(), Error>
    ensures made { Writes (state S.Store conn.old) (state S.Store conn.new) result
        (with_mark (mark_row customer.now mark.now)) }
    ensures kept { KeepsCommitted (state S.Store conn.old) (state S.Store conn.new) }
    ensures cause { IfErr result (HasCause M.refused M.failed) }
{
    if insert(memory, conn, customer, mark)? {
        remove(memory, conn, customer, &mark.label)?;
        insert(memory, conn, customer, mark)?;
    }
    Ok(())
}
