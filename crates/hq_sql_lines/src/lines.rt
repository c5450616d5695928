//! The table of lines: the access tables of all customers.

ghost use Rattle.std.specs.Prelude.{◌≡◌, option_map, slice_get, is_some, string_bytes, IfErr};
ghost use Rattle.std.specs.FinMap.{get};
ghost use Rattle.sqlite.specs.Held.{state};
ghost use Rattle.hq_kept.specs.Actions.{action_text};
ghost use Rattle.hq_rows.specs.Listed.{line_row_value};
ghost use Rattle.hq_sql.specs.Causes.{EndsSo, HasCause};
ghost use Rattle.hq_sql.specs.Kept.{Shows, Yields, Writes, Inserts, Updates, Intact};
ghost use Rattle.hq_sql.specs.Kept.{KeepsCommitted};
ghost use Rattle.hq_sql_lines.specs.Lines.{line_row, tables_with_line, tables_without_line};
ghost use Rattle.hq_sql.specs.Rows.{line_shown};

use crate::{bind, decode};
use hq_kept::{Action, Class, Line, LookupKey, Pattern};
use hq_sql::SqliteMemory;
use hq_values::Name;
use sqlite::{Alter, Connection, Error, ErrorCode, Row};

fn query<S: Alter, M: SqliteMemory>(
    memory: M,
    conn: &mut Connection<S>,
    customer: &Name,
    class: Class,
    key: &str,
) -> Result<Vec<Row>, Error>
    ensures found { Shows (state S.Store conn.old) (state S.Store conn.new) result
        (λ rows. option_map (λ r. line_row_value (line_shown r)) (slice_get rows.items 0))
        (λ t. get t.lines (customer.now, (class, key.now))) }
    ensures kept { Intact (state S.Store conn.old) (state S.Store conn.new) result }
    ensures cause { IfErr result (HasCause M.refused M.failed) }
{
    let params = bind::line_key(customer, class, key);
    let rows = memory.query_all(
        conn,
        "SELECT customer, class, pattern, action FROM lines \
         WHERE customer = ?1 AND class = ?2 AND pattern = ?3",
        &params,
    )?;
    Ok(rows)
}

/// The action of the customer's line of this class, at this key.
pub fn line<S: Alter, M: SqliteMemory>(
    memory: M,
    conn: &mut Connection<S>,
    customer: &Name,
    class: Class,
    key: &LookupKey,
) -> Result<Option<Action>, Error>
    ensures found { Yields (state S.Store conn.old) (state S.Store conn.new) result
        (λ t. get t.lines (customer.now, (class, key.now))) }
    ensures kept { Intact (state S.Store conn.old) (state S.Store conn.new) result }
    ensures cause { IfErr result (HasCause M.refused M.failed) }
{
    let rows = query(memory, conn, customer, class, key.as_str())?;
    decode::first_action(memory, rows.as_slice())
}

/// Whether the customer has a line of this pattern.
pub fn has<S: Alter, M: SqliteMemory>(
    memory: M,
    conn: &mut Connection<S>,
    customer: &Name,
    pattern: &Pattern,
) -> Result<bool, Error>
    ensures found { Yields (state S.Store conn.old) (state S.Store conn.new) result
        (λ t. is_some (get t.lines (customer.now, pattern.now))) }
    ensures kept { Intact (state S.Store conn.old) (state S.Store conn.new) result }
    ensures cause { IfErr result (HasCause M.refused M.failed) }
{
    let rows = query(memory, conn, customer, pattern.class(), pattern.as_str())?;
    Ok(decode::has_first(rows.as_slice()))
}

/// The written form of an action.
fn written<M: SqliteMemory>(memory: M, action: &Action) -> Result<String, Error>
    ensures { EndsSo M.refused M.failed result
        (λ text. string_bytes text ≡ action_text action.now) }
{
    match action.text(memory) {
        Ok(text) => Ok(text),
        Err(_) => Err(Error::SqliteFailure(ErrorCode::OutOfMemory)),
    }
}

/// Sets the action of the customer's line of this pattern, and tells whether there is one.
fn update<S: Alter, M: SqliteMemory>(
    memory: M,
    conn: &mut Connection<S>,
    customer: &Name,
    line: &Line,
) -> Result<bool, Error>
    ensures made { Updates (state S.Store conn.old) (state S.Store conn.new) result
        (λ t. get t.lines (customer.now, line.now.pattern))
        (tables_with_line (line_row customer.now line.now)) }
    ensures kept { KeepsCommitted (state S.Store conn.old) (state S.Store conn.new) }
    ensures cause { IfErr result (HasCause M.refused M.failed) }
{
    let action = written(memory, &line.action)?;
    let params = bind::line(
        customer,
        line.pattern.class(),
        line.pattern.as_str(),
        action.as_str(),
    );
    let count = memory.execute(
        conn,
        "UPDATE lines SET action = ?4 WHERE customer = ?1 AND class = ?2 AND pattern = ?3",
        &params,
    )?;
    Ok(count != 0)
}

/// Adds a line of a new pattern.
fn insert<S: Alter, M: SqliteMemory>(
    memory: M,
    conn: &mut Connection<S>,
    customer: &Name,
    line: &Line,
) -> Result<(), Error>
    ensures made { Inserts (state S.Store conn.old) (state S.Store conn.new) result
        (λ t. get t.lines (customer.now, line.now.pattern))
        (tables_with_line (line_row customer.now line.now)) }
    ensures kept { KeepsCommitted (state S.Store conn.old) (state S.Store conn.new) }
    ensures cause { IfErr result (HasCause M.refused M.failed) }
{
    let action = written(memory, &line.action)?;
    let params = bind::line(
        customer,
        line.pattern.class(),
        line.pattern.as_str(),
        action.as_str(),
    );
    memory.execute(
        conn,
        "INSERT INTO lines (customer, class, pattern, action) VALUES (?1, ?2, ?3, ?4)",
        &params,
    )?;
    Ok(())
}

/// Sets the line of its pattern, in the row that is there or a new one, and tells whether the
/// pattern had a line before.
pub fn put<S: Alter, M: SqliteMemory>(
    memory: M,
    conn: &mut Connection<S>,
    customer: &Name,
    line: &Line,
) -> Result<bool, Error>
    ensures made { Writes (state S.Store conn.old) (state S.Store conn.new) result
        (tables_with_line (line_row customer.now line.now)) }
    ensures told { Yields (state S.Store conn.old) (state S.Store conn.new) result
        (λ t. is_some (get t.lines (customer.now, line.now.pattern))) }
    ensures kept { KeepsCommitted (state S.Store conn.old) (state S.Store conn.new) }
    ensures cause { IfErr result (HasCause M.refused M.failed) }
{
    if update(memory, conn, customer, line)? {
        return Ok(true);
    }
    insert(memory, conn, customer, line)?;
    Ok(false)
}

/// Drops the line of a pattern; nothing where there is none.
pub fn remove<S: Alter, M: SqliteMemory>(
    memory: M,
    conn: &mut Connection<S>,
    customer: &Name,
    pattern: &Pattern,
) -> Result<(), Error>
    ensures made { Writes (state S.Store conn.old) (state S.Store conn.new) result
        (tables_without_line (customer.now, pattern.now)) }
    ensures kept { KeepsCommitted (state S.Store conn.old) (state S.Store conn.new) }
    ensures cause { IfErr result (HasCause M.refused M.failed) }
{
    let params = bind::line_key(customer, pattern.class(), pattern.as_str());
    memory.execute(
        conn,
        "DELETE FROM lines WHERE customer = ?1 AND class = ?2 AND pattern = ?3",
        &params,
    )?;
    Ok(())
}
