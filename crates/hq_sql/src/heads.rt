//! The table of heads: a customer's head, and how much it keeps.

ghost use Rattle.std.specs.Prelude.{option_map, slice_get, IfErr};
ghost use Rattle.std.specs.FinMap.{get};
ghost use Rattle.sqlite.specs.Held.{state};
ghost use Rattle.hq_rows.specs.Listed.{head_value};
ghost use Rattle.hq_sql.specs.Causes.{HasCause};
ghost use Rattle.hq_sql.specs.Rows.{head_shown};
ghost use Rattle.hq_sql.specs.Heads.{with_account};
ghost use Rattle.hq_sql.specs.Kept.{Shows, Yields, Writes, Inserts, Updates, Intact};
ghost use Rattle.hq_sql.specs.Kept.{KeepsCommitted};

use crate::memory::SqliteMemory;
use crate::{bind, decode};
use hq_tables::Account;
use hq_values::Name;
use sqlite::{Alter, Connection, Error, Row};

fn query<S: Alter, M: SqliteMemory>(
    memory: M,
    conn: &mut Connection<S>,
    customer: &Name,
) -> Result<Vec<Row>, Error>
    ensures found { Shows (state S.Store conn.old) (state S.Store conn.new) result
        (λ rows. option_map (λ r. head_value (head_shown r)) (slice_get rows.items 0))
        (λ t. get t.heads customer.now) }
    ensures kept { Intact (state S.Store conn.old) (state S.Store conn.new) result }
    ensures cause { IfErr result (HasCause M.refused M.failed) }
{
    let params = bind::customer(customer);
    let rows = memory.query_all(
        conn,
        "SELECT customer, next_serial, next_notice, accepted, delivered, failed, deleted, expired, \
         messages, bytes, lines FROM heads WHERE customer = ?1",
        &params,
    )?;
    Ok(rows)
}

/// The customer's head with its counts, where it has a row.
pub fn account<S: Alter, M: SqliteMemory>(
    memory: M,
    conn: &mut Connection<S>,
    customer: &Name,
) -> Result<Option<Account>, Error>
    ensures found { Yields (state S.Store conn.old) (state S.Store conn.new) result
        (λ t. get t.heads customer.now) }
    ensures kept { Intact (state S.Store conn.old) (state S.Store conn.new) result }
    ensures cause { IfErr result (HasCause M.refused M.failed) }
{
    let rows = query(memory, conn, customer)?;
    decode::first_account(memory, rows.as_slice())
}

/// Sets all columns of the customer's row, and tells whether it has one.
fn update<S: Alter, M: SqliteMemory>(
    memory: M,
    conn: &mut Connection<S>,
    customer: &Name,
    account: &Account,
) -> Result<bool, Error>
    ensures made { Updates (state S.Store conn.old) (state S.Store conn.new) result
        (λ t. get t.heads customer.now) (with_account customer.now account.now) }
    ensures kept { KeepsCommitted (state S.Store conn.old) (state S.Store conn.new) }
    ensures cause { IfErr result (HasCause M.refused M.failed) }
{
    let numbers = bind::numbers(memory, account)?;
    let params = bind::head(customer, &numbers);
    let count = memory.execute(
        conn,
        "UPDATE heads SET next_serial = ?2, next_notice = ?3, accepted = ?4, delivered = ?5, \
         failed = ?6, deleted = ?7, expired = ?8, messages = ?9, bytes = ?10, lines = ?11 \
         WHERE customer = ?1",
        &params,
    )?;
    Ok(count != 0)
}

/// Adds the customer's first row.
fn insert<S: Alter, M: SqliteMemory>(
    memory: M,
    conn: &mut Connection<S>,
    customer: &Name,
    account: &Account,
) -> Result<(), Error>
    ensures made { Inserts (state S.Store conn.old) (state S.Store conn.new) result
        (λ t. get t.heads customer.now) (with_account customer.now account.now) }
    ensures kept { KeepsCommitted (state S.Store conn.old) (state S.Store conn.new) }
    ensures cause { IfErr result (HasCause M.refused M.failed) }
{
    let numbers = bind::numbers(memory, account)?;
    let params = bind::head(customer, &numbers);
    memory.execute(
        conn,
        "INSERT INTO heads (customer, next_serial, next_notice, accepted, delivered, failed, \
         deleted, expired, messages, bytes, lines) \
         VALUES (?1, ?2, ?3, ?4, ?5, ?6, ?7, ?8, ?9, ?10, ?11)",
        &params,
    )?;
    Ok(())
}

/// Sets the customer's head and counts, in the row that it has or a new one.
pub fn put<S: Alter, M: SqliteMemory>(
    memory: M,
    conn: &mut Connection<S>,
    customer: &Name,
    account: &Account,
) -> Result<(), Error>
    ensures made { Writes (state S.Store conn.old) (state S.Store conn.new) result
        (with_account customer.now account.now) }
    ensures kept { KeepsCommitted (state S.Store conn.old) (state S.Store conn.new) }
    ensures cause { IfErr result (HasCause M.refused M.failed) }
{
    if !update(memory, conn, customer, account)? {
        insert(memory, conn, customer, account)?;
    }
    Ok(())
}
