//! Pages of histories, the newest first. The rows are lent one after another, and nothing is held
//! here but the page.

ghost use Rattle.std.specs.Prelude.{◌≡◌, [], ◌∷◌, ◌++◌, Some, None, take, IfErr};
ghost use Rattle.sqlite.specs.Held.{state};
ghost use Rattle.hq_tables.specs.Readings.{read_tables, before_end};
ghost use Rattle.hq_sql.specs.Causes.{HasCause};
ghost use Rattle.hq_sql.specs.Kept.{Yields, Intact};
ghost use Rattle.hq_sql_notices.specs.Ends.{end_in};

use crate::{end_rows, end_values, numbered};
use hq_kept::End;
use hq_sql::SqliteMemory;
use hq_sql::bind::limit as row_limit;
use hq_sql::lent::{Taker, walk};
use hq_values::{Items, Name};
use sqlite::{Alter, Connection, Error, Row};

/// The ends of the rows so far.
#[derive(Drop)]
struct TakenEnds {
    ends: Vec<End>,
}

impl Taker for TakenEnds {
    ghost takes = { λ before row after.
        after.ends.items ≡ before.ends.items ++ end_in row ∷ [] };

    fn take<M: SqliteMemory>(&mut self, memory: M, row: &Row) -> Result<(), Error> {
        let end = end_rows::end(memory, row)?;
        memory.push(&mut self.ends, end)?;
        Ok(())
    }
}

/// The customer's newest ends, at most `limit` of them. A limit of 2^63 or more is an error.
fn newest<S: Alter, M: SqliteMemory>(
    memory: M,
    conn: &mut Connection<S>,
    customer: &Name,
    limit: usize,
) -> Result<Items<End>, Error>
    ensures found { Yields (state S.Store conn.old) (state S.Store conn.new) result
        (λ t. take limit (before_end None (read_tables customer.now t).ends)) }
    ensures kept { Intact (state S.Store conn.old) (state S.Store conn.new) result }
    ensures cause { IfErr result (HasCause M.refused M.failed) }
{
    let most = row_limit(memory, limit)?;
    let params = end_values::newest(customer, &most);
    let ends = memory.none();
    let taken = walk(
        memory,
        conn,
        "SELECT customer, number, moment, serial, sender, recipient, fate, status, reason \
         FROM ends WHERE customer = ?1 ORDER BY customer, number DESC LIMIT ?2",
        &params,
        TakenEnds { ends },
    )?;
    Ok(Items::from_vec(taken.ends))
}

/// Those before a number.
fn earlier<S: Alter, M: SqliteMemory>(
    memory: M,
    conn: &mut Connection<S>,
    customer: &Name,
    before: u64,
    limit: usize,
) -> Result<Items<End>, Error>
    ensures found { Yields (state S.Store conn.old) (state S.Store conn.new) result
        (λ t. take limit (before_end (Some before) (read_tables customer.now t).ends)) }
    ensures kept { Intact (state S.Store conn.old) (state S.Store conn.new) result }
    ensures cause { IfErr result (HasCause M.refused M.failed) }
{
    let last = numbered::number(memory, before)?;
    let most = row_limit(memory, limit)?;
    let params = end_values::page(customer, &last, &most);
    let ends = memory.none();
    let taken = walk(
        memory,
        conn,
        "SELECT customer, number, moment, serial, sender, recipient, fate, status, reason \
         FROM ends WHERE customer = ?1 AND number < ?2 ORDER BY customer, number DESC LIMIT ?3",
        &params,
        TakenEnds { ends },
    )?;
    Ok(Items::from_vec(taken.ends))
}

/// The customer's ends before a number, or all, the newest first: at most `limit` of them. A number
/// or a limit of 2^63 or more is an error.
pub fn page<S: Alter, M: SqliteMemory>(
    memory: M,
    conn: &mut Connection<S>,
    customer: &Name,
    before: Option<u64>,
    limit: usize,
) -> Result<Items<End>, Error>
    ensures found { Yields (state S.Store conn.old) (state S.Store conn.new) result
        (λ t. take limit (before_end before (read_tables customer.now t).ends)) }
    ensures kept { Intact (state S.Store conn.old) (state S.Store conn.new) result }
    ensures cause { IfErr result (HasCause M.refused M.failed) }
{
    match before {
        None => newest(memory, conn, customer, limit),
        Some(number) => earlier(memory, conn, customer, number, limit),
    }
}
