//! Pages of lines, in the order of the bytes of the class's name and then of the pattern. The rows
//! are lent one after another, and nothing is held here but the page.

ghost use Rattle.std.specs.Prelude.{◌≡◌, Some, [], ◌∷◌, ◌++◌, option_map, take, IfErr};
ghost use Rattle.sqlite.specs.Held.{state};
ghost use Rattle.hq_tables.specs.Readings.{read_tables, after_pattern};
ghost use Rattle.hq_sql.specs.Causes.{HasCause};
ghost use Rattle.hq_sql.specs.Kept.{Yields, Intact};
ghost use Rattle.hq_sql_lines.specs.LinePages.{page_line};

use crate::{bind, decode};
use hq_kept::{Line, Pattern};
use hq_sql::lent::Taker;
use hq_sql::{SqliteMemory, lent};
use hq_values::{Items, Name};
use sqlite::{Alter, Connection, Error, Row};

/// The lines of the rows so far.
#[derive(Drop)]
struct TakenLines {
    lines: Vec<Line>,
}

impl Taker for TakenLines {
    ghost takes = { λ before row after.
        after.lines.items ≡ before.lines.items ++ page_line row ∷ [] };

    fn take<M: SqliteMemory>(&mut self, memory: M, row: &Row) -> Result<(), Error> {
        let line = decode::line(memory, row)?;
        memory.push(&mut self.lines, line)?;
        Ok(())
    }
}

/// The customer's first lines.
fn first<S: Alter, M: SqliteMemory>(
    memory: M,
    conn: &mut Connection<S>,
    customer: &Name,
    limit: usize,
) -> Result<Items<Line>, Error>
    ensures found { Yields (state S.Store conn.old) (state S.Store conn.new) result
        (λ t. take limit (read_tables customer.now t).lines) }
    ensures kept { Intact (state S.Store conn.old) (state S.Store conn.new) result }
    ensures cause { IfErr result (HasCause M.refused M.failed) }
{
    let most = hq_sql::bind::limit(memory, limit)?;
    let params = bind::first_lines(customer, &most);
    let lines = memory.none();
    let taken = lent::walk(
        memory,
        conn,
        "SELECT customer, class, pattern, action FROM lines \
         WHERE customer = ?1 ORDER BY customer, class, pattern LIMIT ?2",
        &params,
        TakenLines { lines },
    )?;
    Ok(Items::from_vec(taken.lines))
}

/// The customer's first lines after a pattern.
fn following<S: Alter, M: SqliteMemory>(
    memory: M,
    conn: &mut Connection<S>,
    customer: &Name,
    last: &Pattern,
    limit: usize,
) -> Result<Items<Line>, Error>
    ensures found { Yields (state S.Store conn.old) (state S.Store conn.new) result
        (λ t. take limit (after_pattern (Some last.now) (read_tables customer.now t).lines)) }
    ensures kept { Intact (state S.Store conn.old) (state S.Store conn.new) result }
    ensures cause { IfErr result (HasCause M.refused M.failed) }
{
    let most = hq_sql::bind::limit(memory, limit)?;
    let params = bind::lines_after(customer, last, &most);
    let lines = memory.none();
    let taken = lent::walk(
        memory,
        conn,
        "SELECT customer, class, pattern, action FROM lines \
         WHERE customer = ?1 AND (class > ?2 OR class = ?2 AND pattern > ?3) \
         ORDER BY customer, class, pattern LIMIT ?4",
        &params,
        TakenLines { lines },
    )?;
    Ok(Items::from_vec(taken.lines))
}

/// The customer's lines after a pattern, or all, in the order of the bytes of the class's name and
/// then of the pattern: at most `limit` of them. A limit of 2^63 or more is an error.
pub fn page<S: Alter, M: SqliteMemory>(
    memory: M,
    conn: &mut Connection<S>,
    customer: &Name,
    after: Option<&Pattern>,
    limit: usize,
) -> Result<Items<Line>, Error>
    ensures found { Yields (state S.Store conn.old) (state S.Store conn.new) result
        (λ t. take limit (after_pattern
        (option_map (λ p. p.now) after.entry) (read_tables customer.now t).lines)) }
    ensures kept { Intact (state S.Store conn.old) (state S.Store conn.new) result }
    ensures cause { IfErr result (HasCause M.refused M.failed) }
{
    match after {
        None => first(memory, conn, customer, limit),
        Some(last) => following(memory, conn, customer, last, limit),
    }
}
