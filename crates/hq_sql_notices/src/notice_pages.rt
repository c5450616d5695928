//! Pages of notices, in order of number. The rows are lent one after another, and nothing is held
//! here but the page.

ghost use Rattle.std.specs.Prelude.{◌≡◌, [], ◌∷◌, ◌++◌, take, IfErr};
ghost use Rattle.sqlite.specs.Held.{state};
ghost use Rattle.hq_tables.specs.Readings.{read_tables, after_number};
ghost use Rattle.hq_sql.specs.Causes.{HasCause};
ghost use Rattle.hq_sql.specs.Kept.{Yields, Intact};
ghost use Rattle.hq_sql_notices.specs.Notices.{notice_in};

use crate::{notice_rows, notice_values};
use hq_kept::Notice;
use hq_sql::SqliteMemory;
use hq_sql::bind::limit as row_limit;
use hq_sql::lent::{Taker, walk};
use hq_values::{Items, Name};
use sqlite::{Alter, Connection, Error, Row};

/// The notices of the rows so far.
#[derive(Drop)]
struct TakenNotices {
    notices: Vec<Notice>,
}

impl Taker for TakenNotices {
    ghost takes = { λ before row after.
        after.notices.items ≡ before.notices.items ++ notice_in row ∷ [] };

    fn take<M: SqliteMemory>(&mut self, memory: M, row: &Row) -> Result<(), Error> {
        let notice = notice_rows::notice(memory, row)?;
        memory.push(&mut self.notices, notice)?;
        Ok(())
    }
}

/// The customer's notices after a number, or all, in order of number: at most `limit` of them. A
/// number or a limit of 2^63 or more is an error.
pub fn page<S: Alter, M: SqliteMemory>(
    memory: M,
    conn: &mut Connection<S>,
    customer: &Name,
    after: Option<u64>,
    limit: usize,
) -> Result<Items<Notice>, Error>
    ensures found { Yields (state S.Store conn.old) (state S.Store conn.new) result
        (λ t. take limit (after_number after (read_tables customer.now t).notices)) }
    ensures kept { Intact (state S.Store conn.old) (state S.Store conn.new) result }
    ensures cause { IfErr result (HasCause M.refused M.failed) }
{
    let from = notice_values::after(memory, after)?;
    let most = row_limit(memory, limit)?;
    let params = notice_values::page(customer, &from, &most);
    let notices = memory.none();
    let taken = walk(
        memory,
        conn,
        "SELECT customer, number, kind, serial, moment, sender, human, status FROM notices \
         WHERE customer = ?1 AND number > ?2 ORDER BY customer, number LIMIT ?3",
        &params,
        TakenNotices { notices },
    )?;
    Ok(Items::from_vec(taken.notices))
}
