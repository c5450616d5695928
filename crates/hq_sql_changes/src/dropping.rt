//! All messages of a customer, dropped in sets: their rows, their recipients and their reasons.

ghost use Rattle.std.specs.Prelude.{◌≡◌, IfErr, IsTrue};
ghost use Rattle.sqlite.specs.Held.{state};
ghost use Rattle.hq_sql.specs.Causes.{HasCause};
ghost use Rattle.hq_sql.specs.Kept.{KeepsCommitted, Writes};
ghost use Rattle.hq_sql_changes.specs.Accounts.{made_by_all};
ghost use Rattle.hq_sql_changes.specs.Dropped.{all_dropped, emptied, without_rows_of};

use crate::changes::{make_all, make_owing};
use hq_kept::Counts;
use hq_sql::{SqliteMemory, heads};
use hq_sql_messages::{holds, moves};
use hq_sql_recipients::recipients;
use hq_tables::{Account, Change};
use hq_values::Name;
use sqlite::{Alter, Connection, Error};

/// The account once no message is counted in it.
fn without_messages(account: Account) -> Account
    ensures { result ≡ emptied account }
{
    let counts = Counts {
        messages: 0,
        bytes: 0,
        ..account.counts
    };
    Account { counts, ..account }
}

/// Drops all rows of all messages of the customer, which stay counted.
fn drop_all_rows<S: Alter, M: SqliteMemory>(
    memory: M,
    conn: &mut Connection<S>,
    customer: &Name,
) -> Result<(), Error>
    ensures made { Writes (state S.Store conn.old) (state S.Store conn.new) result
        (without_rows_of customer.now) }
    ensures kept { KeepsCommitted (state S.Store conn.old) (state S.Store conn.new) }
    ensures cause { IfErr result (HasCause M.refused M.failed) }
{
    moves::remove_all(memory, conn, customer)?;
    recipients::remove_all(memory, conn, customer)?;
    holds::remove_all(memory, conn, customer)
}

/// Drops all messages of the customer, and then makes these changes in order, up to the first
/// statement that fails. The head row is written once, with what these changes make of it.
pub(crate) fn drop_all_then<S: Alter, M: SqliteMemory>(
    memory: M,
    conn: &mut Connection<S>,
    customer: &Name,
    more: &[Change],
) -> Result<(), Error>
    ensures made { IsTrue (state S.Store conn.old).is_open
        → Writes (state S.Store conn.old) (state S.Store conn.new) result
        (λ t. made_by_all customer.now more.now (all_dropped customer.now t)) }
    ensures kept { KeepsCommitted (state S.Store conn.old) (state S.Store conn.new) }
    ensures cause { IfErr result (HasCause M.refused M.failed) }
{
    drop_all_rows(memory, conn, customer)?;
    match heads::account(memory, conn, customer)? {
        Some(account) => make_owing(memory, conn, customer, without_messages(account), more),
        None => make_all(memory, conn, customer, more),
    }
}
