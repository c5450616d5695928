//! Changes, made in the tables of a store.

ghost use Rattle.std.specs.Prelude.{IsTrue, OnOk, ◌∷◌, IfErr};
ghost use Rattle.hq_tables.specs.Tables.{write, write_all};
ghost use Rattle.hq_tables.specs.declared.change.Change.TheVariants.{PutHead, DropMessage};
ghost use Rattle.hq_tables.specs.declared.change.Change.TheVariants.{PutLine, DropLine};
ghost use Rattle.sqlite.specs.Held.{state};
ghost use Rattle.sqlite.specs.State.{HasCleanDisk};
ghost use Rattle.hq_sql.specs.Causes.{HasCause};
ghost use Rattle.hq_sql.specs.Kept.{Writes, KeepsCommitted};
ghost use Rattle.hq_sql.specs.Tables.{tables_in};
ghost use Rattle.hq_sql_open.specs.Transactions.{IsAtRest, Commits};
ghost use Rattle.hq_tables.specs.Sound.{AreCounted};
ghost use Rattle.hq_sql_changes.specs.Accounts.{made_by, made_by_all, made_owing};
ghost use Rattle.hq_sql_changes.specs.Transacted.{KeepsTransaction};

use crate::accounts;
use crate::one_message::{drop_uncounted, put_message, put_uncounted};
use hq_kept::{Head, Line, Pattern};
use hq_sql::{SqliteMemory, heads};
use hq_sql_lines::{lines, marks};
use hq_sql_notices::{ends, notices};
use hq_sql_open::transaction::{begin, commit, sees_database};
use hq_tables::{Account, Change};
use hq_values::{Name, Serial};
use sqlite::{Alter, Connection, Error};

/// Drops the line of a pattern, and counts it no more.
fn drop_line<S: Alter, M: SqliteMemory>(
    memory: M,
    conn: &mut Connection<S>,
    customer: &Name,
    pattern: &Pattern,
) -> Result<(), Error>
    ensures made { Writes (state S.Store conn.old) (state S.Store conn.new) result
        (write customer.now (DropLine pattern.now)) }
    ensures kept { KeepsCommitted (state S.Store conn.old) (state S.Store conn.new) }
    ensures cause { IfErr result (HasCause M.refused M.failed) }
{
    accounts::uncount_line(memory, conn, customer, pattern)?;
    lines::remove(memory, conn, customer, pattern)?;
    Ok(())
}

/// Makes one change.
#[cycle(making)]
fn make<S: Alter, M: SqliteMemory>(
    memory: M,
    conn: &mut Connection<S>,
    customer: &Name,
    change: &Change,
) -> Result<(), Error>
    ensures made { Writes (state S.Store conn.old) (state S.Store conn.new) result
        (made_by customer.now change.now) }
    ensures kept { KeepsCommitted (state S.Store conn.old) (state S.Store conn.new) }
    ensures cause { IfErr result (HasCause M.refused M.failed) }
{
    match change {
        Change::PutHead(head) => make_behind_head(memory, conn, customer, *head, &[]),
        Change::PutMessage(message) => put_message(memory, conn, customer, message),
        Change::DropMessage(serial) => make_behind_drop(memory, conn, customer, *serial, &[]),
        Change::PutLine(line) => make_behind_line(memory, conn, customer, line, &[]),
        Change::DropLine(pattern) => drop_line(memory, conn, customer, pattern),
        Change::PutMark(mark) => marks::put(memory, conn, customer, mark),
        Change::AddNotice(notice) => notices::put(memory, conn, customer, notice),
        Change::DropNoticesBelow(number) => notices::drop_below(memory, conn, customer, *number),
        Change::PutEnds(ends) => ends::put(memory, conn, customer, ends),
        Change::DropEndsTo(number) => ends::drop_to(memory, conn, customer, *number),
    }
}

/// Makes a change, and then others in order. The customer's head row is still to be set to this
/// account: a new head goes into it, and so do the counts that a message or a line changes.
#[cycle(making)]
fn make_owing_from<S: Alter, M: SqliteMemory>(
    memory: M,
    conn: &mut Connection<S>,
    customer: &Name,
    account: Account,
    first: &Change,
    rest: &[Change],
) -> Result<(), Error>
    ensures made { Writes (state S.Store conn.old) (state S.Store conn.new) result
        (made_owing customer.now account (first.now ∷ rest.now)) }
    ensures kept { KeepsCommitted (state S.Store conn.old) (state S.Store conn.new) }
    ensures cause { IfErr result (HasCause M.refused M.failed) }
{
    match first {
        Change::PutHead(head) => {
            let head = *head;
            make_owing(memory, conn, customer, Account { head, ..account }, rest)
        }
        Change::PutMessage(message) => {
            let before = put_uncounted(memory, conn, customer, message)?;
            let after = accounts::with_size(memory, account, before, message.size)?;
            make_owing(memory, conn, customer, after, rest)
        }
        Change::DropMessage(serial) => {
            let before = drop_uncounted(memory, conn, customer, *serial)?;
            let after = accounts::without_size(account, before);
            make_owing(memory, conn, customer, after, rest)
        }
        Change::PutLine(line) => {
            let had = lines::put(memory, conn, customer, line)?;
            let after = accounts::with_line_unless(memory, account, had)?;
            make_owing(memory, conn, customer, after, rest)
        }
        _ => {
            heads::put(memory, conn, customer, &account)?;
            make(memory, conn, customer, first)?;
            make_all(memory, conn, customer, rest)
        }
    }
}

/// Makes all changes in order, where the customer's head row is still to be set to this account. It
/// is written once, behind those that change the account.
#[cycle(making)]
pub(crate) fn make_owing<S: Alter, M: SqliteMemory>(
    memory: M,
    conn: &mut Connection<S>,
    customer: &Name,
    account: Account,
    changes: &[Change],
) -> Result<(), Error>
    ensures made { Writes (state S.Store conn.old) (state S.Store conn.new) result
        (made_owing customer.now account changes.now) }
    ensures kept { KeepsCommitted (state S.Store conn.old) (state S.Store conn.new) }
    ensures cause { IfErr result (HasCause M.refused M.failed) }
{
    match changes {
        [] => heads::put(memory, conn, customer, &account),
        [first, rest @ ..] => make_owing_from(memory, conn, customer, account, first, rest),
    }
}

/// Drops a message, and then makes all changes in order. Where there is none, nothing is owed.
#[cycle(making)]
fn make_behind_drop<S: Alter, M: SqliteMemory>(
    memory: M,
    conn: &mut Connection<S>,
    customer: &Name,
    serial: Serial,
    rest: &[Change],
) -> Result<(), Error>
    ensures made { Writes (state S.Store conn.old) (state S.Store conn.new) result
        (made_by_all customer.now (DropMessage serial ∷ rest.now)) }
    ensures kept { KeepsCommitted (state S.Store conn.old) (state S.Store conn.new) }
    ensures cause { IfErr result (HasCause M.refused M.failed) }
{
    let Some(size) = drop_uncounted(memory, conn, customer, serial)? else {
        return make_all(memory, conn, customer, rest);
    };
    let fewer = accounts::account(memory, conn, customer)?.without_message(size);
    make_owing(memory, conn, customer, fewer, rest)
}

/// Puts a line, and then makes all changes in order. Where its pattern had one, nothing is owed.
#[cycle(making)]
fn make_behind_line<S: Alter, M: SqliteMemory>(
    memory: M,
    conn: &mut Connection<S>,
    customer: &Name,
    line: &Line,
    rest: &[Change],
) -> Result<(), Error>
    ensures made { Writes (state S.Store conn.old) (state S.Store conn.new) result
        (made_by_all customer.now (PutLine line.now ∷ rest.now)) }
    ensures kept { KeepsCommitted (state S.Store conn.old) (state S.Store conn.new) }
    ensures cause { IfErr result (HasCause M.refused M.failed) }
{
    if lines::put(memory, conn, customer, line)? {
        make_all(memory, conn, customer, rest)
    } else {
        let kept = accounts::account(memory, conn, customer)?;
        let more = accounts::one_line_more(memory, kept)?;
        make_owing(memory, conn, customer, more, rest)
    }
}

/// Sets the head, and then makes all changes in order. The head row is owed to those behind it.
#[cycle(making)]
fn make_behind_head<S: Alter, M: SqliteMemory>(
    memory: M,
    conn: &mut Connection<S>,
    customer: &Name,
    head: Head,
    rest: &[Change],
) -> Result<(), Error>
    ensures made { Writes (state S.Store conn.old) (state S.Store conn.new) result
        (made_by_all customer.now (PutHead head ∷ rest.now)) }
    ensures kept { KeepsCommitted (state S.Store conn.old) (state S.Store conn.new) }
    ensures cause { IfErr result (HasCause M.refused M.failed) }
{
    let kept = accounts::account(memory, conn, customer)?;
    make_owing(memory, conn, customer, Account { head, ..kept }, rest)
}

/// Makes all changes in order, up to the first that fails. From a head, a dropped message or a new
/// line on, the head row is owed. A change that stands alone is made by itself.
#[cycle(making)]
pub(crate) fn make_all<S: Alter, M: SqliteMemory>(
    memory: M,
    conn: &mut Connection<S>,
    customer: &Name,
    changes: &[Change],
) -> Result<(), Error>
    ensures made { IsTrue (state S.Store conn.old).is_open
        → Writes (state S.Store conn.old) (state S.Store conn.new) result
        (made_by_all customer.now changes.now) }
    ensures kept { KeepsCommitted (state S.Store conn.old) (state S.Store conn.new) }
    ensures cause { IfErr result (HasCause M.refused M.failed) }
{
    match changes {
        [] => Ok(()),
        [one] => make(memory, conn, customer, one),
        [first, rest @ ..] => match first {
            Change::PutHead(head) => make_behind_head(memory, conn, customer, *head, rest),
            Change::DropMessage(serial) => make_behind_drop(memory, conn, customer, *serial, rest),
            Change::PutLine(line) => make_behind_line(memory, conn, customer, line, rest),
            _ => {
                make(memory, conn, customer, first)?;
                make_all(memory, conn, customer, rest)
            }
        },
    }
}
