//! Head rows: read with what stands for one that is missing, and counted up and down.

ghost use Rattle.std.specs.Prelude.{◌≡◌, IfErr};
ghost use Rattle.std.specs.FinMap.{get};
ghost use Rattle.hq_tables.specs.Tables.{account, recounted, with_line};
ghost use Rattle.sqlite.specs.Held.{state};
ghost use Rattle.hq_sql.specs.Causes.{EndsSo, HasCause};
ghost use Rattle.hq_sql.specs.Kept.{Yields, Writes, Intact, KeepsCommitted};
ghost use Rattle.hq_sql_changes.specs.Accounts.{counted_message, uncounted_line};
ghost use Rattle.hq_sql_changes.specs.Accounts.{resized_message, recounted_message, TellsFree};
ghost use Rattle.hq_sql_changes.specs.Accounts.{sized, unsized, lined};

use hq_kept::Pattern;
use hq_sql::{Limits, SqliteMemory, heads};
use hq_sql_lines::lines;
use hq_sql_messages::messages;
use hq_tables::Account;
use hq_values::{Name, Serial};
use sqlite::{Alter, Connection, Error};

/// The error of a count above 64 bits, which fits no column. No sound table has one.
fn too_many<M: SqliteMemory>(memory: M) -> Error
    ensures { HasCause M.refused M.failed result }
{
    memory.outside(Limits::Column, u64::MAX)
}

/// The customer's head and counts, or those of a customer of whom nothing is kept.
pub fn account<S: Alter, M: SqliteMemory>(
    memory: M,
    conn: &mut Connection<S>,
    customer: &Name,
) -> Result<Account, Error>
    ensures found { Yields (state S.Store conn.old) (state S.Store conn.new) result
        (λ t. account t.heads customer.now) }
    ensures kept { Intact (state S.Store conn.old) (state S.Store conn.new) result }
    ensures cause { IfErr result (HasCause M.refused M.failed) }
{
    match heads::account(memory, conn, customer)? {
        Some(account) => Ok(account),
        None => Ok(Account::opening()),
    }
}

/// Counts one message more.
fn count_message<S: Alter, M: SqliteMemory>(
    memory: M,
    conn: &mut Connection<S>,
    customer: &Name,
    size: u32,
) -> Result<(), Error>
    ensures made { Writes (state S.Store conn.old) (state S.Store conn.new) result
        (counted_message customer.now size) }
    ensures kept { KeepsCommitted (state S.Store conn.old) (state S.Store conn.new) }
    ensures cause { IfErr result (HasCause M.refused M.failed) }
{
    let kept = account(memory, conn, customer)?;
    let Some(more) = kept.with_message(size) else {
        return Err(too_many(memory));
    };
    heads::put(memory, conn, customer, &more)?;
    Ok(())
}

/// Counts a message as one of this size, which was counted as one of another.
fn resize_message<S: Alter, M: SqliteMemory>(
    memory: M,
    conn: &mut Connection<S>,
    customer: &Name,
    before: u32,
    size: u32,
) -> Result<(), Error>
    ensures made { Writes (state S.Store conn.old) (state S.Store conn.new) result
        (resized_message customer.now before size) }
    ensures kept { KeepsCommitted (state S.Store conn.old) (state S.Store conn.new) }
    ensures cause { IfErr result (HasCause M.refused M.failed) }
{
    let kept = account(memory, conn, customer)?;
    let fewer = kept.without_message(before);
    let Some(more) = fewer.with_message(size) else {
        return Err(too_many(memory));
    };
    heads::put(memory, conn, customer, &more)?;
    Ok(())
}

/// Counts the message of this serial as one of this size, before it is put, and tells whether it
/// has a row. Where it has one of this size already, nothing is written.
pub(crate) fn recount_message<S: Alter, M: SqliteMemory>(
    memory: M,
    conn: &mut Connection<S>,
    customer: &Name,
    serial: Serial,
    size: u32,
) -> Result<bool, Error>
    ensures made { Writes (state S.Store conn.old) (state S.Store conn.new) result
        (recounted_message customer.now serial size) }
    ensures told { TellsFree (state S.Store conn.old) (state S.Store conn.new) result
        (λ t. get t.messages (customer.now, serial)) }
    ensures kept { KeepsCommitted (state S.Store conn.old) (state S.Store conn.new) }
    ensures cause { IfErr result (HasCause M.refused M.failed) }
{
    let Some(before) = messages::size(memory, conn, customer, serial)? else {
        count_message(memory, conn, customer, size)?;
        return Ok(false);
    };
    if before == size {
        return Ok(true);
    }
    resize_message(memory, conn, customer, before, size)?;
    Ok(true)
}

/// The account once a message is counted in it with this size; it was counted with the size
/// before, where it has one.
pub(crate) fn with_size<M: SqliteMemory>(
    memory: M,
    account: Account,
    before: Option<u32>,
    size: u32,
) -> Result<Account, Error>
    ensures { EndsSo M.refused M.failed result (λ more. more ≡ sized size account before) }
{
    if before == Some(size) {
        return Ok(account);
    }
    match without_size(account, before).with_message(size) {
        Some(more) => Ok(more),
        None => Err(too_many(memory)),
    }
}

/// The account once a message is counted in it no more, where it was counted with a size.
pub(crate) fn without_size(account: Account, before: Option<u32>) -> Account
    ensures { result ≡ unsized account before }
{
    match before {
        Some(size) => account.without_message(size),
        None => account,
    }
}

/// The account once one line more is counted in it.
pub(crate) fn one_line_more<M: SqliteMemory>(memory: M, account: Account) -> Result<Account, Error>
    ensures { EndsSo M.refused M.failed result (λ more. more ≡ recounted with_line account) }
{
    match account.with_line() {
        Some(more) => Ok(more),
        None => Err(too_many(memory)),
    }
}

/// The account once a line is put, which is counted already where its pattern had one.
pub(crate) fn with_line_unless<M: SqliteMemory>(
    memory: M,
    account: Account,
    had: bool,
) -> Result<Account, Error>
    ensures { EndsSo M.refused M.failed result (λ more. more ≡ lined account had) }
{
    if had {
        return Ok(account);
    }
    one_line_more(memory, account)
}

/// Counts one line fewer, where there is one of this pattern.
pub(crate) fn uncount_line<S: Alter, M: SqliteMemory>(
    memory: M,
    conn: &mut Connection<S>,
    customer: &Name,
    pattern: &Pattern,
) -> Result<(), Error>
    ensures made { Writes (state S.Store conn.old) (state S.Store conn.new) result
        (uncounted_line customer.now pattern.now) }
    ensures kept { KeepsCommitted (state S.Store conn.old) (state S.Store conn.new) }
    ensures cause { IfErr result (HasCause M.refused M.failed) }
{
    if !lines::has(memory, conn, customer, pattern)? {
        return Ok(());
    }
    let fewer = account(memory, conn, customer)?.without_line();
    heads::put(memory, conn, customer, &fewer)?;
    Ok(())
}
