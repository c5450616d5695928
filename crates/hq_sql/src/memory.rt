//! Memory with the calls of `sqlite`, whose errors tell why a call ends.

ghost use Rattle.std.specs.Borrow.{sem, RestsIfErr};
ghost use Rattle.std.specs.Prelude.{◌≡◌, ◌⊎◌, ⊤, IfOk, IfErr, OnOk};
ghost use Rattle.sqlite.specs.contracts.connection.Connection.{the_row};
ghost use Rattle.sqlite.specs.Held.{state};
ghost use Rattle.sqlite.specs.Given.{Advances, HasBegun, IsRefused, row_if};
ghost use Rattle.sqlite.specs.Order.{column};
ghost use Rattle.sqlite.specs.State.{HasCleanDisk, Executes, Shown, FailsToQuery, Survives};
ghost use Rattle.sqlite.specs.State.{CommitsBy, CommitsShowing, Fails, IsUnchanged};
ghost use Rattle.sqlite.specs.Values.{bound};
ghost use Rattle.sqlite.specs.declared.error.Error.TheVariants.{InvalidQuery};
ghost use Rattle.hq_sql.specs.Causes.{EndsSo, HasCause};
ghost use Rattle.hq_sql.specs.Kept.{HasTried};
ghost use Rattle.hq_sql.specs.Unfit.{IsNoneOf, IsOutside};

use crate::unfit::{Form, Limits};
use hq_memory::Memory;
use sqlite::types::{FromSql, ValueRef};
use sqlite::{Alter, Connection, Constraint, Error, ErrorCode, Row, Rows};
use std::alloc::Global;

/// Memory that also makes the calls of `sqlite`. Code that takes any of it knows why one of them
/// ended in an error only by what these calls say, so its own errors have that cause.
pub trait SqliteMemory: Memory {
    /// The store failed: a call of `sqlite` ended in an error that is no want of memory; or a row
    /// held a value, or a statement was to take one, that the desk does not write.
    ghost failed: { Type 0 };

    /// A statement that is no query, and how many rows it changed.
    fn execute<S: Alter>(
        self,
        conn: &mut Connection<S>,
        sql: &str,
        params: &[ValueRef<'_>],
    ) -> Result<usize, Error>
        ensures runs { HasCleanDisk (state S.Store conn.new) → Executes sql.now (bound params.now)
            (state S.Store conn.old) (state S.Store conn.new) result }
        ensures survives { Survives (state S.Store conn.old) (state S.Store conn.new)
            (CommitsBy sql.now (bound params.now) (state S.Store conn.old)) }
        ensures cause { IfErr result (HasCause Self.refused failed) };

    /// An INSERT of one row. It tells whether a unique key was taken, and so nothing changed: that
    /// is no failure of the store, and no error.
    fn try_insert<S: Alter>(
        self,
        conn: &mut Connection<S>,
        sql: &str,
        params: &[ValueRef<'_>],
    ) -> Result<bool, Error>
        ensures runs { HasCleanDisk (state S.Store conn.new) → HasTried sql.now (bound params.now)
            (state S.Store conn.old) (state S.Store conn.new) result }
        ensures survives { Survives (state S.Store conn.old) (state S.Store conn.new)
            (CommitsBy sql.now (bound params.now) (state S.Store conn.old)) }
        ensures cause { IfErr result (HasCause Self.refused failed) };

    /// All rows that a query answers.
    fn query_all<S: Alter>(
        self,
        conn: &mut Connection<S>,
        sql: &str,
        params: &[ValueRef<'_>],
    ) -> Result<Vec<Row>, Error>
        ensures ok { HasCleanDisk (state S.Store conn.new) → IfOk result (λ rows. Shown sql.now
            (bound params.now) (state S.Store conn.old) (state S.Store conn.new) rows.items) }
        ensures err { HasCleanDisk (state S.Store conn.new) → IfErr result (FailsToQuery sql.now
            (bound params.now) (state S.Store conn.old) (state S.Store conn.new)) }
        ensures survives { Survives (state S.Store conn.old) (state S.Store conn.new)
            (CommitsShowing sql.now (bound params.now) (state S.Store conn.old)) }
        ensures cause { IfErr result (HasCause Self.refused failed) };

    /// The rows that a query answers, one at a time.
    fn query<'c, S: Alter>(
        conn: &'c mut Connection<S>,
        sql: &str,
        params: &[ValueRef<'_>],
    ) -> Result<Rows<'c, S>, Error>
        ensures* refused { sem 𝓛 (RestsIfErr (the_row S.row S.Store) conn.entry
            (λ rows. rows.conn.ghost_name) result
            (IsRefused S.Store sql.now (bound params.now) conn.old result)) }
        ensures same_reference { IfOk result (λ rows. rows.conn.ghost_name
            ≡ conn.entry.ghost_name) }
        ensures begun { IfOk result (λ rows. HasCleanDisk (state S.Store rows.conn.now)
            → HasBegun S.Store sql.now (bound params.now) conn.old rows.conn.now) }
        ensures survives { IfOk result (λ rows. Survives (state S.Store conn.old)
            (state S.Store rows.conn.now)
            (CommitsShowing sql.now (bound params.now) (state S.Store conn.old))) }
        ensures cause { IfErr result (HasCause Self.refused failed) };

    /// Moves to the next row, or past the last.
    fn advance<S: Alter>(self, rows: &mut Rows<'_, S>) -> Result<(), Error>
        ensures same_reference { rows.new.conn.ghost_name ≡ rows.old.conn.ghost_name }
        ensures ok { HasCleanDisk (state S.Store rows.new.conn.now) → OnOk result
            (Advances S.Store rows.old.conn.now rows.new.conn.now
            (row_if rows.new.has_row rows.new.conn.now)) }
        ensures same { HasCleanDisk (state S.Store rows.new.conn.now) → OnOk result
            (IsUnchanged (state S.Store rows.old.conn.now) (state S.Store rows.new.conn.now)) }
        ensures kept { HasCleanDisk (state S.Store rows.new.conn.now) → IfErr result (λ e.
            Fails (state S.Store rows.old.conn.now) (state S.Store rows.new.conn.now) ⊥ e
            ⊎ IsUnchanged (state S.Store rows.old.conn.now) (state S.Store rows.new.conn.now)) }
        ensures survives { Survives (state S.Store rows.old.conn.now)
            (state S.Store rows.new.conn.now) (λ _. ⊥) }
        ensures cause { IfErr result (HasCause Self.refused failed) };

    /// The value of a column, as one of a type of Rust; an error where it is none of this type.
    fn get<T: FromSql>(self, row: &Row, at: usize) -> Result<T, Error>
        ensures { EndsSo Self.refused failed result (T.FromSql.reads_as (column row.now at)) };

    /// The error of a text that is no value of its form.
    fn no_value(self, form: Form, text: &str) -> Error
        ensures same { result ≡ InvalidQuery }
        ensures cause { IsNoneOf form text.now → failed };

    /// The error of a number that is none of these.
    fn outside(self, limits: Limits, number: u64) -> Error
        ensures same { result ≡ InvalidQuery }
        ensures cause { IsOutside limits number → failed };
}

/// The memory of the machine, of which nothing is said.
impl SqliteMemory for Global {
    ghost failed = { ⊤ };

    fn execute<S: Alter>(
        self,
        conn: &mut Connection<S>,
        sql: &str,
        params: &[ValueRef<'_>],
    ) -> Result<usize, Error> {
        conn.execute(sql, params)
    }

    fn try_insert<S: Alter>(
        self,
        conn: &mut Connection<S>,
        sql: &str,
        params: &[ValueRef<'_>],
    ) -> Result<bool, Error> {
        let told = conn.execute(sql, params);
        // (it tells with its schema that the rows obey it, so a taken key is that of a row)
        conn.schema();
        match told {
            Ok(_) => Ok(false),
            Err(Error::SqliteFailure(ErrorCode::ConstraintViolation(Constraint::Unique))) => {
                Ok(true)
            }
            Err(error) => Err(error),
        }
    }

    fn query_all<S: Alter>(
        self,
        conn: &mut Connection<S>,
        sql: &str,
        params: &[ValueRef<'_>],
    ) -> Result<Vec<Row>, Error> {
        conn.query_all(sql, params)
    }

    fn query<'c, S: Alter>(
        conn: &'c mut Connection<S>,
        sql: &str,
        params: &[ValueRef<'_>],
    ) -> Result<Rows<'c, S>, Error> {
        conn.query(sql, params)
    }

    fn advance<S: Alter>(self, rows: &mut Rows<'_, S>) -> Result<(), Error> {
        rows.advance()
    }

    fn get<T: FromSql>(self, row: &Row, at: usize) -> Result<T, Error> {
        row.get(at)
    }

    fn no_value(self, _form: Form, _text: &str) -> Error {
        Error::InvalidQuery
    }

    fn outside(self, _limits: Limits, _number: u64) -> Error {
        Error::InvalidQuery
    }
}
