//! The work of one transaction on one customer's rows.

ghost use Rattle.std.specs.Prelude.{◌≡◌, true, ℕ, List, IfErr, IsTrue};
ghost use Rattle.sqlite.specs.Held.{state};
ghost use Rattle.hq_tables.specs.Tables.{Tables};
ghost use Rattle.hq_sql.specs.Causes.{HasCause};
ghost use Rattle.hq_sql.specs.Kept.{KeepsCommitted, Writes};
ghost use Rattle.hq_sql_changes.specs.Done.{made_of};

use crate::changes::make_all;
use crate::dropping::drop_all_then;
use crate::moving_one::move_one;
use crate::sets::move_all;
use hq_rules::Move;
use hq_sql::SqliteMemory;
use hq_tables::Change;
use hq_values::{Name, Serial};
use sqlite::{Alter, Connection, Error};

/// The work of one transaction on one customer's rows.
#[derive(Clone, Copy)]
pub enum Work<'w> {
    /// All these changes, in order.
    Changes(&'w [Change]),
    /// A move of the message of a serial. The caller knows that it changes that message: else a
    /// hold may add a reason without a message, and a release defers what is not on hold.
    MoveOne(Serial, Move),
    /// A move of all messages.
    MoveAll(Move),
    /// The deletion of all messages, and then all these changes, in order.
    DropAllThen(&'w [Change]),
}

impl Work<'_> {
    /// Whether it is a list of no changes. A move and a deletion count as work, also where they
    /// apply to no message.
    pub(crate) fn has_no_changes(&self) -> bool
        ensures { result ≡ true → (customer : List ℕ) (t : Tables)
            → made_of customer self.now t ≡ t }
    {
        match self {
            Work::Changes(changes) => changes.is_empty(),
            Work::MoveOne(_, _) | Work::MoveAll(_) | Work::DropAllThen(_) => false,
        }
    }

    /// Does the work, up to the first statement that fails. The caller has begun a transaction:
    /// outside of one each statement commits by itself.
    pub fn make<S: Alter, M: SqliteMemory>(
        &self,
        memory: M,
        conn: &mut Connection<S>,
        customer: &Name,
    ) -> Result<(), Error>
        ensures made { IsTrue (state S.Store conn.old).is_open
            → Writes (state S.Store conn.old) (state S.Store conn.new) result
            (made_of customer.now self.now) }
        ensures kept { KeepsCommitted (state S.Store conn.old) (state S.Store conn.new) }
        ensures cause { IfErr result (HasCause M.refused M.failed) }
    {
        match self {
            Work::Changes(changes) => make_all(memory, conn, customer, changes),
            Work::MoveOne(serial, by) => move_one(memory, conn, customer, *serial, *by),
            Work::MoveAll(by) => move_all(memory, conn, customer, *by),
            Work::DropAllThen(more) => drop_all_then(memory, conn, customer, more),
        }
    }
}
