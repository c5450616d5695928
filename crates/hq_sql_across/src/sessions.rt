//! One session of a desk: a store that stopped is opened, exchanges are replied to, and it stops.

ghost use Rattle.std.specs.Prelude.{◌≡◌, false, IfOk};
ghost use Rattle.sqlite.specs.Held.{state};
ghost use Rattle.sqlite.specs.State.{HasCleanDisk};
ghost use Rattle.hq_keyed.specs.Left.{IsQuiet};
ghost use Rattle.hq_sql_across.specs.Stopped.{Reopens, PassesSession};
ghost use Rattle.hq_sql_across.specs.Visits.{CarryCustomers};

use hq_desk::Desk;
use hq_sql_shelf::SqlShelf;
use hq_values::{Fault, Host};
use hq_wire::{Directory, Exchange, Reply, run};
use sqlite::{Alter, Connection};
use sqlite_trees::store::Reopen;
use std::alloc::Global;

/// What a session replied, and its connection, which stops next.
#[derive(Drop)]
pub struct Stopped<'d, S: Alter> {
    /// One reply for each exchange; none where the store was not taken, or memory was wanted.
    pub replies: Vec<Reply<'d>>,
    /// Whether the shelf was in doubt at the end, or lost its connection so: then nothing is said.
    pub in_doubt: bool,
    /// The connection, wherever it is by then.
    pub conn: Connection<S>,
}

/// Stops the store of a connection, with the loss of what was not synced or of a part of it, and
/// opens it again. 91 tells that it could not be read.
pub(crate) fn reopened<S: Alter + Reopen + Drop>(
    alloc: Global,
    conn: Connection<S>,
) -> Result<Connection<S>, Fault>
    ensures found { IfOk result (λ c. HasCleanDisk (state S.Store c)
        → Reopens (state S.Store conn) (state S.Store c)) }
    ensures quiet { IfOk result (λ c. IsQuiet (state S.Store conn) (state S.Store c)) }
{
    let mut store = conn.into_store();
    if store.crash_and_reopen().is_err() {
        return Err(Fault::Disk);
    }
    match Connection::over(alloc, store) {
        Ok(conn) => Ok(conn),
        Err(_) => Err(Fault::Disk),
    }
}

/// Stops the store of a connection and opens it again as a desk, which replies to exchanges in
/// order, up to the next stop: that comes wherever the connection that is given back is by then.
/// Where the store was not taken, since a stop came in the opening, the session is empty. 91 tells
/// that the store could not be read.
pub fn session<'d, S: Alter + Reopen + Drop>(
    alloc: Global,
    conn: Connection<S>,
    host: Host,
    directory: &'d Directory,
    exchanges: &[Exchange],
) -> Result<Stopped<'d, S>, Fault>
    ensures passed { IfOk result (λ s. HasCleanDisk (state S.Store s.conn) → s.in_doubt ≡ false
        → PassesSession host directory.now exchanges.now s.replies.items
        (state S.Store conn).may_leave (state S.Store s.conn).may_leave) }
    ensures customers { IfOk result (λ s. CarryCustomers
        (record { directory = directory.now; exchanges = exchanges.now }) s.replies.items) }
    ensures quiet { IfOk result (λ s. HasCleanDisk (state S.Store s.conn) → s.in_doubt ≡ false
        → HasCleanDisk (state S.Store conn)) }
{
    let conn = reopened(alloc, conn)?;
    let shelf = match SqlShelf::adopt(alloc, conn) {
        Ok(shelf) => shelf,
        Err((_, conn)) => {
            return Ok(Stopped {
                replies: Vec::new(alloc),
                in_doubt: false,
                conn,
            });
        }
    };
    let mut desk = Desk::new(shelf, host);
    let replies = match run(alloc, &mut desk, directory, exchanges) {
        Ok(replies) => replies,
        Err(_) => Vec::new(alloc),
    };
    let shelf = desk.into_shelf();
    let in_doubt = shelf.is_in_doubt();
    Ok(Stopped {
        replies,
        in_doubt,
        conn: shelf.into_connection(),
    })
}
