//! One session of a server: a store that stopped is opened, clients are served in rounds, and it
//! stops.

ghost use Rattle.std.specs.Prelude.{◌≡◌, false, IfOk};
ghost use Rattle.sqlite.specs.Held.{state};
ghost use Rattle.sqlite.specs.State.{HasCleanDisk};
ghost use Rattle.hq_sql_across.specs.Rounds.{EndsServing, IsServedInRounds, PassesRounds};

use crate::sessions::reopened;
use hq_desk::Desk;
use hq_log::Log;
use hq_serve::{Clients, ServiceEnd, serve_rounds};
use hq_sql_shelf::SqlShelf;
use hq_values::{Fault, Host};
use hq_wire::Directory;
use sqlite::{Alter, Connection};
use sqlite_trees::store::Reopen;
use std::alloc::Global;
use std::io::Write;

/// How a server ended, and its connection, which stops next.
#[derive(Drop)]
pub struct Server<S: Alter> {
    /// Why it served no more; none where the store was not taken, and then nobody was served.
    pub ended: Option<ServiceEnd>,
    /// Whether the shelf was in doubt at the end, or lost its connection so: then nothing is said.
    pub in_doubt: bool,
    /// The connection, wherever it is by then.
    pub conn: Connection<S>,
}

/// Stops the store of a connection and opens it again as a desk, which serves clients in rounds, up
/// to the next stop: that comes wherever the connection that is given back is by then. Where the
/// store was not taken, since a stop came in the opening, nobody is served. 91 tells that the store
/// could not be read.
///
/// The rounds are those of `hq_serve::serve_rounds`, as the program does them: what came from the
/// clients, and what was sent to them. The calls under way at the stop are of one round, and no
/// reply tells of them.
pub fn session_in_rounds<K: Clients, S: Alter + Reopen + Drop, E: Write, L: Log>(
    alloc: Global,
    conn: Connection<S>,
    host: Host,
    directory: &Directory,
    clients: &mut K,
    errors: &mut E,
    log: &mut L,
) -> Result<Server<S>, Fault>
    ensures passed { IfOk result (λ s. HasCleanDisk (state S.Store s.conn) → s.in_doubt ≡ false
        → PassesRounds host (IsServedInRounds K.does clients.old clients.new directory.now)
        (state S.Store conn).may_leave (state S.Store s.conn).may_leave) }
    ensures ended { IfOk result (λ s. EndsServing K.does (K.left clients.old) (K.left clients.new)
        s.ended clients.old clients.new) }
{
    let conn = reopened(alloc, conn)?;
    let shelf = match SqlShelf::adopt(alloc, conn) {
        Ok(shelf) => shelf,
        Err((_, conn)) => {
            return Ok(Server {
                ended: None,
                in_doubt: false,
                conn,
            });
        }
    };
    let desk = Desk::new(shelf, host);
    let (end, desk) = serve_rounds(alloc, clients, desk, directory, errors, log);
    let shelf = desk.into_shelf();
    let in_doubt = shelf.is_in_doubt();
    Ok(Server {
        ended: Some(end),
        in_doubt,
        conn: shelf.into_connection(),
    })
}
