//! Sessions of a desk over one store, one after another, with a stop behind each.

ghost use Rattle.std.specs.Prelude.{◌≡◌, ◌++◌, false, List, map, IfOk};
ghost use Rattle.std.specs.List.{AllZip};
ghost use Rattle.sqlite.specs.Held.{state};
ghost use Rattle.sqlite.specs.State.{HasCleanDisk};
ghost use Rattle.hq_requests.specs.declared.reply.Reply.{Reply};
ghost use Rattle.hq_sql_across.specs.Stopped.{PassesSessions, PassesHistory};
ghost use Rattle.hq_sql_across.specs.Visits.{visit_of, replies_in, CarryCustomers};

use crate::sessions::session;
use hq_values::{Fault, Host, TryCopy};
use hq_wire::{Directory, Exchange, Reply};
use sqlite::{Alter, Connection};
use sqlite_trees::store::Reopen;
use std::alloc::Global;

/// What the sessions of a history replied, and their connection, which stops next.
#[derive(Drop)]
pub struct Served<'v, S: Alter> {
    /// Of each session one reply for each exchange; none where the store was not taken then, or
    /// memory was wanted.
    pub replies: Vec<Vec<Reply<'v>>>,
    /// Whether a shelf was in doubt at the end of its session, or lost its connection so: then
    /// nothing is said.
    pub in_doubt: bool,
    /// The connection, wherever it is by then.
    pub conn: Connection<S>,
}

/// What is asked of a desk from one start to the next stop.
#[derive(Drop)]
pub struct Visit {
    /// The customers at that start.
    pub directory: Directory,
    /// What is asked, in order.
    pub exchanges: Vec<Exchange>,
}

/// Serves sessions, one after another, and adds what each replied.
fn serve_all<'v, S: Alter + Reopen + Drop>(
    alloc: Global,
    conn: Connection<S>,
    host: &Host,
    visits: &'v [Visit],
    told: &mut Vec<Vec<Reply<'v>>>,
) -> Result<(bool, Connection<S>), Fault>
    ensures passed { IfOk result (λ end. HasCleanDisk (state S.Store end.1) → end.0 ≡ false
        → (replies : List (List Reply))
        × (map replies_in told.new.items ≡ map replies_in told.old.items ++ replies)
        × PassesSessions host.now (map visit_of visits.now) replies
        (state S.Store conn).may_leave (state S.Store end.1).may_leave) }
    ensures customers { IfOk result (λ _. (replies : List (List Reply))
        × (map replies_in told.new.items ≡ map replies_in told.old.items ++ replies)
        × AllZip CarryCustomers (map visit_of visits.now) replies) }
    ensures quiet { IfOk result (λ end. HasCleanDisk (state S.Store end.1) → end.0 ≡ false
        → HasCleanDisk (state S.Store conn)) }
{
    match visits {
        [] => Ok((false, conn)),
        [first, rest @ ..] => {
            let name = host.copy(alloc)?;
            let exchanges = first.exchanges.as_slice();
            let one = session(alloc, conn, name, &first.directory, exchanges)?;
            told.push(one.replies)?;
            let (later, conn) = serve_all(alloc, one.conn, host, rest, told)?;
            Ok((one.in_doubt || later, conn))
        }
    }
}

/// Serves sessions of a desk over one store: each stops the store and opens it again as a desk,
/// which replies to exchanges in order, up to the next stop, wherever that comes. Where it comes in
/// the opening, the session is empty.
///
/// Each session has the directory of its start: customers may come, leave and get other limits
/// from one to the next.
///
/// To every customer the whole history is its own machine on its own calls, by its entry in each
/// session, whatever the other customers do and wherever the stops come: what it heard over all
/// sessions is what that machine answers, and what the next opening finds of it is what that
/// machine keeps. Of each stop at most one call is under way, done or not, the same for all
/// customers. Each reply carries the customer of its exchange.
///
/// It asks for a store of a desk whose tables are sound, or in which nothing was made yet; and that
/// the store returned what was written, and kept what was synced. 90 tells that memory was wanted
/// for the replies, and 91 that the store could not be read after a stop.
pub fn history<'v, S: Alter + Reopen + Drop>(
    alloc: Global,
    conn: Connection<S>,
    host: &Host,
    visits: &'v [Visit],
) -> Result<Served<'v, S>, Fault>
    ensures across { IfOk result (λ h. HasCleanDisk (state S.Store h.conn) → h.in_doubt ≡ false
        → PassesHistory host.now (map visit_of visits.now) (map replies_in h.replies.items)
        (state S.Store conn).may_leave (state S.Store h.conn).may_leave) }
    ensures customers { IfOk result (λ h. AllZip CarryCustomers (map visit_of visits.now)
        (map replies_in h.replies.items)) }
{
    let mut replies = Vec::with_capacity(alloc, visits.len())?;
    let (in_doubt, conn) = serve_all(alloc, conn, host, visits, &mut replies)?;
    Ok(Served {
        replies,
        in_doubt,
        conn,
    })
}
