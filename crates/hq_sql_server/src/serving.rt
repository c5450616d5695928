//! The connections of a server, over a store in memory or at a path.

ghost use Rattle.std.specs.Prelude.{◌≡◌};
ghost use Rattle.hq_sql_server.specs.Runs.{IsEndOf, MemoryServerEnds, ServedEnds, ServeEnds};
ghost use Rattle.hq_sql_server.specs.Runs.{StoreServerEnds};

use crate::listening::listen;
use hq_desk::Desk;
use hq_log::Logs;
use hq_network::Network;
use hq_rounds::Rounds;
use hq_serve::{ServiceEnd, serve_rounds};
use hq_settings::{Files, Settings, Trouble, set_up};
use hq_sql_shelf::{SqlShelf, Stores};
use hq_words::Serve;
use std::alloc::Global;
use std::io::Write;

/// Why a server ends, as the program tells it.
fn ended(end: ServiceEnd) -> Result<(), Trouble>
    ensures { IsEndOf end result }
{
    match end {
        ServiceEnd::Done => Ok(()),
        ServiceEnd::Network => Err(Trouble::Network),
        ServiceEnd::Clock => Err(Trouble::Clock),
    }
}

/// Serves the connections of a place over a shelf, and gives it back.
fn serve_over<'h, N: Network, G: Logs<'h>, S: Rounds, W: Write, E: Write>(
    memory: Global,
    network: &mut N,
    logs: &mut G,
    shelf: S,
    settings: Settings,
    given: &Serve<'h>,
    output: &mut W,
    errors: &mut E,
) -> (Result<(), Trouble>, S)
    ensures { ServedEnds N.does N.Clients.does N.Clients.begins N.Clients.left network.old
        network.new G.does G.Log.tells logs.old logs.new S.sight settings given.now (output.new ≡
        output.old) (W.contents output.old) (W.contents output.new) result.0 shelf result.1 }
{
    let mut clients = match listen(memory, network, given, output) {
        Ok(clients) => clients,
        Err(trouble) => return (Err(trouble), shelf),
    };
    let Settings { host, directory } = settings;
    let desk = Desk::new(shelf, host);
    let mut log = logs.open(given.log);
    let (end, desk) = serve_rounds(memory, &mut clients, desk, &directory, errors, &mut log);
    logs.close(log);
    network.end(clients);
    (ended(end), desk.into_shelf())
}

/// Serves the connections of a place from an empty desk, whose store stands in memory.
fn serve_memory<'h, N: Network, G: Logs<'h>, W: Write, E: Write>(
    memory: Global,
    network: &mut N,
    logs: &mut G,
    settings: Settings,
    given: &Serve<'h>,
    output: &mut W,
    errors: &mut E,
) -> Result<(), Trouble>
    ensures { MemoryServerEnds N.does N.Clients.does N.Clients.begins N.Clients.left network.old
        network.new G.does G.Log.tells logs.old logs.new settings given.now (output.new ≡
        output.old) (W.contents output.old) (W.contents output.new) result }
{
    let shelf = SqlShelf::open_memory(memory)?;
    let (ended, _shelf) = serve_over(
        memory, network, logs, shelf, settings, given, output, errors,
    );
    ended
}

/// Serves the connections of a place over the store of a path, which is made if it is missing, and
/// leaves it. If it cannot be opened, the fault is told, and nothing is listened on.
fn serve_store<'h, N: Network, G: Logs<'h>, K: Stores, W: Write, E: Write>(
    memory: Global,
    network: &mut N,
    logs: &mut G,
    stores: &mut K,
    path: &str,
    settings: Settings,
    given: &Serve<'h>,
    output: &mut W,
    errors: &mut E,
) -> Result<(), Trouble>
    ensures { StoreServerEnds N.does N.Clients.does N.Clients.begins N.Clients.left network.old
        network.new G.does G.Log.tells logs.old logs.new K.Store.sight K.does path.now stores.old
        stores.new settings given.now (output.new ≡ output.old) (W.contents output.old) (W.contents
        output.new) result }
{
    let store = stores.open(path)?;
    let (ended, store) = serve_over(
        memory, network, logs, store, settings, given, output, errors,
    );
    stores.leave(store);
    ended
}

/// Serves HTTP connections for the customers of a directory: listens on the address that is given,
/// prints the one that was bound as `listening on 127.0.0.1:8025`, and serves so many connections
/// as there are to be, several at once and by rounds, at the moments of the clock. A fault of one
/// connection is told on `errors` in a line, `hq: input` or `hq: output`.
///
/// Checked in the order relay's name, form of its key, directory, relay's key against it, store,
/// address. Up to then nothing is printed. An error is the first refusal of these; `File` for a
/// key's file or a directory that cannot be read; 90, 91, 92 or 93 for a store that cannot be
/// opened; `Network` where the address is none or cannot be bound, or a connection cannot be
/// accepted; `Output` where the address cannot be printed; and `Clock` where the clock tells no
/// moment of the desk.
///
/// Each client is sent the reply to its own request, and nothing else. Without a store the desk
/// stands in memory and is empty at first: to every customer its replies, and what is kept of it,
/// are those that it would have alone on the desk. The store of a path is left as the last request
/// left it. The log that is named is told each reply, and nothing else.
pub fn serve_http<'h, F: Files, N: Network, G: Logs<'h>, K: Stores, W: Write, E: Write>(
    rt: &F,
    network: &mut N,
    logs: &mut G,
    stores: &mut K,
    given: &Serve<'h>,
    output: &mut W,
    errors: &mut E,
) -> Result<(), Trouble>
    ensures { ServeEnds (F.reads rt.now) N.does N.Clients.does N.Clients.begins N.Clients.left
        network.old network.new G.does G.Log.tells logs.old logs.new K.Store.sight K.does stores.old
        stores.new given.now (output.new ≡ output.old) (W.contents output.old) (W.contents
        output.new) result }
{
    let settings = set_up(rt, given.host, given.relay_key, given.directory, given.keys)?;
    let memory = rt.alloc();
    match given.store {
        None => serve_memory(memory, network, logs, settings, given, output, errors),
        Some(path) => serve_store(
            memory, network, logs, stores, path, settings, given, output, errors,
        ),
    }
}
