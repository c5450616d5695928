//! Laws over the clients of a socket, with no program in them: empty functions whose contracts are
//! the laws.

ghost use Rattle.std.specs.Prelude.{List};
ghost use Rattle.hq_serve.specs.Coming.{ClientEvent};
ghost use Rattle.hq_sockets.specs.Listening.{counting};
ghost use Rattle.hq_sockets.specs.Slots.{ServesClients};
ghost use Rattle.hq_sockets.specs.Times.{AreTimed, IsTimed, clock_state};
ghost use Rattle.hq_sockets.specs.Waiting.{waiting_begins_at};
ghost use Rattle.hq_sockets.specs.declared.connections.Connections.{Connections};
ghost use Rattle.hq_sockets.specs.declared.socket_clients.SocketClients.{SocketClients};

use crate::listening::Moments;
use crate::socket_clients::SocketClients;
use crate::talking::Listener;
use hq_memory::Memory;
use hq_serve::Clients;
use std::rt::Clock;

/// What `SocketClients` does from its beginning on: each client that comes to the listening socket
/// is served by what its own bytes ask, and is sent its own response or a beginning of it. So many
/// less are still to come as were accepted.
pub fn clients_are_served<'h, T: Clock + Moments + AllocGlobal, L: Listener + Drop, M: Memory>()
    ensures { (start : Connections L) (old new : SocketClients T L L.Connection M)
        (events : List ClientEvent)
        → waiting_begins_at M.refused L.Connection.talks L.Connection.ends L.does start old.waiting
        → ⟦<SocketClients<'h, T, L, L::Connection, M> as Clients>⟧.does old events new
        → ServesClients M.refused L.Connection.talks L.Connection.ends (counting L.does) start
        new.waiting.connections events }
{}

/// Each request is taken at a moment that the clock told: so it is from the beginning on, at which
/// it had told none.
pub fn requests_are_timed<'h, T: Clock + Moments + AllocGlobal, L: Listener + Drop, M: Memory>()
    ensures { (old new : SocketClients T L L.Connection M) (events : List ClientEvent)
        → IsTimed T.tells (clock_state old.clock.now old.at)
        → ⟦<SocketClients<'h, T, L, L::Connection, M> as Clients>⟧.does old events new
        → AreTimed (T.tells old.clock.now) events }
{}
