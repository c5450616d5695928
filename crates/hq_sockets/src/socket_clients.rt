//! The clients of a listening socket.

ghost use Rattle.std.specs.Prelude.{◌≡◌, IfSome, None};
ghost use Rattle.hq_serve.specs.Connections.{response_of};
ghost use Rattle.hq_wire.specs.Replies.{seen};
ghost use Rattle.hq_sockets.specs.Waiting.{waiting_begins_at};
ghost use Rattle.hq_sockets.specs.declared.connections.Connections.{Connections};

use crate::deadlines::Limits;
use crate::listening::Moments;
use crate::talking::Listener;
use crate::waiting::Waiting;
use hq_http::write_response;
use hq_memory::Memory;
use hq_serve::{Came, Clients, Ready, end_of};
use hq_values::Moment;
use hq_wire::Reply;
use mio::Poll;
use std::alloc::Global;
use std::io::Write;
use std::rt::Clock;
use std::time::Instant;

/// A reply as a response; `None` if there is no memory for it.
fn response_of(alloc: Global, reply: &Reply<'_>) -> Option<Vec<u8>>
    ensures { IfSome result (λ bytes. bytes.items ≡ response_of (seen reply.now)) }
{
    let mut bytes = Vec::new(alloc);
    match write_response(&mut bytes, reply.status, reply.body.as_bytes()) {
        Ok(()) => Some(bytes),
        Err(_) => None,
    }
}

/// The clients of a listening socket, of which so many are to come. No client waits for another
/// that is slow, or takes nothing: 256 at once at most are read and written as far as their sockets
/// go. While responses hold 64 MB, no more requests are taken. A round waits up to 10 milliseconds
/// for clients of the one before it, so that they share its commit. A client that fails, or exceeds
/// a limit, is told in a line: `hq: input` while its request comes, and `hq: output` while its
/// response leaves.
///
/// What is taken of a client is what its own bytes ask, however they are cut, at the moment that
/// the clock told for its round. What is sent to it is its own response, or a beginning of it, and
/// nothing else.
///
/// After a response, further bytes of a client are thrown away until the client ends its side, for
/// a second and 4,096 reads at most. Else the connection would be reset, and its response lost.
#[derive(Drop)]
pub struct SocketClients<'h, T, L, C, M> {
    clock: &'h T,
    waiting: Waiting<L, C, M>,
    limits: Limits,
    /// The moment of the round; `None` before the first one.
    at: Option<Moment>,
    now: Option<Instant>,
}

impl<'h, T: Clock + Moments + AllocGlobal, L: Listener + Drop, M: Memory> SocketClients<
    'h,
    T,
    L,
    L::Connection,
    M,
> {
    /// Those of a socket, which `poll` watches, and which take room from `memory`; `None` if it
    /// cannot be watched, or there is no room.
    pub fn new(
        clock: &'h T,
        memory: M,
        poll: Poll,
        listener: L,
        count: u32,
        limits: Limits,
    ) -> Option<SocketClients<'h, T, L, L::Connection, M>>
        ensures begins { IfSome result (λ clients. (start : Connections L)
            × (start.listener ≡ listener) × (start.left ≡ count)
            × waiting_begins_at M.refused L.Connection.talks L.Connection.ends L.does start
            clients.waiting) }
        ensures untimed { IfSome result (λ clients. clients.at ≡ None) }
        ensures left { IfSome result (λ clients. clients.waiting.connections.left ≡ count) }
    {
        match Waiting::new(clock.alloc(), memory, poll, listener, count) {
            Some(waiting) => Some(SocketClients {
                clock,
                waiting,
                limits,
                at: None,
                now: None,
            }),
            None => None,
        }
    }
}

impl<T: Clock + Moments + AllocGlobal, L: Listener + Drop, M: Memory> Clients
    for SocketClients<'_, T, L, L::Connection, M> {
    ghost use Rattle.hq_sockets.specs.Waiting.{waiting_begins, waiting_does};
    ghost use Rattle.hq_sockets.specs.Leads.{leads_nowhere, leads_on};
    ghost use Rattle.hq_sockets.specs.Listening.{counting};
    ghost use Rattle.hq_sockets.specs.Times.{IsTimed, StaysTimed, clock_state};
    ghost use Rattle.hq_sockets.specs.Timing.{timed_none, timed_on};
    ghost use Rattle.std.proofs.Common.{refl};

    ghost does = { λ old events new. waiting_does M.refused L.Connection.talks L.Connection.ends
        L.does old.waiting events new.waiting
        × StaysTimed T.tells (clock_state old.clock.now old.at) events
        (clock_state new.clock.now new.at) };

    ghost begins = { λ clients. waiting_begins M.refused L.Connection.talks L.Connection.ends L.does
        clients.waiting × IsTimed T.tells (clock_state clients.clock.now clients.at) };

    ghost none_does = { λ state. (
      leads_nowhere M.refused L.Connection.talks L.Connection.ends (counting L.does)
          state.waiting.connections state.waiting.slots.held.items,
      timed_none T.tells (clock_state state.clock.now state.at),
    ) };

    ghost does_on = { λ old mid new events more p q. (
      leads_on M.refused L.Connection.talks L.Connection.ends (counting L.does)
          old.waiting.connections mid.waiting.connections new.waiting.connections
          old.waiting.slots.held.items mid.waiting.slots.held.items new.waiting.slots.held.items
          events more _ refl p.0 q.0,
      timed_on T.tells (clock_state old.clock.now old.at) (clock_state mid.clock.now mid.at)
          (clock_state new.clock.now new.at) events more p.1 q.1,
    ) };

    ghost left = { λ clients. clients.waiting.connections.left };

    fn left(&self) -> u32 {
        self.waiting.left()
    }

    fn ready<E: Write>(&mut self, errors: &mut E) -> Ready {
        self.now = Instant::now(self.clock).ok();
        self.waiting.admit(self.limits, self.now, errors);
        self.waiting.turn(self.limits, self.now, errors);
        if self.waiting.is_over() {
            return Ready::Over(end_of(self.waiting.left()));
        }
        if !self.waiting.is_ready(self.now) {
            self.waiting.wait(self.now);
            return Ready::Waits;
        }
        let Some(at) = self.clock.moment() else {
            return Ready::NoMoment;
        };
        self.at = Some(at);
        Ready::Begins
    }

    fn next(&mut self, has_begun: bool) -> Option<Came> {
        let at = self.at?;
        match self.waiting.next_asked(has_begun) {
            Some((client, asked)) => Some(Came { client, at, asked }),
            None => None,
        }
    }

    fn round_done(&mut self, calls: usize) {
        let begun = self.now;
        self.now = Instant::now(self.clock).ok();
        self.waiting.round_done(calls, begun, self.now);
    }

    fn answer(&mut self, client: usize, reply: &Reply<'_>) {
        let response = response_of(self.clock.alloc(), reply);
        self.waiting.answer(client, response, self.limits, self.now);
    }
}
