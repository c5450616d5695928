//! The clients of a listening socket of the machine.

ghost use Rattle.std.specs.Prelude.{◌≡◌, IfSome, None};
ghost use Rattle.hq_network.specs.declared.sockets.HostListener.{HostListener};
ghost use Rattle.hq_sockets.specs.Waiting.{waiting_begins_at};
ghost use Rattle.hq_sockets.specs.declared.connections.Connections.{Connections};

use crate::sockets::{HostConnection, HostListener};
use hq_memory::Memory;
use hq_serve::{Came, Clients, Ready};
use hq_sockets::{Connection, Limits, Listener, SocketClients};
use hq_wire::Reply;
use mio::Poll;
use std::alloc::Global;
use std::io::Write;

/// `SocketClients` over the machine's sockets.
type OfSockets<'h> = SocketClients<'h, HostRuntime, HostListener, HostConnection, Global>;

/// The clients of a listening socket of the machine: `SocketClients` over it.
#[derive(Drop)]
pub struct HostClients<'h> {
    clients: OfSockets<'h>,
}

impl<'h> HostClients<'h> {
    /// Those of a socket; `None` if it cannot be watched, or there is no memory for them.
    pub(crate) fn new(
        rt: &'h HostRuntime,
        listener: HostListener,
        count: u32,
        limits: Limits,
    ) -> Option<HostClients<'h>>
        ensures begins { IfSome result (λ it. (start : Connections HostListener)
            × (start.listener ≡ listener) × (start.left ≡ count)
            × waiting_begins_at ⟦<Global as Memory>⟧.refused ⟦<HostConnection as Connection>⟧.talks
            ⟦<HostConnection as Connection>⟧.ends ⟦<HostListener as Listener>⟧.does start
            it.clients.waiting) }
        ensures untimed { IfSome result (λ it. it.clients.at ≡ None) }
        ensures left { IfSome result (λ it. it.clients.waiting.connections.left ≡ count) }
    {
        let poll = Poll::new(rt).ok()?;
        match SocketClients::new(rt, rt.alloc(), poll, listener, count, limits) {
            Some(clients) => Some(HostClients { clients }),
            None => None,
        }
    }
}

impl<'h> Clients for HostClients<'h> {
    ghost does = { λ old events new.
        ⟦<OfSockets<'h> as Clients>⟧.does old.clients events new.clients };

    ghost begins = { λ it. ⟦<OfSockets<'h> as Clients>⟧.begins it.clients };

    ghost none_does = { λ state.
        ⟦<OfSockets<'h> as Clients>⟧.none_does state.clients };

    ghost does_on = { λ old mid new.
        ⟦<OfSockets<'h> as Clients>⟧.does_on old.clients mid.clients new.clients };

    ghost left = { λ it. it.clients.waiting.connections.left };

    fn left(&self) -> u32 {
        self.clients.left()
    }

    fn ready<E: Write>(&mut self, errors: &mut E) -> Ready {
        self.clients.ready(errors)
    }

    fn next(&mut self, has_begun: bool) -> Option<Came> {
        self.clients.next(has_begun)
    }

    fn round_done(&mut self, calls: usize) {
        self.clients.round_done(calls);
    }

    fn answer(&mut self, client: usize, reply: &Reply<'_>) {
        self.clients.answer(client, reply);
    }
}
