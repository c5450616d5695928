//! The clients of a listening socket, several at once.

ghost use Rattle.std.specs.Prelude.{◌≡◌, ◌≤◌, ◌∷◌, [], IfSome, IfNone, IfOk, ℕ, List};
ghost use Rattle.hq_serve.specs.Coming.{came, sent};
ghost use Rattle.hq_sockets.specs.Held.{IsVacant};
ghost use Rattle.hq_sockets.specs.Waiting.{waiting_begins_at, waiting_does};
ghost use Rattle.hq_sockets.specs.declared.connections.Connections.{Connections};

use crate::clients::{Client, Turned};
use crate::connections::Connections;
use crate::deadlines::{Limits, deadlines_from};
use crate::delay::RoundDelay;
use crate::listening::tell;
use crate::slots::{MOST_CLIENTS, Slots, earlier};
use crate::talking::{Connection, Listener};
use hq_memory::Memory;
use hq_serve::Asked;
use hq_values::EngineFault;
use mio::unix::SourceFd;
use mio::{Events, Interest, Poll, Token};
use std::alloc::Global;
use std::io::{self, Write};
use std::time::{Duration, Instant};

/// How many events one wait tells at most: one of each client, and one of the listening socket.
/// What they tell is not asked: each client has its turn.
const MOST_EVENTS: usize = 257;

/// Once responses hold so many bytes, no more requests are taken until some of these went out.
const MOST_HELD: usize = 67_108_864;

/// How many seconds to wait at most where the clock does not tell the time.
const LONGEST_WAIT_SECONDS: u64 = 1;

/// Clients that are served at once, and what waits for their sockets.
#[derive(Drop)]
pub(crate) struct Waiting<L, C, M> {
    memory: M,
    connections: Connections<L>,
    slots: Slots<C>,
    poll: Poll,
    events: Events,
    busy: bool,
    /// One could not be accepted.
    refused: bool,
    /// The number behind that of the client whose request was taken last.
    next: usize,
    delay: RoundDelay,
}

/// Whether a connection is watched, and never waits.
fn watch<C: Connection>(poll: &Poll, stream: &C) -> bool {
    let descriptor = stream.descriptor();
    let both = Interest::READABLE.add(Interest::WRITABLE);
    stream.never_wait().is_ok()
        && poll
            .registry()
            .register(&mut SourceFd(&descriptor), Token(1), both)
            .is_ok()
}

/// Whether a listening socket is watched, and never waits.
fn watch_listener<L: Listener>(poll: &Poll, listener: &L) -> bool {
    let descriptor = listener.descriptor();
    listener.never_wait().is_ok()
        && poll
            .registry()
            .register(&mut SourceFd(&descriptor), Token(0), Interest::READABLE)
            .is_ok()
}

impl<L: Listener + Drop, M: Memory> Waiting<L, L::Connection, M> {
    /// No clients yet; `None` where the system or the memory refused.
    pub fn new(
        alloc: Global,
        memory: M,
        poll: Poll,
        listener: L,
        count: u32,
    ) -> Option<Waiting<L, L::Connection, M>>
        ensures begins { IfSome result (λ waiting. (start : Connections L)
            × (start.listener ≡ listener) × (start.left ≡ count)
            × waiting_begins_at M.refused L.Connection.talks L.Connection.ends L.does start
            waiting) }
        ensures left { IfSome result (λ waiting. waiting.connections.left ≡ count) }
    {
        if !watch_listener(&poll, &listener) {
            return None;
        }
        let events = Events::with_capacity(alloc, MOST_EVENTS).ok()?;
        let slots = match Slots::new(memory) {
            Some(slots) => slots,
            None => return None,
        };
        Some(Waiting {
            memory,
            connections: Connections::new(listener, count),
            slots,
            poll,
            events,
            busy: true,
            refused: false,
            next: 0,
            delay: RoundDelay::default(),
        })
    }

    /// How many connections are still to come.
    pub fn left(&self) -> u32
        ensures { result ≡ self.now.connections.left }
    {
        self.connections.left()
    }

    /// Whether all that came are served, and no more come: none is left, or one was refused.
    pub fn is_over(&self) -> bool {
        (self.connections.left() == 0 || self.refused) && self.slots.are_free()
    }

    /// Accepts what waits, as long as there are free slots; and none any more, once one could not
    /// be accepted. One that cannot be waited for is told, and closed.
    pub fn admit<E: Write>(&mut self, limits: Limits, now: Option<Instant>, errors: &mut E)
        ensures does { waiting_does M.refused L.Connection.talks L.Connection.ends L.does self.old
            [] self.new }
        ensures fewer { self.new.connections.left ≤ self.old.connections.left }
    {
        if !self.refused {
            let accepted = self.accept_all(limits, now, errors);
            self.refused = accepted.is_err();
        }
    }

    /// Accepts what waits, while there are free slots. An error tells that one was not accepted.
    fn accept_all<E: Write>(
        &mut self,
        limits: Limits,
        now: Option<Instant>,
        errors: &mut E,
    ) -> io::Result<()>
        ensures does { waiting_does M.refused L.Connection.talks L.Connection.ends L.does self.old
            [] self.new }
        ensures fewer { self.new.connections.left ≤ self.old.connections.left }
    {
        for number in 0..MOST_CLIENTS {
            if self.slots.is_free(number) {
                match self.accept_one(number, limits, now, errors) {
                    Ok(true) => {}
                    Ok(false) => return Ok(()),
                    Err(error) => return Err(error),
                }
            }
        }
        Ok(())
    }

    /// Accepts one into a slot that is free; says whether one waited.
    fn accept_one<E: Write>(
        &mut self,
        number: usize,
        limits: Limits,
        now: Option<Instant>,
        errors: &mut E,
    ) -> io::Result<bool>
        requires { IsVacant self.old.slots.held.items number }
        ensures does { waiting_does M.refused L.Connection.talks L.Connection.ends L.does self.old
            [] self.new }
        ensures fewer { self.new.connections.left ≤ self.old.connections.left }
    {
        let stream = match self.connections.accept() {
            Ok(Some(stream)) => stream,
            Ok(None) => return Ok(false),
            Err(error) => return Err(error),
        };
        self.busy = true;
        if watch(&self.poll, &stream) {
            let deadlines = deadlines_from(now, limits);
            let client = Client::new(self.memory, stream, deadlines);
            self.slots.put(number, client);
        } else {
            self.connections.close(stream);
            tell(errors, EngineFault::Read);
        }
        Ok(true)
    }

    /// Has each client read and write as much as is there. What one ends in is told.
    pub fn turn<E: Write>(&mut self, limits: Limits, now: Option<Instant>, errors: &mut E)
        ensures does { waiting_does M.refused L.Connection.talks L.Connection.ends L.does self.old
            [] self.new }
        ensures left { self.new.connections.left ≡ self.old.connections.left }
    {
        for number in 0..MOST_CLIENTS {
            self.turn_one(number, limits, now, errors);
        }
        let asked = self.slots.asked();
        self.delay.hope_for(asked);
    }

    /// Has the client of a slot, if there is one, read and write as much as is there.
    fn turn_one<E: Write>(
        &mut self,
        number: usize,
        limits: Limits,
        now: Option<Instant>,
        errors: &mut E,
    )
        ensures does { waiting_does M.refused L.Connection.talks L.Connection.ends L.does self.old
            [] self.new }
        ensures left { self.new.connections.left ≡ self.old.connections.left }
    {
        let Some(client) = self.slots.take(number) else {
            return;
        };
        match client.turn(self.memory, limits, now) {
            Turned::Waits(client) => {
                self.slots.put(number, client);
                return;
            }
            Turned::GoesOn(client) => self.slots.put(number, client),
            Turned::Left(stream) => self.connections.close(stream),
            Turned::Failed(stream, fault) => {
                self.connections.close(stream);
                tell(errors, fault);
            }
        }
        self.busy = true;
    }

    /// What the next client asks for whose request has come, with its number: from that of the one
    /// before it on, and then from the first, so that none waits for ever. `None` also if a round
    /// has begun, and the call of the next takes long.
    pub fn next_asked(&mut self, has_begun: bool) -> Option<(usize, Asked)>
        ensures came { IfSome result (λ it. (at : ℕ) → waiting_does M.refused L.Connection.talks
            L.Connection.ends
            L.does self.old
            (came (record { client = it.0; at = at; asked = it.1 }) ∷ []) self.new) }
        ensures none { IfNone result (waiting_does M.refused L.Connection.talks L.Connection.ends
            L.does self.old []
            self.new) }
        ensures left { self.new.connections.left ≡ self.old.connections.left }
    {
        let number = match self.slots.asked_from(self.next) {
            None => self.slots.asked_from(0)?,
            Some(number) => number,
        };
        if has_begun && self.slots.is_long(number) {
            return None;
        }
        self.next = number.saturating_add(1);
        match self.slots.take_asked(number) {
            Some(asked) => Some((number, asked)),
            None => None,
        }
    }

    /// Whether a round may begin: a request has come, there is room for responses, and no delay.
    pub fn is_ready(&self, now: Option<Instant>) -> bool {
        let asked = self.slots.asked();
        let is_full = self.slots.bytes() >= MOST_HELD;
        asked != 0 && !is_full && self.delay.until(asked, now).is_none()
    }

    /// After a round of so many short calls, delays the next one for as many requests, and for
    /// those that came meanwhile; and gives each client as much more time as the round took.
    pub fn round_done(&mut self, calls: usize, from: Option<Instant>, to: Option<Instant>)
        ensures does { waiting_does M.refused L.Connection.talks L.Connection.ends L.does self.old
            [] self.new }
        ensures left { self.new.connections.left ≡ self.old.connections.left }
    {
        if let (Some(from), Some(to)) = (from, to) {
            self.put_off(to.duration_since(from));
        }
        self.delay = RoundDelay::after(calls, from, to);
    }

    /// Gives each client so much more time.
    fn put_off(&mut self, time: Duration)
        ensures does { waiting_does M.refused L.Connection.talks L.Connection.ends L.does self.old
            [] self.new }
        ensures left { self.new.connections.left ≡ self.old.connections.left }
    {
        for number in 0..MOST_CLIENTS {
            self.slots.put_off(number, time);
        }
    }

    /// Has a response leave to the client of a number; none where there is no memory for it.
    pub fn answer(
        &mut self,
        number: usize,
        response: Option<Vec<u8>>,
        limits: Limits,
        now: Option<Instant>,
    )
        ensures does { (bytes : List ℕ) → IfSome response (λ r. r.items ≡ bytes)
            → waiting_does M.refused L.Connection.talks L.Connection.ends L.does self.old
            (sent (record { client = number; response = bytes }) ∷ []) self.new }
        ensures left { self.new.connections.left ≡ self.old.connections.left }
    {
        self.slots
            .answer(number, response, deadlines_from(now, limits));
        self.busy = true;
    }

    /// Waits until a socket gives or takes more, a client takes too long, or the delay of a round
    /// ends; not at all, where one can go on.
    pub fn wait(&mut self, now: Option<Instant>)
        ensures does { waiting_does M.refused L.Connection.talks L.Connection.ends L.does self.old
            [] self.new }
        ensures left { self.new.connections.left ≡ self.old.connections.left }
    {
        if self.busy {
            self.busy = false;
            return;
        }
        let delayed = self.delay.until(self.slots.asked(), now);
        let time = match (earlier(self.slots.first_deadline(), delayed), now) {
            (Some(end), Some(now)) => Some(end.duration_since(now)),
            (None, Some(_)) => None,
            _ => Some(Duration::from_secs(LONGEST_WAIT_SECONDS)),
        };
        let _waited = self.poll.poll(&mut self.events, time);
    }
}
