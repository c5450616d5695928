//! The slots of a server: as many clients as it serves at once, each by its number.

ghost use Rattle.std.specs.Prelude.{◌≡◌, ℕ, Some, None, IfSome, IsTrue};
ghost use Rattle.hq_sockets.specs.Held.{HasResponse, IsLater, HasTaken, IsVacant, Replies};
ghost use Rattle.hq_sockets.specs.Held.{TakesAsked};
ghost use Rattle.hq_sockets.specs.Held.{client_at, with_client};

use crate::clients::{Client, Phase};
use crate::deadlines::Deadlines;
use hq_memory::Memory;
use hq_serve::Asked;
use std::mem;
use std::time::{Duration, Instant};

/// How many clients are served at once at most; others wait until they are accepted.
pub(crate) const MOST_CLIENTS: usize = 256;

/// The earlier of two instants, where there are any.
pub(crate) fn earlier(one: Option<Instant>, other: Option<Instant>) -> Option<Instant> {
    one.into_iter().chain(other).min()
}

/// What was asked, and is in the round then; nothing of any other phase.
fn asked_in(phase: Phase) -> (Phase, Option<Asked>)
    ensures { TakesAsked phase result.0 result.1 }
{
    match phase {
        Phase::Asked(asked) => (Phase::InRound, Some(asked)),
        phase => (phase, None),
    }
}

/// The phase of a client that has its response, or none; another one stays.
fn replied(phase: Phase, response: Option<Vec<u8>>) -> Phase
    ensures { Replies response phase result }
{
    match (phase, response) {
        (Phase::InRound, Some(bytes)) => Phase::Answered(bytes, 0),
        (Phase::InRound, None) => Phase::Unsent,
        (phase, _) => phase,
    }
}

/// Slots for clients, each of which is free or has one.
#[derive(Drop)]
pub(crate) struct Slots<C> {
    held: Vec<Option<Client<C>>>,
}

impl<C: Drop> Slots<C> {
    /// As many free slots as there may be clients; `None` if there is no memory for them.
    pub fn new<M: Memory>(memory: M) -> Option<Slots<C>>
        ensures { IfSome result (λ slots. (n : ℕ) → client_at slots.held.items n ≡ None) }
    {
        let mut held = memory.none();
        for _ in 0..MOST_CLIENTS {
            match memory.push(&mut held, None) {
                Ok(()) => {}
                Err(_) => return None,
            }
        }
        Some(Slots { held })
    }

    /// Whether a slot is there, and free.
    pub fn is_free(&self, number: usize) -> bool
        ensures { IsTrue result → IsVacant self.now.held.items number }
    {
        match self.held.get(number) {
            Some(slot) => slot.is_none(),
            None => false,
        }
    }

    /// Takes the client out of a slot, which is free then.
    pub fn take(&mut self, number: usize) -> Option<Client<C>>
        ensures taken { result ≡ client_at self.old.held.items number }
        ensures left { self.new.held.items ≡ with_client self.old.held.items number None }
    {
        // (nothing is moved out of a slot that is free, as most are)
        if self.is_free(number) || number >= self.held.len() {
            return None;
        }
        mem::replace(&mut self.held[number], None)
    }

    /// Puts a client into a slot that is there.
    pub fn put(&mut self, number: usize, client: Client<C>)
        ensures { self.new.held.items ≡ with_client self.old.held.items number (Some client) }
    {
        if number < self.held.len() {
            self.held[number] = Some(client);
        }
    }

    /// Takes what a client asks for, if that has come; it is in the round then.
    pub fn take_asked(&mut self, number: usize) -> Option<Asked>
        ensures { HasTaken self.old.held.items self.new.held.items number result }
    {
        let Client {
            stream,
            phase,
            deadlines,
        } = self.take(number)?;
        let (phase, asked) = asked_in(phase);
        let client = Client {
            stream,
            phase,
            deadlines,
        };
        self.put(number, client);
        asked
    }

    /// Has the response of a client leave that is in a round, within these limits of time; and
    /// closes it in its next turn if there is none.
    pub fn answer(&mut self, number: usize, response: Option<Vec<u8>>, deadlines: Deadlines)
        ensures { HasResponse self.old.held.items self.new.held.items number response }
    {
        let Some(client) = self.take(number) else {
            return;
        };
        let deadlines = match client.phase {
            Phase::InRound => deadlines,
            _ => client.deadlines,
        };
        let client = Client {
            stream: client.stream,
            phase: replied(client.phase, response),
            deadlines,
        };
        self.put(number, client);
    }

    /// Gives the client of a slot so much more time.
    pub fn put_off(&mut self, number: usize, time: Duration)
        ensures { IsLater self.old.held.items self.new.held.items number }
    {
        if let Some(mut client) = self.take(number) {
            client.put_off(time);
            self.put(number, client);
        }
    }

    /// How many clients' requests have come.
    pub fn asked(&self) -> usize {
        let clients = self.held.iter().flatten();
        clients.filter(|client| client.has_asked()).count()
    }

    /// The number of the first client, from one on, whose request has come.
    pub fn asked_from(&self, from: usize) -> Option<usize> {
        for (number, slot) in self.held.iter().enumerate().skip(from) {
            if let Some(client) = slot {
                if client.has_asked() {
                    return Some(number);
                }
            }
        }
        None
    }

    /// Whether a client asked for a call that takes long.
    pub fn is_long(&self, number: usize) -> bool {
        match self.held.get(number) {
            Some(Some(client)) => client.is_long(),
            _ => false,
        }
    }

    /// Whether all are free.
    pub fn are_free(&self) -> bool {
        self.held.iter().all(|slot| slot.is_none())
    }

    /// How many bytes of responses have not left.
    pub fn bytes(&self) -> usize {
        let clients = self.held.iter().flatten();
        clients.fold(0, |held: usize, client| {
            held.saturating_add(client.held())
        })
    }

    /// By when the first of the clients has to go on.
    pub fn first_deadline(&self) -> Option<Instant> {
        let mut first = None;
        for client in self.held.iter().flatten() {
            if !client.has_asked() {
                first = earlier(first, client.deadlines.phase);
                first = earlier(first, client.deadlines.idle);
            }
        }
        first
    }
}
