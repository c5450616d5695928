//! The clients of a server, served several at once, and by rounds: exchanges whose requests have
//! come share one commit.

ghost use Rattle.std.specs.Prelude.{◌≡◌, ◌≤◌, ◌∷◌, [], map, option_map};
ghost use Rattle.hq_desk.specs.Desks.{on};
ghost use Rattle.hq_log.specs.Entries.{exchange_entry};
ghost use Rattle.hq_wire.specs.Exchanges.{with_refusals};
ghost use Rattle.hq_wire.specs.Replies.{seen};
ghost use Rattle.hq_serve.specs.Coming.{EndsWith, each_with, sent_each, sent_to};
ghost use Rattle.hq_serve.specs.Logged.{told_each};
ghost use Rattle.hq_serve.specs.Rounds.{ServesRounds};
ghost use Rattle.hq_serve.specs.Taking.{AddsExchange, IsEven, IsTakenInto, Takes, RepliesToRound};
ghost use Rattle.hq_serve.specs.Taking.{reply_entry, timed, wants_of};

use crate::coming::{Asked, Came, Clients, Ready, ServiceEnd};
use crate::serving::exchange_of;
use hq_bodies::JsonMemory;
use hq_desk::Desk;
use hq_log::{Answered, Log};
use hq_memory::Memory;
use hq_requests::caller_named;
use hq_rounds::Rounds;
use hq_together::{round, takes_long};
use hq_values::{Fault, Moment};
use hq_wire::{Directory, Exchange, Reply, fault_reply, refusal_reply};
use std::alloc::AllocError;
use std::io::Write;

/// How many clients share a round at most.
pub const MOST_TOGETHER: usize = 64;

/// Those that were taken into a round: how many, and of these the exchanges that are done in it,
/// with the clients that asked for them.
#[derive(Drop)]
struct Round {
    taken: usize,
    clients: Vec<usize>,
    exchanges: Vec<Exchange>,
}

impl Round {
    /// One into which nobody was taken. It takes no memory.
    fn new<M: Memory>(memory: M) -> Round
        ensures { (result.taken ≡ 0) × (result.clients.items ≡ []) × (result.exchanges.items ≡ []) }
    {
        Round {
            taken: 0,
            clients: memory.none(),
            exchanges: memory.none(),
        }
    }

    /// How many of its calls take no long time.
    fn short_calls(&self) -> usize {
        let calls = self.exchanges.iter();
        calls.filter(|call| !takes_long(call.path.as_str())).count()
    }

    /// Adds what a client asks for. An error says that there is no memory for it, and it
    /// stays as it is.
    fn add<M: Memory>(
        &mut self,
        memory: M,
        client: usize,
        exchange: Exchange,
    ) -> Result<(), AllocError>
        ensures { AddsExchange M.refused client exchange self.old self.new result }
    {
        memory.push(&mut self.clients, client)?;
        if let Err(error) = memory.push(&mut self.exchanges, exchange) {
            self.clients.pop();
            return Err(error);
        }
        Ok(())
    }
}

/// Tells the log of a reply, and sends it to a client.
fn send<K: Clients, L: Log>(
    clients: &mut K,
    log: &mut L,
    client: usize,
    at: Option<Moment>,
    asked: Option<&Exchange>,
    reply: &Reply<'_>,
)
    ensures sent { K.does clients.old (sent_to client (seen reply.now) ∷ []) clients.new }
    ensures told { L.tells log.old
        (exchange_entry at (option_map (λ x. x.now) asked.entry) reply.now ∷ []) log.new }
    ensures left { K.left clients.new ≡ K.left clients.old }
{
    log.replied(&Answered { at, asked, reply });
    clients.answer(client, reply);
}

/// Takes what came from a client into a round, or replies to it at once.
fn take_one<K: Clients, L: Log, M: JsonMemory>(
    memory: M,
    clients: &mut K,
    log: &mut L,
    round: &mut Round,
    came: Came,
)
    ensures taken { IsTakenInto M.refused K.does L.tells came clients.old clients.new log.old
        log.new round.old round.new }
    ensures left { K.left clients.new ≡ K.left clients.old }
{
    let Came { client, at, asked } = came;
    match asked {
        Asked::Refused(why) => {
            let reply = refusal_reply(memory, None, why);
            send(clients, log, client, Some(at), None, &reply);
        }
        Asked::NoRoom => {
            let reply = fault_reply(None, Fault::WantOfMemory);
            send(clients, log, client, Some(at), None, &reply);
        }
        Asked::Request(request) => {
            match round.add(memory, client, exchange_of(request, at)) {
                Ok(()) => {}
                Err(_) => {
                    let reply = fault_reply(None, Fault::WantOfMemory);
                    send(clients, log, client, Some(at), None, &reply);
                }
            }
        }
    }
}

/// The next round, of so many clients at most. Their replies' time counts from here.
fn take_round<K: Clients, L: Log, M: JsonMemory>(
    memory: M,
    clients: &mut K,
    log: &mut L,
    most: usize,
) -> Round
    ensures taken { Takes M.refused K.does L.tells clients.old clients.new log.old log.new result }
    ensures few { result.taken ≤ most }
    ensures left { K.left clients.new ≡ K.left clients.old }
{
    log.begin();
    let mut round = Round::new(memory);
    for _ in 0..most.min(MOST_TOGETHER) {
        let Some(came) = clients.next(!round.exchanges.is_empty()) else {
            break;
        };
        let takes_long = came.asked.is_long();
        take_one(memory, clients, log, &mut round, came);
        round.taken = round.taken.saturating_add(1);
        if takes_long {
            break;
        }
    }
    round
}

/// Sends the replies of a round, to each client its own.
fn send_all<K: Clients, L: Log>(clients: &mut K, log: &mut L, round: &Round, replies: &[Reply<'_>])
    requires { IsEven round.now }
    ensures sent { K.does clients.old (sent_each round.now.clients.items (map seen replies.now))
        clients.new }
    ensures told { L.tells log.old
        (each_with reply_entry round.now.exchanges.items replies.now) log.new }
    ensures left { K.left clients.new ≡ K.left clients.old }
{
    for (place, client) in round.clients.iter().enumerate() {
        let Some(reply) = replies.get(place) else {
            break;
        };
        let Some(asked) = round.exchanges.get(place) else {
            break;
        };
        send(clients, log, *client, Some(asked.at), Some(asked), reply);
    }
}

/// Sends each client of a round that memory was wanted.
fn send_wants<K: Clients, L: Log>(
    clients: &mut K,
    log: &mut L,
    directory: &Directory,
    round: &Round,
)
    requires { IsEven round.now }
    ensures sent { K.does clients.old (sent_each round.now.clients.items
        (wants_of round.now.exchanges.items)) clients.new }
    ensures told { L.tells log.old (told_each directory.now (map timed round.now.exchanges.items)
        (wants_of round.now.exchanges.items)) log.new }
    ensures left { K.left clients.new ≡ K.left clients.old }
{
    for (place, exchange) in round.exchanges.iter().enumerate() {
        let Some(client) = round.clients.get(place) else {
            break;
        };
        let want = fault_reply(caller_named(directory, exchange), Fault::WantOfMemory);
        let at = Some(exchange.at);
        send(clients, log, *client, at, Some(exchange), &want);
    }
}

/// Does the exchanges of a round, each of which has its client, and sends the replies.
fn do_round<K: Clients, S: Rounds, L: Log, M: JsonMemory>(
    memory: M,
    clients: &mut K,
    log: &mut L,
    desk: Desk<S>,
    directory: &Directory,
    round_of: &Round,
) -> Desk<S>
    requires { IsEven round_of.now }
    ensures replies { RepliesToRound (with_refusals M.refused (on S.sight)) directory.now K.does
        L.tells round_of.now clients.old clients.new log.old log.new desk result }
    ensures left { K.left clients.new ≡ K.left clients.old }
{
    let (replies, desk) = round(memory, desk, directory, round_of.exchanges.as_slice());
    clients.round_done(round_of.short_calls());
    match replies {
        Ok(replies) => send_all(clients, log, round_of, replies.as_slice()),
        Err(_) => send_wants(clients, log, directory, round_of),
    }
    desk
}

/// How serving ends with so many connections left.
pub fn end_of(left: u32) -> ServiceEnd
    ensures { EndsWith left result }
{
    if left == 0 {
        return ServiceEnd::Done;
    }
    ServiceEnd::Network
}

/// Serves the clients that are to come, several at once, and then no more. Exchanges whose requests
/// have come share a round, 64 at most. One commit makes them stand together, and no response
/// leaves before it. A long call, such as a report, has a round of its own.
///
/// Each client that came is sent the reply to its own request, and no other. All exchanges are one
/// run, at the moments at which they were taken. Each customer gets the replies, and keeps the
/// records, that it would have alone. The desk does nothing for bytes that are no request. Requests
/// and replies take room from `memory`. The log is told each reply, with what it replies to, and
/// nothing else.
///
/// It ends with `Done` once all have come and been served, and not before. It ends with `Network`
/// once one could not be accepted, and those that came have been served. It ends with `Clock` if
/// the clock gives no moment for a round.
pub fn serve_rounds<K: Clients, S: Rounds, E: Write, L: Log, M: JsonMemory>(
    memory: M,
    clients: &mut K,
    desk: Desk<S>,
    directory: &Directory,
    errors: &mut E,
    log: &mut L,
) -> (ServiceEnd, Desk<S>)
    ensures { ServesRounds M.refused (on S.sight) directory.now K.does L.tells
        (K.left clients.old) (K.left clients.new) result.0 clients.old clients.new log.old log.new
        desk result.1 }
{
    let coming = clients.left() as usize;
    let mut desk = desk;
    let mut done: usize = 0;
    for _ in 0..u64::MAX {
        let ready = clients.ready(errors);
        if let Ready::Over(end) = ready {
            return (end, desk);
        }
        let came = coming.saturating_sub(clients.left() as usize);
        let most = came.saturating_sub(done);
        if most == 0 || ready == Ready::Waits {
            continue;
        }
        if ready == Ready::NoMoment {
            return (ServiceEnd::Clock, desk);
        }
        let round_of = take_round(memory, clients, log, most);
        done = done.saturating_add(round_of.taken);
        desk = do_round(memory, clients, log, desk, directory, &round_of);
    }
    (end_of(clients.left()), desk)
}
