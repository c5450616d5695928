//! One client of several, none of which waits for another: its request is gathered, and its
//! response leaves, as far as its socket gives and takes without a wait.

ghost use Rattle.std.specs.Prelude.{◌≡◌, ◌≤◌, [], List, ℕ, drop, length, take};
ghost use Rattle.hq_http.specs.Gathered.{IsGathered};
ghost use Rattle.hq_serve.specs.declared.coming.Came.{Came};
ghost use Rattle.hq_sockets.specs.Clients.{AskedInput, IsIn, TurnsTo};
ghost use Rattle.hq_sockets.specs.declared.clients.Phase.TheVariants.{Answered, Asking, Leaving};
ghost use Rattle.hq_sockets.specs.Slots.{Slot, AskedFirst, asking, told};

use crate::deadlines::{Deadlines, Limits, after, is_past, seconds};
use crate::talking::Connection;
use crate::tries::{Tried, read_some, write_some};
use hq_http::{Gathered, Gathering, Input};
use hq_memory::Memory;
use hq_serve::Asked;
use hq_values::EngineFault;
use std::time::{Duration, Instant};

/// How often one client is read or written before the others have their turn.
const MOST_TRIES: u32 = 32;

/// How often what a client still sends is read at most, when its response went out.
const MOST_THROWN: u32 = 4_096;

/// How many seconds a client whose response went out has to end its side.
const LINGER_SECONDS: u64 = 1;

/// How far a client has come.
#[derive(Drop)]
pub(crate) enum Phase {
    /// Its request comes.
    Asking(Gathering),
    /// Its request came, or cannot be read. The desk has still to answer it.
    Asked(Asked),
    /// The desk does its request in a round.
    InRound,
    /// Its response leaves: all its bytes, and how many of them went out.
    Answered(Vec<u8>, usize),
    /// There is no memory for its response.
    Unsent,
    /// Its response went out. The server reads so many times more, and discards what comes.
    Leaving(u32),
}

/// A client.
#[derive(Drop)]
pub(crate) struct Client<C> {
    /// Its connection, which never waits.
    pub stream: C,
    /// How far it has come.
    pub phase: Phase,
    /// By when it has to go on.
    pub deadlines: Deadlines,
}

/// What became of a client in a turn.
#[derive(Drop)]
pub(crate) enum Turned<C> {
    /// It stays until its socket gives or takes more, or the desk answers it.
    Waits(Client<C>),
    /// It stays, and goes on in the next turn.
    GoesOn(Client<C>),
    /// It is done with.
    Left(C),
    /// It failed, or took too long.
    Failed(C, EngineFault),
}

impl<C: Drop> Client<C> {
    /// How many bytes its response holds, until all of them went out.
    pub fn held(&self) -> usize {
        match &self.phase {
            Phase::Answered(bytes, _) => bytes.len(),
            _ => 0,
        }
    }

    /// Whether its request came, or cannot be read, and the desk has still to answer it.
    pub fn has_asked(&self) -> bool {
        matches!(self.phase, Phase::Asked(_))
    }

    /// Whether it asked for a call that takes long.
    pub fn is_long(&self) -> bool {
        match &self.phase {
            Phase::Asked(asked) => asked.is_long(),
            _ => false,
        }
    }

    /// Gives it so much more time.
    pub fn put_off(&mut self, time: Duration)
        ensures { (self.new.stream ≡ self.old.stream) × (self.new.phase ≡ self.old.phase) }
    {
        self.deadlines = self.deadlines.put_off(time);
    }

    /// Whether it took longer than it may. One whose request has come waits for the desk instead.
    fn is_late(&self, now: Option<Instant>) -> bool {
        match self.phase {
            Phase::Asked(_) | Phase::InRound => false,
            _ => is_past(self.deadlines.phase, now) || is_past(self.deadlines.idle, now),
        }
    }
}

impl<C: Connection + Drop> Client<C> {
    /// One that was accepted now.
    pub fn new<M: Memory>(memory: M, stream: C, deadlines: Deadlines) -> Client<C>
        ensures { IsIn M.refused C.talks C.ends (asking stream) result }
    {
        Client {
            stream,
            phase: Phase::Asking(Gathering::new(memory)),
            deadlines,
        }
    }

    /// It stays, where its socket would have waited, unless it took longer than it may.
    fn unless_late<M: Memory>(self, _memory: M, now: Option<Instant>) -> Turned<C>
        ensures { (slot : Slot C) → IsIn M.refused C.talks C.ends slot self
            → TurnsTo M.refused C.talks C.ends slot result }
    {
        if !self.is_late(now) {
            return Turned::Waits(self);
        }
        let Client {
            stream,
            phase,
            deadlines,
        } = self;
        match phase {
            Phase::Asking(_) => Turned::Failed(stream, EngineFault::Read),
            Phase::Answered(_, _) => Turned::Failed(stream, EngineFault::Write),
            Phase::Unsent | Phase::Leaving(_) => Turned::Left(stream),
            phase => Turned::Waits(Client {
                stream,
                phase,
                deadlines,
            }),
        }
    }

    /// Reads and writes as much as is there, and as its turn allows. It takes too long only where
    /// its socket gives and takes nothing more: the desk may have been busy meanwhile.
    pub fn turn<M: Memory>(self, memory: M, limits: Limits, now: Option<Instant>) -> Turned<C>
        ensures { (slot : Slot C) → IsIn M.refused C.talks C.ends slot self
            → TurnsTo M.refused C.talks C.ends slot result }
    {
        match self.go_on(memory, limits, now) {
            Turned::Waits(client) => client.unless_late(memory, now),
            turned => turned,
        }
    }

    /// Reads and writes as much as is there, and as its turn allows, however long it took.
    fn go_on<M: Memory>(self, memory: M, limits: Limits, now: Option<Instant>) -> Turned<C>
        ensures { (slot : Slot C) → IsIn M.refused C.talks C.ends slot self
            → TurnsTo M.refused C.talks C.ends slot result }
    {
        let Client {
            stream,
            phase,
            deadlines,
        } = self;
        let idle = after(now, seconds(limits.idle));
        match phase {
            Phase::Asking(gathering) => gather(memory, stream, gathering, deadlines, idle),
            Phase::Unsent => Turned::Failed(stream, EngineFault::Write),
            Phase::Answered(bytes, sent) => {
                let end = after(now, Duration::from_secs(LINGER_SECONDS));
                send(memory, stream, bytes, sent, deadlines, idle, end)
            }
            Phase::Leaving(left) => throw_away(memory, stream, left, deadlines),
            phase => Turned::Waits(Client {
                stream,
                phase,
                deadlines,
            }),
        }
    }
}

/// A client that goes on with its request in the next turn, or when more of it comes.
fn asking_client<C: Connection>(stream: C, gathering: Gathering, deadlines: Deadlines) -> Client<C>
    ensures { (result.stream ≡ stream) × (result.phase ≡ Asking gathering) }
{
    Client {
        stream,
        phase: Phase::Asking(gathering),
        deadlines,
    }
}

/// A client whose request has come, or one that asked for nothing.
fn asked<C: Connection, M: Memory>(
    _memory: M,
    stream: C,
    input: Input,
    deadlines: Deadlines,
) -> Turned<C>
    ensures { (first : C) (got : List ℕ) → C.talks first got [] stream
        → AskedInput M.refused C.talks C.ends first got input → TurnsTo M.refused C.talks C.ends
        (asking first) result }
{
    let asked = match input {
        Input::Nothing => return Turned::Left(stream),
        Input::Refused(refusal) => Asked::Refused(refusal),
        Input::NoRoom => Asked::NoRoom,
        Input::Request(request) => Asked::Request(request),
    };
    Turned::GoesOn(Client {
        stream,
        phase: Phase::Asked(asked),
        deadlines,
    })
}

/// Gathers what came of a request. Where any did, more has to come by `idle`.
fn gather<C: Connection, M: Memory>(
    memory: M,
    stream: C,
    gathering: Gathering,
    deadlines: Deadlines,
    idle: Option<Instant>,
) -> Turned<C>
    ensures { (first : C) (got : List ℕ) → C.talks first got [] stream → IsGathered got gathering
        → TurnsTo M.refused C.talks C.ends (asking first) result }
{
    let mut stream = stream;
    let mut gathering = gathering;
    let mut deadlines = deadlines;
    let mut chunk = [0; 4_096];
    for _ in 0..MOST_TRIES {
        match read_some(&mut stream, &mut chunk) {
            Tried::Bytes(count) => {
                deadlines.idle = idle;
                match gathering.more(memory, &chunk[..count]) {
                    Gathered::Open(more) => gathering = more,
                    Gathered::Done(input) => return asked(memory, stream, input, deadlines),
                }
            }
            Tried::Again => {}
            Tried::Waits => return Turned::Waits(asking_client(stream, gathering, deadlines)),
            Tried::Closed => {
                let input = gathering.end();
                return asked(memory, stream, input, deadlines);
            }
            Tried::Failed => return Turned::Failed(stream, EngineFault::Read),
        }
    }
    Turned::GoesOn(asking_client(stream, gathering, deadlines))
}

/// A client whose response went out; it has to end its side by this instant.
fn leaving<C: Connection, M: Memory>(_memory: M, stream: C, end: Option<Instant>) -> Turned<C>
    ensures { (first : C) (one : Came) (got response : List ℕ) → C.talks first got response stream
        → AskedFirst M.refused C.talks C.ends first got one.asked
        → TurnsTo M.refused C.talks C.ends (told first one response) result }
{
    let mut stream = stream;
    if stream.end_writing().is_err() {
        return Turned::Left(stream);
    }
    Turned::GoesOn(Client {
        stream,
        phase: Phase::Leaving(MOST_THROWN),
        deadlines: Deadlines {
            phase: end,
            idle: end,
        },
    })
}

/// A client whose response has not left yet.
fn answered<C: Connection>(
    stream: C,
    bytes: Vec<u8>,
    sent: usize,
    deadlines: Deadlines,
) -> Client<C>
    ensures { (result.stream ≡ stream) × (result.phase ≡ Answered bytes sent) }
{
    Client {
        stream,
        phase: Phase::Answered(bytes, sent),
        deadlines,
    }
}

/// What is left of bytes of which so many were sent.
fn rest_of(bytes: &[u8], sent: usize) -> &[u8]
    ensures { result.now ≡ drop sent bytes.now }
{
    bytes.get(sent..).unwrap_or(&[])
}

/// Sends what is left of a response. Where any was taken, more has to be by `idle`; and where all
/// was, the client has to end its side by `end`.
fn send<C: Connection, M: Memory>(
    memory: M,
    stream: C,
    bytes: Vec<u8>,
    sent: usize,
    deadlines: Deadlines,
    idle: Option<Instant>,
    end: Option<Instant>,
) -> Turned<C>
    ensures { (first : C) (one : Came) (got : List ℕ)
        → C.talks first got (take sent bytes.items) stream → AskedFirst M.refused C.talks C.ends
        first got one.asked
        → sent ≤ length bytes.items
        → TurnsTo M.refused C.talks C.ends (told first one bytes.items) result }
{
    let mut stream = stream;
    let mut sent = sent;
    let mut deadlines = deadlines;
    for _ in 0..MOST_TRIES {
        let rest = rest_of(bytes.as_slice(), sent);
        if rest.is_empty() {
            return leaving(memory, stream, end);
        }
        match write_some(&mut stream, rest) {
            Tried::Bytes(count) => {
                deadlines.idle = idle;
                sent = sent.saturating_add(count);
            }
            Tried::Again => {}
            Tried::Waits => return Turned::Waits(answered(stream, bytes, sent, deadlines)),
            Tried::Closed | Tried::Failed => return Turned::Failed(stream, EngineFault::Write),
        }
    }
    Turned::GoesOn(answered(stream, bytes, sent, deadlines))
}

/// Throws away what a client still sends, so many reads more.
fn throw_away<C: Connection, M: Memory>(
    _memory: M,
    stream: C,
    left: u32,
    deadlines: Deadlines,
) -> Turned<C>
    ensures { (first : C) (one : Came) (got response : List ℕ) → C.talks first got response stream
        → AskedFirst M.refused C.talks C.ends first got one.asked
        → TurnsTo M.refused C.talks C.ends (told first one response) result }
{
    let mut stream = stream;
    let mut left = left;
    let mut thrown = [0; 4_096];
    for _ in 0..MOST_TRIES {
        match read_some(&mut stream, &mut thrown) {
            Tried::Bytes(_) | Tried::Again => match left.checked_sub(1) {
                None => return Turned::Left(stream),
                Some(fewer) => left = fewer,
            },
            Tried::Waits => return Turned::Waits(leaver(stream, left, deadlines)),
            Tried::Closed | Tried::Failed => return Turned::Left(stream),
        }
    }
    Turned::GoesOn(leaver(stream, left, deadlines))
}

/// A client that has still to end its side.
fn leaver<C: Connection>(stream: C, left: u32, deadlines: Deadlines) -> Client<C>
    ensures { (result.stream ≡ stream) × (result.phase ≡ Leaving left) }
{
    Client {
        stream,
        phase: Phase::Leaving(left),
        deadlines,
    }
}
