//! Clients as a server sees them: what comes from each, and what each is sent.

use hq_http::Request;
use hq_together::takes_long;
use hq_values::{Moment, Refusal};
use hq_wire::Reply;
use std::io::Write;

/// What a client asks for.
#[derive(Drop)]
pub enum Asked {
    /// What came is refused.
    Refused(Refusal),
    /// There was no room for what came: memory was refused.
    NoRoom,
    /// A whole request.
    Request(Request),
}

impl Asked {
    /// Whether it is a call that takes long.
    pub fn is_long(&self) -> bool {
        match self {
            Asked::Request(request) => takes_long(request.path.as_str()),
            _ => false,
        }
    }
}

/// What came from one client.
#[derive(Drop)]
pub struct Came {
    /// The number of the client. No other has it until this one is replied to.
    pub client: usize,
    /// When it is taken.
    pub at: Moment,
    /// What it asks for.
    pub asked: Asked,
}

/// Why no more connections are served.
#[derive(Clone, Copy, Debug, PartialEq, Eq)]
pub enum ServiceEnd {
    /// All that were to come came.
    Done,
    /// One that was to come could not be accepted.
    Network,
    /// The clock gives no time, or one that is no moment of the desk. The connections that are open
    /// are closed: requests get no reply, and responses that leave are cut.
    Clock,
}

/// Whether a round may begin.
#[derive(Clone, Copy, Debug, PartialEq, Eq)]
pub enum Ready {
    /// A request has come, and there is a moment for its round.
    Begins,
    /// A request has come, and the clock gives no moment for its round.
    NoMoment,
    /// Not yet.
    Waits,
    /// All that came are served, and no more come.
    Over(ServiceEnd),
}

/// The clients of a server. What came from a client, and what it was sent, are facts of this value
/// alone: they are obtained by its methods, and by nothing else. So a server that is generic over
/// it replies to what came, and sends each client what its contract says, and nothing else.
pub trait Clients {
    ghost use Rattle.std.specs.Prelude.{◌≡◌, ◌≤◌, ◌∷◌, ◌++◌, [], ℕ, List, IfSome, IfNone};
    ghost use Rattle.hq_wire.specs.Replies.{seen};
    ghost use Rattle.hq_serve.specs.Coming.{IsReady, ClientEvent, Serving, came, sent_to};

    // from one state of all clients to another this came and was sent, in this order, and nothing
    // else
    ghost does: { Serving Self };

    // nobody came yet
    ghost begins: { Self → Type 0 };

    // nobody came, and nobody was sent anything
    ghost none_does: { (state : Self) → does state [] state };

    // one after another
    ghost does_on: { (old mid new : Self) (events more : List ClientEvent)
        → does old events mid → does mid more new → does old (events ++ more) new };

    // how many connections are still to come
    ghost left: { Self → ℕ };

    /// How many connections are still to come.
    fn left(&self) -> u32
        ensures { result ≡ left self.now };

    /// Accepts clients, reads what comes and writes responses, as far as sockets go without a wait.
    /// If then no round may begin, waits until a socket gives or takes more, or a time has come. A
    /// fault of a client is written on `errors` in a line.
    fn ready<E: Write>(&mut self, errors: &mut E) -> Ready
        ensures nothing { does self.old [] self.new }
        ensures fewer { left self.new ≤ left self.old }
        ensures ready { IsReady (left self.new) result };

    /// What came from the next client, from the one after the last that was taken. `None` if
    /// nothing came; or if a round has begun, and the call of the next takes long.
    fn next(&mut self, has_begun: bool) -> Option<Came>
        ensures came { IfSome result (λ one. does self.old (came one ∷ []) self.new) }
        ensures none { IfNone result (does self.old [] self.new) }
        ensures left { left self.new ≡ left self.old };

    /// A round of so many short calls is done: each client gets as much more time as it took, and
    /// the next round may be delayed.
    fn round_done(&mut self, calls: usize)
        ensures nothing { does self.old [] self.new }
        ensures left { left self.new ≡ left self.old };

    /// Sends a reply as a response to the client of this number: whole, or a beginning of it if the
    /// connection ends; or nothing if there is no memory for it, and the connection is closed then.
    fn answer(&mut self, client: usize, reply: &Reply<'_>)
        ensures sent { does self.old (sent_to client (seen reply.now) ∷ []) self.new }
        ensures left { left self.new ≡ left self.old };
}
