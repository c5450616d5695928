//! Replies.

ghost use Rattle.std.specs.Prelude.{◌≡◌};
ghost use Rattle.hq_requests.specs.Bodies.{body_bytes, error_told, number_shown};

use crate::Caller;

/// The bytes of a reply.
#[derive(Drop)]
pub enum Body {
    /// Made for this reply.
    Bytes(Vec<u8>),
    /// A fixed text, which takes no memory.
    Fixed(&'static str),
}

impl Body {
    /// The bytes, whichever way they are held.
    pub fn as_bytes(&self) -> &[u8]
        ensures { result.now ≡ body_bytes self.now }
    {
        match self {
            Body::Bytes(bytes) => bytes.as_slice(),
            Body::Fixed(text) => text.as_bytes(),
        }
    }
}

/// What is replied to an exchange.
#[derive(Drop)]
pub struct Reply<'d> {
    /// The HTTP status.
    pub status: u16,
    /// The number of the refusal or the fault that the body tells; 0 for an answer.
    pub number: u16,
    /// Whose the exchange is: the customer whose key was shown, or whom the relay named, and the
    /// name of that key, where it has one. `None` where it is nobody's.
    pub caller: Option<Caller<'d>>,
    /// JSON on one line.
    pub body: Body,
    ghost numbered: { number_shown number ≡ error_told status (body_bytes body) },
}
