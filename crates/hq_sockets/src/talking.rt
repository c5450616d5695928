//! A listening socket, and the connections that come to it.

use std::io;
use std::os::fd::RawFd;

/// One connection. What came over it, and what was sent over it, are facts of this value alone:
/// they are obtained by its methods, and by nothing else.
pub trait Connection {
    ghost use Rattle.std.specs.Prelude.{◌++◌, [], ℕ, List};
    ghost use Rattle.hq_sockets.specs.Talks.{GivesBytes, Talking, TakesBytes};

    // from one state to another these bytes came, and these were sent, and nothing else was
    ghost talks: { Talking Self };

    // the client ended its side: no more comes
    ghost ends: { Self → Type 0 };

    // nothing came, and nothing was sent
    ghost none_talks: { (state : Self) → talks state [] [] state };

    // one after another
    ghost talks_on: { (old mid new : Self) (got more gave others : List ℕ)
        → talks old got gave mid → talks mid more others new
        → talks old (got ++ more) (gave ++ others) new };

    /// Reads what has come into `chunk`; 0 says that the client ended its side, if the chunk has
    /// room. At an error nothing was read, as one of the kind `WouldBlock` says of a connection
    /// that never waits.
    fn read(&mut self, chunk: &mut [u8]) -> io::Result<usize>
        ensures { GivesBytes talks ends self.old self.new chunk.new result };

    /// Writes as much as it takes. At an error nothing was written.
    fn write(&mut self, bytes: &[u8]) -> io::Result<usize>
        ensures { TakesBytes talks self.old self.new bytes.now result };

    /// Ends the side that is written; the other one stays open.
    fn end_writing(&mut self) -> io::Result<()>
        ensures { talks self.old [] [] self.new };

    /// From now on a read or a write that would wait fails with `WouldBlock`.
    fn never_wait(&self) -> io::Result<()>;

    /// Its descriptor, by which it is watched.
    fn descriptor(&self) -> RawFd;
}

/// A listening socket. Which connections it accepted and closed is a fact of this value alone.
pub trait Listener {
    ghost use Rattle.std.specs.Prelude.{◌∷◌, ◌++◌, [], List, OnErr};
    ghost use Rattle.hq_sockets.specs.Talks.{Listening, OnAccepted, SocketEvent, accepted, closed};

    /// A connection that came to it.
    type Connection: Connection + Drop;

    // from one state to another these were accepted and closed, in this order, and no others
    ghost does: { Listening Self Self.Connection };

    // none was
    ghost none_does: { (state : Self) → does state [] state };

    // one after another
    ghost does_on: { (old mid new : Self) (events more : List (SocketEvent Self.Connection))
        → does old events mid → does mid more new → does old (events ++ more) new };

    /// The next connection. An error of the kind `WouldBlock` says that none waits, of a socket
    /// that never waits.
    fn accept(&mut self) -> io::Result<Self::Connection>
        ensures { OnAccepted does self.old self.new result };

    /// Closes a connection that it accepted.
    fn close(&mut self, connection: Self::Connection)
        ensures { does self.old (closed connection ∷ []) self.new };

    /// From now on `accept` fails with `WouldBlock` where none waits.
    fn never_wait(&self) -> io::Result<()>;

    /// Its descriptor, by which it is watched.
    fn descriptor(&self) -> RawFd;
}
