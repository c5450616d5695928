//! The connections that are still to come to a listening socket.

ghost use Rattle.std.specs.Prelude.{◌≡◌, ◌∷◌, []};
ghost use Rattle.hq_sockets.specs.Listening.{Accepts, counting};
ghost use Rattle.hq_sockets.specs.Talks.{closed};

use crate::talking::Listener;
use std::io::{self, ErrorKind};

/// A listening socket, and how many connections are still to come to it: one less for each that is
/// accepted, and nothing else changes that number.
#[derive(Drop)]
pub(crate) struct Connections<L> {
    listener: L,
    left: u32,
}

impl<L: Listener> Connections<L> {
    /// So many connections of a socket.
    pub fn new(listener: L, count: u32) -> Connections<L>
        ensures listener { result.listener ≡ listener }
        ensures left { result.left ≡ count }
    {
        Connections {
            listener,
            left: count,
        }
    }

    /// How many are still to come.
    pub fn left(&self) -> u32
        ensures { result ≡ self.now.left }
    {
        self.left
    }

    /// The next one that waits already; `None` where none does, or no more are to come. An error
    /// tells that it could not be accepted. The socket never waits then.
    pub fn accept(&mut self) -> io::Result<Option<L::Connection>>
        ensures { Accepts L.does self.old self.new result }
    {
        if self.left == 0 {
            return Ok(None);
        }
        match self.listener.accept() {
            Ok(connection) => {
                self.left -= 1;
                Ok(Some(connection))
            }
            Err(error) if error.kind() == ErrorKind::WouldBlock => Ok(None),
            Err(error) => Err(error),
        }
    }

    /// Closes a connection that was accepted.
    pub fn close(&mut self, connection: L::Connection)
        ensures { counting L.does self.old (closed connection ∷ []) self.new }
    {
        self.listener.close(connection);
    }
}
