//! The sockets of the machine: of an address, or of a path.

ghost use Rattle.std.specs.Io.{ReadsAtMost, WritesAtMost};

use hq_sockets::{Connection, Listener};
use std::io::{self, Read, Write};
use std::net::{Shutdown, TcpListener, TcpStream};
use std::os::fd::{AsRawFd, RawFd};
use std::os::unix::net::{UnixListener, UnixStream};

/// A listening socket of the machine.
#[derive(Drop)]
pub enum HostListener {
    /// Of an IP address and a port.
    Tcp(TcpListener),
    /// Of a path, on this machine alone.
    Unix(UnixListener),
}

/// Of what it accepts no contract says anything.
impl Listener for HostListener {
    ghost use Rattle.std.specs.Prelude.{⊤};

    type Connection = HostConnection;

    ghost does = { λ _ _ _. ⊤ };

    ghost none_does = { λ _. tt };

    ghost does_on = { λ _ _ _ _ _ _ _. tt };

    fn accept(&mut self) -> io::Result<HostConnection> {
        match self {
            HostListener::Tcp(listener) => {
                let (stream, _) = listener.accept()?;
                Ok(HostConnection::Tcp(stream))
            }
            HostListener::Unix(listener) => {
                let (stream, _) = listener.accept()?;
                Ok(HostConnection::Unix(stream))
            }
        }
    }

    fn close(&mut self, _connection: HostConnection) {}

    fn never_wait(&self) -> io::Result<()> {
        match self {
            HostListener::Tcp(listener) => listener.set_nonblocking(true),
            HostListener::Unix(listener) => listener.set_nonblocking(true),
        }
    }

    fn descriptor(&self) -> RawFd {
        match self {
            HostListener::Tcp(listener) => listener.as_raw_fd(),
            HostListener::Unix(listener) => listener.as_raw_fd(),
        }
    }
}

/// Reads what has come over an address.
fn read_tcp(stream: &TcpStream, buf: &mut [u8]) -> io::Result<usize>
    ensures { ReadsAtMost result buf.new }
{
    let mut stream = stream;
    stream.read(buf)
}

/// Reads what has come over a path.
fn read_unix(stream: &UnixStream, buf: &mut [u8]) -> io::Result<usize>
    ensures { ReadsAtMost result buf.new }
{
    let mut stream = stream;
    stream.read(buf)
}

/// Writes over an address.
fn write_tcp(stream: &TcpStream, buf: &[u8]) -> io::Result<usize>
    ensures { WritesAtMost result buf.now }
{
    let mut stream = stream;
    stream.write(buf)
}

/// Writes over a path.
fn write_unix(stream: &UnixStream, buf: &[u8]) -> io::Result<usize>
    ensures { WritesAtMost result buf.now }
{
    let mut stream = stream;
    stream.write(buf)
}

/// One connection of the machine. What is written leaves at once, so there is nothing to flush.
#[derive(Drop)]
pub enum HostConnection {
    /// Over an IP address.
    Tcp(TcpStream),
    /// Over a path.
    Unix(UnixStream),
}

/// Of what comes and goes no contract says anything.
impl Connection for HostConnection {
    ghost use Rattle.std.specs.Prelude.{⊤};

    ghost talks = { λ _ _ _ _. ⊤ };

    ghost ends = { λ _. ⊤ };

    ghost none_talks = { λ _. tt };

    ghost talks_on = { λ _ _ _ _ _ _ _ _ _. tt };

    fn read(&mut self, chunk: &mut [u8]) -> io::Result<usize> {
        match self {
            HostConnection::Tcp(stream) => read_tcp(stream, chunk),
            HostConnection::Unix(stream) => read_unix(stream, chunk),
        }
    }

    fn write(&mut self, bytes: &[u8]) -> io::Result<usize> {
        match self {
            HostConnection::Tcp(stream) => write_tcp(stream, bytes),
            HostConnection::Unix(stream) => write_unix(stream, bytes),
        }
    }

    fn end_writing(&mut self) -> io::Result<()> {
        match self {
            HostConnection::Tcp(stream) => stream.shutdown(Shutdown::Write),
            HostConnection::Unix(stream) => stream.shutdown(Shutdown::Write),
        }
    }

    fn never_wait(&self) -> io::Result<()> {
        match self {
            HostConnection::Tcp(stream) => stream.set_nonblocking(true),
            HostConnection::Unix(stream) => stream.set_nonblocking(true),
        }
    }

    fn descriptor(&self) -> RawFd {
        match self {
            HostConnection::Tcp(stream) => stream.as_raw_fd(),
            HostConnection::Unix(stream) => stream.as_raw_fd(),
        }
    }
}
