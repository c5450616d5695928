//! Where a server listens: at an address, or at a path.

ghost use Rattle.std.specs.Prelude.{◌≡◌, MatchBool, IfOk, IfSome, string_bytes};
ghost use Rattle.std.specs.Net.Grammar.{IsSocketText};
ghost use Rattle.hq_network.specs.Places.{IsBoundFor, IsPlaceOf, IsSocketOf, place_line};

use crate::sockets::HostListener;
use std::alloc::{AllocError, Global};
use std::fs::{self, Permissions};
use std::io::{self, ErrorKind};
use std::net::{SocketAddr, TcpListener};
use std::os::unix::fs::{FileTypeExt, PermissionsExt};
use std::os::unix::net::{UnixListener, UnixStream};

/// A socket of a path is for its owner and its group.
const OWNER_AND_GROUP: u32 = 0o660;

/// Where a server listens.
#[derive(Clone, Copy, Drop)]
pub enum Place<'p> {
    /// At an IP address and a port.
    Address(SocketAddr),
    /// At a path.
    Path(&'p str),
}

impl Place<'_> {
    /// The line that tells it, as `listening on 127.0.0.1:8025` or `listening on unix:desk.sock`.
    pub fn line(self, alloc: Global) -> Result<String, AllocError>
        ensures { IfOk result (λ line. string_bytes line ≡ place_line self.entry) }
    {
        match self {
            Place::Address(address) => format!(in alloc; "listening on {address}\n"),
            Place::Path(path) => format!(in alloc; "listening on unix:{path}\n"),
        }
    }
}

/// Whether a path is a socket that a process left behind, on which nobody listens.
fn is_left_behind(rt: &HostRuntime, path: &str) -> bool {
    let Ok(found) = fs::symlink_metadata(rt, path) else {
        return false;
    };
    if !found.file_type().is_socket() {
        return false;
    }
    match UnixStream::connect(rt, path) {
        Ok(_) => false,
        Err(error) => error.kind() == ErrorKind::ConnectionRefused,
    }
}

/// A socket that listens at a path, for its owner and its group, in place of one left behind.
fn bind_path(rt: &HostRuntime, path: &str) -> io::Result<UnixListener> {
    if is_left_behind(rt, path) {
        fs::remove_file(rt, path)?;
    }
    let listener = UnixListener::bind(rt, path)?;
    fs::set_permissions(rt, path, Permissions::from_mode(OWNER_AND_GROUP))?;
    Ok(listener)
}

/// Whether the address that was bound is the one that was asked for; of the port 0, at any port.
fn is_bound_for(asked: SocketAddr, bound: SocketAddr) -> bool
    ensures { MatchBool result (IsBoundFor asked bound) (¬ (IsBoundFor asked bound)) }
{
    bound.ip() == asked.ip() && (asked.port() == 0 || bound.port() == asked.port())
}

/// A socket that listens at an address, and the address that was bound; `None` where the text is no
/// address, or it cannot be bound. The system tells what was bound, and a server that listened
/// elsewhere would be open to others.
fn bind_address(rt: &HostRuntime, text: &str) -> Option<(TcpListener, SocketAddr)>
    ensures { IfSome result (λ bound. IsPlaceOf text.now (Place.Address bound.1)) }
{
    let asked = text.parse::<SocketAddr>().ok()?;
    let listener = TcpListener::bind(rt, asked).ok()?;
    let bound = listener.local_addr().ok()?;
    if !is_bound_for(asked, bound) {
        return None;
    }
    Some((listener, bound))
}

/// A socket that listens where a text says, at a path after `unix:` or else at an address, and the
/// place that was bound; `None` if there is none.
pub(crate) fn bind<'p>(rt: &HostRuntime, text: &'p str) -> Option<(HostListener, Place<'p>)>
    ensures { IfSome result (λ bound. IsPlaceOf text.now bound.1 × IsSocketOf bound.1 bound.0) }
{
    match text.strip_prefix("unix:") {
        Some(path) => {
            let listener = bind_path(rt, path).ok()?;
            Some((HostListener::Unix(listener), Place::Path(path)))
        }
        None => {
            let (listener, bound) = bind_address(rt, text)?;
            Some((HostListener::Tcp(listener), Place::Address(bound)))
        }
    }
}
