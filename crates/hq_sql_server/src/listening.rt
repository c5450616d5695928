//! The place at which a server listens.

ghost use Rattle.std.specs.Prelude.{◌≡◌};
ghost use Rattle.hq_sql_server.specs.Listening.{ListenEnds, TellsPlace, limits_of};

use hq_batch::put;
use hq_network::{Network, Place};
use hq_settings::Trouble;
use hq_sockets::Limits;
use hq_values::Fault;
use hq_words::Serve;
use std::alloc::Global;
use std::io::Write;

/// How long a client may take, as the words have it.
fn limits(given: &Serve) -> Limits
    ensures { result ≡ limits_of given.now }
{
    Limits {
        idle: given.idle_timeout,
        request: given.request_timeout,
    }
}

/// Prints the place that was bound.
fn tell_place<W: Write>(alloc: Global, place: Place<'_>, output: &mut W) -> Result<(), Trouble>
    ensures { TellsPlace place.entry (W.contents output.old) (W.contents output.new)
        (output.new ≡ output.old) result }
{
    match place.line(alloc) {
        Ok(line) => put(line.as_bytes(), output),
        Err(_) => Err(Trouble::from(Fault::WantOfMemory)),
    }
}

/// Listens at an address or a path, and prints the one that was bound: an address has another port
/// if that of the text is 0. If it cannot be printed, its clients are ended at once.
pub(crate) fn listen<N: Network, W: Write>(
    alloc: Global,
    network: &mut N,
    given: &Serve,
    output: &mut W,
) -> Result<N::Clients, Trouble>
    ensures { ListenEnds N.does N.Clients.begins N.Clients.left given.now.listen.now
        given.now.count (limits_of given.now) network.old network.new (output.new ≡ output.old)
        (W.contents output.old) (W.contents output.new) result }
{
    match network.listen(given.listen, given.count, limits(given)) {
        None => Err(Trouble::Network),
        Some((clients, place)) => match tell_place(alloc, place, output) {
            Ok(()) => Ok(clients),
            Err(trouble) => {
                network.end(clients);
                Err(trouble)
            }
        },
    }
}
