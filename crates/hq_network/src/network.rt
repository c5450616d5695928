//! What listens for clients.

use crate::host_clients::HostClients;
use crate::places::{Place, bind};
use hq_serve::Clients;
use hq_sockets::Limits;

/// What listens for clients. At which places it listened, and how the clients ended that came
/// there, are facts of this value alone: they are obtained by its methods, and by nothing else.
pub trait Network {
    ghost use Rattle.std.specs.Prelude.{◌≡◌, ◌∷◌, ◌++◌, [], List, IfSome};
    ghost use Rattle.hq_network.specs.Networks.{NetworkEvent, Networking, ended, listened};
    ghost use Rattle.hq_network.specs.Places.{IsPlaceOf};

    /// Clients that come.
    type Clients: Clients + Drop;

    // from one state to another this was done, in this order, and nothing else
    ghost does: { Networking Self Self.Clients };

    // nothing was
    ghost none_does: { (state : Self) → does state [] state };

    // one after another
    ghost does_on: { (old mid new : Self) (events more : List (NetworkEvent Self.Clients))
        → does old events mid → does mid more new → does old (events ++ more) new };

    /// The clients that come to the place that a text names, so many, within these limits; and the
    /// place that was bound. `None` if there is none.
    fn listen<'p>(
        &mut self,
        text: &'p str,
        count: u32,
        limits: Limits,
    ) -> Option<(Self::Clients, Place<'p>)>
        ensures place { IfSome result (λ bound. IsPlaceOf text.now bound.1) }
        ensures count { IfSome result (λ bound. Self.Clients.left bound.0 ≡ count) }
        ensures begins { IfSome result (λ bound. Self.Clients.begins bound.0) }
        ensures listened { does self.old
            (listened text.now limits result ∷ []) self.new };

    /// Ends with these clients: those that are left are closed.
    fn end(&mut self, clients: Self::Clients)
        ensures { does self.old (ended clients ∷ []) self.new };
}

/// The network of the machine, of which no contract says anything.
#[derive(Drop)]
pub struct HostNetwork<'h> {
    rt: &'h HostRuntime,
}

impl<'h> HostNetwork<'h> {
    /// That of a machine.
    pub fn new(rt: &'h HostRuntime) -> HostNetwork<'h> {
        HostNetwork { rt }
    }
}

impl<'h> Network for HostNetwork<'h> {
    ghost use Rattle.std.specs.Prelude.{⊤};

    type Clients = HostClients<'h>;

    ghost does = { λ _ _ _. ⊤ };

    ghost none_does = { λ _. tt };

    ghost does_on = { λ _ _ _ _ _ _ _. tt };

    fn listen<'p>(
        &mut self,
        text: &'p str,
        count: u32,
        limits: Limits,
    ) -> Option<(HostClients<'h>, Place<'p>)> {
        let (listener, place) = bind(self.rt, text)?;
        Some((HostClients::new(self.rt, listener, count, limits)?, place))
    }

    fn end(&mut self, _clients: HostClients<'h>) {}
}
