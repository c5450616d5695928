//! What listens for clients: the network of a machine, with its sockets of an address or of a path.
#![tactic(auto)]

mod host_clients;
mod network;
mod places;
mod sockets;

pub use host_clients::HostClients;
pub use network::{HostNetwork, Network};
pub use places::Place;
pub use sockets::{HostConnection, HostListener};
