//! The clients of a listening socket, several at once: what each asks is gathered from its own
//! bytes, and it is sent its own response.
#![tactic(auto)]

mod clients;
mod connections;
mod deadlines;
mod delay;
pub mod laws;
mod listening;
mod slots;
mod socket_clients;
mod talking;
mod tries;
mod waiting;

pub use deadlines::Limits;
pub use listening::Moments;
pub use socket_clients::SocketClients;
pub use talking::{Connection, Listener};
