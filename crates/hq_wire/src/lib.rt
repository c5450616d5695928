//! The wire: exchanges done by any desk, answers turned into replies, and the headline: to each
//! customer the desk is its own, whatever the other customers do.
//!
//! ```
//! let mut desk = Desk::new(ListShelf::new(alloc), host);
//! if are_customers(customers.as_slice()) {
//!     let directory = Directory::new(alloc, relay_key, customers)?; // or 57 BadRelayKey
//!     let reply = exchange(alloc, &mut desk, &directory, &asked); // always replies
//!     let replies = run(alloc, alloc, &mut desk, &directory, &many)?; // one reply for each
//! }
//! ```
#![tactic(auto)]

mod answering;
mod calling;
mod faults;
mod headline;
pub mod laws;
mod parted;

pub use answering::{exchange, refusal_reply};
pub use faults::fault_reply;
pub use headline::run;
pub use hq_requests::{Body, Directory, Exchange, Reply, are_customers};
