//! Queued messages of one customer: what they are, how they move, when a new one is admitted, what
//! the report of an attempt makes of one, and what its age does, in the words of postsuper(1) and
//! qmgr(8). The crate is pure: it knows no store, no clock and no wire.
//!
//! ```
//! // what a worker reports of an attempt; after a refusal the message is as it was
//! if let Reported::Done { failed, .. } = report(memory, &mut message, at, attempt, outcomes)? {
//!     // a notice is owed to the sender: of those who failed
//! }
//! let swept = sweep_one(&mut message, at, delay); // expired, warned or untouched
//! ```
#![tactic(auto)]

mod addresses;
mod admission;
mod backoff;
mod ending;
mod moves;
mod reporting;
mod requeueing;
mod sweep;

pub use addresses::distinct;
pub use admission::admit;
pub use backoff::next_try;
pub use ending::end_all;
pub use moves::{hold, release};
pub use reporting::report;
pub use requeueing::requeue;
pub use sweep::sweep_one;
