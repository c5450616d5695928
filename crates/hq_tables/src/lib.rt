//! The tables of all customers, one customer's part of them, and what holds of them after any
//! calls; and what every shelf of them does: reading calls, and one writing call that makes all its
//! changes or none. It knows no rule of the queue, and no shelf that there is.
#![tactic(auto)]

mod account;
mod change;
pub mod laws;
mod shelf;

pub use account::Account;
pub use change::Change;
pub use shelf::Shelf;
