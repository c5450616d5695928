//! The calls that an administrator's words make, over any shelf. A word makes one call of one
//! customer that the directory names, or a round: one call of each of its customers. The crate
//! writes each answer as it is printed.
#![tactic(auto)]

mod customer;
mod history;
mod performing;
mod printed;
mod rounds;

pub use customer::customer_in;
pub use performing::{AdminCall, perform};
pub use printed::Printed;
pub use rounds::{ToldAll, call_each};
