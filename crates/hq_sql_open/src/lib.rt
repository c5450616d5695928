//! The opening of a desk's store on `sqlite`, its transactions, and its migration.
//!
//! A blank store gets the tables of a desk, a desk is taken as it is, and all else is left alone. A
//! store of version 1 or 2 becomes one of version 3, which keeps reasons of holds and histories.
#![tactic(auto)]

mod create;
mod faults;
pub mod laws;
mod lifting;
mod migrating;
mod opening;
pub mod transaction;
mod version;

pub use faults::fault_of;
pub use migrating::migration;
pub use opening::{is_current, open};
