//! The headline across stops, over a store of `sqlite`: sessions of a desk, one after another, with
//! a stop behind each.
#![tactic(auto)]

mod histories;
pub mod laws;
mod serving;
mod sessions;

pub use histories::{Served, Visit, history};
pub use serving::{Server, session_in_rounds};
pub use sessions::{Stopped, session};
