//! Exchanges of a desk that are done one after another and stand together.
#![tactic(auto)]

pub mod laws;
mod long;
mod replying;

pub use long::takes_long;
pub use replying::round;
