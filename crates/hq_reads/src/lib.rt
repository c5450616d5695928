//! What each call of one customer reads through a shelf, and what is answered and changed by it.
//! The rows come from any shelf, and the decision from the crates below; nothing is written here.
#![tactic(auto)]

mod customer_lines;
mod deciding;
mod histories;
mod imports;
mod lists;
mod queues;
mod relay;
mod report;
mod submit;

pub use deciding::decide;
