//! Decisions: the answer to a call and the changes that it makes, from the records that were read
//! of the customer. Nothing is read or written here.
#![tactic(auto)]

pub mod histories;
pub mod imports;
pub mod lines;
pub mod messages;
pub mod notices;
pub mod outcomes;
pub mod queues;
pub mod selections;
pub mod submissions;
pub mod sweeps;
