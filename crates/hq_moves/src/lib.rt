//! A shelf that moves one message of a customer, and moves or drops all at once; by reading and
//! changing each, where it has no better way.
#![tactic(auto)]

mod moves_messages;

pub use moves_messages::MovesMessages;
