//! The statements of the store on `sqlite` on the rows of messages, without their recipients, and
//! on the reasons of messages on hold: one function each, said of the tables of all customers as
//! finite maps.
#![tactic(auto)]

mod hold_rows;
mod hold_values;
pub mod holds;
pub mod message_rows;
mod message_values;
pub mod messages;
pub mod moves;
pub mod one_move;
