//! The work on one customer's rows in a store on `sqlite`: changes, after which its head row
//! follows, a move of one message or of all, or the deletion of all.
#![tactic(auto)]

mod accounts;
mod changes;
mod dropping;
mod moving_one;
mod one_message;
mod sets;
mod transacting;
mod work;

pub use accounts::account;
pub use moving_one::would_move;
pub use sets::moving;
pub use transacting::apply;
pub use work::Work;
