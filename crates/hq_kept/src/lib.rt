//! What is kept of one customer: lines of access tables, messages, notices, ends of recipients, the
//! marks of imports, and its head; the types, their forms, and how each is read. What is done with
//! them is for the crates above.
#![tactic(auto)]

mod account;
mod action;
mod attempt;
mod end;
mod key;
mod kind;
mod mark;
mod message;
mod notice;
mod outcome;
mod pattern;
mod status;

pub use account::{Counts, Customer, Entry, Head, Quota, Tally, last_gone};
pub use action::Action;
pub use attempt::Attempt;
pub use end::{End, Ends};
pub use key::{LookupKey, NULL_KEY};
pub use kind::Kind;
pub use mark::Mark;
pub use message::{Message, Pending, QueueState};
pub use notice::Notice;
pub use outcome::{Delivery, Ended, Fate, Outcome, Reported, Told};
pub use pattern::{Class, Line, Pattern};
pub use status::Status;
