//! For tests alone: a shelf that stands before another, tells the greatest number of messages that
//! it was asked for at once, and fails as told.
#![tactic(auto)]

mod failing_shelf;
mod failure;

pub use failing_shelf::FailingShelf;
pub use failure::Failure;
