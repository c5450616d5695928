//! The answers of the desk, written as JSON.
#![tactic(auto)]

mod attempt_replies;
mod history_replies;
pub mod laws;
mod message_replies;
mod notice_replies;
mod parts;
mod queue_replies;
mod refusals;
mod replies;
mod table_replies;
mod values;
mod writing;

pub use replies::{Json, answer_bytes, refusal_text};
