//! The bodies of calls as JSON: their members, those that speak of the lines of an access table,
//! and those of relay workers that submit messages and try them. Which path and method a body
//! belongs to is not said here.
#![tactic(auto)]

mod json_memory;
mod members;
mod outcomes;
mod queries;
mod reading;
mod submission;
mod tables;

pub use json_memory::JsonMemory;
pub use outcomes::read_report;
pub use queries::{
    read_from, read_history_before, read_message_after, read_message_id, read_notice_after,
    read_notice_number,
};
pub use submission::{read_envelope, read_submission};
pub use tables::{read_check, read_find, read_import, read_line, read_pattern, read_search};
