//! One request from any reader, however its bytes are cut, and one response.
#![tactic(auto)]

mod begun;
mod ends;
mod fields;
mod gathering;
mod head;
mod laws;
mod reading;
mod reads;
mod stages;
mod writing;

pub use gathering::{Gathered, Gathering};
pub use laws::one_request;
pub use reading::{Input, read_request};
pub use reads::Reads;
pub use stages::Request;
pub use writing::write_response;
