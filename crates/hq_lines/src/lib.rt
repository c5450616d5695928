//! The lines of an input, the fields of a line, the loop that has each line answered, and writing
//! that tells how far it came.
//! What a request means and what its reply says is for the crates above.
#![tactic(auto)]

mod answering;
mod buffer;
mod fields;
mod writing;

pub use answering::{Answers, answer_lines};
pub use fields::{RequestLine, read_line};
pub use writing::write_whole;
