//! The words of the program, as `clap` reads them: what they ask for, or the text that tells why
//! not. What a file holds, and whether a value is good, is for the crates above.
#![tactic(auto)]

mod command;
mod options;
mod selecting;
mod table;
mod texts;
mod words;

pub use options::{Batch, Check, Import, Migrate, RelayKey, Serve, Sweep, UsageWord};
pub use selecting::{Matching, Moving, Telling};
pub use words::{Word, Words, read_words};
