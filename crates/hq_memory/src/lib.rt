//! Memory that may refuse. The desk asks it for room, so that a call ends in want of memory only
//! where it refused.
#![tactic(auto)]

mod memory;

pub use memory::{Memory, own_text};
