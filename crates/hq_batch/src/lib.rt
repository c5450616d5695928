//! Batches: each line of an input is replied to as an exchange with the desk.
//!
//! `run_batch` runs a batch over any shelf, for the customers of some settings, and
//! `run_batch_in_rounds` one over a shelf with rounds, where lines that are there together share a
//! commit. `check` tells whether a desk would start with these settings. The rest is what the
//! program shares with other commands: its words, and how answers and faults are printed.
//!
//! ```
//! let status = check(rt, given, output, errors); // 0 and `3 customers`, or 1 and why
//! ```
#![tactic(auto)]

mod arguments;
mod checking;
mod front;
pub mod laws;
mod printing;
mod rounds;
mod running;
mod serving;
mod telling;
mod waiting;
mod writing;

pub use arguments::words;
pub use checking::check;
pub use hq_values::EngineFault;
pub use printing::{print, print_all, put, show};
pub use running::{run_batch, run_batch_in_rounds};
pub use serving::batch;
pub use telling::{BAD_WORDS, not_begun, refuse, tell};
