//! Access tables, as access(5) has them: address keys, patterns, actions, first match, and the
//! verdict on a submission. It knows no store, no desk and no JSON.
#![tactic(auto)]

mod keys;
mod lookups;
mod verdicts;

pub use keys::{keys_of, keys_of_address};
pub use lookups::{Lines, lookup};
pub use verdicts::decide;
