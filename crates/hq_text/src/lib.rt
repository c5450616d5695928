//! The texts that the desk writes for people and for mail: dates, the two texts of a notice, and
//! the queue report, each exactly by its definition. The crate is pure: it sends nothing, and knows
//! no store and no clock.
//!
//! ```
//! let notice = status_text(memory, &host, &message, Kind::Failure, failed.as_slice())?;
//! let queue = report_text(memory, messages.as_slice())?;
//! ```
#![tactic(auto)]

mod dates;
pub mod laws;
mod notices;
mod queue_report;

pub use dates::date_text;
pub use notices::{human_text, queue_id, status_text};
pub use queue_report::{Report, report_text};
