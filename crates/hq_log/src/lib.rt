//! A log of exchanges: a line of JSON for each that was replied to. It tells when, whose, what was
//! asked, what came of it, and how long the desk took; it tells no key and no body of a request.
//!
//! ```
//! let mut logs = HostLogs::new(&rt);
//! let mut log = logs.open(Some("desk.log")); // or "-", for standard error
//! log.begin();
//! let reply = exchange(alloc, &mut desk, &directory, &asked);
//! log.replied(&answered); // one line more, or `hq: log` on the errors
//! logs.close(log);
//! ```
#![tactic(auto)]

mod entry;
mod keeping;
pub mod laws;
mod line_log;
mod target;

pub use entry::ExchangeEntry;
pub use keeping::{Answered, Log, NoLog};
pub use line_log::{LineLog, LogFile};
pub use target::{HostLog, HostLogs, LogTarget, Logs};
