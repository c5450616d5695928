//! From an exchange to the call that it asks for, or to the refusal that comes before any call:
//! whose key it shows, which route it takes, what its body says. No shelf is asked here.
//!
//! Paths are matched as they stand: no escape, no query, no case.
#![tactic(auto)]

mod directory;
mod exchanges;
mod keys;
mod named;
mod number;
mod reply;
mod request;
mod routes;
mod spans;
mod table;

pub use directory::Directory;
pub use exchanges::Exchange;
pub use hq_import::are_customers;
pub use keys::{Caller, Holder};
pub use named::caller_named;
pub use reply::{Body, Reply};
pub use request::{Asking, call_of};
pub use routes::{RouteMemory, Routes, last_segment};
pub use spans::{Span, asked_in};
pub use table::{Methods, Role, Route};
