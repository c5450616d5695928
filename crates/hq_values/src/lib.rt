//! The values that every crate speaks of: addresses, names, keys and texts, queue IDs, moments and
//! lists, and the refusals and faults that a call may end in.
//!
//! Each text has one rule and one exact reader; a text that the desk itself has written has none.
#![tactic(auto)]

mod address;
mod copies;
mod decimal;
mod engine;
mod failure;
mod host;
mod key;
mod label;
pub mod laws;
mod moment;
mod name;
mod serial;
mod spool;
mod text;
mod written;

pub use address::{Address, Sender, is_address, is_domain, is_local};
pub use copies::{Items, TryCopy, copy_all};
pub use decimal::read_number;
pub use engine::EngineFault;
pub use failure::{Fail, Fault, Refusal};
pub use host::Host;
pub use key::Key;
pub use label::Label;
pub use moment::Moment;
pub use name::Name;
pub use serial::Serial;
pub use spool::Spool;
pub use text::Text;
pub use written::WrittenText;
