//! The settings of a desk: the relay's name and key, the directory of customers, and the keys that
//! they have beside their own. They come from texts and the bytes of files, which words name; each
//! is checked in the written order, for a start or for a check alone. Without words there are
//! built-in ones.
//!
//! `Trouble` says why a program did not do what its words asked for.
//!
//! ```
//! let settings = set_up(rt, host, relay_key, directory, keys)?; // what a desk starts with
//! let customers = customers_of(rt, directory)?; // without the relay
//! let mut desk = Desk::new(ListShelf::new(alloc), settings.host); // and &settings.directory
//! ```
#![tactic(auto)]

mod builtin;
mod checking;
mod files;
mod relay;
mod relay_words;
mod setting_up;
mod settings;
mod trouble;

pub use builtin::settings as builtin_settings;
pub use checking::{count_customers, relay_given};
pub use files::{Files, customers_of, keys_of};
pub use relay::Relay;
pub use relay_words::relay_of;
pub use setting_up::set_up;
pub use settings::Settings;
pub use trouble::Trouble;
