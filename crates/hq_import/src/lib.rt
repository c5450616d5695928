//! Files of an administrator, as CSV: access tables, the directory of customers, and their named
//! keys. A file is read whole or refused at its first bad row. Beside that: whose a name or a key
//! is. What is done with rows is for the crates above.
#![tactic(auto)]

mod columns;
mod customers;
mod directory;
mod fields;
mod keys;
mod records;
mod refused;
mod seen;
mod table;

pub use columns::{Column, Number};
pub use customers::{are_customers, has_name, with_key, with_name};
pub use directory::{directory_of, read_directory};
pub use keys::{NamedKey, Right, is_key_taken, opened_by, read_keys};
pub use refused::{DirectoryFail, DirectoryRefusal, Wrong};
pub use table::lines_of;
