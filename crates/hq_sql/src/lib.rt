//! What the statements of the store on `sqlite` share: rows and columns, the tables of a store,
//! reading and binding values, rows that are lent, what is kept; and the statements on heads.
#![tactic(auto)]

pub mod bind;
mod decode;
pub mod heads;
pub mod lent;
mod memory;
pub mod read;
mod unfit;
pub mod values;

pub use memory::SqliteMemory;
pub use unfit::{Form, Limits};
