//! The shelf that keeps the tables in plain lists in memory: slow, and simple to look through. Each
//! table but that of heads is a list of rows; a message is read from three of them, and what a
//! customer keeps is counted row by row.
#![tactic(auto)]

pub mod ends;
mod heads;
pub mod holds;
pub mod lines;
mod list_rows;
mod list_shelf;
pub mod marks;
pub mod messages;
pub mod notices;
pub mod recipients;

pub use list_shelf::ListShelf;
