//! The statements of the store on `sqlite` on notices and on histories, one function each, said of
//! the tables of all customers as finite maps.
#![tactic(auto)]

pub mod end_pages;
mod end_rows;
mod end_values;
pub mod ends;
pub mod notice_pages;
mod notice_rows;
mod notice_values;
pub mod notices;
mod numbered;
