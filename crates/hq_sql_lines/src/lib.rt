//! The statements of the store on `sqlite` on the lines of access tables, and their pages, and on
//! the marks of their imports, said of the tables of all customers as finite maps.
#![tactic(auto)]

mod bind;
mod decode;
pub mod line_pages;
pub mod lines;
pub mod marks;
mod read;
