//! The statements of the store on `sqlite` on recipients, which stand in places of their messages,
//! said of the tables of all customers as finite maps.
#![tactic(auto)]

pub mod places;
pub mod recipients;
