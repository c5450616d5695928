//! A shelf whose calls can be made to stand together. It knows no shelf that there is.
#![tactic(auto)]

mod rounds;

pub use rounds::Rounds;
