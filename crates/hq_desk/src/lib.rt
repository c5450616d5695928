//! The desk: one call of one customer, answered and done. It reads what the decision needs through
//! a shelf, decides, renders the answer, and only then makes the changes. It leaves moves of one
//! message or of all, and the drops of a deletion of all, to the shelf. It knows no bytes of the
//! outside.
#![tactic(auto)]

mod desk;
mod dropping;
mod moving;

pub use desk::Desk;
