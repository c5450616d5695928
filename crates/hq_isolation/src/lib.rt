//! One customer's part of the tables of all, as laws and lemmas with no program in them: what is
//! read of it, what changes leave of it and of all others, that counts are kept and no recipient is
//! lost, and isolation of one call, whatever kind it is.
#![tactic(auto)]

pub mod laws;
