//! The headline across stops, as laws over histories: sessions of a desk over one store, each until
//! the store was closed or the machine stopped. There is no program in them.
#![tactic(auto)]

pub mod laws;
