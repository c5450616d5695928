//! Keyed rows in the tables of a `sqlite` store, as finite maps: what a query answers, and what an
//! insertion, an update and a deletion leave. Definitions and lemmas over any table, with no code.
#![tactic(auto)]
