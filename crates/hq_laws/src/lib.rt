//! Laws over the definitions of the calls and of runs, with no program in them: whose call it is;
//! calls by hundreds ask everyone once; a submission is answered as its envelope was; what a
//! pattern finds is what moves by it; counts of an import are kept for good; a long enough history
//! tells each who left, keeps each end until newer ones take its place, and a search of it misses
//! nothing; in a run nobody else matters, a reply is read in one way, and a key that may only read
//! changes nothing; a call of all customers looks at no body.
//!
//! Each law is the contract of an empty function.
#![tactic(auto)]

mod departures;
mod histories;
mod imports;
mod matching;
mod runs;
mod searches;
mod submissions;
mod whose;

pub use departures::each_who_left_is_told;
pub use histories::{
    no_number_is_given_twice, nothing_goes_where_nobody_left, the_newest_are_told,
    what_is_told_stays,
};
pub use imports::imports_are_kept;
pub use matching::matching_moves_what_find_finds;
pub use runs::{
    a_call_of_all_looks_at_no_body, a_reading_key_changes_nothing, a_route_reads_as_told,
    nobody_else_matters, one_reading, tables_stay,
};
pub use searches::a_search_misses_nothing;
pub use submissions::{
    a_submission_is_answered_as_foreseen, an_envelope_is_its_submission_in_short,
};
pub use whose::{hundreds_ask_everyone_once, only_its_keys_make_its_calls};
