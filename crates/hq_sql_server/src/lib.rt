//! The program over a store on `sqlite`, in memory or in a file: a batch of lines, and a server of
//! HTTP connections.
#![tactic(auto)]

mod listening;
mod serving;
mod stored;

pub use serving::serve_http;
pub use stored::run_stored;
