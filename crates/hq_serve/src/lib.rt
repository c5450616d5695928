//! One connection: what it asks for is replied to once, by the desk; and the clients of a server,
//! served several at once and by rounds.
#![tactic(auto)]

mod coming;
mod rounds;
mod serving;

pub use coming::{Asked, Came, Clients, Ready, ServiceEnd};
pub use hq_values::EngineFault;
pub use rounds::{MOST_TOGETHER, end_of, serve_rounds};
pub use serving::serve_one;
