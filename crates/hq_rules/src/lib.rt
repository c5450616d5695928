//! The rules: what each call of a customer answers and changes, as definitions, in the words of
//! access(5), postsuper(1), qmgr(8) and bounce(5); the calls and answers as types; the machine of
//! one customer; and the trait of every desk that does calls. The code that meets them is for the
//! crates above.
#![tactic(auto)]

mod acts;
mod answer;
mod call;
mod csv_memory;
pub mod decision;
mod each;
pub mod histories;
pub mod laws;
mod plan;
mod render;
mod swept;
mod verdict;

pub use acts::Acts;
pub use answer::{Allowance, Answer, AttemptCounts, ImportCounts, LinePut, SweepCounts, Usage};
pub use call::{AttemptReport, Call, Envelope, Move, Origin, Submission};
pub use csv_memory::{CsvMemory, MOST_ROWS};
pub use decision::Decision;
pub use each::EachCall;
pub use plan::{Draft, Plan};
pub use render::{Render, Rendered};
pub use swept::{EXPIRY_SECONDS, Swept};
pub use verdict::{Refused, Verdict};
