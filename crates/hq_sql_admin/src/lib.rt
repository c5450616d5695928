//! The words of an administrator over the store of a path: `queue`, `history`, `hold`, `release`,
//! `delete`, `import` and `sweep`, each one call of one customer; `usage`, and `sweep` of all
//! customers, a call for each; and `migrate`, for a store of an earlier release.
#![tactic(auto)]

mod migrating;
mod over_store;
mod requests;
mod rounds;
mod words;

pub use migrating::migrate;
pub use rounds::{sweep_all, usage};
pub use words::{delete, history, hold, import, queue, release, sweep};
