//! The shelf whose tables stand in a `sqlite` store, in memory or in a file, and the migration of a
//! file.
//!
//! ```
//! let shelf = SqlShelf::open_memory(alloc)?; // empty tables in memory
//! let shelf = stores.open(path)?; // a file: made, or a desk's; else 91 or 92
//! stores.leave(shelf); // as it is then
//! let shelf = SqlShelf::adopt(alloc, conn); // any connection; it comes back where it is no desk's
//! let held = stores.migrate(path)?; // a store of version 1 or 2; else 0, or 92
//! ```
#![tactic(auto)]

mod calls;
mod file;
mod known;
mod migrating;
mod moves;
mod rounds;
mod shelf;
mod stores;
mod writing;

pub use file::FileShelf;
pub use hq_sql_open::fault_of;
pub use migrating::migrate;
pub use rounds::SqlRound;
pub use shelf::SqlShelf;
pub use stores::{Disk, DiskStores, HostDisk, Stores};
