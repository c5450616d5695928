//! The program's batch over a store on `sqlite`, in memory or at a path.

ghost use Rattle.std.specs.Prelude.{◌≡◌, option_map};
ghost use Rattle.hq_sql_server.specs.Stored.{BatchStoreEnds, MemoryEnds, StoreEnds};

use hq_batch::{run_batch, run_batch_in_rounds};
use hq_log::Log;
use hq_settings::{Settings, Trouble};
use hq_sql_shelf::{SqlShelf, Stores};
use std::alloc::Global;
use std::io::{Read, Write};

/// Replies to the lines of an input from an empty desk, whose store stands in memory. Its commits
/// wait for no disk, so that each line is done by itself.
fn run_memory<R: Read, W: Write, L: Log>(
    alloc: Global,
    settings: Settings,
    input: &mut R,
    output: &mut W,
    log: &mut L,
) -> Result<(), Trouble>
    ensures { MemoryEnds L.tells log.old log.new settings
        (((input.new ≡ input.old) × (output.new ≡ output.old)) × (log.new ≡ log.old))
        (record { input = R.remaining input.old; output = W.contents output.old })
        (record { input = R.remaining input.new; output = W.contents output.new }) result }
{
    let shelf = SqlShelf::open_memory(alloc)?;
    run_batch(alloc, shelf, settings, input, output, log)
}

/// Replies to the lines of an input in rounds, over the store of a path, which is made if it is
/// missing, and leaves it. If it cannot be opened, the fault is told, and nothing is read or
/// written.
fn run_store<K: Stores, R: Read, W: Write, L: Log>(
    alloc: Global,
    stores: &mut K,
    path: &str,
    settings: Settings,
    input: &mut R,
    output: &mut W,
    log: &mut L,
) -> Result<(), Trouble>
    ensures { BatchStoreEnds L.tells log.old log.new K.Store.sight K.does path.now stores.old
        stores.new settings
        (((input.new ≡ input.old) × (output.new ≡ output.old)) × (log.new ≡ log.old))
        (record { input = R.remaining input.old; output = W.contents output.old })
        (record { input = R.remaining input.new; output = W.contents output.new }) result }
{
    let store = stores.open(path)?;
    let (ended, store) = run_batch_in_rounds(alloc, store, settings, input, output, log);
    stores.leave(store);
    ended
}

/// Replies to the lines of an input for the customers of these settings, over the store of a path,
/// which is made where it is missing, or without a path over an empty one in memory. A store that
/// cannot be opened is told as 90, 91, 92 or 93; then, and where there is no memory to begin with,
/// nothing is read, written or told. The log is told each reply, and nothing else. Over the store
/// of a path, lines that
/// are there together share a commit, as `run_batch_in_rounds` says, and it is left as the last
/// line left it.
pub fn run_stored<K: Stores, R: Read, W: Write, L: Log>(
    alloc: Global,
    stores: &mut K,
    store: Option<&str>,
    settings: Settings,
    input: &mut R,
    output: &mut W,
    log: &mut L,
) -> Result<(), Trouble>
    ensures { StoreEnds L.tells log.old log.new K.Store.sight K.does
        (option_map (λ s. s.now) store.entry) stores.old stores.new settings
        (((input.new ≡ input.old) × (output.new ≡ output.old)) × (log.new ≡ log.old))
        (record { input = R.remaining input.old; output = W.contents output.old })
        (record { input = R.remaining input.new; output = W.contents output.new }) result }
{
    match store {
        None => run_memory(alloc, settings, input, output, log),
        Some(path) => run_store(alloc, stores, path, settings, input, output, log),
    }
}
