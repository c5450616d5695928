//! What is told of a call over the store of a path: also that another process has it.

ghost use Rattle.std.specs.Prelude.{◌≡◌, ⊤};
ghost use Rattle.hq_batch.specs.Printing.{IsPrinted};
ghost use Rattle.hq_batch.specs.Runs.{status};

use hq_batch::{print, tell};
use hq_rules::Rendered;
use hq_settings::Trouble;
use hq_sql_shelf::Stores;
use hq_values::{Fail, Fault};
use std::io::Write;

/// Tells in a line that another process has the store, where that is why it could not be used.
pub(crate) fn explain<T, K: Stores, E: Write>(
    stores: &K,
    store: &str,
    done: &Result<T, Trouble>,
    errors: &mut E,
) {
    let Err(Trouble::Desk(Fail::Fault(Fault::Disk))) = done else {
        return;
    };
    if stores.is_taken(store) {
        let _told = writeln!(errors, "hq: another process has the store");
    }
}

/// Prints what a call over a store was answered, and answers the exit status, as `print` does.
pub(crate) fn print_over<K: Stores, W: Write, E: Write>(
    stores: &K,
    store: &str,
    done: Result<Rendered, Trouble>,
    output: &mut W,
    errors: &mut E,
) -> u8
    ensures { IsPrinted done (output.new ≡ output.old) (W.contents output.old)
        (W.contents output.new) result }
{
    explain(stores, store, &done, errors);
    print(done, output, errors)
}

/// Tells how a run ended, and answers the exit status, as `tell` does. Without a store the desk
/// stood in memory.
pub(crate) fn tell_over<K: Stores, E: Write>(
    stores: &K,
    store: Option<&str>,
    ended: Result<(), Trouble>,
    errors: &mut E,
) -> u8
    ensures { result ≡ status ended }
{
    if let Some(store) = store {
        explain(stores, store, &ended, errors);
    }
    tell(ended, errors)
}
