//! What is printed of a round, and the word `sweep`, of one customer or of all.

ghost use Rattle.std.specs.Prelude.{◌≡◌, option_map};
ghost use Rattle.hq_main.specs.Rounds.{DoesSweep, IsRoundPrinted};

use crate::stores::{explain, print_over};
use hq_admin::ToldAll;
use hq_batch::{print_all, tell};
use hq_settings::{Files, Trouble};
use hq_sql_admin::{sweep, sweep_all};
use hq_sql_shelf::Stores;
use hq_words::Sweep;
use std::io::Write;

/// Prints what a round came to, and answers the exit status: 0 when the calls of all customers were
/// done, none was refused, and each is on the output. A fault that stopped it is told last.
fn print_round<W: Write, E: Write>(
    done: Result<ToldAll, Trouble>,
    output: &mut W,
    errors: &mut E,
) -> u8
    ensures { IsRoundPrinted done (output.new ≡ output.old) (W.contents output.old)
        (W.contents output.new) result }
{
    let ToldAll { told, stopped } = match done {
        Ok(told) => told,
        Err(trouble) => return tell(Err(trouble), errors),
    };
    let status = print_all(told.as_slice(), output, errors);
    match stopped {
        None => status,
        Some(fault) => tell(Err(Trouble::from(fault)), errors),
    }
}

/// Prints what a round over the store of a path came to, as `print_round` does.
pub(crate) fn print_round_over<K: Stores, W: Write, E: Write>(
    stores: &K,
    store: &str,
    done: Result<ToldAll, Trouble>,
    output: &mut W,
    errors: &mut E,
) -> u8
    ensures { IsRoundPrinted done (output.new ≡ output.old) (W.contents output.old)
        (W.contents output.new) result }
{
    explain(stores, store, &done, errors);
    print_round(done, output, errors)
}

/// Sweeps the customer that is named, or all where none is, prints what it came to, and answers the
/// exit status.
pub(crate) fn do_sweep<F: Files, K: Stores, W: Write, E: Write>(
    rt: &F,
    stores: &mut K,
    given: &Sweep,
    output: &mut W,
    errors: &mut E,
) -> u8
    ensures { DoesSweep (F.reads rt.now) K.Store.sight K.does stores.old stores.new given.now
        (option_map (λ c. c.now) given.now.customer) (output.new ≡ output.old)
        (W.contents output.old) (W.contents output.new) result }
{
    match given.customer {
        Some(name) => {
            let done = sweep(rt, stores, given, name);
            print_over(&*stores, given.store, done, output, errors)
        }
        None => {
            let done = sweep_all(rt, stores, given);
            print_round_over(&*stores, given.store, done, output, errors)
        }
    }
}
