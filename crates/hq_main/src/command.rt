//! What the program does, over any input and outputs, and what it tells of its end.

ghost use Rattle.std.specs.Prelude.{◌≡◌, [], map as map_list, string_bytes};
ghost use Rattle.hq_batch.specs.Runs.{RunEnds, Exits};
ghost use Rattle.hq_words.specs.Asked.{given_of};
ghost use Rattle.hq_main.specs.Runs.{ServesBuiltin, BatchEnds, DoesWord, Commands};
ghost use Rattle.hq_main.specs.Runs.{UnlessLogs, UnlessServe};

use crate::rounds::{do_sweep, print_round_over};
use crate::stores::{print_over, tell_over};
use hq_batch::{check, refuse, run_batch, show, tell};
use hq_lists::ListShelf;
use hq_log::{Logs, NoLog};
use hq_network::Network;
use hq_settings::{Files, Trouble, builtin_settings, set_up};
use hq_sql_admin::{delete, history, hold, import, migrate, queue, release, usage};
use hq_sql_server::{run_stored, serve_http};
use hq_sql_shelf::Stores;
use hq_values::Fault;
use hq_words::{Batch, Word, Words, read_words};
use std::alloc::Global;
use std::io::{Read, Write};

/// Serves the built-in customers from an empty desk in memory, over plain lists.
fn run_builtin<R: Read, W: Write>(
    alloc: Global,
    input: &mut R,
    output: &mut W,
) -> Result<(), Trouble>
    ensures { RunEnds ServesBuiltin ((input.new ≡ input.old) × (output.new ≡ output.old))
        (record { input = R.remaining input.old; output = W.contents output.old })
        (record { input = R.remaining input.new; output = W.contents output.new }) result }
{
    let settings = builtin_settings(alloc)?;
    let shelf = ListShelf::new(alloc);
    run_batch(alloc, shelf, settings, input, output, &mut NoLog)
}

/// Replies to the lines of an input for the customers of a directory, over a store in memory or at
/// a path.
fn run_given<'w, F: Files, G: Logs<'w>, K: Stores, R: Read, W: Write>(
    rt: &F,
    logs: &mut G,
    stores: &mut K,
    batch: &Batch<'w>,
    input: &mut R,
    output: &mut W,
) -> Result<(), Trouble>
    ensures { BatchEnds (F.reads rt.now) G.does G.Log.tells logs.old logs.new K.Store.sight K.does
        stores.old stores.new (given_of batch.now)
        ((input.new ≡ input.old) × (output.new ≡ output.old))
        (record { input = R.remaining input.old; output = W.contents output.old })
        (record { input = R.remaining input.new; output = W.contents output.new }) result }
{
    let settings = set_up(rt, batch.host, batch.relay_key, batch.directory, batch.keys)?;
    let mut log = logs.open(batch.log);
    let ended = run_stored(
        rt.alloc(),
        stores,
        batch.store,
        settings,
        input,
        output,
        &mut log,
    );
    logs.close(log);
    ended
}

/// Does what a word of the program asks for, and answers the exit status.
fn do_word<'w, F: Files, N: Network, G: Logs<'w>, K: Stores, R: Read, W: Write, E: Write>(
    rt: &F,
    network: &mut N,
    logs: &mut G,
    stores: &mut K,
    asked: &Word<'w>,
    input: &mut R,
    output: &mut W,
    errors: &mut E,
) -> u8
    ensures network { UnlessServe asked.now (network.new ≡ network.old) }
    ensures logs { UnlessLogs asked.now (logs.new ≡ logs.old) }
    ensures does { DoesWord (F.reads rt.now) N.does N.Clients.does N.Clients.begins N.Clients.left
        network.old network.new G.does G.Log.tells logs.old logs.new K.Store.sight K.does stores.old
        stores.new asked.now (input.new ≡ input.old) (output.new ≡ output.old) (record {
          input =
              R.remaining input.old;
          output = W.contents output.old;
        }) (record {
          input = R.remaining
              input.new;
          output = W.contents output.new;
        }) result }
{
    match asked {
        Word::Serve(given) => {
            let served = serve_http(rt, network, logs, stores, given, output, errors);
            tell_over(&*stores, given.store, served, errors)
        }
        Word::Batch(batch) => {
            let ended = run_given(rt, logs, stores, batch, input, output);
            tell_over(&*stores, batch.store, ended, errors)
        }
        Word::Check(given) => check(rt, given, output, errors),
        Word::Queue(given) => {
            let done = queue(rt, stores, given);
            print_over(&*stores, given.store, done, output, errors)
        }
        Word::History(given) => {
            let done = history(rt, stores, given);
            print_over(&*stores, given.store, done, output, errors)
        }
        Word::Hold(given) => {
            let done = hold(rt, stores, given);
            print_over(&*stores, given.store, done, output, errors)
        }
        Word::Release(given) => {
            let done = release(rt, stores, given);
            print_over(&*stores, given.store, done, output, errors)
        }
        Word::Delete(given) => {
            let done = delete(rt, stores, given);
            print_over(&*stores, given.store, done, output, errors)
        }
        Word::Usage(given) => {
            let done = usage(rt, stores, given);
            print_round_over(&*stores, given.store, done, output, errors)
        }
        Word::Import(given) => {
            let done = import(rt, stores, given);
            print_over(&*stores, given.store, done, output, errors)
        }
        Word::Sweep(given) => do_sweep(rt, stores, given, output, errors),
        Word::Migrate(given) => {
            let done = migrate(rt.alloc(), stores, given);
            print_over(&*stores, given.store, done, output, errors)
        }
    }
}

/// Runs the program with the words after its name, and answers its exit status: 0 when the input
/// has ended, all connections were served, a check, a call, one of each customer or a migration was
/// done and printed, or help or the version was shown; 1 for a refusal or a fault; 2 for words that
/// are not taken. Each of the last two is told on `errors`, where that can be written.
///
/// `rt`, `network`, `logs` and `stores` are all that it has of the machine: what it reads, whom it
/// serves, what it logs and what it does to stores are as its words name them. It does nothing else
/// to a store, at the network or with a log.
///
/// After a failed input the whole lines before are replied to; after a failed output the exchanges
/// of the first lines, or the calls, are done; where the desk could not begin, nothing is read or
/// written.
pub fn command<'w, F: Files, N: Network, G: Logs<'w>, K: Stores, R: Read, W: Write, E: Write>(
    rt: &F,
    network: &mut N,
    logs: &mut G,
    stores: &mut K,
    words: &'w [String],
    input: &mut R,
    output: &mut W,
    errors: &mut E,
) -> u8
    ensures none { words.entry.now ≡ [] → Exits (RunEnds ServesBuiltin
        ((input.new ≡ input.old) × (output.new ≡ output.old))
        (record { input = R.remaining input.old; output = W.contents output.old })
        (record { input = R.remaining input.new; output = W.contents output.new })) result
        × (stores.new ≡ stores.old) × (network.new ≡ network.old) × (logs.new ≡ logs.old) }
    ensures words { Commands (F.reads rt.now) N.does N.Clients.does N.Clients.begins N.Clients.left
        network.old network.new G.does G.Log.tells logs.old logs.new K.Store.sight K.does stores.old
        stores.new (map_list string_bytes words.entry.now) (input.new ≡ input.old) (output.new ≡
        output.old) (record { input = R.remaining input.old; output = W.contents output.old })
        (record { input = R.remaining input.new; output = W.contents output.new }) result }
{
    match read_words(rt.alloc(), words) {
        Ok(Words::Builtin) => {
            let ended = run_builtin(rt.alloc(), input, output);
            tell(ended, errors)
        }
        Ok(Words::Word(asked)) => do_word(rt, network, logs, stores, &asked, input, output, errors),
        Ok(Words::Shown(text)) => show(text.as_str(), output, errors),
        Ok(Words::Refused(text)) => refuse(text.as_str(), errors),
        Err(_) => tell(Err(Trouble::from(Fault::WantOfMemory)), errors),
    }
}
