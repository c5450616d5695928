//! What the words ask for.

ghost use Rattle.std.specs.Prelude.{◌≡◌, ◌≢◌, List, ℕ, [], IfOk, Ok, option_and_then};
ghost use Rattle.std.specs.Prelude.{map as map_list, string_bytes};
ghost use Rattle.clap.specs.Kinds.{HasKind};
ghost use Rattle.clap.specs.Faults.{fault_of};
ghost use Rattle.clap.specs.Matches.{found_of};
ghost use Rattle.clap.specs.Simple.{subcommand_rows_of};
ghost use Rattle.clap.specs.Walk.{rows_of};
ghost use Rattle.hq_words.specs.Asked.{Asks, Says};
ghost use Rattle.hq_words.specs.Given.{given_in};
ghost use Rattle.hq_words.specs.Program.{program};

use crate::command::program;
use crate::options::{
    Batch, Check, Import, Migrate, Serve, Sweep, UsageWord, batch_in, check_in, import_in,
    migrate_in, serve_in, sweep_in, usage_in,
};
use crate::selecting::{Moving, Telling, moving_in, telling_in};
use crate::texts::{ONE_KEY, ONE_PATTERN, ONE_PATTERN_AT_MOST};
use clap::error::ErrorKind;
use clap::{ArgMatches, Error};
use std::alloc::{AllocError, Global};

/// A word of the program, with its options.
#[derive(Clone, Copy, Debug, PartialEq, Eq, Drop)]
pub enum Word<'w> {
    /// `serve`: HTTP connections of the customers of a directory.
    Serve(Serve<'w>),
    /// `batch`: lines of the customers of a directory.
    Batch(Batch<'w>),
    /// `check`: whether a desk can be set up with these.
    Check(Check<'w>),
    /// `queue`: the queue report of a customer.
    Queue(Telling<'w>),
    /// `history`: what became of a customer's recipients.
    History(Telling<'w>),
    /// `hold`: messages of a customer put on hold.
    Hold(Moving<'w>),
    /// `release`: messages of a customer released from hold.
    Release(Moving<'w>),
    /// `delete`: messages of a customer deleted.
    Delete(Moving<'w>),
    /// `usage`: what each customer of a directory uses of its quota.
    Usage(UsageWord<'w>),
    /// `import`: lines of a customer's access tables, from a file.
    Import(Import<'w>),
    /// `sweep`: messages of a customer, or of all, that are too old given up, and late ones warned
    /// of.
    Sweep(Sweep<'w>),
    /// `migrate`: a store of the release before made one of this release.
    Migrate(Migrate<'w>),
}

/// What the words ask for.
#[derive(Debug, Drop)]
pub enum Words<'w> {
    /// No words: lines of the built-in customers.
    Builtin,
    /// A word of the program, with its options.
    Word(Word<'w>),
    /// `--help` or `-h`, of the program or of one of its words, or `--version` or `-V`: the text
    /// for standard output.
    Shown(String),
    /// Words that are not taken: the text for standard error that tells why.
    Refused(String),
}

/// What matches of a word ask for.
fn asked_in<'w>(word: &str, given: &ArgMatches<'w>) -> Option<Word<'w>>
    ensures { Asks (given_in word.now (rows_of (found_of given.now))) result }
{
    match word {
        "serve" => match serve_in(given) {
            Some(serve) => Some(Word::Serve(serve)),
            None => None,
        },
        "batch" => Some(Word::Batch(batch_in(given)?)),
        "check" => Some(Word::Check(check_in(given)?)),
        "queue" => Some(Word::Queue(telling_in(given)?)),
        "history" => Some(Word::History(telling_in(given)?)),
        "hold" => match moving_in(given) {
            Some(moving) => Some(Word::Hold(moving)),
            None => None,
        },
        "release" => match moving_in(given) {
            Some(moving) => Some(Word::Release(moving)),
            None => None,
        },
        "delete" => match moving_in(given) {
            Some(moving) => Some(Word::Delete(moving)),
            None => None,
        },
        "usage" => Some(Word::Usage(usage_in(given)?)),
        "import" => Some(Word::Import(import_in(given)?)),
        "sweep" => match sweep_in(given) {
            Some(sweep) => Some(Word::Sweep(sweep)),
            None => None,
        },
        "migrate" => Some(Word::Migrate(migrate_in(given)?)),
        _ => None,
    }
}

/// What matches ask for.
fn asked_of<'w>(matches: &ArgMatches<'w>) -> Option<Word<'w>>
    ensures { Asks (option_and_then (λ found. given_in found.0 found.1)
        (subcommand_rows_of matches.now)) result }
{
    let (word, given) = matches.subcommand()?;
    asked_in(word, given)
}

/// What is told where `clap` takes the words, and yet an option is missing or given twice: it asks
/// for the other options and looks at the numbers, so that they are there.
fn wanted(matches: &ArgMatches) -> &'static str {
    match matches.subcommand() {
        Some(("queue" | "history", _)) => ONE_PATTERN_AT_MOST,
        Some(("hold" | "release" | "delete", _)) => ONE_PATTERN,
        _ => ONE_KEY,
    }
}

/// What `clap` tells in place of matches: help or the version, or why the words are refused; or
/// want of memory.
fn told<'w>(alloc: Global, error: &Error) -> Result<Words<'w>, AllocError>
    ensures { (words : List (List ℕ)) → (words ≢ []) → HasKind (fault_of program words) error.now
        → IfOk result (Says words) }
{
    match error.kind() {
        ErrorKind::OutOfMemory => Err(AllocError),
        ErrorKind::DisplayHelp | ErrorKind::DisplayVersion => {
            Ok(Words::Shown(format!(in alloc; "{error}")?))
        }
        _ => Ok(Words::Refused(format!(in alloc; "{error}")?)),
    }
}

/// What the words after the program's name ask for; or want of memory.
pub fn read_words<'w>(alloc: Global, words: &'w [String]) -> Result<Words<'w>, AllocError>
    ensures none { words.entry.now ≡ [] → result ≡ Ok Words.Builtin }
    ensures asked { IfOk result (Says (map_list string_bytes words.entry.now)) }
{
    if words.is_empty() {
        return Ok(Words::Builtin);
    }
    match program(alloc)?.try_get_matches_from(words) {
        Err(error) => told(alloc, &error),
        Ok(matches) => match asked_of(&matches) {
            Some(asked) => Ok(Words::Word(asked)),
            None => Ok(Words::Refused(String::from_str(alloc, wanted(&matches))?)),
        },
    }
}
