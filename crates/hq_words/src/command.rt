//! The words that there are, with the help that teaches them.

ghost use Rattle.std.specs.Prelude.{◌≡◌, IfOk, codes, false, fold};
ghost use Rattle.std.specs.Prelude.{map as map_list};
ghost use Rattle.clap.specs.Simple.{app_of, shape_of, with_rule, with_subcommand};
ghost use Rattle.clap.specs.Walk.{rule_of};
ghost use Rattle.clap.specs.declared.builder.command.Command.TheViews.{out-Command};
ghost use Rattle.hq_words.specs.Program.{option_rule, default_rule, number_rule, moment_rule};
ghost use Rattle.hq_words.specs.Program.{rule_for, word_shape, bare_program, program};

use crate::table::{OptionRow, Takes, WORDS, WordRow};
use crate::texts::{ABOUT, AFTER_ABOUT, NAME, SYNOPSIS, VERSION};
use clap::{Arg, Command, value_parser};
use std::alloc::{AllocError, Global};

/// The last second of the year 2099.
const LAST_MOMENT: i64 = 4_102_444_799;

/// The most connections that are asked for.
const MOST_CONNECTIONS: i64 = 1_000_000;

/// The longest time that a client is given: an hour.
const MOST_SECONDS: i64 = 3_600;

/// An option that takes one value.
fn option<'w>(
    alloc: Global,
    name: &'w str,
    value: &'w str,
    help: &'w str,
    is_required: bool,
) -> Arg<'w>
    ensures rule { rule_of result ≡ option_rule name.entry.now is_required }
    ensures local { result.global ≡ false }
{
    Arg::new(alloc, name)
        .long(name)
        .value_name(value)
        .required(is_required)
        .help(help)
}

/// An option that takes one value, and what it is where it is left out.
fn defaulted<'w>(
    alloc: Global,
    name: &'w str,
    value: &'w str,
    help: &'w str,
    default: &'w str,
) -> Arg<'w>
    ensures rule { rule_of result ≡ default_rule name.entry.now default.entry.now }
    ensures local { result.global ≡ false }
{
    option(alloc, name, value, help, false).default_value(default)
}

/// An option of a number of connections.
fn count<'w>(alloc: Global, name: &'w str, value: &'w str, help: &'w str) -> Arg<'w>
    ensures rule { rule_of result ≡ number_rule name.entry.now (codes "1000000") 1000000 }
    ensures local { result.global ≡ false }
{
    defaulted(alloc, name, value, help, "1000000").value_parser(value_parser!(u64).range(
        1..=MOST_CONNECTIONS,
    ))
}

/// An option of a time, in seconds.
fn seconds<'w>(alloc: Global, name: &'w str, value: &'w str, help: &'w str) -> Arg<'w>
    ensures rule { rule_of result ≡ number_rule name.entry.now (codes "30") 3600 }
    ensures local { result.global ≡ false }
{
    defaulted(alloc, name, value, help, "30").value_parser(value_parser!(u64).range(
        1..=MOST_SECONDS,
    ))
}

/// An option of a moment, in seconds since 1970.
fn moment<'w>(alloc: Global, name: &'w str, value: &'w str, help: &'w str) -> Arg<'w>
    ensures rule { rule_of result ≡ moment_rule name.entry.now }
    ensures local { result.global ≡ false }
{
    option(alloc, name, value, help, true).value_parser(value_parser!(u64).range(..=LAST_MOMENT))
}

/// The option of a row.
fn option_of<'w>(alloc: Global, row: OptionRow) -> Arg<'w>
    ensures rule { rule_of result ≡ rule_for row.entry.0.now row.entry.3 }
    ensures local { result.global ≡ false }
{
    let (name, value, help, takes) = row;
    match takes {
        Takes::Needed => option(alloc, name, value, help, true),
        Takes::Optional => option(alloc, name, value, help, false),
        Takes::TextOr(text) => defaulted(alloc, name, value, help, text),
        Takes::Count => count(alloc, name, value, help),
        Takes::Seconds => seconds(alloc, name, value, help),
        Takes::Moment => moment(alloc, name, value, help),
    }
}

/// With the option of a row.
fn with_option<'w>(
    alloc: Global,
    command: Command<'w>,
    row: OptionRow,
) -> Result<Command<'w>, AllocError>
    ensures shape { IfOk result (λ c. app_of c
        ≡ with_rule (app_of command.entry) (rule_for row.entry.0.now row.entry.3)) }
    ensures local { IfOk result (λ c. (out-Command c).has_globals
        ≡ (out-Command command.entry).has_globals) }
{
    command.arg(option_of(alloc, row))
}

/// With the options of these rows, in their order.
fn with_options<'w>(
    alloc: Global,
    command: Command<'w>,
    rows: &[OptionRow],
) -> Result<Command<'w>, AllocError>
    ensures shape { IfOk result (λ c. app_of c ≡ fold with_rule (app_of command.entry)
        (map_list (λ row. rule_for row.0.now row.3) rows.now)) }
    ensures local { IfOk result (λ c. (out-Command c).has_globals
        ≡ (out-Command command.entry).has_globals) }
{
    match rows {
        [] => Ok(command),
        [row, rest @ ..] => {
            let more = with_option(alloc, command, *row)?;
            with_options(alloc, more, rest)
        }
    }
}

/// The word of a row.
fn word_of<'w>(alloc: Global, row: WordRow) -> Result<Command<'w>, AllocError>
    ensures shape { IfOk result (λ c. shape_of c ≡ word_shape row.entry.0.now
        (map_list (λ row. rule_for row.0.now row.3) row.entry.3.now)) }
    ensures local { IfOk result (λ c. (out-Command c).has_globals ≡ false) }
{
    let (name, about, after_help, options) = row;
    let bare = Command::new(alloc, name)
        .about(about)
        .after_help(after_help);
    with_options(alloc, bare, options)
}

/// With the word of a row.
fn with_word<'w>(
    alloc: Global,
    program: Command<'w>,
    row: WordRow,
) -> Result<Command<'w>, AllocError>
    ensures { IfOk result (λ c. app_of c ≡ with_subcommand (app_of program.entry)
        (word_shape row.entry.0.now
        (map_list (λ row. rule_for row.0.now row.3) row.entry.3.now))) }
{
    let word = word_of(alloc, row)?;
    program.subcommand(word)
}

/// With the words of these rows, in their order.
fn with_words<'w>(
    alloc: Global,
    program: Command<'w>,
    rows: &[WordRow],
) -> Result<Command<'w>, AllocError>
    ensures { IfOk result (λ c. app_of c ≡ fold with_subcommand (app_of program.entry)
        (map_list (λ row. word_shape row.0.now
        (map_list (λ row. rule_for row.0.now row.3) row.3.now)) rows.now)) }
{
    match rows {
        [] => Ok(program),
        [row, rest @ ..] => {
            let more = with_word(alloc, program, *row)?;
            with_words(alloc, more, rest)
        }
    }
}

/// The program, without a word.
fn bare<'w>(alloc: Global) -> Result<Command<'w>, AllocError>
    ensures { IfOk result (λ c. app_of c ≡ bare_program) }
{
    let program = Command::new(alloc, NAME)
        .bin_name(NAME)?
        .version(VERSION)
        .override_usage(SYNOPSIS)
        .no_binary_name(true)
        .disable_help_subcommand(true)
        .subcommand_required(true)
        .about(ABOUT)
        .after_help(AFTER_ABOUT);
    Ok(program)
}

/// The program, with its words.
pub(crate) fn program<'w>(alloc: Global) -> Result<Command<'w>, AllocError>
    ensures { IfOk result (λ c. app_of c ≡ program) }
{
    let bare = bare(alloc)?;
    with_words(alloc, bare, &WORDS)
}
