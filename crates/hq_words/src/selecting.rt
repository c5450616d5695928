//! What the words are given that tell of what a customer has, or change the messages that a pattern
//! is for, as `clap` has it.

ghost use Rattle.std.specs.Prelude.{◌≡◌, option_map};
ghost use Rattle.clap.specs.Matches.{found_of};
ghost use Rattle.clap.specs.Walk.{rows_of};
ghost use Rattle.hq_words.specs.Asked.{MovingIs, pattern_given, telling_of};
ghost use Rattle.hq_words.specs.Given.{pattern_of_two, any_pattern_in, one_pattern_in};
ghost use Rattle.hq_words.specs.Given.{telling_in, moving_in};

use crate::options::{moment_in, value};
use clap::ArgMatches;
use hq_values::Moment;

/// A pattern of access tables that messages are matched by, as it was written.
#[derive(Clone, Copy, Debug, PartialEq, Eq, Drop)]
pub enum Matching<'w> {
    /// Of the sender.
    Sender(&'w str),
    /// Of a recipient.
    Recipient(&'w str),
}

/// What the words `queue` and `history` are given, as it was written.
#[derive(Clone, Copy, Debug, PartialEq, Eq, Drop)]
pub struct Telling<'w> {
    /// The path of the file of the customers.
    pub directory: &'w str,
    /// The path of the store.
    pub store: &'w str,
    /// The name of the customer.
    pub customer: &'w str,
    /// The pattern, where one is given; else all is told.
    pub pattern: Option<Matching<'w>>,
}

/// What the words `hold`, `release` and `delete` are given: their moment, and the others as they
/// were written.
#[derive(Clone, Copy, Debug, PartialEq, Eq, Drop)]
pub struct Moving<'w> {
    /// The path of the file of the customers.
    pub directory: &'w str,
    /// The path of the store.
    pub store: &'w str,
    /// The name of the customer.
    pub customer: &'w str,
    /// The pattern.
    pub pattern: Matching<'w>,
    /// When it is done.
    pub at: Moment,
}

/// The pattern that the values of two options give, where it is not more than one of them.
fn pattern_of_two<'w>(
    sender: Option<&'w str>,
    recipient: Option<&'w str>,
) -> Option<Option<Matching<'w>>>
    ensures { option_map (option_map pattern_given) result
        ≡ pattern_of_two (option_map (λ t. t.now) sender.entry)
        (option_map (λ t. t.now) recipient.entry) }
{
    match (sender, recipient) {
        (None, None) => Some(None),
        (Some(text), None) => Some(Some(Matching::Sender(text))),
        (None, Some(text)) => Some(Some(Matching::Recipient(text))),
        (Some(_), Some(_)) => None,
    }
}

/// The pattern, where one is given; and not two.
fn any_pattern_in<'w>(given: &ArgMatches<'w>) -> Option<Option<Matching<'w>>>
    ensures { option_map (option_map pattern_given) result
        ≡ any_pattern_in (rows_of (found_of given.now)) }
{
    let sender = value(given, "sender");
    let recipient = value(given, "recipient");
    pattern_of_two(sender, recipient)
}

/// The pattern, which has to be given once.
fn one_pattern_in<'w>(given: &ArgMatches<'w>) -> Option<Matching<'w>>
    ensures { option_map pattern_given result ≡ one_pattern_in (rows_of (found_of given.now)) }
{
    any_pattern_in(given)?
}

/// What matches give the words `queue` and `history`.
pub(crate) fn telling_in<'w>(given: &ArgMatches<'w>) -> Option<Telling<'w>>
    ensures { option_map telling_of result ≡ telling_in (rows_of (found_of given.now)) }
{
    let directory = value(given, "directory")?;
    let store = value(given, "store")?;
    let customer = value(given, "customer")?;
    let pattern = any_pattern_in(given)?;
    Some(Telling {
        directory,
        store,
        customer,
        pattern,
    })
}

/// What matches give the words `hold`, `release` and `delete`.
pub(crate) fn moving_in<'w>(given: &ArgMatches<'w>) -> Option<Moving<'w>>
    ensures { MovingIs (moving_in (rows_of (found_of given.now))) result }
{
    let directory = value(given, "directory")?;
    let store = value(given, "store")?;
    let customer = value(given, "customer")?;
    let pattern = one_pattern_in(given)?;
    let at = moment_in(value(given, "at")?)?;
    Some(Moving {
        directory,
        store,
        customer,
        pattern,
        at,
    })
}
