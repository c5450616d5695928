//! What the words of the program are given, as `clap` has it.

ghost use Rattle.std.specs.Prelude.{◌≡◌, option_map};
ghost use Rattle.clap.specs.Matches.{found_of};
ghost use Rattle.clap.specs.Walk.{first_of, rows_of};
ghost use Rattle.hq_words.specs.Asked.{IsMoment, IsNumber, ServeIs, SweepIs, key_given, given_of};
ghost use Rattle.hq_words.specs.Asked.{check_of, usage_of, import_of, migrate_of};
ghost use Rattle.hq_words.specs.Given.{key_of_two, any_key_in, one_key_in, serve_in, batch_in};
ghost use Rattle.hq_words.specs.Given.{check_in, usage_in, import_in, sweep_in};
ghost use Rattle.hq_words.specs.Given.{migrate_in};

use clap::ArgMatches;
use hq_values::Moment;

/// Where the key of the relay's workers is.
#[derive(Clone, Copy, Debug, PartialEq, Eq, Drop)]
pub enum RelayKey<'w> {
    /// In the words: the key itself, as it was written.
    Given(&'w str),
    /// In a file, of this path.
    InFile(&'w str),
}

/// What the word `serve` is given: its numbers, and the others as they were written: none of them
/// was looked at yet.
#[derive(Clone, Copy, Debug, PartialEq, Eq, Drop)]
pub struct Serve<'w> {
    /// The path of the file of the customers.
    pub directory: &'w str,
    /// The path of the file of the keys that customers have beside their own, where there is one.
    pub keys: Option<&'w str>,
    /// The name of the relay.
    pub host: &'w str,
    /// The key of the relay's workers.
    pub relay_key: RelayKey<'w>,
    /// The path of the store, where there is one; else the desk stands in memory.
    pub store: Option<&'w str>,
    /// The address to listen on.
    pub listen: &'w str,
    /// How many connections are served.
    pub count: u32,
    /// How long a client may take from one byte to the next, in seconds.
    pub idle_timeout: u32,
    /// How long a client may take to send its whole request, in seconds.
    pub request_timeout: u32,
    /// The path of the file that exchanges are told to, `-` for standard error, where there is one.
    pub log: Option<&'w str>,
}

/// What the word `batch` is given, as it was written: none of it was looked at yet.
#[derive(Clone, Copy, Debug, PartialEq, Eq, Drop)]
pub struct Batch<'w> {
    /// The path of the file of the customers.
    pub directory: &'w str,
    /// The path of the file of the keys that customers have beside their own, where there is one.
    pub keys: Option<&'w str>,
    /// The name of the relay.
    pub host: &'w str,
    /// The key of the relay's workers.
    pub relay_key: RelayKey<'w>,
    /// The path of the store, where there is one; else the desk stands in memory.
    pub store: Option<&'w str>,
    /// The path of the file that exchanges are told to, `-` for standard error, where there is one.
    pub log: Option<&'w str>,
}

/// What the word `check` is given, as it was written.
#[derive(Clone, Copy, Debug, PartialEq, Eq, Drop)]
pub struct Check<'w> {
    /// The path of the file of the customers.
    pub directory: &'w str,
    /// The path of the file of the keys that customers have beside their own, where there is one.
    pub keys: Option<&'w str>,
    /// The name of the relay.
    pub host: &'w str,
    /// The key of the relay's workers, where one is given.
    pub relay_key: Option<RelayKey<'w>>,
}

/// What the word `usage` is given, as it was written.
#[derive(Clone, Copy, Debug, PartialEq, Eq, Drop)]
pub struct UsageWord<'w> {
    /// The path of the file of the customers.
    pub directory: &'w str,
    /// The path of the store.
    pub store: &'w str,
}

/// What the word `import` is given, as it was written.
#[derive(Clone, Copy, Debug, PartialEq, Eq, Drop)]
pub struct Import<'w> {
    /// The path of the file of the customers.
    pub directory: &'w str,
    /// The path of the store.
    pub store: &'w str,
    /// The name of the customer.
    pub customer: &'w str,
    /// What the import goes by.
    pub label: &'w str,
    /// The path of the file of the lines.
    pub file: &'w str,
}

/// What the word `sweep` is given: its moment, and the others as they were written.
#[derive(Clone, Copy, Debug, PartialEq, Eq, Drop)]
pub struct Sweep<'w> {
    /// The path of the file of the customers.
    pub directory: &'w str,
    /// The name of the relay.
    pub host: &'w str,
    /// The path of the store.
    pub store: &'w str,
    /// The name of the customer, where one is named; else all customers are swept.
    pub customer: Option<&'w str>,
    /// When it is swept.
    pub at: Moment,
}

/// What the word `migrate` is given, as it was written.
#[derive(Clone, Copy, Debug, PartialEq, Eq, Drop)]
pub struct Migrate<'w> {
    /// The path of the store.
    pub store: &'w str,
}

/// The first value of an option.
pub(crate) fn value<'w>(given: &ArgMatches<'w>, option: &str) -> Option<&'w str>
    ensures { option_map (λ s. s.now) result
        ≡ first_of option.now (rows_of (found_of given.now)) }
{
    given.get_str(option)
}

/// The moment that a text of seconds since 1970 names.
pub(crate) fn moment_in(text: &str) -> Option<Moment>
    ensures { IsMoment text.now result }
{
    match text.parse::<u64>() {
        Ok(seconds) => Moment::new(seconds),
        Err(_) => None,
    }
}

/// The number that a text of decimal digits names.
fn number_in(text: &str) -> Option<u32>
    ensures { IsNumber text.now result }
{
    text.parse::<u32>().ok()
}

/// The key that the values of two options name, where it is not more than one of them.
fn key_of_two<'w>(text: Option<&'w str>, path: Option<&'w str>) -> Option<Option<RelayKey<'w>>>
    ensures { option_map (option_map key_given) result
        ≡ key_of_two (option_map (λ t. t.now) text.entry)
        (option_map (λ p. p.now) path.entry) }
{
    match (text, path) {
        (None, None) => Some(None),
        (Some(text), None) => Some(Some(RelayKey::Given(text))),
        (None, Some(path)) => Some(Some(RelayKey::InFile(path))),
        (Some(_), Some(_)) => None,
    }
}

/// The key of the relay's workers, where one is given; and not twice.
fn any_key_in<'w>(given: &ArgMatches<'w>) -> Option<Option<RelayKey<'w>>>
    ensures { option_map (option_map key_given) result ≡ any_key_in (rows_of (found_of given.now)) }
{
    let text = value(given, "relay-key");
    let path = value(given, "relay-key-file");
    key_of_two(text, path)
}

/// The key of the relay's workers, which has to be given once.
fn one_key_in<'w>(given: &ArgMatches<'w>) -> Option<RelayKey<'w>>
    ensures { option_map key_given result ≡ one_key_in (rows_of (found_of given.now)) }
{
    any_key_in(given)?
}

/// What matches give the word `serve`.
pub(crate) fn serve_in<'w>(given: &ArgMatches<'w>) -> Option<Serve<'w>>
    ensures { ServeIs (serve_in (rows_of (found_of given.now))) result }
{
    let directory = value(given, "directory")?;
    let keys = value(given, "keys");
    let host = value(given, "host")?;
    let relay_key = one_key_in(given)?;
    let store = value(given, "store");
    let listen = value(given, "listen")?;
    let count = value(given, "count")?;
    let idle_timeout = value(given, "idle-timeout")?;
    let request_timeout = value(given, "request-timeout")?;
    let log = value(given, "log");
    Some(Serve {
        directory,
        keys,
        host,
        relay_key,
        store,
        listen,
        count: number_in(count)?,
        idle_timeout: number_in(idle_timeout)?,
        request_timeout: number_in(request_timeout)?,
        log,
    })
}

/// What matches give the word `batch`.
pub(crate) fn batch_in<'w>(given: &ArgMatches<'w>) -> Option<Batch<'w>>
    ensures { option_map given_of result ≡ batch_in (rows_of (found_of given.now)) }
{
    let directory = value(given, "directory")?;
    let keys = value(given, "keys");
    let host = value(given, "host")?;
    let relay_key = one_key_in(given)?;
    let store = value(given, "store");
    let log = value(given, "log");
    Some(Batch {
        directory,
        keys,
        host,
        relay_key,
        store,
        log,
    })
}

/// What matches give the word `check`.
pub(crate) fn check_in<'w>(given: &ArgMatches<'w>) -> Option<Check<'w>>
    ensures { option_map check_of result ≡ check_in (rows_of (found_of given.now)) }
{
    let directory = value(given, "directory")?;
    let keys = value(given, "keys");
    let host = value(given, "host")?;
    let relay_key = any_key_in(given)?;
    Some(Check {
        directory,
        keys,
        host,
        relay_key,
    })
}

/// What matches give the word `usage`.
pub(crate) fn usage_in<'w>(given: &ArgMatches<'w>) -> Option<UsageWord<'w>>
    ensures { option_map usage_of result ≡ usage_in (rows_of (found_of given.now)) }
{
    let directory = value(given, "directory")?;
    let store = value(given, "store")?;
    Some(UsageWord { directory, store })
}

/// What matches give the word `import`.
pub(crate) fn import_in<'w>(given: &ArgMatches<'w>) -> Option<Import<'w>>
    ensures { option_map import_of result ≡ import_in (rows_of (found_of given.now)) }
{
    let directory = value(given, "directory")?;
    let store = value(given, "store")?;
    let customer = value(given, "customer")?;
    let label = value(given, "label")?;
    let file = value(given, "file")?;
    Some(Import {
        directory,
        store,
        customer,
        label,
        file,
    })
}

/// What matches give the word `sweep`.
pub(crate) fn sweep_in<'w>(given: &ArgMatches<'w>) -> Option<Sweep<'w>>
    ensures { SweepIs (sweep_in (rows_of (found_of given.now))) result }
{
    let directory = value(given, "directory")?;
    let host = value(given, "host")?;
    let store = value(given, "store")?;
    let customer = value(given, "customer");
    let at = moment_in(value(given, "at")?)?;
    Some(Sweep {
        directory,
        host,
        store,
        customer,
        at,
    })
}

/// What matches give the word `migrate`.
pub(crate) fn migrate_in<'w>(given: &ArgMatches<'w>) -> Option<Migrate<'w>>
    ensures { option_map migrate_of result ≡ migrate_in (rows_of (found_of given.now)) }
{
    let store = value(given, "store")?;
    Some(Migrate { store })
}
