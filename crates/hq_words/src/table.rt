//! The words of the program, one table: what help tells of each, and its options. `command` makes
//! commands of `clap` from these rows.

use crate::texts::*;
use Takes::{Count, Moment, Needed, Optional, Seconds, TextOr};

/// What an option is: whether it has to be there, and what its value is.
#[derive(Clone, Copy)]
pub(crate) enum Takes {
    /// A text that has to be there.
    Needed,
    /// A text that may be left out.
    Optional,
    /// A text, and what it is if it is left out.
    TextOr(&'static str),
    /// A number of connections.
    Count,
    /// A number of seconds.
    Seconds,
    /// A moment that has to be there.
    Moment,
}

/// An option `--NAME VALUE`: its name, what help calls its value, its help, and what it takes.
pub(crate) type OptionRow = (&'static str, &'static str, &'static str, Takes);

/// The options of `serve`.
pub(crate) const SERVE_OPTIONS: [OptionRow; 11] = [
    ("directory", "FILE", DIRECTORY, Needed),
    ("keys", "FILE", KEYS, Optional),
    ("host", "HOST", HOST, Needed),
    ("relay-key", "KEY", RELAY_KEY, Optional),
    ("relay-key-file", "FILE", RELAY_KEY_FILE, Optional),
    ("store", "FILE", STORE_OR_MEMORY, Optional),
    ("listen", "ADDRESS", LISTEN, TextOr("127.0.0.1:8025")),
    ("count", "N", COUNT, Count),
    ("idle-timeout", "SECONDS", IDLE_TIMEOUT, Seconds),
    ("request-timeout", "SECONDS", REQUEST_TIMEOUT, Seconds),
    ("log", "FILE", LOG, Optional),
];

/// The options of `batch`.
pub(crate) const BATCH_OPTIONS: [OptionRow; 7] = [
    ("directory", "FILE", DIRECTORY, Needed),
    ("keys", "FILE", KEYS, Optional),
    ("host", "HOST", HOST, Needed),
    ("relay-key", "KEY", RELAY_KEY, Optional),
    ("relay-key-file", "FILE", RELAY_KEY_FILE, Optional),
    ("store", "FILE", STORE_OR_MEMORY, Optional),
    ("log", "FILE", LOG, Optional),
];

/// The options of `check`.
pub(crate) const CHECK_OPTIONS: [OptionRow; 5] = [
    ("directory", "FILE", DIRECTORY, Needed),
    ("keys", "FILE", KEYS, Optional),
    ("host", "HOST", HOST, Needed),
    ("relay-key", "KEY", KEY_OR_NONE, Optional),
    ("relay-key-file", "FILE", RELAY_KEY_FILE, Optional),
];

/// The options of `queue` and `history`.
pub(crate) const TELLING_OPTIONS: [OptionRow; 5] = [
    ("directory", "FILE", DIRECTORY, Needed),
    ("store", "FILE", STORE, Needed),
    ("customer", "NAME", CUSTOMER, Needed),
    ("sender", "PATTERN", TOLD_SENDER, Optional),
    ("recipient", "PATTERN", TOLD_RECIPIENT, Optional),
];

/// The options of `hold`, `release` and `delete`.
pub(crate) const MOVING_OPTIONS: [OptionRow; 6] = [
    ("directory", "FILE", DIRECTORY, Needed),
    ("store", "FILE", STORE, Needed),
    ("customer", "NAME", CUSTOMER, Needed),
    ("sender", "PATTERN", SENDER, Optional),
    ("recipient", "PATTERN", RECIPIENT, Optional),
    ("at", "AT", AT, Moment),
];

/// The options of `usage`.
pub(crate) const USAGE_OPTIONS: [OptionRow; 2] = [
    ("directory", "FILE", DIRECTORY, Needed),
    ("store", "FILE", STORE, Needed),
];

/// The options of `import`.
pub(crate) const IMPORT_OPTIONS: [OptionRow; 5] = [
    ("directory", "FILE", DIRECTORY, Needed),
    ("store", "FILE", STORE, Needed),
    ("customer", "NAME", CUSTOMER, Needed),
    ("label", "LABEL", LABEL, Needed),
    ("file", "FILE", LINES, Needed),
];

/// The options of `sweep`.
pub(crate) const SWEEP_OPTIONS: [OptionRow; 5] = [
    ("directory", "FILE", DIRECTORY, Needed),
    ("host", "HOST", HOST, Needed),
    ("store", "FILE", STORE, Needed),
    ("customer", "NAME", CUSTOMER_OR_ALL, Optional),
    ("at", "AT", AT, Moment),
];

/// The options of `migrate`.
pub(crate) const MIGRATE_OPTIONS: [OptionRow; 1] = [("store", "FILE", OLD_STORE, Needed)];

/// A word: its name, what it does, what else its help tells, and its options.
pub(crate) type WordRow = (
    &'static str,
    &'static str,
    &'static str,
    &'static [OptionRow],
);

/// The words, in the order in which help tells them.
pub(crate) const WORDS: [WordRow; 12] = [
    ("serve", SERVE, AFTER_SERVE, &SERVE_OPTIONS),
    ("batch", BATCH, AFTER_BATCH, &BATCH_OPTIONS),
    ("check", CHECK, AFTER_CHECK, &CHECK_OPTIONS),
    ("queue", QUEUE, AFTER_QUEUE, &TELLING_OPTIONS),
    ("history", HISTORY, AFTER_HISTORY, &TELLING_OPTIONS),
    ("hold", HOLD, AFTER_MOVING, &MOVING_OPTIONS),
    ("release", RELEASE, AFTER_MOVING, &MOVING_OPTIONS),
    ("delete", DELETE, AFTER_MOVING, &MOVING_OPTIONS),
    ("usage", USAGE, AFTER_USAGE, &USAGE_OPTIONS),
    ("import", IMPORT, AFTER_IMPORT, &IMPORT_OPTIONS),
    ("sweep", SWEEP, AFTER_SWEEP, &SWEEP_OPTIONS),
    ("migrate", MIGRATE, AFTER_MIGRATE, &MIGRATE_OPTIONS),
];
