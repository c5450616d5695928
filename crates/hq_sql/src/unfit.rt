//! Forms of texts in columns, and limits of numbers.

use hq_kept::Class;

/// The form of a column's text, as a reader of `hq_values` or `hq_kept` takes it.
#[derive(Clone, Copy, Debug, PartialEq, Eq)]
pub enum Form {
    /// A mail address.
    Address,
    /// A mail address, or nothing for the null sender.
    Sender,
    /// A spool ID.
    Spool,
    /// The label of a mark.
    Label,
    /// A text of one line.
    Text,
    /// A status code of RFC 3463, or nothing for none.
    Status,
    /// The name of a class of access tables.
    Class,
    /// A pattern of such a class, folded.
    Pattern(Class),
}

/// The numbers that a column may hold, or a count reach.
#[derive(Clone, Copy, Debug, PartialEq, Eq)]
pub enum Limits {
    /// Those that a column takes: below 2^63.
    Column,
    /// Serials: 1 to 2^40 - 1.
    Serials,
    /// Seconds of moments: up to 4,102,444,799.
    Moments,
    /// States of a message: 0 to 2.
    States,
    /// Kinds of a notice: 0 and 1.
    Kinds,
    /// Fates of a recipient: 0 to 3.
    Fates,
    /// Places of recipients: below 2^32.
    Places,
    /// The length of a digest: 32 bytes.
    DigestBytes,
    /// Numbers up to a last one.
    UpTo(u64),
}
