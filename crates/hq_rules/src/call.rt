//! What can be asked of the desk, by a customer or by a relay worker that names one.

ghost use Rattle.std.specs.Prelude.{IsTrue, length};
ghost use Rattle.hq_rules.specs.Limits.{is_recipient_count, is_size};

use hq_kept::{Attempt, Class, Line, Outcome, Pattern};
use hq_values::{Address, Items, Label, Moment, Sender, Serial, Spool};

/// A message that a relay worker hands in.
#[derive(Drop)]
pub struct Submission {
    /// The name under which the relay keeps it. While it is queued, another submission of this name
    /// is a repeat.
    pub spool: Spool,
    /// Who is told of failures.
    pub sender: Sender,
    /// To whom it goes: 1 to 100 addresses, of which the first of those that are the same counts.
    pub recipients: Items<Address>,
    /// Its size in bytes, at most 2,147,483,647.
    pub size: u32,
    pub ghost number: { IsTrue (is_recipient_count (length recipients)) },
    pub ghost limit: { IsTrue (is_size size) },
}

/// What a message is judged by before its content comes: its sender, its recipients and its size.
#[derive(Drop)]
pub struct Envelope {
    /// Who is told of failures.
    pub sender: Sender,
    /// To whom it goes: 1 to 100 addresses, of which the first of those that are the same counts.
    pub recipients: Items<Address>,
    /// Its size in bytes, at most 2,147,483,647.
    pub size: u32,
    pub ghost number: { IsTrue (is_recipient_count (length recipients)) },
    pub ghost limit: { IsTrue (is_size size) },
}

/// What a submission says beside its recipients.
#[derive(Drop)]
pub struct Origin {
    /// The name under which the relay keeps it.
    pub spool: Spool,
    /// Who is told of failures.
    pub sender: Sender,
    /// Its size in bytes.
    pub size: u32,
}

/// What a relay worker reports of one attempt to deliver a message.
#[derive(Drop)]
pub struct AttemptReport {
    /// The message.
    pub serial: Serial,
    /// Which attempt it was.
    pub attempt: Attempt,
    /// What became of the recipients that the worker names.
    pub outcomes: Items<Outcome>,
}

/// A call.
#[derive(Drop)]
pub enum Call {
    /// Takes a message into the queue, as the customer's access tables judge it.
    Submit(Submission),
    /// Tells what a submission of this envelope, under a new spool name, would be answered. Takes
    /// nothing in.
    Admit(Envelope),
    /// Lists the first 100 messages after a serial, or from the start: of those that a pattern is
    /// for, or of all.
    List(Option<Serial>, Option<Pattern>),
    /// Shows a message whole.
    Show(Serial),
    /// Puts a message on hold.
    Hold(Serial),
    /// Releases a message from hold.
    Release(Serial),
    /// Queues a message anew, under another serial.
    Requeue(Serial),
    /// Deletes a message.
    Delete(Serial),
    /// Puts every message on hold that a pattern is for, or every one.
    HoldAll(Option<Pattern>),
    /// Releases every message on hold that a pattern is for, or every one.
    ReleaseAll(Option<Pattern>),
    /// Deletes every message that a pattern is for, or every one.
    DeleteAll(Option<Pattern>),
    /// Lists the first 100 lines of the access tables after a pattern, or from the start.
    Lines(Option<Pattern>),
    /// Sets the line of its pattern.
    PutLine(Line),
    /// Drops the line of a pattern.
    DropLine(Pattern),
    /// Tells which keys an address is looked up by, and what is found for it.
    Check(Class, Sender),
    /// Takes the lines of a CSV file into the access tables, once for its label. The file is its
    /// bytes.
    Import(Label, Items<u8>),
    /// Takes the report of a delivery attempt.
    Outcome(AttemptReport),
    /// Lists the first 100 messages after a serial, or from the start, that may be tried now.
    Due(Option<Serial>),
    /// Gives up what is too old, and warns the senders of what is late.
    Sweep,
    /// Lists the first 100 notices after a number, or from the start.
    Notices(Option<u64>),
    /// Shows a notice whole.
    Notice(u64),
    /// Lists the newest 100 ends of the history, or those before a number.
    History(Option<u64>),
    /// Finds ends of the history that a pattern is for, among the newest, or those before a number.
    FindHistory(Pattern, Option<u64>),
    /// Tells what the customer has on the desk, and what became of its recipients.
    Usage,
    /// Tells how much the customer may keep.
    Limits,
    /// Writes the queue report: of the messages that a pattern is for, or of all.
    Report(Option<Pattern>),
}

/// A move of every message (postsuper(1), `-h` and `-H`).
#[derive(Clone, Copy, Debug, PartialEq, Eq, Drop)]
pub enum Move {
    /// What is incoming or deferred goes on hold.
    Hold,
    /// What is on hold is deferred, and may be tried from this moment on.
    Release(Moment),
}
