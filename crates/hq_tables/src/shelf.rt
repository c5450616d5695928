//! What every store of the tables does, whichever way it keeps them.

ghost use Rattle.std.specs.Prelude.{◌≡◌, OnOk, take, filter, option_map};
ghost use Rattle.hq_kept.specs.Messages.{is_due};
ghost use Rattle.hq_tables.specs.Tables.{write_all};
ghost use Rattle.hq_tables.specs.Readings.{account_read, page_of, after_pattern, after_number};
ghost use Rattle.hq_tables.specs.Readings.{after_serial, before_end};
ghost use Rattle.hq_tables.specs.Shelves.{Sight, OnClean, Finds, Keeps, KeepsOnErr};
ghost use Rattle.hq_tables.specs.Shelves.{StopLeavesWhole};

use crate::account::Account;
use crate::change::Change;
use hq_kept::{Action, Class, End, Line, LookupKey, Mark, Message, Notice, Pattern};
use hq_values::{Fault, Items, Label, Moment, Name, Serial, Spool};

/// The tables of all customers. Each call reads or changes the rows of the customer that it names.
///
/// A call answers, or it ends in a fault:
/// - 90 `WantOfMemory` leaves everything as before.
/// - 91 `Disk` leaves the tables as before.
/// - 93 `Closed` closes the shelf: from then on every call answers it, and nothing is said of the
///   rows.
///
/// What is said of the tables is said where the store is clean as the call ends, and where its rows
/// were the rows of the tables before. So is what an opening finds where the process or its machine
/// stops: the tables that there are while the shelf is open, and in a call those before it or
/// behind it.
pub trait Shelf {
    /// What is seen of it.
    ghost sight: { Sight Self };

    /// The customer's head; where none was put, that of a customer of whom nothing is kept. And how
    /// much the customer keeps: messages, their bytes together, and lines. The bytes stay at the
    /// greatest `u64`.
    fn account(&mut self, customer: &Name) -> Result<Account, Fault>
        ensures found { Finds sight self.old self.new result customer.now account_read }
        ensures kept { Keeps sight self.old self.new result };

    /// The customer's message of this serial.
    fn message(&mut self, customer: &Name, serial: Serial) -> Result<Option<Message>, Fault>
        ensures found { Finds sight self.old self.new result customer.now
            (λ rows. rows.message serial) }
        ensures kept { Keeps sight self.old self.new result };

    /// The customer's message with this spool name; the one of the smallest serial, where several
    /// have it.
    fn by_spool(&mut self, customer: &Name, spool: &Spool) -> Result<Option<Message>, Fault>
        ensures found { Finds sight self.old self.new result customer.now
            (λ rows. rows.by_spool spool.now) }
        ensures kept { Keeps sight self.old self.new result };

    /// The customer's messages in order of serial: the first `limit` after the serial, or of all.
    fn messages(
        &mut self,
        customer: &Name,
        after: Option<Serial>,
        limit: usize,
    ) -> Result<Items<Message>, Fault>
        ensures found { Finds sight self.old self.new result customer.now
            (λ rows. page_of after limit rows.messages) }
        ensures kept { Keeps sight self.old self.new result };

    /// The customer's messages that may be tried at the moment, in order of serial: the first
    /// `limit` after the serial, or of all.
    fn due(
        &mut self,
        customer: &Name,
        at: Moment,
        after: Option<Serial>,
        limit: usize,
    ) -> Result<Items<Message>, Fault>
        ensures found { Finds sight self.old self.new result customer.now
            (λ rows. take limit (filter (is_due at) (after_serial after rows.messages))) }
        ensures kept { Keeps sight self.old self.new result };

    /// The action of the customer's line of this class, at this key.
    fn line(
        &mut self,
        customer: &Name,
        class: Class,
        key: &LookupKey,
    ) -> Result<Option<Action>, Fault>
        ensures found { Finds sight self.old self.new result customer.now
            (λ rows. rows.line class key.now) }
        ensures kept { Keeps sight self.old self.new result };

    /// The customer's lines in the order of the bytes of the class's name and then of the pattern:
    /// the first `limit` after the pattern, or of all.
    fn lines(
        &mut self,
        customer: &Name,
        after: Option<&Pattern>,
        limit: usize,
    ) -> Result<Items<Line>, Fault>
        ensures found { Finds sight self.old self.new result customer.now (λ rows. take limit
            (after_pattern (option_map (λ p. p.now) after.entry) rows.lines)) }
        ensures kept { Keeps sight self.old self.new result };

    /// What is kept of the customer's import under this label.
    fn mark(&mut self, customer: &Name, label: &Label) -> Result<Option<Mark>, Fault>
        ensures found { Finds sight self.old self.new result customer.now
            (λ rows. rows.mark label.now) }
        ensures kept { Keeps sight self.old self.new result };

    /// The customer's notice of this number.
    fn notice(&mut self, customer: &Name, number: u64) -> Result<Option<Notice>, Fault>
        ensures found { Finds sight self.old self.new result customer.now
            (λ rows. rows.notice number) }
        ensures kept { Keeps sight self.old self.new result };

    /// The customer's notices in order of number: the first `limit` after the number, or of all.
    fn notices(
        &mut self,
        customer: &Name,
        after: Option<u64>,
        limit: usize,
    ) -> Result<Items<Notice>, Fault>
        ensures found { Finds sight self.old self.new result customer.now
            (λ rows. take limit (after_number after rows.notices)) }
        ensures kept { Keeps sight self.old self.new result };

    /// The customer's history, the newest first: the first `limit` of the ends before the number,
    /// or of all.
    fn ends(
        &mut self,
        customer: &Name,
        before: Option<u64>,
        limit: usize,
    ) -> Result<Items<End>, Fault>
        ensures found { Finds sight self.old self.new result customer.now
            (λ rows. take limit (before_end before rows.ends)) }
        ensures kept { Keeps sight self.old self.new result };

    /// Makes all changes of the customer's rows, in order, or none: so also where the process or
    /// its machine stops in it.
    fn apply(&mut self, customer: &Name, changes: &[Change]) -> Result<(), Fault>
        ensures made { OnClean sight self.old self.new
            (OnOk result (sight.tables self.new ≡ write_all customer.now changes.now
            (sight.tables self.old))) }
        ensures stops { OnClean sight self.old self.new (StopLeavesWhole sight self.old self.new
            (write_all customer.now changes.now (sight.tables self.old))) }
        ensures kept { KeepsOnErr sight self.old self.new result };

    /// How many 91 and 93 the calls have answered; at the greatest `u64` it stays. It takes no
    /// memory.
    fn faults(&self) -> u64
        ensures { result ≡ sight.fault_count self.now };
}
