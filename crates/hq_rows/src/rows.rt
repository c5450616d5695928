//! The rows of the tables, one type for each, and the tests of their keys.

ghost use Rattle.std.specs.Prelude.{◌≡◌, not, option_map};
ghost use Rattle.std.specs.Ordering.{nat_cmp, eq_by_cmp};
ghost use Rattle.hq_tables.specs.Tables.{text_cmp, line_cmp};
ghost use Rattle.hq_rows.specs.Lookups.{is_message, is_recipient, is_hold, is_past};
ghost use Rattle.hq_rows.specs.Lookups.{has_spool, is_line, is_line_past, is_mark, is_notice};
ghost use Rattle.hq_rows.specs.Lookups.{is_notice_past, is_kept_notice, is_end, is_end_before};
ghost use Rattle.hq_rows.specs.Lookups.{is_kept_end, is_earlier_end};

use hq_kept::{Class, End, Line, Mark, Notice, Pattern, Pending, QueueState};
use hq_tables::Account;
use hq_values::{Label, Moment, Name, Sender, Serial, Spool, Text};
use std::cmp::Ordering;

/// A row of heads.
#[derive(Drop)]
pub struct HeadRow {
    /// Whose it is.
    pub customer: Name,
    /// The head with its counts.
    pub account: Account,
}

/// A row of messages.
#[derive(Drop)]
pub struct MessageRow {
    /// Whose it is.
    pub customer: Name,
    /// Its number among the customer's.
    pub serial: Serial,
    /// Who is told of failures.
    pub sender: Sender,
    /// The name under which the relay keeps it.
    pub spool: Spool,
    /// Its size in bytes.
    pub size: u32,
    /// When it came.
    pub arrival: Moment,
    /// Whether it may be tried, and was.
    pub state: QueueState,
    /// When it may be tried next.
    pub next_try: Moment,
    /// How often it was tried.
    pub attempts: u32,
    /// Whether its sender was told of the delay.
    pub warned: bool,
}

/// A row of recipients. Places count from 1 in the order of the message's recipients.
#[derive(Drop)]
pub struct RecipientRow {
    /// Whose message it is.
    pub customer: Name,
    /// The message's number.
    pub serial: Serial,
    /// Where it stands among the message's recipients.
    pub place: u64,
    /// The recipient, and what was last said of it.
    pub pending: Pending,
}

/// A row of holds: the reason of a message on hold.
#[derive(Drop)]
pub struct HoldRow {
    /// Whose message it is.
    pub customer: Name,
    /// The message's number.
    pub serial: Serial,
    /// Why it is on hold; never empty in sound tables.
    pub reason: Text,
}

/// A row of lines.
#[derive(Drop)]
pub struct LineRow {
    /// Whose it is.
    pub customer: Name,
    /// Its pattern and its action.
    pub line: Line,
}

/// A row of marks.
#[derive(Drop)]
pub struct MarkRow {
    /// Whose it is.
    pub customer: Name,
    /// What is kept of the import.
    pub mark: Mark,
}

/// A row of notices.
#[derive(Drop)]
pub struct NoticeRow {
    /// Whose it is.
    pub customer: Name,
    /// The notice with its number.
    pub notice: Notice,
}

/// A row of the histories.
#[derive(Drop)]
pub struct EndRow {
    /// The customer's name.
    pub customer: Name,
    /// The end with its number.
    pub end: End,
}

/// Whether two names are the same.
fn is_name(a: &Name, b: &Name) -> bool
    ensures { result ≡ eq_by_cmp text_cmp a.now b.now }
{
    a.as_str().cmp(b.as_str()).is_eq()
}

/// Whether two serials are the same.
fn is_serial(a: Serial, b: Serial) -> bool
    ensures { result ≡ eq_by_cmp nat_cmp a b }
{
    a.get().cmp(&b.get()).is_eq()
}

impl MessageRow {
    /// Whether it is the customer's message of this serial.
    #[tactic(auto, unfolding(crate::specs::Lookups::is_message))]
    pub fn is_at(&self, customer: &Name, serial: Serial) -> bool
        ensures { result ≡ is_message customer.now serial self.now }
    {
        customer
            .as_str()
            .cmp(self.customer.as_str())
            .then(serial.get().cmp(&self.serial.get()))
            .is_eq()
    }

    /// Whether it is another message.
    pub fn is_other(&self, customer: &Name, serial: Serial) -> bool
        ensures { result ≡ not (is_message customer.now serial self.now) }
    {
        !self.is_at(customer, serial)
    }

    /// Whether it is a message of the customer after a serial, or any of its messages where there
    /// is none.
    #[tactic(auto, unfolding(crate::specs::Lookups::is_past))]
    pub fn is_past(&self, customer: &Name, after: Option<u64>) -> bool
        ensures { result ≡ is_past customer.now after self.now }
    {
        is_name(customer, &self.customer)
            && match after {
                None => true,
                Some(serial) => serial < self.serial.get(),
            }
    }

    /// Whether it is a message of the customer with this spool name.
    #[tactic(auto, unfolding(crate::specs::Lookups::has_spool))]
    pub fn has_spool(&self, customer: &Name, spool: &Spool) -> bool
        ensures { result ≡ has_spool customer.now spool.now self.now }
    {
        is_name(customer, &self.customer) && spool.as_str().cmp(self.spool.as_str()).is_eq()
    }
}

impl RecipientRow {
    /// Whether it is a recipient of the customer's message of this serial.
    #[tactic(auto, unfolding(crate::specs::Lookups::is_recipient))]
    pub fn is_at(&self, customer: &Name, serial: Serial) -> bool
        ensures { result ≡ is_recipient customer.now serial self.now }
    {
        is_name(customer, &self.customer) && is_serial(serial, self.serial)
    }

    /// Whether it is a recipient of another message.
    pub fn is_other(&self, customer: &Name, serial: Serial) -> bool
        ensures { result ≡ not (is_recipient customer.now serial self.now) }
    {
        !self.is_at(customer, serial)
    }
}

impl HoldRow {
    /// Whether it is of the customer's message of this serial.
    #[tactic(auto, unfolding(crate::specs::Lookups::is_hold))]
    pub fn is_at(&self, customer: &Name, serial: Serial) -> bool
        ensures { result ≡ is_hold customer.now serial self.now }
    {
        customer
            .as_str()
            .cmp(self.customer.as_str())
            .then(serial.get().cmp(&self.serial.get()))
            .is_eq()
    }

    /// Whether it is of another message.
    pub fn is_other(&self, customer: &Name, serial: Serial) -> bool
        ensures { result ≡ not (is_hold customer.now serial self.now) }
    {
        !self.is_at(customer, serial)
    }
}

/// The order of a class and a text beside a pattern: by the name of the class, then by the text.
pub fn order(class: Class, text: &str, other: &Pattern) -> Ordering
    ensures { result ≡ line_cmp (class, text.now) other.now }
{
    class
        .name()
        .cmp(other.class().name())
        .then(text.cmp(other.as_str()))
}

impl LineRow {
    /// Whether it is the customer's line of this class, at this key.
    #[tactic(auto, unfolding(crate::specs::Lookups::is_line))]
    pub fn is_at(&self, customer: &Name, class: Class, key: &str) -> bool
        ensures { result ≡ is_line customer.now (class, key.now) self.now }
    {
        customer
            .as_str()
            .cmp(self.customer.as_str())
            .then(order(class, key, &self.line.pattern))
            .is_eq()
    }

    /// Whether it is another line than that of the customer's pattern.
    pub fn is_other(&self, customer: &Name, pattern: &Pattern) -> bool
        ensures { result ≡ not (is_line customer.now pattern.now self.now) }
    {
        !self.is_at(customer, pattern.class(), pattern.as_str())
    }

    /// Whether it is a line of the customer after a pattern, or any of its lines where there is
    /// none.
    #[tactic(auto, unfolding(crate::specs::Lookups::is_line_past))]
    pub fn is_past(&self, customer: &Name, after: Option<&Pattern>) -> bool
        ensures { result
            ≡ is_line_past customer.now (option_map (λ p. p.now) after.entry) self.now }
    {
        is_name(customer, &self.customer)
            && match after {
                None => true,
                Some(pattern) => {
                    order(pattern.class(), pattern.as_str(), &self.line.pattern).is_lt()
                }
            }
    }
}

impl MarkRow {
    /// Whether it is the customer's mark of this label.
    #[tactic(auto, unfolding(crate::specs::Lookups::is_mark))]
    pub fn is_at(&self, customer: &Name, label: &Label) -> bool
        ensures { result ≡ is_mark customer.now label.now self.now }
    {
        customer
            .as_str()
            .cmp(self.customer.as_str())
            .then(label.as_str().cmp(self.mark.label.as_str()))
            .is_eq()
    }

    /// Whether it is another mark.
    pub fn is_other(&self, customer: &Name, label: &Label) -> bool
        ensures { result ≡ not (is_mark customer.now label.now self.now) }
    {
        !self.is_at(customer, label)
    }
}

impl NoticeRow {
    /// Whether it is the customer's notice of this number.
    #[tactic(auto, unfolding(crate::specs::Lookups::is_notice))]
    pub fn is_at(&self, customer: &Name, number: u64) -> bool
        ensures { result ≡ is_notice customer.now number self.now }
    {
        customer
            .as_str()
            .cmp(self.customer.as_str())
            .then(number.cmp(&self.notice.number))
            .is_eq()
    }

    /// Whether it is another notice.
    pub fn is_other(&self, customer: &Name, number: u64) -> bool
        ensures { result ≡ not (is_notice customer.now number self.now) }
    {
        !self.is_at(customer, number)
    }

    /// Whether it is a notice of the customer after a number, or any of its notices where there is
    /// none.
    #[tactic(auto, unfolding(crate::specs::Lookups::is_notice_past))]
    pub fn is_past(&self, customer: &Name, after: Option<u64>) -> bool
        ensures { result ≡ is_notice_past customer.now after self.now }
    {
        is_name(customer, &self.customer)
            && match after {
                None => true,
                Some(number) => number < self.notice.number,
            }
    }

    /// Whether it is another customer's, or of a number that is not below this one.
    #[tactic(auto, unfolding(crate::specs::Lookups::is_kept_notice))]
    pub fn is_kept(&self, customer: &Name, number: u64) -> bool
        ensures { result ≡ is_kept_notice customer.now number self.now }
    {
        !(is_name(customer, &self.customer) && !(number <= self.notice.number))
    }
}

impl EndRow {
    /// Whether it is the customer's end of this number.
    #[tactic(auto, unfolding(crate::specs::Lookups::is_end))]
    pub fn is_at(&self, customer: &Name, number: u64) -> bool
        ensures { result ≡ is_end customer.now number self.now }
    {
        customer
            .as_str()
            .cmp(self.customer.as_str())
            .then(self.end.number.cmp(&number))
            .is_eq()
    }

    /// Whether it is another end.
    pub fn is_other(&self, customer: &Name, number: u64) -> bool
        ensures { result ≡ not (is_end customer.now number self.now) }
    {
        !self.is_at(customer, number)
    }

    /// Whether it is an end of the customer before a number, or any of its ends where there is
    /// none.
    #[tactic(auto, unfolding(crate::specs::Lookups::is_end_before))]
    pub fn is_before(&self, customer: &Name, before: Option<u64>) -> bool
        ensures { result ≡ is_end_before customer.now before self.now }
    {
        is_name(customer, &self.customer)
            && match before {
                None => true,
                Some(number) => self.end.number < number,
            }
    }

    /// Whether it is another customer's, or of a number above this one.
    #[tactic(auto, unfolding(crate::specs::Lookups::is_kept_end))]
    pub fn is_kept(&self, customer: &Name, number: u64) -> bool
        ensures { result ≡ is_kept_end customer.now number self.now }
    {
        !(is_name(customer, &self.customer) && !(number < self.end.number))
    }

    /// Whether it is another customer's, or of a number up to this one.
    #[tactic(auto, unfolding(crate::specs::Lookups::is_earlier_end))]
    pub fn is_earlier(&self, customer: &Name, number: u64) -> bool
        ensures { result ≡ is_earlier_end customer.now number self.now }
    {
        !(is_name(customer, &self.customer) && !(self.end.number <= number))
    }
}
