//! Messages as the parameters of statements.

ghost use Rattle.std.specs.Prelude.{◌≡◌, ℕ, pos, if◌then◌else◌};
ghost use Rattle.sqlite.specs.Values.{bound};
ghost use Rattle.hq_values.specs.Senders.{sender_text};
ghost use Rattle.hq_rows.specs.Lookups.{message_row};
ghost use Rattle.hq_sql.specs.Rows.{sender_of, state_code, message_columns};
ghost use Rattle.hq_sql_messages.specs.Messages.{above_number, message_page_columns, spool_columns};
ghost use Rattle.hq_sql_messages.specs.Messages.{due_page_columns};
ghost use Rattle.hq_sql_messages.specs.Moves.{customer_columns, released_columns};
ghost use Rattle.hq_sql_messages.specs.OneMove.{one_released_columns};

use hq_kept::{Message, QueueState};
use hq_sql::bind::{RowLimit, serial, small};
use hq_values::{Moment, Name, Sender, Serial, Spool};
use sqlite::types::ValueRef;

/// The number above which serials are wanted: -1 for all.
fn after(after: Option<Serial>) -> i64
    ensures { result ≡ above_number after }
{
    match after {
        None => -1,
        Some(last) => serial(last),
    }
}

fn moment(moment: Moment) -> i64
    ensures { result ≡ pos moment }
{
    moment.get() as i64
}

fn truth(truth: bool) -> i64
    ensures { result ≡ (if truth then pos 1 else pos 0) }
{
    if truth { 1 } else { 0 }
}

fn state(state: QueueState) -> i64
    ensures { result ≡ pos (state_code state) }
{
    match state {
        QueueState::Incoming => 0,
        QueueState::Deferred => 1,
        QueueState::Hold => 2,
    }
}

/// The text of a sender, which reads back as the sender.
fn sender(sender: &Sender) -> &str
    ensures text { result.now ≡ sender_text sender.now }
    ensures back { sender_of (sender_text sender.now) ≡ sender.now }
{
    sender.reads_back();
    sender.as_str()
}

/// The columns of a message, in the order of the table.
pub(crate) fn message<'a>(customer: &'a Name, message: &'a Message) -> [ValueRef<'a>; 10]
    ensures columns { bound result ≡ message_columns (message_row customer.now message.now) }
    ensures back { sender_of (sender_text message.now.sender) ≡ message.now.sender }
{
    [
        ValueRef::Text(customer.as_str().as_bytes()),
        ValueRef::Int(serial(message.serial)),
        ValueRef::Text(sender(&message.sender).as_bytes()),
        ValueRef::Text(message.spool.as_str().as_bytes()),
        ValueRef::Int(small(message.size)),
        ValueRef::Int(moment(message.arrival)),
        ValueRef::Int(state(message.state)),
        ValueRef::Int(moment(message.next_try)),
        ValueRef::Int(small(message.attempts)),
        ValueRef::Int(truth(message.warned)),
    ]
}

/// The parameters of the query of a message by its spool name.
pub(crate) fn spool<'a>(customer: &'a Name, spool: &'a Spool) -> [ValueRef<'a>; 2]
    ensures { bound result ≡ spool_columns customer.now spool.now }
{
    [
        ValueRef::Text(customer.as_str().as_bytes()),
        ValueRef::Text(spool.as_str().as_bytes()),
    ]
}

/// The parameters of the query of a page.
pub(crate) fn page<'a>(
    customer: &'a Name,
    last: Option<Serial>,
    most: &RowLimit,
) -> [ValueRef<'a>; 3]
    ensures { (limit : ℕ) → most.now.rows ≡ pos limit
        → bound result ≡ message_page_columns customer.now last limit }
{
    [
        ValueRef::Text(customer.as_str().as_bytes()),
        ValueRef::Int(after(last)),
        ValueRef::Int(most.rows),
    ]
}

/// The parameters of the query of a page of messages that may be tried by a moment.
pub(crate) fn due<'a>(
    customer: &'a Name,
    at: Moment,
    last: Option<Serial>,
    most: &RowLimit,
) -> [ValueRef<'a>; 4]
    ensures { (limit : ℕ) → most.now.rows ≡ pos limit
        → bound result ≡ due_page_columns customer.now at last limit }
{
    [
        ValueRef::Text(customer.as_str().as_bytes()),
        ValueRef::Int(after(last)),
        ValueRef::Int(moment(at)),
        ValueRef::Int(most.rows),
    ]
}

/// The parameters of a statement on all rows of a customer.
pub(crate) fn customer<'a>(customer: &'a Name) -> [ValueRef<'a>; 1]
    ensures { bound result ≡ customer_columns customer.now }
{
    [ValueRef::Text(customer.as_str().as_bytes())]
}

/// The parameters of the release of all messages of a customer.
pub(crate) fn release<'a>(customer: &'a Name, at: Moment) -> [ValueRef<'a>; 2]
    ensures { bound result ≡ released_columns customer.now at }
{
    [
        ValueRef::Text(customer.as_str().as_bytes()),
        ValueRef::Int(moment(at)),
    ]
}

/// The parameters of the release of one message.
pub(crate) fn release_one<'a>(customer: &'a Name, key: Serial, at: Moment) -> [ValueRef<'a>; 3]
    ensures { bound result ≡ one_released_columns (customer.now, key) at }
{
    [
        ValueRef::Text(customer.as_str().as_bytes()),
        ValueRef::Int(serial(key)),
        ValueRef::Int(moment(at)),
    ]
}
