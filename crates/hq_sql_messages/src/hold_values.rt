//! Holds as the parameters of statements.

ghost use Rattle.std.specs.Prelude.{◌≡◌};
ghost use Rattle.sqlite.specs.Values.{bound};
ghost use Rattle.hq_sql.specs.Rows.{hold_columns};
ghost use Rattle.hq_sql_messages.specs.Holds.{hold_row};
ghost use Rattle.hq_sql_messages.specs.Moves.{reasoned_columns};

use hq_sql::bind::serial;
use hq_values::{Name, Serial, Text};
use sqlite::types::ValueRef;

/// The columns of a hold, in the order of the table.
pub(crate) fn hold<'a>(customer: &'a Name, key: Serial, reason: &'a Text) -> [ValueRef<'a>; 3]
    ensures { bound result ≡ hold_columns (hold_row customer.now key reason.now) }
{
    [
        ValueRef::Text(customer.as_str().as_bytes()),
        ValueRef::Int(serial(key)),
        ValueRef::Text(reason.as_str().as_bytes()),
    ]
}

/// The parameters of the INSERT of the reasons of all messages that are not on hold.
pub(crate) fn reasoned<'a>(customer: &'a Name, reason: &'a Text) -> [ValueRef<'a>; 2]
    ensures { bound result ≡ reasoned_columns customer.now reason.now }
{
    [
        ValueRef::Text(customer.as_str().as_bytes()),
        ValueRef::Text(reason.as_str().as_bytes()),
    ]
}
