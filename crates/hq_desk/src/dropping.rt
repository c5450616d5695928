//! Calls that delete all messages of a customer: the shelf may drop them at once.

ghost use Rattle.std.specs.Prelude.{◌≡◌, true, None, OnOk};
ghost use Rattle.hq_tables.specs.Readings.{read_tables};
ghost use Rattle.hq_tables.specs.Shelves.{KeepsOnErr, OnSound, StopLeavesWhole};
ghost use Rattle.hq_tables.specs.Tables.{write_all};
ghost use Rattle.hq_rules.specs.declared.call.Call.TheVariants.{DeleteAll};
ghost use Rattle.hq_desk.specs.Moves.{DropsWhere};

use hq_moves::MovesMessages;
use hq_rules::{Answer, Call, Decision};
use hq_values::{Fault, Name};

/// Whether a call deletes all messages.
pub(crate) fn deletes_all(call: &Call) -> bool
    ensures { result ≡ true → call.now ≡ DeleteAll None }
{
    matches!(call, Call::DeleteAll(which) if which.is_none())
}

/// Makes the changes of a decision, or none. Where it deletes all messages, the shelf is told so,
/// and how many there are. Where it has no changes, no transaction begins.
pub(crate) fn apply_decision<S: MovesMessages>(
    shelf: &mut S,
    customer: &Name,
    all: bool,
    decision: &Decision,
) -> Result<(), Fault>
    ensures made { OnSound S.sight shelf.old shelf.new
        (DropsWhere all decision.now (read_tables customer.now (S.sight.tables shelf.old))
        → OnOk result (S.sight.tables shelf.new
        ≡ write_all customer.now decision.now.changes (S.sight.tables shelf.old))) }
    ensures stops { OnSound S.sight shelf.old shelf.new
        (DropsWhere all decision.now (read_tables customer.now (S.sight.tables shelf.old))
        → StopLeavesWhole S.sight shelf.old shelf.new
        (write_all customer.now decision.now.changes (S.sight.tables shelf.old))) }
    ensures kept { KeepsOnErr S.sight shelf.old shelf.new result }
{
    let changes = decision.changes.as_slice();
    match decision.answer {
        Answer::Changed(count) if all && count != 0 => {
            shelf.apply_dropping_all(customer, changes, count as usize)
        }
        _ => shelf.apply(customer, changes),
    }
}
