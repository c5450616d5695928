//! Rows dealt to the messages of a page. They are lent one after another, in the order of their
//! serials, and each goes to its message as it comes.

ghost use Rattle.std.specs.Prelude.{◌≡◌, IfOk, IfSome, None, length, IfErr};
ghost use Rattle.sqlite.specs.State.{HasCleanDisk};
ghost use Rattle.sqlite.specs.Held.{state};
ghost use Rattle.hq_sql.specs.Causes.{EndsSo, HasCause};
ghost use Rattle.hq_sql.specs.Bound.{between_columns};
ghost use Rattle.hq_sql.specs.Kept.{Intact};
ghost use Rattle.hq_sql.specs.Lent.{IsQuery};
ghost use Rattle.hq_sql.specs.Tables.{IsDesk};
ghost use Rattle.hq_sql_queue.specs.Dealt.{serials_of, dealt_one, at_place, IsPlaceFrom, Deals};
ghost use Rattle.hq_sql_queue.specs.Dealt.{DealsAll, Spans};

use hq_kept::Message;
use hq_sql::lent::Taker;
use hq_sql::{SqliteMemory, bind, lent, read};
use hq_values::{Name, Serial};
use sqlite::{Alter, Connection, Error, Row};
use std::marker::PhantomData;

/// A part of messages that stands in a table of its own. The second column of its rows is the
/// serial of their message.
pub(crate) trait Part {
    ghost use Rattle.std.specs.Prelude.{◌≡◌};
    ghost use Rattle.hq_sql.specs.Causes.{EndsSo};
    ghost use Rattle.sqlite.specs.Order.{Row};
    ghost use Rattle.hq_kept.specs.declared.message.Message.{Message};

    /// The message with what a row gives.
    ghost given: { Row → Message → Message };

    /// Gives what a row has to its message.
    fn give<M: SqliteMemory>(memory: M, row: &Row, message: &mut Message) -> Result<(), Error>
        ensures { EndsSo M.refused M.failed result (λ _. message.new ≡ given row.now message.old) };

    /// A message keeps its serial.
    ghost keeps: { (r : Row) (m : Message) → (given r m).serial ≡ m.serial };
}

/// A page of messages in the order of their serials, and the place of the message whose row came
/// last.
#[derive(Drop)]
struct Dealing<P: Part> {
    page: Vec<Message>,
    place: usize,
    part: PhantomData<P>,
}

/// The first place from `from` on of a message whose serial is not below this one; the end, where
/// there is none.
fn place_from(page: &[Message], from: usize, serial: u64) -> usize
    ensures { IsPlaceFrom (serials_of page.now) from serial result }
{
    for place in from..page.len() {
        if serial <= page[place].serial.get() {
            return place;
        }
    }
    page.len()
}

/// Gives what a row has to the message, if it has this serial.
fn deal_one<P: Part, M: SqliteMemory>(
    memory: M,
    message: &mut Message,
    serial: u64,
    row: &Row,
) -> Result<(), Error>
    ensures { EndsSo M.refused M.failed result
        (λ _. message.new ≡ dealt_one serial (P.given row.now) message.old) }
{
    if message.serial.get() == serial {
        P::give(memory, row, message)?;
    }
    Ok(())
}

/// Gives what a row has to the message at a place of the page, if it has this serial.
fn deal_at<P: Part, M: SqliteMemory>(
    memory: M,
    page: &mut Vec<Message>,
    place: usize,
    serial: u64,
    row: &Row,
) -> Result<(), Error>
    ensures { EndsSo M.refused M.failed result
        (λ _. page.new.items ≡ at_place (dealt_one serial (P.given row.now)) page.old.items place) }
{
    if place < page.len() {
        deal_one::<P, M>(memory, &mut page[place], serial, row)?;
    }
    Ok(())
}

impl<P: Part> Taker for Dealing<P> {
    ghost takes = { λ before row after.
        Deals P.given before.page.items before.place row after.page.items after.place };

    fn take<M: SqliteMemory>(&mut self, memory: M, row: &Row) -> Result<(), Error> {
        let serial = read::number(memory, row, 1)?;
        self.place = place_from(self.page.as_slice(), self.place, serial);
        deal_at::<P, M>(memory, &mut self.page, self.place, serial, row)?;
        Ok(())
    }
}

/// The serials of the first message and of the last, if there is one.
pub(crate) fn ends(page: &[Message]) -> Option<(Serial, Serial)>
    ensures none { result ≡ None → length page.now ≡ 0 }
    ensures some { IfSome result (λ ends. Spans page.now ends.0 ends.1) }
{
    match (page.first(), page.last()) {
        (Some(first), Some(last)) => Some((first.serial, last.serial)),
        _ => None,
    }
}

/// Deals the rows of a query on the customer's messages from `low` to `high` to those of a page.
pub(crate) fn deal<S: Alter, P: Part, M: SqliteMemory>(
    memory: M,
    conn: &mut Connection<S>,
    sql: &str,
    customer: &Name,
    low: Serial,
    high: Serial,
    page: Vec<Message>,
) -> Result<Vec<Message>, Error>
    ensures found { IsQuery sql.now → HasCleanDisk (state S.Store conn.new)
        → IsDesk (state S.Store conn.old).now → IfOk result (λ dealt. DealsAll P.given sql.now
        (between_columns customer.now low high) (state S.Store conn.old) (state S.Store conn.new)
        page.items dealt.items) }
    ensures kept { IsQuery sql.now
        → Intact (state S.Store conn.old) (state S.Store conn.new) result }
    ensures cause { IfErr result (HasCause M.refused M.failed) }
{
    let params = bind::between(customer, low, high);
    let dealing = Dealing::<P> {
        page,
        place: 0,
        part: PhantomData,
    };
    let dealt = lent::walk(memory, conn, sql, &params, dealing)?;
    Ok(dealt.page)
}
