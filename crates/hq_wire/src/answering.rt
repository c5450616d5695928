//! How the desk replies to one exchange.

ghost use Rattle.std.specs.Prelude.{◌≡◌, Ok, Some, false, option_map};
ghost use Rattle.hq_requests.specs.Calls.{CallOf};
ghost use Rattle.hq_requests.specs.Directories.{entry_of, whose_seen};
ghost use Rattle.hq_requests.specs.Bodies.{error_told, number_shown};
ghost use Rattle.hq_values.specs.Refusals.{no_memory};
ghost use Rattle.hq_wire.specs.Exchanges.{Exchanged, IsRefused, ask_of, with_refusals};
ghost use Rattle.hq_requests.specs.Named.{whose_exchange, whose_told};
ghost use Rattle.hq_wire.specs.Replies.{plain, seen, status_of, tells_store};
ghost use Rattle.hq_wire.specs.Runs.{RepliesSo};
ghost use Rattle.hq_requests.specs.declared.directory.Directory.{Directory};

use crate::calling::call_all;
use crate::faults::fault_reply;
use hq_bodies::JsonMemory;
use hq_json::{Json, refusal_text};
use hq_memory::Memory;
use hq_requests::{Asking, Body, Caller, Directory, Exchange, Reply, call_of, caller_named};
use hq_rules::{Acts, Call};
use hq_values::{Fail, Fault, Moment, Refusal};

/// The HTTP status of an answer, by its number.
#[tactic(auto, unfolding(crate::specs::Replies::status_of))]
fn status_of(number: u16) -> u16
    ensures { result ≡ status_of number }
{
    match number {
        0 => 200,
        2 => 401,
        3 => 403,
        4 | 10..=13 => 404,
        5 => 405,
        6 => 413,
        30 | 40..=44 | 52 => 409,
        _ => 400,
    }
}

/// The reply of an answer with this number, which its bytes tell, to this caller.
fn answer_reply<'d>(caller: Option<Caller<'d>>, number: u16, bytes: Vec<u8>) -> Reply<'d>
    requires { number_shown number ≡ error_told (status_of number) bytes.items }
    ensures told { seen result ≡ plain (status_of number) bytes.items }
    ensures whose { whose_told result ≡ option_map whose_seen caller.entry }
{
    Reply {
        status: status_of(number),
        number,
        caller,
        body: Body::Bytes(bytes),
    }
}

/// The reply to a refusal that no call was made for, of this caller; or to want of memory where
/// its text has no room.
pub fn refusal_reply<'d, M: Memory>(
    memory: M,
    caller: Option<Caller<'d>>,
    refusal: Refusal,
) -> Reply<'d>
    ensures told { IsRefused (λ fault. (fault ≡ no_memory) × M.refused) refusal (seen result) }
    ensures store { tells_store (seen result) ≡ false }
    ensures whose { whose_told result
        ≡ option_map whose_seen caller.entry }
{
    let number = refusal.number();
    match refusal_text(memory, refusal) {
        Ok(bytes) => answer_reply(caller, number, bytes),
        Err(_) => fault_reply(caller, Fault::WantOfMemory),
    }
}

/// The reply to a call of a customer, under any directory that has this entry.
fn call_reply<'d, D: Acts, M: JsonMemory>(
    memory: M,
    desk: &mut D,
    at: Moment,
    caller: Caller<'d>,
    call: Call,
) -> Reply<'d>
    ensures done { (d : Directory) → caller.entry.entry.now ≡ entry_of d caller.entry.entry.now.name
        → Exchanged (with_refusals M.refused D.sight) d desk.old
        (record { at = at; called = Ok (CallOf caller.entry.entry.now.name call) }) (seen result)
        desk.new }
    ensures whose { whose_told result ≡ Some (whose_seen caller.entry) }
{
    match desk.act(memory, at, caller.entry, call, &Json) {
        Ok(rendered) => answer_reply(Some(caller), rendered.number, rendered.bytes),
        Err(fault) => fault_reply(Some(caller), fault),
    }
}

/// Replies to one exchange, always: with the shared step's answer, whose tables are left; with the
/// refusal that no call was made for; or with a fault. After the last two the tables are as before.
///
/// It tells 90 only where this memory refused a request, or where the store may answer 90; and any
/// other fault only where the store may.
///
/// The reply to a call of all has a part for each customer that is done, by the shared step: the
/// first of those that are asked. A fault stops the call, and the reply names its customer.
///
/// Contracts speak of tables where the store is clean and open as the call ends, its rows were
/// those of the tables before, and the tables were sound. Whatever the store is, a refusal is told
/// as such. Where the store is closed after a call the reply is 93 `Closed`, or 90; 93 is told only
/// then.
///
/// The reply is of the customer whose key is shown, or whom the relay names, also where it refuses;
/// and it has the name of the key that is shown, where the key has one.
pub fn exchange<'d, D: Acts, M: JsonMemory>(
    memory: M,
    desk: &mut D,
    directory: &'d Directory,
    exchange: &Exchange,
) -> Reply<'d>
    ensures done { RepliesSo (with_refusals M.refused D.sight) directory.now desk.old
        (ask_of directory.now exchange.now) result desk.new }
    ensures whose { whose_told result
        ≡ whose_exchange directory.now exchange.now }
{
    match call_of(memory, directory, exchange) {
        Ok(Asking::CallOf(caller, call)) => call_reply(memory, desk, exchange.at, caller, call),
        Ok(Asking::CallOfAll(span, each)) => {
            call_all(memory, desk, directory, exchange.at, span, each)
        }
        Err(Fail::Refused(refusal)) => {
            refusal_reply(memory, caller_named(directory, exchange), refusal)
        }
        Err(Fail::Fault(fault)) => fault_reply(caller_named(directory, exchange), fault),
    }
}
