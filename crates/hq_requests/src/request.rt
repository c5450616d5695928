//! From an exchange to a call: the path, the method, the key, the parameter and the body.

ghost use Rattle.std.specs.Prelude.{◌≡◌, IfOk, option_map, string_bytes};
ghost use Rattle.hq_values.specs.Readers.{ReadsIn, seen_by};
ghost use Rattle.hq_values.specs.declared.failure.Refusal.TheVariants.{BadField};
ghost use Rattle.hq_rules.specs.Each.{each_call};
ghost use Rattle.hq_requests.specs.Routes.{last_segment};
ghost use Rattle.hq_requests.specs.Spans.{whom_seen};
ghost use Rattle.hq_requests.specs.Callers.{IsHeldBy, IsOfAll};
ghost use Rattle.hq_requests.specs.Calls as calls;

use crate::directory::Directory;
use crate::exchanges::Exchange;
use crate::keys::allows;
use crate::number::notice_number;
use crate::{Caller, Role, Route, Span, last_segment};
use hq_bodies::{
    JsonMemory, read_check, read_envelope, read_find, read_from, read_history_before, read_import,
    read_line, read_message_after, read_message_id, read_notice_after, read_notice_number,
    read_pattern, read_report, read_search, read_submission,
};
use hq_rules::{Call, EachCall};
use hq_values::{Fail, Refusal, Serial};

/// The most bytes of a body.
const BODY_BYTES: usize = 262_144;

/// What an exchange asks.
#[derive(Drop)]
pub enum Asking<'d> {
    /// A call of a customer.
    CallOf(Caller<'d>, Call),
    /// The same call of these customers.
    CallOfAll(Span<'d>, EachCall),
}

/// The serial of the message whose queue ID is the parameter: else 8 `BadField`.
fn serial_of(segment: &str) -> Result<Serial, Refusal>
    ensures { result ≡ calls.serial_of segment.now }
{
    Serial::parse(segment).ok_or(Refusal::BadField)
}

/// The number that is the parameter: else 8 `BadField`.
fn number_of(segment: &str) -> Result<u64, Refusal>
    ensures { result ≡ calls.number_of segment.now }
{
    notice_number(segment).ok_or(Refusal::BadField)
}

/// What a route asks, of its parameter or its body.
#[tactic(auto, unfolding(crate::specs::Calls::asked_of))]
fn asked_of<M: JsonMemory>(
    memory: M,
    route: Route,
    segment: &str,
    body: &[u8],
) -> Result<Call, Fail>
    ensures { ReadsIn M.refused result (calls.asked_of route segment.now body.now) }
{
    match route {
        Route::Messages => Ok(Call::List(None, None)),
        Route::MessagesAfter => Ok(Call::List(Some(serial_of(segment)?), None)),
        Route::Show => Ok(Call::Show(serial_of(segment)?)),
        Route::Hold => Ok(Call::Hold(serial_of(segment)?)),
        Route::Release => Ok(Call::Release(serial_of(segment)?)),
        Route::Requeue => Ok(Call::Requeue(serial_of(segment)?)),
        Route::Delete => Ok(Call::Delete(serial_of(segment)?)),
        Route::HoldAll => Ok(Call::HoldAll(None)),
        Route::ReleaseAll => Ok(Call::ReleaseAll(None)),
        Route::DeleteAll => Ok(Call::DeleteAll(None)),
        Route::Find => {
            let (after, pattern) = read_find(memory, body)?;
            Ok(Call::List(after, Some(pattern)))
        }
        Route::HoldMatching => Ok(Call::HoldAll(Some(read_pattern(memory, body)?))),
        Route::ReleaseMatching => Ok(Call::ReleaseAll(Some(read_pattern(memory, body)?))),
        Route::DeleteMatching => Ok(Call::DeleteAll(Some(read_pattern(memory, body)?))),
        Route::Lines => Ok(Call::Lines(None)),
        Route::LinesAfter => Ok(Call::Lines(Some(read_pattern(memory, body)?))),
        Route::PutLine => Ok(Call::PutLine(read_line(memory, body)?)),
        Route::DropLine => Ok(Call::DropLine(read_pattern(memory, body)?)),
        Route::Check => {
            let (class, who) = read_check(memory, body)?;
            Ok(Call::Check(class, who))
        }
        Route::Import => {
            let (label, file) = read_import(memory, body)?;
            Ok(Call::Import(label, file))
        }
        Route::Notices => Ok(Call::Notices(None)),
        Route::NoticesAfter => Ok(Call::Notices(Some(number_of(segment)?))),
        Route::Notice => Ok(Call::Notice(number_of(segment)?)),
        Route::History => Ok(Call::History(None)),
        Route::HistoryBefore => Ok(Call::History(Some(number_of(segment)?))),
        Route::FindHistory => {
            let (pattern, before) = read_search(memory, body)?;
            Ok(Call::FindHistory(pattern, before))
        }
        Route::Usage => Ok(Call::Usage),
        Route::Limits => Ok(Call::Limits),
        Route::Report => Ok(Call::Report(None)),
        Route::Submit => Ok(Call::Submit(read_submission(memory, body)?)),
        Route::Admit => Ok(Call::Admit(read_envelope(memory, body)?)),
        Route::Outcome => Ok(Call::Outcome(read_report(memory, body)?)),
        Route::Due => Ok(Call::Due(read_message_after(memory, body)?)),
        Route::Sweep => Ok(Call::Sweep),
        Route::MessagesByBody => Ok(Call::List(read_message_after(memory, body)?, None)),
        Route::ShowByBody => Ok(Call::Show(read_message_id(memory, body)?)),
        Route::NoticesByBody => Ok(Call::Notices(read_notice_after(memory, body)?)),
        Route::NoticeByBody => Ok(Call::Notice(read_notice_number(memory, body)?)),
        Route::HistoryByBody => Ok(Call::History(read_history_before(memory, body)?)),
    }
}

/// The key that was shown.
pub(crate) fn key_of(exchange: &Exchange) -> Option<&str>
    ensures { option_map (λ k. k.now) result ≡ option_map string_bytes exchange.now.key }
{
    match &exchange.key {
        None => None,
        Some(key) => Some(key.as_str()),
    }
}

/// The call of one customer that is asked for: refused as 2 `NoKey`, 3 `WrongRole`, 13
/// `NoCustomer`, then as 3 where the key has no right to the route, and then as the parameter and
/// the body are.
fn asked_of_one<'d, M: JsonMemory>(
    memory: M,
    directory: &'d Directory,
    role: Role,
    route: Route,
    exchange: &Exchange,
) -> Result<Asking<'d>, Fail>
    ensures call { ReadsIn M.refused (seen_by calls.asked_seen result)
        (calls.asked_of_one directory.now role route (option_map string_bytes exchange.now.key)
        (last_segment (string_bytes exchange.now.path)) exchange.now.body.items) }
    ensures known { IfOk result (calls.IsKnown directory.now) }
    ensures caller { IfOk result (IsHeldBy directory.now role
        (option_map string_bytes exchange.now.key)
        (last_segment (string_bytes exchange.now.path))) }
{
    let segment = last_segment(exchange.path.as_str());
    let holder = directory.holder(role, key_of(exchange), segment)?;
    if !allows(holder.right, route) {
        return Err(Fail::Refused(Refusal::WrongRole));
    }
    let call = asked_of(memory, route, segment, exchange.body.as_slice())?;
    Ok(Asking::CallOf(holder.caller, call))
}

/// What a route asks of every customer: else 4 `NoRoute`.
fn asked_of_each(route: Route) -> Result<EachCall, Refusal>
    ensures { seen_by each_call result ≡ calls.asked_of_each route }
{
    match route {
        Route::Sweep => Ok(EachCall::Sweep),
        Route::Usage => Ok(EachCall::Usage),
        Route::Due => Ok(EachCall::Due),
        _ => Err(Refusal::NoRoute),
    }
}

/// Whom a route asks: every customer, whatever the body is; or a hundred, by the body, which is
/// else refused as 7 `BadJson` or 8 `BadField`, and then as 13 `NoCustomer`.
fn whom_in<'d, M: JsonMemory>(
    memory: M,
    directory: &'d Directory,
    role: Role,
    body: &[u8],
) -> Result<Span<'d>, Fail>
    ensures { ReadsIn M.refused (seen_by whom_seen result)
        (calls.whom_in directory.now role body.now) }
{
    if !matches!(role, Role::RelayFrom) {
        return Ok(Span::Everyone);
    }
    match read_from(memory, body)? {
        None => Ok(Span::From(None)),
        Some(name) => Ok(Span::From(Some(directory.named(name.as_str())?))),
    }
}

/// The call of all customers that is asked for: refused as 2 `NoKey` or 3 `WrongRole`, and then as
/// the body is.
fn asked_of_all<'d, M: JsonMemory>(
    memory: M,
    directory: &'d Directory,
    role: Role,
    route: Route,
    exchange: &Exchange,
) -> Result<Asking<'d>, Fail>
    ensures call { ReadsIn M.refused (seen_by calls.asked_seen result)
        (calls.asked_of_all directory.now role route (option_map string_bytes exchange.now.key)
        exchange.now.body.items) }
    ensures known { IfOk result (calls.IsKnown directory.now) }
    ensures caller { IfOk result (IsOfAll directory.now
        (option_map string_bytes exchange.now.key)) }
{
    directory.relay_alone(key_of(exchange))?;
    let each = asked_of_each(route)?;
    let span = whom_in(memory, directory, role, exchange.body.as_slice())?;
    Ok(Asking::CallOfAll(span, each))
}

/// What an exchange asks, or the first refusal in this order:
///
/// - 6 `BodyTooLong`, 4 `NoRoute`, 5 `WrongMethod`;
/// - 2 `NoKey`, and 3 `WrongRole` where the route takes the key of another;
/// - for one customer 13 `NoCustomer`; 3 where the key may only read and the route changes
///   something; then those of the parameter and the body;
/// - for a hundred of them those of the body, of which 13 is the last.
///
/// The caller of a call of one customer is whom the exchange is of.
#[tactic(auto, unfolding(crate::specs::Calls::call_from))]
pub fn call_of<'d, M: JsonMemory>(
    memory: M,
    directory: &'d Directory,
    exchange: &Exchange,
) -> Result<Asking<'d>, Fail>
    ensures call { ReadsIn M.refused (seen_by calls.asked_seen result)
        (calls.call_of directory.now exchange.now) }
    ensures known { IfOk result (calls.IsKnown directory.now) }
    ensures caller { IfOk result (calls.IsAskedBy directory.now exchange.now) }
{
    if exchange.body.len() > BODY_BYTES {
        return Err(Fail::Refused(Refusal::BodyTooLong));
    }
    let methods = directory
        .methods(exchange.path.as_str())
        .ok_or(Refusal::NoRoute)?;
    let (role, route) = methods
        .route(exchange.method.as_str())
        .ok_or(Refusal::WrongMethod)?;
    match role {
        Role::RelayForAll | Role::RelayFrom => {
            asked_of_all(memory, directory, role, route, exchange)
        }
        Role::Customer | Role::Relay => asked_of_one(memory, directory, role, route, exchange),
    }
}
