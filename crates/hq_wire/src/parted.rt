//! The body of the reply to a call of all, as it is written.

ghost use Rattle.std.specs.Prelude.{◌≡◌, ◌+◌, ◌*◌, ◌≤◌, ◌<◌, ◌++◌, Some, None, codes, drop, length};
ghost use Rattle.std.specs.Prelude.{map, option_map, vec_len, vec_capacity, IfSome, OnOk, OnErr};
ghost use Rattle.hq_requests.specs.Bodies.{body_bytes};
ghost use Rattle.hq_requests.specs.Directories.{name_of};
ghost use Rattle.hq_requests.specs.Named.{whose_told};
ghost use Rattle.hq_requests.specs.Spans.{whom_seen};
ghost use Rattle.hq_wire.specs.Exchanges.{first_named, next_shown};
ghost use Rattle.hq_wire.specs.Replies.{closing, fault_text, next_text, parts_opening, separated};
ghost use Rattle.hq_wire.specs.Replies.{stopped_text};

use crate::calling::behind_first;
use crate::faults::fault_text;
use hq_kept::Customer;
use hq_memory::Memory;
use hq_requests::{Body, Reply, Span};
use hq_values::{Fault, Name};
use std::alloc::AllocError;

/// Room for what stands before the parts and behind them.
const OTHER_ROOM: usize = 144;

/// Room for the longest that stands behind the parts.
const CLOSING_ROOM: usize = 135;

/// What stands before the parts.
const OPENING: &[u8] = b"{\"done\":[";

/// What tells a fault, behind the brace.
fn fault_members(fault: Fault) -> &'static [u8]
    ensures same { result.now ≡ drop 1 (fault_text fault) }
    ensures short { length result.now ≤ 33 }
{
    behind_first(fault_text(fault).as_bytes())
}

/// Adds bytes for which there is room.
fn put(body: &mut Vec<u8>, bytes: &[u8])
    requires { vec_len body.old + length bytes.now ≤ vec_capacity body.old }
    ensures items { body.new.items ≡ body.old.items ++ bytes.now }
    ensures len { vec_len body.new ≡ vec_len body.old + length bytes.now }
    ensures room { vec_capacity body.old ≤ vec_capacity body.new }
{
    let Ok(()) = body.extend_from_slice(bytes) else {
        unreachable!();
    };
}

/// Room for the longest reply about so many customers, with what stands before the parts.
pub(crate) fn room_for<M: Memory>(memory: M, customers: usize, part: usize) -> Option<Vec<u8>>
    requires { customers * part + 144 ≤ usize.MAX }
    ensures opened { IfSome result (λ body. body.items ≡ parts_opening) }
    ensures room { IfSome result (λ body. vec_len body + (customers * part + 135)
        ≤ vec_capacity body) }
    ensures cause { result ≡ None → M.refused }
{
    let Ok(mut body) = memory.room(customers * part + OTHER_ROOM) else {
        return None;
    };
    put(&mut body, OPENING);
    Some(body)
}

/// Adds a part, behind a comma unless it is the first.
fn put_part(body: &mut Vec<u8>, is_first: bool, part: &[u8])
    requires { vec_len body.old + (1 + length part.now) ≤ vec_capacity body.old }
    ensures items { body.new.items ≡ body.old.items ++ separated is_first part.now }
    ensures len { vec_len body.new ≤ vec_len body.old + (1 + length part.now) }
    ensures room { vec_capacity body.old ≤ vec_capacity body.new }
{
    if !is_first {
        put(body, b",");
    }
    put(body, part);
}

/// Has a body take so many bytes more. Where it has no room, it moves to twice its length, so that
/// one which grows moves seldom; where the memory refuses, it stays as it is.
fn make_room<M: Memory>(memory: M, body: &mut Vec<u8>, more: usize) -> Result<(), AllocError>
    ensures items { body.new.items ≡ body.old.items }
    ensures len { vec_len body.new ≡ vec_len body.old }
    ensures room { OnOk result (vec_len body.new + more ≤ vec_capacity body.new) }
    ensures capacity { vec_capacity body.old ≤ vec_capacity body.new }
    ensures cause { OnErr result (M.refused × (vec_capacity body.old < vec_len body.old + more)) }
{
    let len = body.len();
    if more <= body.capacity() - len {
        return Ok(());
    }
    let mut longer = memory.room((2 * len).saturating_add(more))?;
    put(&mut longer, body.as_slice());
    *body = longer;
    Ok(())
}

/// Adds a part, behind a comma unless it is the first, and leaves room for what stands behind all
/// of them. It asks the memory only where the body has no room for both; where that is refused,
/// the body stays as it is.
pub(crate) fn add_part<M: Memory>(
    memory: M,
    body: &mut Vec<u8>,
    is_first: bool,
    part: &[u8],
) -> Result<(), AllocError>
    requires { vec_len body.old + 135 ≤ vec_capacity body.old }
    ensures added { OnOk result (body.new.items ≡ body.old.items ++ separated is_first part.now) }
    ensures len { vec_len body.new ≤ vec_len body.old + (1 + length part.now) }
    ensures capacity { vec_capacity body.old ≤ vec_capacity body.new }
    ensures room { vec_len body.new + 135 ≤ vec_capacity body.new }
    ensures kept { OnErr result (body.new.items ≡ body.old.items) }
    ensures cause { OnErr result (M.refused × (vec_capacity body.old
        < vec_len body.old + (1 + length part.now + 135))) }
{
    make_room(memory, body, part.len().saturating_add(1 + CLOSING_ROOM))?;
    put_part(body, is_first, part);
    Ok(())
}

/// The first customer that has no part, as a reply tells it: where not everyone was asked.
fn next_of<'d>(span: Span<'_>, next: Option<&'d Name>) -> Option<Option<&'d Name>>
    ensures { option_map (option_map (λ n. n.now)) result
        ≡ next_shown (whom_seen span.entry) (option_map (λ n. n.now) next.entry) }
{
    match span {
        Span::Everyone => None,
        Span::From(_) => Some(next),
    }
}

/// The name of the first of these.
fn first_named(customers: &[Customer]) -> Option<&Name>
    ensures { option_map (λ n. n.now) result ≡ first_named (map name_of customers.now) }
{
    match customers {
        [] => None,
        [first, ..] => Some(&first.entry.name),
    }
}

/// Adds the end of the parts, and the name of the first customer that has none.
fn put_next_name(body: &mut Vec<u8>, name: &Name)
    requires { vec_len body.old + 54 ≤ vec_capacity body.old }
    ensures items { body.new.items ≡ body.old.items ++ (codes "]"
        ++ next_text (Some (Some name.now)) ++ codes ",\"stopped\":") }
    ensures len { vec_len body.new ≤ vec_len body.old + 54 }
    ensures room { vec_capacity body.old ≤ vec_capacity body.new }
{
    put(body, b"],\"next\":\"");
    put(body, name.as_bytes());
    put(body, b"\",\"stopped\":");
}

/// Adds what stands between the parts and what is told of a stop: the first customer that has no
/// part, where that is told.
fn put_next(body: &mut Vec<u8>, next: Option<Option<&Name>>)
    requires { vec_len body.old + 54 ≤ vec_capacity body.old }
    ensures items { body.new.items ≡ body.old.items ++ (codes "]"
        ++ next_text (option_map (option_map (λ n. n.now)) next.entry) ++ codes ",\"stopped\":") }
    ensures len { vec_len body.new ≤ vec_len body.old + 54 }
    ensures room { vec_capacity body.old ≤ vec_capacity body.new }
{
    match next {
        None => put(body, b"],\"stopped\":"),
        Some(None) => put(body, b"],\"next\":null,\"stopped\":"),
        Some(Some(name)) => put_next_name(body, name),
    }
}

/// Adds what stands behind the parts where all that are asked are done.
fn put_all_done(body: &mut Vec<u8>, next: Option<Option<&Name>>)
    requires { vec_len body.old + 135 ≤ vec_capacity body.old }
    ensures { body.new.items ≡ body.old.items
        ++ closing (option_map (option_map (λ n. n.now)) next.entry) None }
{
    put_next(body, next);
    put(body, b"null}");
}

/// Adds what tells of a stop at a customer.
fn put_stop_at(body: &mut Vec<u8>, name: &Name, fault: Fault)
    requires { vec_len body.old + 81 ≤ vec_capacity body.old }
    ensures { body.new.items ≡ body.old.items ++ (stopped_text
        (Some (record { customer = name.now; fault = fault })) ++ codes "}") }
{
    put(body, b"{\"customer\":\"");
    put(body, name.as_bytes());
    put(body, b"\",");
    put(body, fault_members(fault));
    put(body, b"}");
}

/// Adds what stands behind the parts where a fault stopped it at a customer.
fn put_stop(body: &mut Vec<u8>, next: Option<Option<&Name>>, name: &Name, fault: Fault)
    requires { vec_len body.old + 135 ≤ vec_capacity body.old }
    ensures { body.new.items ≡ body.old.items
        ++ closing (option_map (option_map (λ n. n.now)) next.entry)
        (Some (record { customer = name.now; fault = fault })) }
{
    put_next(body, next);
    put_stop_at(body, name, fault);
}

/// The reply of these bytes, which is of no one customer.
fn parted(body: Vec<u8>) -> Reply<'static>
    ensures status { result.status ≡ 200 }
    ensures body { body_bytes result.body ≡ body.items }
    ensures whose { whose_told result ≡ None }
{
    Reply {
        status: 200,
        number: 0,
        caller: None,
        body: Body::Bytes(body),
    }
}

/// The reply with these parts, of a call that a fault stopped at a customer.
pub(crate) fn stopped(
    mut body: Vec<u8>,
    span: Span<'_>,
    name: &Name,
    fault: Fault,
) -> Reply<'static>
    requires { vec_len body + 135 ≤ vec_capacity body }
    ensures status { result.status ≡ 200 }
    ensures body { body_bytes result.body ≡ body.items
        ++ closing (next_shown (whom_seen span.entry) (Some name.now))
        (Some (record { customer = name.now; fault = fault })) }
    ensures whose { whose_told result ≡ None }
{
    put_stop(&mut body, next_of(span, Some(name)), name, fault);
    parted(body)
}

/// The reply with these parts, of a call that is done of all that are asked; of those behind them
/// it tells the first.
pub(crate) fn all_done(mut body: Vec<u8>, span: Span<'_>, unasked: &[Customer]) -> Reply<'static>
    requires { vec_len body + 135 ≤ vec_capacity body }
    ensures status { result.status ≡ 200 }
    ensures body { body_bytes result.body ≡ body.items
        ++ closing (next_shown (whom_seen span.entry) (first_named (map name_of unasked.now)))
        None }
    ensures whose { whose_told result ≡ None }
{
    put_all_done(&mut body, next_of(span, first_named(unasked)));
    parted(body)
}
