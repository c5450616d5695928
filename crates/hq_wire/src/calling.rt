//! The same call of all customers: each by a call of its own, and all told in one reply.

ghost use Rattle.std.specs.Prelude.{◌≡◌, Ok, None, drop};
ghost use Rattle.hq_memory.specs.Making.{MadeIn};
ghost use Rattle.hq_rules.specs.Each.{each_call};
ghost use Rattle.hq_requests.specs.Calls.{CallOfAll};
ghost use Rattle.hq_requests.specs.Named.{whose_told};
ghost use Rattle.hq_requests.specs.Spans.{whom_seen};
ghost use Rattle.hq_json.specs.PartRoom.{AreNumbers, TellsNumbers, is_for, part_room};
ghost use Rattle.hq_json.specs.Parts.{part_text};
ghost use Rattle.hq_wire.specs.Exchanges.{Exchanged, with_refusals};
ghost use Rattle.hq_wire.specs.Replies.{SeenReply, IsSent};

use crate::faults::fault_reply;
use crate::parted::{add_part, all_done, room_for, stopped};
use hq_bodies::JsonMemory;
use hq_json::answer_bytes;
use hq_memory::Memory;
use hq_requests::{Directory, Reply, Span, asked_in};
use hq_rules::{Acts, Answer, EachCall, Render};
use hq_values::{Fault, Moment, Name, Refusal};
use std::alloc::AllocError;

/// The room that is taken first for a part: that of the longest, with a comma. A name has 32 bytes
/// at most, and each count 20 digits, of which a sweep tells three and a usage nine. A page of
/// messages has no such bound, and takes its room when it is there.
fn part_room(each: EachCall) -> usize
    ensures { result ≡ part_room each }
{
    match each {
        EachCall::Sweep => 140,
        EachCall::Usage => 326,
        EachCall::Due => 0,
    }
}

/// All but the first byte.
pub(crate) fn behind_first(text: &[u8]) -> &[u8]
    ensures { result.now ≡ drop 1 text.now }
{
    match text {
        [] => text,
        [_, rest @ ..] => rest,
    }
}

/// The text of an answer, an object, with the customer before its other members.
fn part_bytes<M: Memory>(
    memory: M,
    room: usize,
    name: &[u8],
    answer: &Answer,
) -> Result<Vec<u8>, AllocError>
    ensures { MadeIn M.refused result (λ bytes. bytes.items ≡ part_text name.now answer.now) }
{
    let object = answer_bytes(memory, answer)?;
    let mut bytes = memory.room(room)?;
    memory.extend(&mut bytes, b"{\"customer\":\"")?;
    memory.extend(&mut bytes, name)?;
    memory.extend(&mut bytes, b"\",")?;
    memory.extend(&mut bytes, behind_first(object.as_slice()))?;
    Ok(bytes)
}

/// Three numbers of 64 bits are below 2^64.
fn are_numbers(_one: u64, _two: u64, _three: u64)
    ensures { AreNumbers _one _two _three }
{}

/// The numbers that an answer to a call of all tells are those of its type.
fn tells_numbers(answer: &Answer)
    ensures { TellsNumbers answer.now }
{
    match answer {
        Answer::Swept(counts) => are_numbers(counts.expired, counts.notices, counts.warned),
        Answer::Used(usage) => {
            are_numbers(
                usage.tally.accepted,
                usage.tally.delivered,
                usage.tally.failed,
            );
            are_numbers(usage.tally.deleted, usage.tally.expired, usage.pending);
            are_numbers(
                usage.counts.messages,
                usage.counts.bytes,
                usage.counts.lines,
            );
        }
        _ => {}
    }
}

/// Whether an answer can be a part of such a call.
fn is_for(each: EachCall, answer: &Answer) -> bool
    ensures { result ≡ is_for each answer.now }
{
    match (each, answer) {
        (EachCall::Sweep, Answer::Swept(_))
        | (EachCall::Sweep, Answer::Refused(Refusal::NoticesSpent))
        | (EachCall::Usage, Answer::Used(_))
        | (EachCall::Due, _) => true,
        _ => false,
    }
}

/// An answer as the part of a customer.
#[derive(Drop)]
struct PartText<'n> {
    name: &'n Name,
    each: EachCall,
}

impl Render for PartText<'_> {
    ghost use Rattle.std.specs.Prelude.{◌≡◌, true};
    ghost use Rattle.hq_json.specs.PartRoom.{HasRoom, is_for};
    ghost use Rattle.hq_json.specs.Parts.{IsObject, part_text};

    ghost text = { λ part answer. part_text part.name.now answer };

    ghost fits = { λ part answer bytes. HasRoom part.each bytes × IsObject bytes };

    ghost takes = { λ part answer. is_for part.each answer ≡ true };

    fn render<M: Memory>(&self, memory: M, answer: &Answer) -> Result<Vec<u8>, AllocError> {
        if !is_for(self.each, answer) {
            return Err(AllocError);
        }
        // Such an answer has room, since its numbers have 64 bits.
        tells_numbers(answer);
        let name = self.name.as_bytes();
        let bytes = part_bytes(memory, part_room(self.each), name, answer)?;
        Ok(bytes)
    }
}

/// Calls for every customer that is asked, in the order of the directory, and stops at the first
/// fault. A customer's part may be a refusal.
///
/// A sweep and a usage take room for the longest reply first; where it is refused, nothing is done.
/// Each part is written before its customer's changes are made, and added without taking memory. A
/// call for what is due, which changes nothing, takes room for each part as it comes; where that is
/// refused, it stops at the part's customer.
pub(crate) fn call_all<D: Acts, M: JsonMemory>(
    memory: M,
    desk: &mut D,
    directory: &Directory,
    at: Moment,
    span: Span<'_>,
    each: EachCall,
) -> Reply<'static>
    ensures done { (r : SeenReply) × IsSent result r
        × Exchanged (with_refusals M.refused D.sight) directory.now desk.old
        (record { at = at; called = Ok (CallOfAll (whom_seen span.entry) (each_call each)) }) r
        desk.new }
    ensures whose { whose_told result ≡ None }
{
    let (customers, unasked) = asked_in(directory, span);
    let room = part_room(each);
    let Some(mut body) = room_for(memory, customers.len(), room) else {
        return fault_reply(None, Fault::WantOfMemory);
    };
    let mut is_first = true;
    for customer in customers {
        let name = &customer.entry.name;
        let part = PartText { name, each };
        match desk.act(memory, at, &customer.entry, each.call(), &part) {
            Ok(rendered) => {
                let part = rendered.bytes.as_slice();
                let Ok(()) = add_part(memory, &mut body, is_first, part) else {
                    return stopped(body, span, name, Fault::WantOfMemory);
                };
            }
            Err(fault) => return stopped(body, span, name, fault),
        }
        is_first = false;
    }
    all_done(body, span, unasked)
}
