//! The bodies of the relay's calls that read: from where on a list goes, or what is shown.

ghost use Rattle.std.specs.Prelude.{◌≡◌, option_map, string_bytes};
ghost use Rattle.serde_json.specs.View.{view};
ghost use Rattle.hq_values.specs.Readers.{ReadsIn, seen_by};
ghost use Rattle.hq_values.specs.declared.failure.Refusal.TheVariants.{BadField};
ghost use Rattle.hq_bodies.specs.Queries as queries;

use crate::json_memory::JsonMemory;
use crate::reading::{has_only_members, json_value, number_member, text_member};
use hq_values::{Fail, Refusal, Serial};
use serde_json::Value;

/// The greatest number of a notice that a call names: 13 digits.
const LAST_NOTICE: u64 = 9_999_999_999_999;

/// The value of a body that has this member and no other: else 7 `BadJson` or 8 `BadField`.
#[tactic(auto, unfolding(crate::specs::Queries::value_with))]
fn value_with<M: JsonMemory>(memory: M, name: &str, body: &[u8]) -> Result<Value, Fail>
    ensures { ReadsIn M.refused (seen_by view result) (queries.value_with name.now body.now) }
{
    let value = json_value(memory, body)?;
    if !has_only_members(&value, &[name]) {
        return Err(Fail::Refused(Refusal::BadField));
    }
    Ok(value)
}

/// Whether a member is there, and null.
fn is_null_member(value: &Value, name: &str) -> bool
    ensures { result ≡ queries.is_null_at name.now (view value.now) }
{
    matches!(value.get(name), Some(Value::Null))
}

/// A member that is a queue ID, or 8 `BadField`.
fn id_member(value: &Value, name: &str) -> Result<Serial, Refusal>
    ensures { result ≡ queries.id_at name.now (view value.now) }
{
    text_member(value, name)
        .and_then(Serial::parse)
        .ok_or(Refusal::BadField)
}

/// A member that is the number of a notice, or 8 `BadField`.
fn notice_member(value: &Value, name: &str) -> Result<u64, Refusal>
    ensures { result ≡ queries.notice_at name.now (view value.now) }
{
    number_member(value, name, 1, LAST_NOTICE).ok_or(Refusal::BadField)
}

/// The member `after`: a queue ID, or null for the start; or 8 `BadField`.
pub(crate) fn message_after(value: &Value) -> Result<Option<Serial>, Refusal>
    ensures { result ≡ queries.after_in queries.id_at (view value.now) }
{
    if is_null_member(value, "after") {
        return Ok(None);
    }
    Ok(Some(id_member(value, "after")?))
}

/// The member `before`: none where it is null, else a number, or 8 `BadField`.
pub(crate) fn before_member(value: &Value) -> Result<Option<u64>, Refusal>
    ensures { result ≡ queries.before_at (view value.now) }
{
    if is_null_member(value, "before") {
        return Ok(None);
    }
    Ok(Some(notice_member(value, "before")?))
}

/// Reads a body that asks for the messages after one, or from the start: 7 `BadJson` where it is
/// not JSON, 8 `BadField` where it is not an object of the member `after` alone, or that is neither
/// a queue ID nor null.
#[tactic(auto, unfolding(crate::specs::Queries::read_message_after))]
pub fn read_message_after<M: JsonMemory>(memory: M, body: &[u8]) -> Result<Option<Serial>, Fail>
    ensures { ReadsIn M.refused result (queries.read_message_after body.now) }
{
    let value = value_with(memory, "after", body)?;
    Ok(message_after(&value)?)
}

/// Reads a body that tells at which customer to begin, or at the first: 7 `BadJson` where it is not
/// JSON, 8 `BadField` where it is not an object of the member `from` alone, or that is neither a
/// text nor null.
#[tactic(auto, unfolding(crate::specs::Queries::read_from))]
pub fn read_from<M: JsonMemory>(memory: M, body: &[u8]) -> Result<Option<String>, Fail>
    ensures { ReadsIn M.refused (seen_by (option_map string_bytes) result)
        (queries.read_from body.now) }
{
    let value = value_with(memory, "from", body)?;
    if is_null_member(&value, "from") {
        return Ok(None);
    }
    let name = text_member(&value, "from").ok_or(Refusal::BadField)?;
    Ok(Some(memory.text(name)?))
}

/// Reads a body that names a message: 7 `BadJson` where it is not JSON, 8 `BadField` where it is
/// not an object of the member `id` alone, or that is no queue ID.
#[tactic(auto, unfolding(crate::specs::Queries::read_message_id))]
pub fn read_message_id<M: JsonMemory>(memory: M, body: &[u8]) -> Result<Serial, Fail>
    ensures { ReadsIn M.refused result (queries.read_message_id body.now) }
{
    let value = value_with(memory, "id", body)?;
    Ok(id_member(&value, "id")?)
}

/// Reads a body that asks for the notices after a number, or from the start: 7 `BadJson` where it
/// is not JSON, 8 `BadField` where it is not an object of the member `after` alone, or that is
/// neither a number of 1 to 9,999,999,999,999 nor null.
#[tactic(auto, unfolding(crate::specs::Queries::read_notice_after))]
pub fn read_notice_after<M: JsonMemory>(memory: M, body: &[u8]) -> Result<Option<u64>, Fail>
    ensures { ReadsIn M.refused result (queries.read_notice_after body.now) }
{
    let value = value_with(memory, "after", body)?;
    if is_null_member(&value, "after") {
        return Ok(None);
    }
    Ok(Some(notice_member(&value, "after")?))
}

/// Reads a body that asks for the ends of a history before a number, or the newest: 7 `BadJson`
/// where it is not JSON, 8 `BadField` where it is not an object of the member `before` alone, or
/// that is neither a number of 1 to 9,999,999,999,999 nor null.
#[tactic(auto, unfolding(crate::specs::Queries::read_history_before))]
pub fn read_history_before<M: JsonMemory>(memory: M, body: &[u8]) -> Result<Option<u64>, Fail>
    ensures { ReadsIn M.refused result (queries.read_history_before body.now) }
{
    let value = value_with(memory, "before", body)?;
    Ok(before_member(&value)?)
}

/// Reads a body that names a notice: 7 `BadJson` where it is not JSON, 8 `BadField` where it is not
/// an object of the member `number` alone, or that is not one of 1 to 9,999,999,999,999.
#[tactic(auto, unfolding(crate::specs::Queries::read_notice_number))]
pub fn read_notice_number<M: JsonMemory>(memory: M, body: &[u8]) -> Result<u64, Fail>
    ensures { ReadsIn M.refused result (queries.read_notice_number body.now) }
{
    let value = value_with(memory, "number", body)?;
    Ok(notice_member(&value, "number")?)
}
