//! The members of a JSON body.

ghost use Rattle.std.specs.Prelude.{◌≡◌, bytes_eq, option_map};
ghost use Rattle.std.specs.Prelude.{map as map_list};
ghost use Rattle.std.specs.List.{list_any};
ghost use Rattle.serde_json.specs.Find.{as_object};
ghost use Rattle.serde_json.specs.View.{view, members_view, items_view};
ghost use Rattle.hq_values.specs.declared.failure.Refusal.TheVariants.{BadJson, BadField};
ghost use Rattle.hq_values.specs.Readers.{ReadsIn, seen_by, or_refuse};
ghost use Rattle.hq_bodies.specs.Reading.{json_of, has_only, has_only_members, text_at, number_at};
ghost use Rattle.hq_bodies.specs.Reading.{texts_of, texts_at};

use crate::json_memory::JsonMemory;
use hq_memory::Memory;
use hq_values::{Fail, Refusal};
use serde_json::{Map, Value};

/// The JSON value of a body, or 7 `BadJson`.
pub fn json_value<M: JsonMemory>(memory: M, bytes: &[u8]) -> Result<Value, Fail>
    ensures { ReadsIn M.refused (seen_by view result) (or_refuse BadJson (json_of bytes.now)) }
{
    let value = memory.json(bytes)?.ok_or(Refusal::BadJson)?;
    Ok(value)
}

/// A member that is a text.
pub fn text_member<'v>(value: &'v Value, name: &str) -> Option<&'v str>
    ensures { option_map (λ s. s.now) result ≡ text_at name.now (view value.now) }
{
    match value.get(name) {
        Some(member) => member.as_str(),
        None => None,
    }
}

/// A member that is a number of digits alone, from `low` to `high`.
pub fn number_member(value: &Value, name: &str, low: u64, high: u64) -> Option<u64>
    ensures { result ≡ number_at name.now low high (view value.now) }
{
    match value.get(name).and_then(Value::as_u64) {
        Some(number) if low <= number && number <= high => Some(number),
        _ => None,
    }
}

fn is_known(name: &str, names: &[&str]) -> bool
    ensures { result ≡ list_any (bytes_eq name.now) (map_list (λ n. n.now) names.now) }
{
    for known in names {
        if name == *known {
            return true;
        }
    }
    false
}

/// Whether each member has one of these names.
pub fn has_only(map: &Map<String, Value>, names: &[&str]) -> bool
    ensures { result ≡ has_only (map_list (λ n. n.now) names.now) (members_view map.now.entries) }
{
    for (key, _) in map.iter() {
        if !is_known(key.as_str(), names) {
            return false;
        }
    }
    true
}

/// Whether a value is an object whose members have these names alone.
pub(crate) fn has_only_members(value: &Value, names: &[&str]) -> bool
    ensures { result ≡ has_only_members (map_list (λ n. n.now) names.now)
        (as_object (view value.now)) }
{
    match value.as_object() {
        Some(map) => has_only(map, names),
        None => false,
    }
}

fn texts<M: Memory>(memory: M, values: &[Value]) -> Result<Vec<&str>, Fail>
    ensures { ReadsIn M.refused (seen_by (λ v. map_list (λ text. text.now) v.items) result)
        (or_refuse BadField (texts_of (items_view values.now))) }
{
    let mut found = memory.none();
    for value in values {
        let Some(text) = value.as_str() else {
            return Err(Fail::Refused(Refusal::BadField));
        };
        memory.push(&mut found, text)?;
    }
    Ok(found)
}

/// A member that is a list of texts, or 8 `BadField`; the texts are lent.
pub fn texts_member<'v, M: Memory>(
    memory: M,
    value: &'v Value,
    name: &str,
) -> Result<Vec<&'v str>, Fail>
    ensures { ReadsIn M.refused (seen_by (λ v. map_list (λ text. text.now) v.items) result)
        (or_refuse BadField (texts_at name.now (view value.now))) }
{
    match value.get(name).and_then(Value::as_array) {
        Some(list) => texts(memory, list),
        None => Err(Fail::Refused(Refusal::BadField)),
    }
}
