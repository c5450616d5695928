//! The bodies that speak of lines of an access table.

ghost use Rattle.std.specs.Prelude.{◌≡◌};
ghost use Rattle.serde_json.specs.View.{view};
ghost use Rattle.hq_memory.specs.Making.{MadeIn};
ghost use Rattle.hq_values.specs.Readers.{ReadsIn};
ghost use Rattle.hq_values.specs.declared.failure.Refusal.TheVariants.{BadField};
ghost use Rattle.hq_bodies.specs.Tables.{class_at, party_in, read_pattern, read_line};
ghost use Rattle.hq_bodies.specs.Tables.{read_check, read_find, read_import};
ghost use Rattle.hq_bodies.specs.Tables.{read_search};

use crate::json_memory::JsonMemory;
use crate::queries::{before_member, message_after};
use crate::reading::{has_only_members, json_value, text_member};
use hq_kept::{Action, Class, Line, Pattern};
use hq_memory::Memory;
use hq_values::{Address, Fail, Items, Label, Refusal, Sender, Serial};
use serde_json::Value;
use std::alloc::AllocError;

/// The member `class`, where it names one.
fn class_member(value: &Value) -> Option<Class>
    ensures { result ≡ class_at (view value.now) }
{
    text_member(value, "class").and_then(Class::named)
}

/// Who an address is, on one side of a message; or 20 `BadAddress`.
fn party<M: Memory>(memory: M, class: Class, text: &str) -> Result<Sender, Fail>
    ensures { ReadsIn M.refused result (party_in class text.now) }
{
    match class {
        Class::SenderSide => Sender::parse(memory, text),
        Class::RecipientSide => Ok(Sender::From(Address::parse(memory, text)?)),
    }
}

/// Reads a body that names a line: 7 `BadJson` where it is not JSON, 8 `BadField` where a member is
/// missing, unknown or of the wrong kind, or the class is none, then 24 for the pattern.
#[tactic(auto, unfolding(crate::specs::Tables::read_pattern))]
pub fn read_pattern<M: JsonMemory>(memory: M, body: &[u8]) -> Result<Pattern, Fail>
    ensures { ReadsIn M.refused result (read_pattern body.now) }
{
    let value = json_value(memory, body)?;
    if !has_only_members(&value, &["class", "pattern"]) {
        return Err(Fail::Refused(Refusal::BadField));
    }
    let class = class_member(&value).ok_or(Refusal::BadField)?;
    let pattern = text_member(&value, "pattern").ok_or(Refusal::BadField)?;
    Pattern::parse(memory, class, pattern)
}

/// Reads a body that asks for messages that a pattern is for, after one or from the start: 7
/// `BadJson` where it is not JSON, 8 `BadField` where a member is missing, unknown or of the wrong
/// kind, or the class is none, or `after` is neither a queue ID nor null; then 24 for the pattern.
#[tactic(auto, unfolding(crate::specs::Tables::read_find))]
pub fn read_find<M: JsonMemory>(memory: M, body: &[u8]) -> Result<(Option<Serial>, Pattern), Fail>
    ensures { ReadsIn M.refused result (read_find body.now) }
{
    let value = json_value(memory, body)?;
    if !has_only_members(&value, &["class", "pattern", "after"]) {
        return Err(Fail::Refused(Refusal::BadField));
    }
    let class = class_member(&value).ok_or(Refusal::BadField)?;
    let pattern = text_member(&value, "pattern").ok_or(Refusal::BadField)?;
    let after = message_after(&value)?;
    let which = Pattern::parse(memory, class, pattern)?;
    Ok((after, which))
}

/// Reads a body that asks for a search in the history: 7 and 8 as for a pattern, then 24 for the
/// pattern.
#[tactic(auto, unfolding(crate::specs::Tables::read_search))]
pub fn read_search<M: JsonMemory>(memory: M, body: &[u8]) -> Result<(Pattern, Option<u64>), Fail>
    ensures { ReadsIn M.refused result (read_search body.now) }
{
    let value = json_value(memory, body)?;
    if !has_only_members(&value, &["class", "pattern", "before"]) {
        return Err(Fail::Refused(Refusal::BadField));
    }
    let class = class_member(&value).ok_or(Refusal::BadField)?;
    let pattern = text_member(&value, "pattern").ok_or(Refusal::BadField)?;
    let before = before_member(&value)?;
    let key = Pattern::parse(memory, class, pattern)?;
    Ok((key, before))
}

/// Reads a body that sets a line: 7 and 8 as for a pattern, then 24 for the pattern and 25 for the
/// action.
#[tactic(auto, unfolding(crate::specs::Tables::read_line))]
pub fn read_line<M: JsonMemory>(memory: M, body: &[u8]) -> Result<Line, Fail>
    ensures { ReadsIn M.refused result (read_line body.now) }
{
    let value = json_value(memory, body)?;
    if !has_only_members(&value, &["class", "pattern", "action"]) {
        return Err(Fail::Refused(Refusal::BadField));
    }
    let class = class_member(&value).ok_or(Refusal::BadField)?;
    let pattern = text_member(&value, "pattern").ok_or(Refusal::BadField)?;
    let action = text_member(&value, "action").ok_or(Refusal::BadField)?;
    let pattern = Pattern::parse(memory, class, pattern)?;
    let action = Action::parse(memory, action)?;
    Ok(Line { pattern, action })
}

/// Reads a body that asks for a lookup: 7 and 8 as for a pattern, then 20 for the address. The
/// empty text is the null sender, on the side of senders alone.
#[tactic(auto, unfolding(crate::specs::Tables::read_check))]
pub fn read_check<M: JsonMemory>(memory: M, body: &[u8]) -> Result<(Class, Sender), Fail>
    ensures { ReadsIn M.refused result (read_check body.now) }
{
    let value = json_value(memory, body)?;
    if !has_only_members(&value, &["class", "address"]) {
        return Err(Fail::Refused(Refusal::BadField));
    }
    let class = class_member(&value).ok_or(Refusal::BadField)?;
    let address = text_member(&value, "address").ok_or(Refusal::BadField)?;
    let who = party(memory, class, address)?;
    Ok((class, who))
}

/// The bytes of a text on their own.
fn bytes_of<M: Memory>(memory: M, text: &str) -> Result<Items<u8>, AllocError>
    ensures { MadeIn M.refused result (λ bytes. bytes ≡ text.now) }
{
    let text = memory.text(text)?;
    Ok(Items::from_vec(text.into_bytes()))
}

/// Reads a body that brings a file of lines: 7 and 8 as for a pattern, then 27 for the label. What
/// the file holds is not looked at.
#[tactic(auto, unfolding(crate::specs::Tables::read_import))]
pub fn read_import<M: JsonMemory>(memory: M, body: &[u8]) -> Result<(Label, Items<u8>), Fail>
    ensures { ReadsIn M.refused result (read_import body.now) }
{
    let value = json_value(memory, body)?;
    if !has_only_members(&value, &["label", "csv"]) {
        return Err(Fail::Refused(Refusal::BadField));
    }
    let label = text_member(&value, "label").ok_or(Refusal::BadField)?;
    let file = text_member(&value, "csv").ok_or(Refusal::BadField)?;
    let label = Label::parse(memory, label)?;
    let file = bytes_of(memory, file)?;
    Ok((label, file))
}
