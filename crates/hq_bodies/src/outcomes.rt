//! The body of the report of an attempt: its members first, all of them, and then their values.

ghost use Rattle.std.specs.Prelude.{◌≡◌, Ok};
ghost use Rattle.serde_json.specs.View.{view, items_view};
ghost use Rattle.hq_values.specs.Readers.{ReadsIn, seen_by, or_refuse};
ghost use Rattle.hq_values.specs.declared.failure.Refusal.TheVariants.{BadField};
ghost use Rattle.hq_bodies.specs.Reading.{within, text_at};
ghost use Rattle.hq_bodies.specs.Outcomes as bodies;

use crate::json_memory::JsonMemory;
use crate::reading::{has_only_members, json_value, text_member};
use hq_kept::{Attempt, Delivery, Outcome, Status};
use hq_memory::Memory;
use hq_rules::AttemptReport;
use hq_values::{Address, Fail, Items, Refusal, Serial, Text};
use serde_json::Value;
use std::marker::Model;

/// The most outcomes of a report.
const MOST_OUTCOMES: usize = 100;

/// The class of a success (RFC 3463, 3.1).
const DONE: u8 = 2;

/// The class of a failure that may pass (RFC 3463, 3.1).
const MAY_PASS: u8 = 4;

/// The class of a failure for good.
const FOR_GOOD: u8 = 5;

/// A text, as it stands in the body.
#[derive(Drop)]
pub(crate) struct BodyText<'v> {
    text: &'v str,
}

impl<'v> Model for BodyText<'v> {
    ghost use Rattle.std.specs.Prelude.{List, ℕ};

    ghost Value = { List ℕ };

    ghost view = { λ w. w.text.now };
}

/// What the other side said of a recipient, as it stands in the body.
#[derive(Drop)]
pub(crate) struct ReasonTexts<'v> {
    status: BodyText<'v>,
    text: BodyText<'v>,
}

/// What became of a recipient, as it stands in the body.
#[derive(Drop)]
pub(crate) enum DeliveryTexts<'v> {
    /// With what was said, where both are texts.
    Delivered(Option<ReasonTexts<'v>>),
    Deferred(ReasonTexts<'v>),
    Failed(ReasonTexts<'v>),
}

/// An outcome, as it stands in the body.
#[derive(Drop)]
pub(crate) struct OutcomeTexts<'v> {
    recipient: BodyText<'v>,
    result: DeliveryTexts<'v>,
}

/// A report of which the outcomes are not yet read.
#[derive(Drop)]
pub(crate) struct AttemptTexts<'v> {
    serial: Serial,
    attempt: Attempt,
    outcomes: Items<OutcomeTexts<'v>>,
}

// ---- members

/// A member that is a text, or 8 `BadField`.
fn written<'v>(value: &'v Value, name: &str) -> Result<BodyText<'v>, Refusal>
    ensures { result ≡ or_refuse BadField (text_at name.now (view value.now)) }
{
    let text = text_member(value, name).ok_or(Refusal::BadField)?;
    Ok(BodyText { text })
}

/// The member `id`, where it is a queue ID.
fn serial_member(value: &Value) -> Option<Serial>
    ensures { result ≡ bodies.serial_at (view value.now) }
{
    text_member(value, "id").and_then(Serial::parse)
}

/// The attempt of a number.
fn attempt_of(number: u64) -> Option<Attempt>
    ensures { result ≡ within 1 1000000 number }
{
    match u32::try_from(number) {
        Ok(number) => Attempt::new(number),
        Err(_) => None,
    }
}

/// The member `attempt`, where it is the number of one.
fn attempt_member(value: &Value) -> Option<Attempt>
    ensures { result ≡ bodies.attempt_at (view value.now) }
{
    match value.get("attempt").and_then(Value::as_u64) {
        Some(number) => attempt_of(number),
        None => None,
    }
}

/// The members `status` and `text`.
#[tactic(auto, unfolding(crate::specs::Outcomes::reason_at))]
fn reason_member(value: &Value) -> Result<ReasonTexts<'_>, Refusal>
    ensures { result ≡ bodies.reason_at (view value.now) }
{
    let status = written(value, "status")?;
    let text = written(value, "text")?;
    Ok(ReasonTexts { status, text })
}

/// What became of a recipient, by its word.
#[tactic(auto, unfolding(crate::specs::Outcomes::delivery_at))]
fn delivery_member<'v>(word: &str, value: &'v Value) -> Result<DeliveryTexts<'v>, Refusal>
    ensures { result ≡ bodies.delivery_at word.now (view value.now) }
{
    match word {
        "delivered" => Ok(DeliveryTexts::Delivered(reason_member(value).ok())),
        "deferred" => Ok(DeliveryTexts::Deferred(reason_member(value)?)),
        "failed" => Ok(DeliveryTexts::Failed(reason_member(value)?)),
        _ => Err(Refusal::BadField),
    }
}

/// The members of an outcome.
#[tactic(auto, unfolding(crate::specs::Outcomes::outcome_texts))]
fn outcome_texts(value: &Value) -> Result<OutcomeTexts<'_>, Refusal>
    ensures { result ≡ bodies.outcome_texts (view value.now) }
{
    if !has_only_members(value, &["recipient", "result", "status", "text"]) {
        return Err(Refusal::BadField);
    }
    let recipient = written(value, "recipient")?;
    let word = text_member(value, "result").ok_or(Refusal::BadField)?;
    let result = delivery_member(word, value)?;
    Ok(OutcomeTexts { recipient, result })
}

/// The members of each outcome.
#[tactic(auto, unfolding(crate::specs::Outcomes::entries_of))]
fn entries_of<M: Memory>(memory: M, values: &[Value]) -> Result<Vec<OutcomeTexts<'_>>, Fail>
    ensures { ReadsIn M.refused (seen_by
        (λ v. v.items) result) (bodies.entries_of (items_view values.now)) }
{
    let mut entries = memory.none();
    for value in values {
        let entry = outcome_texts(value)?;
        memory.push(&mut entries, entry)?;
    }
    Ok(entries)
}

/// The member `outcomes`: at most 100.
#[tactic(auto, unfolding(crate::specs::Outcomes::entries_at))]
fn entries_member<M: Memory>(memory: M, value: &Value) -> Result<Items<OutcomeTexts<'_>>, Fail>
    ensures { ReadsIn M.refused result (bodies.entries_at (view value.now)) }
{
    let values = value
        .get("outcomes")
        .and_then(Value::as_array)
        .ok_or(Refusal::BadField)?;
    let entries = entries_of(memory, values)?;
    if entries.len() > MOST_OUTCOMES {
        return Err(Fail::Refused(Refusal::BadField));
    }
    Ok(Items::from_vec(entries))
}

/// The members of a report.
#[tactic(auto, unfolding(crate::specs::Outcomes::report_of))]
fn report_of<M: Memory>(memory: M, value: &Value) -> Result<AttemptTexts<'_>, Fail>
    ensures { ReadsIn M.refused result (bodies.report_of (view value.now)) }
{
    if !has_only_members(value, &["id", "attempt", "outcomes"]) {
        return Err(Fail::Refused(Refusal::BadField));
    }
    let serial = serial_member(value).ok_or(Refusal::BadField)?;
    let attempt = attempt_member(value).ok_or(Refusal::BadField)?;
    let outcomes = entries_member(memory, value)?;
    Ok(AttemptTexts {
        serial,
        attempt,
        outcomes,
    })
}

// ---- values

/// A status of this class, or 26 `BadStatus`.
#[tactic(auto, unfolding(crate::specs::Outcomes::status_of_class))]
fn status_of_class(class: u8, text: &str) -> Result<Status, Refusal>
    ensures { result ≡ bodies.status_of_class class text.now }
{
    let status = Status::parse(text)?;
    if status.first_digit() != class {
        return Err(Refusal::BadStatus);
    }
    Ok(status)
}

/// A success, with its status and its text; or 26 for the status, then 28 for the text.
#[tactic(auto, unfolding(crate::specs::Outcomes::success_in))]
fn read_success<M: Memory>(memory: M, reason: &ReasonTexts<'_>) -> Result<Delivery, Fail>
    ensures { ReadsIn M.refused result (bodies.success_in reason.now) }
{
    let status = status_of_class(DONE, reason.status.text)?;
    let text = Text::parse(memory, reason.text.text)?;
    Ok(Delivery::Delivered(Some(status), text))
}

/// The delivery of a recipient: without status and text, where one of these is not of its form.
fn read_delivered<M: Memory>(memory: M, told: &Option<ReasonTexts<'_>>) -> Result<Delivery, Fail>
    ensures { ReadsIn M.refused result (Ok (bodies.delivered_in told.now)) }
{
    let Some(reason) = told else {
        return Ok(Delivery::Delivered(None, Text::empty(memory)));
    };
    match read_success(memory, reason) {
        Ok(delivery) => Ok(delivery),
        Err(Fail::Refused(_)) => Ok(Delivery::Delivered(None, Text::empty(memory))),
        Err(Fail::Fault(fault)) => Err(Fail::Fault(fault)),
    }
}

/// What became of a recipient; or 26 for the status, then 28 for the text.
#[tactic(auto, unfolding(crate::specs::Outcomes::delivery_in))]
fn read_delivery<M: Memory>(memory: M, texts: &DeliveryTexts<'_>) -> Result<Delivery, Fail>
    ensures { ReadsIn M.refused result (bodies.delivery_in texts.now) }
{
    match texts {
        DeliveryTexts::Delivered(told) => read_delivered(memory, told),
        DeliveryTexts::Deferred(reason) => {
            let status = status_of_class(MAY_PASS, reason.status.text)?;
            let text = Text::parse(memory, reason.text.text)?;
            Ok(Delivery::Deferred(status, text))
        }
        DeliveryTexts::Failed(reason) => {
            let status = status_of_class(FOR_GOOD, reason.status.text)?;
            let text = Text::parse(memory, reason.text.text)?;
            Ok(Delivery::Failed(status, text))
        }
    }
}

/// The values of an outcome; 20 for the address comes first.
#[tactic(auto, unfolding(crate::specs::Outcomes::outcome_in))]
fn outcome_from<M: Memory>(memory: M, texts: &OutcomeTexts<'_>) -> Result<Outcome, Fail>
    ensures { ReadsIn M.refused result (bodies.outcome_in texts.now) }
{
    let address = Address::parse(memory, texts.recipient.text)?;
    let result = read_delivery(memory, &texts.result)?;
    Ok(Outcome { address, result })
}

/// The values of each outcome.
#[tactic(auto, unfolding(crate::specs::Outcomes::outcomes_in))]
fn outcomes_from<M: Memory>(memory: M, entries: &[OutcomeTexts<'_>]) -> Result<Vec<Outcome>, Fail>
    ensures { ReadsIn M.refused (seen_by (λ v. v.items) result) (bodies.outcomes_in entries.now) }
{
    let mut outcomes = memory.none();
    for entry in entries {
        let outcome = outcome_from(memory, entry)?;
        memory.push(&mut outcomes, outcome)?;
    }
    Ok(outcomes)
}

/// Reads the report of an attempt: which message, which attempt, and what became of at most 100 of
/// its recipients.
///
/// 7 `BadJson` where it is not JSON, 8 `BadField` where any member, of any outcome, is missing,
/// unknown, of the wrong kind or out of range; then, outcome by outcome, 20 for the recipient, 26
/// for the status, which is of the class 4 where the recipient is deferred and 5 where it failed,
/// and 28 for the text. A delivered recipient needs neither: the report keeps both where they
/// are of their form and the status is of the class 2, and else none.
#[tactic(auto, unfolding(crate::specs::Outcomes::read_report))]
pub fn read_report<M: JsonMemory>(memory: M, body: &[u8]) -> Result<AttemptReport, Fail>
    ensures { ReadsIn M.refused result (bodies.read_report body.now) }
{
    let value = json_value(memory, body)?;
    let report = report_of(memory, &value)?;
    let outcomes = outcomes_from(memory, report.outcomes.as_slice())?;
    Ok(AttemptReport {
        serial: report.serial,
        attempt: report.attempt,
        outcomes: Items::from_vec(outcomes),
    })
}
