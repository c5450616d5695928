//! The body of a submission, and of its envelope alone.

ghost use Rattle.std.specs.Prelude.{◌≡◌, map as map_list};
ghost use Rattle.serde_json.specs.View.{view};
ghost use Rattle.hq_values.specs.Readers.{ReadsIn, seen_by};
ghost use Rattle.hq_bodies.specs.Submissions.{recipients_in, size_of, fields_of, addresses_in};
ghost use Rattle.hq_bodies.specs.Submissions.{submission_of, read_submission, shown_recipients};
ghost use Rattle.hq_bodies.specs.Submissions.{shown_size, texts_shown, envelope_shown};
ghost use Rattle.hq_bodies.specs.Submissions.{envelope_fields_of, envelope_in, read_envelope};

use crate::json_memory::JsonMemory;
use crate::members::{EnvelopeTexts, MessageSize, RecipientTexts, SubmissionTexts};
use crate::reading::{has_only, json_value, number_member, text_member, texts_member};
use hq_memory::Memory;
use hq_rules::{Envelope, Submission};
use hq_values::{Address, Fail, Items, Refusal, Sender, Spool};
use serde_json::Value;

/// The most recipients of a submission.
const MOST_RECIPIENTS: usize = 100;

/// The most bytes of a message.
const MOST_BYTES: u64 = 2_147_483_647;

/// The texts of the recipients, or 8 `BadField`.
#[tactic(auto, unfolding(crate::specs::Submissions::recipients_in))]
fn recipients_in<M: Memory>(memory: M, value: &Value) -> Result<RecipientTexts<'_>, Fail>
    ensures { ReadsIn M.refused (seen_by shown_recipients result) (recipients_in (view value.now)) }
{
    let texts = texts_member(memory, value, "recipients")?;
    if !(1..=MOST_RECIPIENTS).contains(&texts.len()) {
        return Err(Fail::Refused(Refusal::BadField));
    }
    Ok(RecipientTexts { texts })
}

/// The size of the message, or 8 `BadField`.
#[tactic(auto, unfolding(crate::specs::Submissions::size_of))]
fn size_in(value: &Value) -> Result<MessageSize, Refusal>
    ensures { seen_by shown_size result ≡ size_of (view value.now) }
{
    let bytes = number_member(value, "size", 0, u64::MAX).ok_or(Refusal::BadField)?;
    if bytes > MOST_BYTES {
        return Err(Refusal::BadField);
    }
    Ok(MessageSize {
        bytes: bytes as u32,
    })
}

/// The members of an envelope, or 8 `BadField`.
#[tactic(auto, unfolding(crate::specs::Submissions::envelope_fields_of))]
fn envelope_fields<M: Memory>(memory: M, value: &Value) -> Result<EnvelopeTexts<'_>, Fail>
    ensures { ReadsIn M.refused (seen_by envelope_shown result)
        (envelope_fields_of (view value.now)) }
{
    let sender = text_member(value, "sender").ok_or(Refusal::BadField)?;
    let recipients = recipients_in(memory, value)?;
    let size = size_in(value)?;
    Ok(EnvelopeTexts {
        sender,
        recipients,
        size,
    })
}

/// The members of a submission, or 8 `BadField`.
#[tactic(auto, unfolding(crate::specs::Submissions::fields_of))]
fn fields_in<M: Memory>(memory: M, value: &Value) -> Result<SubmissionTexts<'_>, Fail>
    ensures { ReadsIn M.refused (seen_by texts_shown result) (fields_of (view value.now)) }
{
    let known = match value.as_object() {
        Some(map) => has_only(map, &["spool", "sender", "recipients", "size"]),
        None => false,
    };
    if !known {
        return Err(Fail::Refused(Refusal::BadField));
    }
    let spool = text_member(value, "spool").ok_or(Refusal::BadField)?;
    let envelope = envelope_fields(memory, value)?;
    Ok(SubmissionTexts { spool, envelope })
}

/// The addresses of texts, or 20 `BadAddress`.
fn read_addresses<M: Memory>(memory: M, texts: &[&str]) -> Result<Vec<Address>, Fail>
    ensures { ReadsIn M.refused (seen_by (λ v. v.items) result)
        (addresses_in (map_list (λ text. text.now) texts.now)) }
{
    let mut addresses = memory.none();
    for text in texts {
        memory.push(&mut addresses, Address::parse(memory, text)?)?;
    }
    Ok(addresses)
}

/// The values of an envelope's members.
#[tactic(auto, unfolding(crate::specs::Submissions::envelope_in))]
fn envelope_from<M: Memory>(memory: M, fields: &EnvelopeTexts<'_>) -> Result<Envelope, Fail>
    ensures { ReadsIn M.refused result (envelope_in (envelope_shown fields.now)) }
{
    let sender = Sender::parse(memory, fields.sender)?;
    let recipients = read_addresses(memory, fields.recipients.texts.as_slice())?;
    Ok(Envelope {
        sender,
        recipients: Items::from_vec(recipients),
        size: fields.size.bytes,
    })
}

/// The values of a submission's members.
#[tactic(auto, unfolding(crate::specs::Submissions::submission_of))]
fn submission_from<M: Memory>(memory: M, fields: &SubmissionTexts<'_>) -> Result<Submission, Fail>
    ensures { ReadsIn M.refused result (submission_of (texts_shown fields.now)) }
{
    let spool = Spool::parse(memory, fields.spool)?;
    let Envelope {
        sender,
        recipients,
        size,
    } = envelope_from(memory, &fields.envelope)?;
    Ok(Submission {
        spool,
        sender,
        recipients,
        size,
    })
}

/// Reads an envelope: 7 `BadJson` where the body is not JSON, 8 `BadField` where a member is
/// missing, unknown, of the wrong kind or out of range, then 20 for the sender and each recipient.
#[tactic(auto, unfolding(crate::specs::Submissions::read_envelope))]
pub fn read_envelope<M: JsonMemory>(memory: M, body: &[u8]) -> Result<Envelope, Fail>
    ensures { ReadsIn M.refused result (read_envelope body.now) }
{
    let value = json_value(memory, body)?;
    let known = match value.as_object() {
        Some(map) => has_only(map, &["sender", "recipients", "size"]),
        None => false,
    };
    if !known {
        return Err(Fail::Refused(Refusal::BadField));
    }
    let fields = envelope_fields(memory, &value)?;
    envelope_from(memory, &fields)
}

/// Reads the body of a submission: 7 `BadJson` where it is not JSON, 8 `BadField` where a member is
/// missing, unknown, of the wrong kind or out of range, then 23 and 20 for the values in the order
/// spool, sender, recipients.
#[tactic(auto, unfolding(crate::specs::Submissions::read_submission))]
pub fn read_submission<M: JsonMemory>(memory: M, body: &[u8]) -> Result<Submission, Fail>
    ensures { ReadsIn M.refused result (read_submission body.now) }
{
    let value = json_value(memory, body)?;
    let fields = fields_in(memory, &value)?;
    submission_from(memory, &fields)
}
