//! One line of a log.

ghost use Rattle.std.specs.Prelude.{◌≡◌, ◌&&◌, IfOk, option_map};
ghost use Rattle.serde_json.specs.View.{view};
ghost use Rattle.serde_json.specs.Written.{compact_text};
ghost use Rattle.hq_requests.specs.Bodies.{body_bytes, error_told};
ghost use Rattle.hq_requests.specs.Named.{whose_told};
ghost use Rattle.hq_log.specs.Lines as lines;

use hq_requests::Reply;
use hq_values::Moment;
use serde_json::{Value, json};
use std::alloc::{AllocError, Global};

/// How many bytes of a text stand in a line at most: more than any path of the desk has.
const MOST_SHOWN: usize = 256;

/// What a line tells of an exchange.
#[derive(Clone, Copy, Drop)]
pub struct ExchangeEntry<'e> {
    /// When it was asked; `None` where that could not be read.
    pub at: Option<Moment>,
    /// The method; `None` where it could not be read.
    pub method: Option<&'e str>,
    /// The path, as it stands; `None` where it could not be read. A line has the first 256 bytes of
    /// it, and of the method, and says where that is not all.
    pub path: Option<&'e str>,
    /// The reply. A line has its customer, the name of the key where it has one, its status, the
    /// number of its refusal or fault, and the body of a sweep of all.
    pub reply: &'e Reply<'e>,
    /// How long the desk took; `None` where the clock did not tell.
    pub milliseconds: Option<u64>,
}

/// What stands of a text in a line: all of it, or the characters that end within 256 bytes.
fn shown(text: &str) -> &str
    ensures { result.now ≡ lines.shown text.now }
{
    if text.len() <= MOST_SHOWN {
        return text;
    }
    text.split_at(text.floor_char_boundary(MOST_SHOWN)).0
}

/// Whether a text that is there does not stand whole in a line.
fn is_long(text: Option<&str>) -> bool
    ensures { result ≡ lines.is_long (option_map (λ t. t.now) text.entry) }
{
    match text {
        None => false,
        Some(text) => text.len() > MOST_SHOWN,
    }
}

/// Puts a member behind the others of an object's text: what stands before its value, the value,
/// and what closes both.
fn add_last(object: &mut Vec<u8>, start: &str, value: &[u8], close: &str) -> Result<(), AllocError>
    ensures { IfOk result (λ _. object.new.items
        ≡ lines.with_last start.now value.now close.now object.old.items) }
{
    object.pop();
    object.extend_from_slice(start.as_bytes())?;
    object.extend_from_slice(value)?;
    object.extend_from_slice(close.as_bytes())
}

/// A text, or null.
fn text_value(alloc: Global, text: Option<&str>) -> Result<Value, AllocError>
    ensures { IfOk result (λ v. view v ≡ lines.text_or_null (option_map (λ t. t.now) text.entry)) }
{
    match text {
        None => Ok(Value::Null),
        Some(text) => Value::try_from_str(alloc, text),
    }
}

/// What is shown of a text, or null.
fn shown_value(alloc: Global, text: Option<&str>) -> Result<Value, AllocError>
    ensures { IfOk result (λ v. view v ≡ lines.shown_or_null (option_map (λ t. t.now) text.entry)) }
{
    match text {
        None => Ok(Value::Null),
        Some(text) => Value::try_from_str(alloc, shown(text)),
    }
}

/// A number, or null.
fn number_value(number: Option<u64>) -> Value
    ensures { view result ≡ lines.number_or_null number }
{
    match number {
        None => Value::Null,
        Some(number) => Value::from(number),
    }
}

/// The number of the refusal or the fault that a reply tells.
fn number_told(reply: &Reply<'_>) -> Option<u64>
    ensures { result ≡ error_told reply.now.status (body_bytes reply.now.body) }
{
    match reply.number {
        0 => None,
        number => Some(u64::from(number)),
    }
}

/// The name of the customer whose exchange a reply answers.
fn customer_told<'e>(reply: &'e Reply<'_>) -> Option<&'e str>
    ensures { option_map (λ c. c.now) result ≡ lines.customer_in (whose_told reply.now) }
{
    match reply.caller {
        None => None,
        Some(caller) => Some(caller.entry.name.as_str()),
    }
}

/// The name of the key that was shown, where the key has one.
fn key_told<'e>(reply: &'e Reply<'_>) -> Option<&'e str>
    ensures { option_map (λ k. k.now) result ≡ lines.key_name_in (whose_told reply.now) }
{
    match reply.caller?.key {
        None => None,
        Some(name) => Some(name.as_str()),
    }
}

impl ExchangeEntry<'_> {
    /// Whether all customers were swept, or a hundred.
    fn is_sweep_of_all(&self) -> bool
        ensures { result ≡ lines.is_sweep_of_all (lines.entry_seen self.now) }
    {
        self.reply.status == 200 && matches!(self.path, Some("/relay/sweep" | "/relay/sweep-from"))
    }

    /// Whether its method or its path does not stand whole in the line.
    fn is_cut(&self) -> bool
        ensures { result ≡ lines.is_cut (lines.entry_seen self.now) }
    {
        is_long(self.method) || is_long(self.path)
    }

    /// All but that something is cut, and what was told of a sweep of all.
    #[tactic(auto, unfolding(crate::specs::Lines::log_members))]
    fn members(&self, alloc: Global) -> Result<Value, AllocError>
        ensures { IfOk result (λ v. view v
            ≡ lines.log_members (lines.entry_seen self.now) self.now.milliseconds) }
    {
        let at = number_value(self.at.map(|at| at.get()));
        let customer = text_value(alloc, customer_told(self.reply))?;
        let error = number_value(number_told(self.reply));
        let method = shown_value(alloc, self.method)?;
        let milliseconds = number_value(self.milliseconds);
        let path = shown_value(alloc, self.path)?;
        json!(in alloc; {
            "at": at, "customer": customer, "error": error, "method": method,
            "milliseconds": milliseconds, "path": path, "status": self.reply.status
        })
    }

    /// The text of the members.
    #[tactic(auto, using(crate::proofs::NoFloats::members_have_no_float))]
    fn members_text(&self, alloc: Global) -> Result<Vec<u8>, AllocError>
        ensures { IfOk result (λ bytes. bytes.items
            ≡ compact_text (lines.log_members (lines.entry_seen self.now) self.now.milliseconds)) }
    {
        self.members(alloc)?.to_vec(alloc)
    }

    /// The line, with its line feed; or want of memory.
    pub fn line(&self, alloc: Global) -> Result<Vec<u8>, AllocError>
        ensures { IfOk result (λ bytes. bytes.items
            ≡ lines.log_line (lines.entry_seen self.now) self.now.milliseconds) }
    {
        let mut line = self.members_text(alloc)?;
        if let Some(name) = key_told(self.reply) {
            add_last(&mut line, ",\"key\":\"", name.as_bytes(), "\"}")?;
        }
        if self.is_cut() {
            add_last(&mut line, ",\"cut\":", b"true", "}")?;
        }
        if self.is_sweep_of_all() {
            add_last(&mut line, ",\"told\":", self.reply.body.as_bytes(), "}")?;
        }
        line.push(b'\n')?;
        Ok(line)
    }

    /// The line, after a line feed if the line before was lost; or want of memory.
    pub(crate) fn line_after(&self, is_losing: bool, alloc: Global) -> Result<Vec<u8>, AllocError>
        ensures { IfOk result (λ bytes. bytes.items
            ≡ lines.log_line_after is_losing (lines.entry_seen self.now) self.now.milliseconds) }
    {
        let line = self.line(alloc)?;
        if !is_losing {
            return Ok(line);
        }
        let mut after = Vec::new(alloc);
        after.push(b'\n')?;
        after.extend_from_slice(line.as_slice())?;
        Ok(after)
    }
}
