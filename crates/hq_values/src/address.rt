//! Mail addresses and senders: RFC 5321, 4.1.2, without quoted local parts and domain literals.

ghost use Rattle.std.specs.Prelude.{◌≡◌, ◌↔◌, IsTrue, MatchOption, Some, None, Ok};
ghost use Rattle.std.specs.Prelude.{string_bytes};
ghost use Rattle.hq_memory.specs.Making.{MadeIn};
ghost use Rattle.hq_values.specs.Addresses.{is_local_byte, is_label_byte, is_local};
ghost use Rattle.hq_values.specs.Addresses.{is_domain_label, is_domain, is_address, address_in};
ghost use Rattle.hq_values.specs.Addresses.{parts_of, local_of, domain_of, folded, same_address};
ghost use Rattle.hq_values.specs.Readers.{ReadsIn};
ghost use Rattle.hq_values.specs.Senders.{sender_in, sender_text};

use crate::{Fail, Refusal, TryCopy};
use hq_memory::Memory;
use std::alloc::AllocError;
use std::marker::Model;

/// The most bytes that an address has (RFC 5321, 4.5.3.1.3, without the angle brackets of a path).
const ADDRESS_BYTES: usize = 254;

/// Whether a byte may stand in a local part.
fn is_local_byte(byte: u8) -> bool
    ensures { result ≡ is_local_byte byte }
{
    (33..=126).contains(&byte)
        && !matches!(
            byte,
            b'"' | b'\\' | b'<' | b'>' | b'(' | b')' | b',' | b';' | b'@'
        )
}

/// Whether a byte may stand in a label of a domain.
fn is_label_byte(byte: u8) -> bool
    ensures { result ≡ is_label_byte byte }
{
    byte.is_ascii_alphanumeric() || byte == b'-' || byte == b'_'
}

/// Whether a text is a local part: one or more bytes that may stand in one.
pub fn is_local(text: &[u8]) -> bool
    ensures { result ≡ is_local text.now }
{
    !text.is_empty() && text.iter().all(|byte| is_local_byte(*byte))
}

fn is_domain_label(text: &[u8]) -> bool
    ensures { result ≡ is_domain_label text.now }
{
    !text.is_empty() && text.iter().all(|byte| is_label_byte(*byte))
}

/// Whether a text is one or more labels joined by dots.
pub fn is_domain(text: &str) -> bool
    ensures { result ≡ is_domain text.now }
{
    text.split('.')
        .all(|label| is_domain_label(label.as_bytes()))
}

/// The parts before and after the last `@`.
fn parts(text: &str) -> Option<(&str, &str)>
    ensures { MatchOption result (parts_of text.now ≡ None)
        (λ parts. parts_of text.now ≡ Some (parts.0.now, parts.1.now)) }
{
    text.rsplit_once('@')
}

/// Whether a text is an address.
pub fn is_address(text: &str) -> bool
    ensures { result ≡ is_address text.now }
{
    text.len() <= ADDRESS_BYTES
        && match parts(text) {
            None => false,
            Some((local, domain)) => is_local(local.as_bytes()) && is_domain(domain),
        }
}

/// Whether two texts are equal but for the case of ASCII letters.
fn are_same(one: &str, other: &str) -> bool
    ensures same { IsTrue result ↔ (folded one.now ≡ folded other.now) }
    ensures test { result ≡ same_address one.now other.now }
{
    one.eq_ignore_ascii_case(other)
}

/// A mail address, in the spelling that it was given: at most 254 bytes, a local part, `@`, and a
/// domain of labels joined by dots.
#[derive(Debug, Drop)]
pub struct Address {
    text: String,
}

impl Model for Address {
    ghost use Rattle.std.specs.Prelude.{List, ℕ, IsTrue, string_bytes};
    ghost use Rattle.hq_values.specs.Addresses.{is_address};

    ghost Value = { List ℕ };

    ghost view = { λ a. string_bytes a.text };

    ghost invariant = { λ a. IsTrue (is_address (string_bytes a.text)) };
}

impl Address {
    /// Reads an address, or refuses it as 20 `BadAddress`.
    pub fn parse<M: Memory>(memory: M, text: &str) -> Result<Address, Fail>
        ensures { ReadsIn M.refused result (address_in text.now) }
    {
        if !is_address(text) {
            return Err(Fail::Refused(Refusal::BadAddress));
        }
        let text = memory.text(text)?;
        Ok(Address { text })
    }

    /// The text, without taking memory.
    pub fn as_str(&self) -> &str
        ensures { result.now ≡ self.now }
    {
        self.text.as_str()
    }

    /// Says that its text reads back as the address; it does nothing.
    pub fn reads_back(&self)
        ensures { address_in self.now ≡ Ok self.now }
    {
        let _ = &self.text;
    }

    /// The text, on its own.
    pub fn text<M: Memory>(&self, memory: M) -> Result<String, AllocError>
        ensures { MadeIn M.refused result (λ text. string_bytes text ≡ self.now) }
    {
        memory.text(self.text.as_str())
    }

    /// What stands before the last `@`.
    pub fn local(&self) -> &str
        ensures { result.now ≡ local_of self.now }
    {
        match parts(self.text.as_str()) {
            Some((local, _)) => local,
            None => unreachable!(),
        }
    }

    /// What follows the last `@`.
    pub fn domain(&self) -> &str
        ensures { result.now ≡ domain_of self.now }
    {
        match parts(self.text.as_str()) {
            Some((_, domain)) => domain,
            None => unreachable!(),
        }
    }

    /// Whether both are the same address: equal but for the case of ASCII letters.
    pub fn same(&self, other: &Address) -> bool
        ensures same { IsTrue result ↔ (folded self.now ≡ folded other.now) }
        ensures test { result ≡ same_address self.now other.now }
    {
        are_same(self.text.as_str(), other.text.as_str())
    }
}

impl TryCopy for Address {
    fn copy<M: Memory>(&self, memory: M) -> Result<Address, AllocError> {
        let text = memory.text(self.text.as_str())?;
        Ok(Address { text })
    }
}

/// Who sent a message: an address, or the null sender `<>` of notices (RFC 5321, 4.5.5).
#[derive(Debug, Drop)]
pub enum Sender {
    /// The null sender, whose text is empty.
    Null,
    /// An address.
    From(Address),
}

impl Sender {
    /// Reads a sender: the empty text is the null sender, any other an address or 20 `BadAddress`.
    pub fn parse<M: Memory>(memory: M, text: &str) -> Result<Sender, Fail>
        ensures { ReadsIn M.refused result (sender_in text.now) }
    {
        if text.is_empty() {
            return Ok(Sender::Null);
        }
        Ok(Sender::From(Address::parse(memory, text)?))
    }

    /// The text: empty for the null sender.
    pub fn as_str(&self) -> &str
        ensures { result.now ≡ sender_text self.now }
    {
        match self {
            Sender::Null => "",
            Sender::From(address) => address.as_str(),
        }
    }

    /// Says that its text reads back as the sender; it does nothing.
    pub fn reads_back(&self)
        ensures { sender_in (sender_text self.now) ≡ Ok self.now }
    {
        if let Sender::From(address) = self {
            address.reads_back();
        }
    }
}

impl TryCopy for Sender {
    fn copy<M: Memory>(&self, memory: M) -> Result<Sender, AllocError> {
        match self {
            Sender::Null => Ok(Sender::Null),
            Sender::From(address) => Ok(Sender::From(address.copy(memory)?)),
        }
    }
}
