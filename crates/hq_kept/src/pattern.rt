//! Patterns: what a line of an access table is for; and lines.

ghost use Rattle.std.specs.Prelude.{◌≡◌, bytes_eq};
ghost use Rattle.std.specs.List.{list_any};
ghost use Rattle.hq_memory.specs.Making.{MadeIn};
ghost use Rattle.hq_values.specs.Readers.{ReadsIn};
ghost use Rattle.hq_kept.specs.Patterns.{class_name, is_subdomains, is_user, is_null, is_pattern};
ghost use Rattle.hq_kept.specs.Patterns.{class_in, pattern_in};

use crate::action::Action;
use crate::key::{LookupKey, NULL_KEY};
use hq_memory::Memory;
use hq_values::{Fail, Refusal, TryCopy, is_address, is_domain, is_local};
use std::alloc::AllocError;
use std::marker::Model;

/// The most bytes of a pattern, as of an address.
const PATTERN_BYTES: usize = 254;

/// Which side of a message a line is for.
#[derive(Clone, Copy, Debug, PartialEq, Eq, Drop)]
pub enum Class {
    /// The line is for senders.
    SenderSide,
    /// The line is for recipients.
    RecipientSide,
}

impl Class {
    /// Its name, `sender` or `recipient`. It takes no memory.
    pub fn name(self) -> &'static str
        ensures { result.now ≡ class_name self }
    {
        match self {
            Class::SenderSide => "sender",
            Class::RecipientSide => "recipient",
        }
    }

    /// The class of a name; none where no class has it.
    pub fn named(name: &str) -> Option<Class>
        ensures { result ≡ class_in name.now }
    {
        match name {
            "sender" => Some(Class::SenderSide),
            "recipient" => Some(Class::RecipientSide),
            _ => None,
        }
    }
}

/// Whether a text is `.domain`.
fn is_subdomains(text: &str) -> bool
    ensures { result ≡ is_subdomains text.now }
{
    match text.strip_prefix('.') {
        Some(domain) => is_domain(domain),
        None => false,
    }
}

/// Whether a text is `user@`.
fn is_user(text: &str) -> bool
    ensures { result ≡ is_user text.now }
{
    match text.rsplit_once('@') {
        Some((local, domain)) => is_local(local.as_bytes()) && domain.is_empty(),
        None => false,
    }
}

/// Whether a text is `<>`, on the side of senders.
fn is_null(class: Class, text: &str) -> bool
    ensures { result ≡ is_null class text.now }
{
    match class {
        Class::SenderSide => text == NULL_KEY,
        Class::RecipientSide => false,
    }
}

fn is_pattern(class: Class, text: &str) -> bool
    ensures { result ≡ is_pattern class text.now }
{
    text.len() <= PATTERN_BYTES
        && (is_address(text)
            || is_domain(text)
            || is_subdomains(text)
            || is_user(text)
            || is_null(class, text))
}

/// What a line is for, on one side of a message: `user@domain`, `domain`, `.domain`, `user@`, or
/// for senders `<>`. Its text is folded, as keys are.
#[derive(Debug, Drop)]
pub struct Pattern {
    class: Class,
    key: LookupKey,
}

impl Model for Pattern {
    ghost use Rattle.std.specs.Prelude.{◌≡◌, List, ℕ, IsTrue};
    ghost use Rattle.hq_values.specs.Addresses.{folded};
    ghost use Rattle.hq_kept.specs.declared.pattern.Class.{Class};
    ghost use Rattle.hq_kept.specs.Patterns.{is_pattern};

    ghost Value = { Class × List ℕ };

    ghost view = { λ p. (p.class, p.key) };

    ghost invariant = { λ p. (folded p.key ≡ p.key) × IsTrue (is_pattern p.class p.key) };
}

impl Pattern {
    /// Reads a pattern of a class, and folds it; or refuses it as 24 `BadPattern`.
    pub fn parse<M: Memory>(memory: M, class: Class, text: &str) -> Result<Pattern, Fail>
        ensures { ReadsIn M.refused result (pattern_in class text.now) }
    {
        let folded = memory.lower(text)?;
        if !is_pattern(class, folded.as_str()) {
            return Err(Fail::Refused(Refusal::BadPattern));
        }
        let key = LookupKey::new(folded);
        Ok(Pattern { class, key })
    }

    /// The side that it was read for.
    pub fn class(&self) -> Class
        ensures { result ≡ self.now.0 }
    {
        self.class
    }

    /// The key that finds the lines of this pattern, on its own.
    pub fn key<M: Memory>(&self, memory: M) -> Result<LookupKey, AllocError>
        ensures { MadeIn M.refused result (λ key. key ≡ self.now.1) }
    {
        self.key.copy(memory)
    }

    /// Whether it is one of these keys, whichever its side. It takes no memory.
    pub fn is_among(&self, keys: &[LookupKey]) -> bool
        ensures { result ≡ list_any (bytes_eq self.now.1) keys.now }
    {
        for key in keys {
            if self.as_str() == key.as_str() {
                return true;
            }
        }
        false
    }

    /// The text, without taking memory.
    pub fn as_str(&self) -> &str
        ensures { result.now ≡ self.now.1 }
    {
        self.key.as_str()
    }
}

impl TryCopy for Pattern {
    fn copy<M: Memory>(&self, memory: M) -> Result<Pattern, AllocError> {
        let key = self.key.copy(memory)?;
        Ok(Pattern {
            class: self.class,
            key,
        })
    }
}

/// A line of an access table.
#[derive(Debug, Drop)]
pub struct Line {
    /// What it is for.
    pub pattern: Pattern,
    /// What it does.
    pub action: Action,
}

impl TryCopy for Line {
    fn copy<M: Memory>(&self, memory: M) -> Result<Line, AllocError> {
        let pattern = self.pattern.copy(memory)?;
        let action = self.action.copy(memory)?;
        Ok(Line { pattern, action })
    }
}
