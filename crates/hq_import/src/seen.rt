//! Texts of the rows before, in an order that finds one of a thousand in ten steps.

ghost use Rattle.std.specs.Prelude.{◌≡◌, ◌||◌, List, ℕ, not, false};
ghost use Rattle.hq_memory.specs.Making.{MadeIn};
ghost use Rattle.hq_kept.specs.declared.pattern.Class.{Class as AnyClass};
ghost use Rattle.hq_kept.specs.Customers.{is_same_text};
ghost use Rattle.hq_import.specs.Seen.{has, has_pattern, is_same};

use hq_kept::{Class, Pattern};
use hq_memory::Memory;
use std::alloc::AllocError;
use std::collections::BTreeSet;

/// Texts that were noted.
#[derive(Drop)]
pub(crate) struct Seen {
    texts: BTreeSet<String>,
}

impl Seen {
    /// None yet.
    pub(crate) fn new<M: Memory>(memory: M) -> Seen
        ensures { (text : List ℕ) → has text result ≡ false }
    {
        Seen {
            texts: memory.no_values(),
        }
    }

    /// Notes a text, and tells whether it is new.
    pub(crate) fn note<M: Memory>(&mut self, memory: M, text: &str) -> Result<bool, AllocError>
        ensures new { MadeIn M.refused result (λ new. new ≡ not (has text.now self.old)) }
        ensures noted { MadeIn M.refused result (λ _. (other : List ℕ)
            → has other self.new ≡ (has other self.old || is_same_text other text.now)) }
    {
        let text = memory.text(text)?;
        let is_new = memory.insert(&mut self.texts, text)?;
        Ok(is_new)
    }
}

/// Patterns that were noted: those for senders and those for recipients are apart.
#[derive(Drop)]
pub(crate) struct SeenPatterns {
    senders: Seen,
    recipients: Seen,
}

impl SeenPatterns {
    /// None yet.
    pub(crate) fn new<M: Memory>(memory: M) -> SeenPatterns
        ensures { (pattern : AnyClass × List ℕ) → has_pattern pattern result ≡ false }
    {
        SeenPatterns {
            senders: Seen::new(memory),
            recipients: Seen::new(memory),
        }
    }

    /// Notes a pattern, and tells whether it is new.
    pub(crate) fn note<M: Memory>(
        &mut self,
        memory: M,
        pattern: &Pattern,
    ) -> Result<bool, AllocError>
        ensures new { MadeIn M.refused result
            (λ new. new ≡ not (has_pattern pattern.now self.old)) }
        ensures noted { MadeIn M.refused result
            (λ _. (other : AnyClass × List ℕ) → has_pattern other self.new
            ≡ (has_pattern other self.old || is_same other pattern.now)) }
    {
        match pattern.class() {
            Class::SenderSide => self.senders.note(memory, pattern.as_str()),
            Class::RecipientSide => self.recipients.note(memory, pattern.as_str()),
        }
    }
}
