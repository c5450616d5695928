//! Free texts of one line: what a remote server answered, or what a table line says.

ghost use Rattle.std.specs.Prelude.{◌≡◌, []};
ghost use Rattle.hq_memory.specs.Making.{MadeIn};
ghost use Rattle.hq_values.specs.Readers.{ReadsIn};
ghost use Rattle.hq_values.specs.Words.{is_text_byte, is_text, text_in};
ghost use Rattle.hq_values.specs.Words as words;

use crate::{Fail, Refusal, TryCopy};
use hq_memory::Memory;
use std::alloc::AllocError;
use std::marker::Model;

/// The most bytes that a text has.
const TEXT_BYTES: usize = 1000;

/// The reason of a message that its customer put on hold.
const CUSTOMER_HOLD: &str = "held by customer";

/// The reason of a message that a line of an access table without a text put on hold.
const TABLE_HOLD: &str = "held by access table";

/// The reason of a message that was on hold before reasons were kept.
const EARLIER_HOLD: &str = "held before version 2";

/// What is told to an address that a line without a text rejects.
const DENIED: &str = "Access denied";

/// What is told to an address that a line without a text puts off.
const TRY_LATER: &str = "Try again later";

/// Whether a byte is printable ASCII or the space.
fn is_text_byte(byte: u8) -> bool
    ensures { result ≡ is_text_byte byte }
{
    (32..=126).contains(&byte)
}

fn is_text(text: &[u8]) -> bool
    ensures { result ≡ is_text text.now }
{
    text.len() <= TEXT_BYTES && text.iter().all(|byte| is_text_byte(*byte))
}

/// At most 1,000 bytes of printable ASCII and spaces.
#[derive(Debug, Drop)]
pub struct Text {
    text: String,
}

impl Model for Text {
    ghost use Rattle.std.specs.Prelude.{List, ℕ, IsTrue, string_bytes};
    ghost use Rattle.hq_values.specs.Words.{is_text};

    ghost Value = { List ℕ };

    ghost view = { λ t. string_bytes t.text };

    ghost invariant = { λ t. IsTrue (is_text (string_bytes t.text)) };
}

impl Text {
    /// The empty text, without taking memory.
    pub fn empty<M: Memory>(memory: M) -> Text
        ensures { result ≡ [] }
    {
        Text {
            text: memory.no_text(),
        }
    }

    /// Reads a text, or refuses it as 28 `BadText`.
    pub fn parse<M: Memory>(memory: M, text: &str) -> Result<Text, Fail>
        ensures { ReadsIn M.refused result (text_in text.now) }
    {
        if !is_text(text.as_bytes()) {
            return Err(Fail::Refused(Refusal::BadText));
        }
        let text = memory.text(text)?;
        Ok(Text { text })
    }

    /// The reason of a message that its customer put on hold: `held by customer`.
    pub fn customer_hold<M: Memory>(memory: M) -> Result<Text, AllocError>
        ensures { MadeIn M.refused result (λ text. text ≡ words.customer_hold) }
    {
        let text = memory.text(CUSTOMER_HOLD)?;
        Ok(Text { text })
    }

    /// The reason of a message that a line of an access table without a text put on hold:
    /// `held by access table`.
    pub fn table_hold<M: Memory>(memory: M) -> Result<Text, AllocError>
        ensures { MadeIn M.refused result (λ text. text ≡ words.table_hold) }
    {
        let text = memory.text(TABLE_HOLD)?;
        Ok(Text { text })
    }

    /// The reason of a message that was on hold before reasons were kept:
    /// `held before version 2`.
    pub fn earlier_hold<M: Memory>(memory: M) -> Result<Text, AllocError>
        ensures { MadeIn M.refused result (λ text. text ≡ words.earlier_hold) }
    {
        let text = memory.text(EARLIER_HOLD)?;
        Ok(Text { text })
    }

    /// What is told to an address that a line without a text rejects: `Access denied`.
    pub fn denied<M: Memory>(memory: M) -> Result<Text, AllocError>
        ensures { MadeIn M.refused result (λ text. text ≡ words.denied) }
    {
        let text = memory.text(DENIED)?;
        Ok(Text { text })
    }

    /// What is told to an address that a line without a text puts off: `Try again later`.
    pub fn try_later<M: Memory>(memory: M) -> Result<Text, AllocError>
        ensures { MadeIn M.refused result (λ text. text ≡ words.try_later) }
    {
        let text = memory.text(TRY_LATER)?;
        Ok(Text { text })
    }

    /// The text, without taking memory.
    pub fn as_str(&self) -> &str
        ensures { result.now ≡ self.now }
    {
        self.text.as_str()
    }

    /// Makes it the empty text, without taking memory.
    pub fn clear(&mut self)
        ensures { self.new ≡ [] }
    {
        self.text.clear();
    }
}

impl TryCopy for Text {
    fn copy<M: Memory>(&self, memory: M) -> Result<Text, AllocError> {
        let text = memory.text(self.text.as_str())?;
        Ok(Text { text })
    }
}
