//! The relay's own name.

ghost use Rattle.std.specs.Prelude.{◌≡◌};
ghost use Rattle.hq_values.specs.Readers.{ReadsIn};
ghost use Rattle.hq_values.specs.Words.{is_host, host_in};

use crate::address::is_domain;
use crate::{Fail, Refusal, TryCopy};
use hq_memory::Memory;
use std::alloc::AllocError;
use std::marker::Model;

/// The most bytes of a host.
const HOST_BYTES: usize = 254;

fn is_host(text: &str) -> bool
    ensures { result ≡ is_host text.now }
{
    text.len() <= HOST_BYTES && is_domain(text)
}

/// The relay's own name: a domain as in addresses, of at most 254 bytes.
#[derive(Debug, Drop)]
pub struct Host {
    text: String,
}

impl Model for Host {
    ghost use Rattle.std.specs.Prelude.{List, ℕ, IsTrue, string_bytes};
    ghost use Rattle.hq_values.specs.Words.{is_host};

    ghost Value = { List ℕ };

    ghost view = { λ t. string_bytes t.text };

    ghost invariant = { λ t. IsTrue (is_host (string_bytes t.text)) };
}

impl Host {
    /// Reads a host, or refuses it as 56 `BadHost`.
    pub fn parse<M: Memory>(memory: M, text: &str) -> Result<Host, Fail>
        ensures { ReadsIn M.refused result (host_in text.now) }
    {
        if !is_host(text) {
            return Err(Fail::Refused(Refusal::BadHost));
        }
        let text = memory.text(text)?;
        Ok(Host { text })
    }

    /// The text, without taking memory.
    pub fn as_str(&self) -> &str
        ensures { result.now ≡ self.now }
    {
        self.text.as_str()
    }
}

impl TryCopy for Host {
    fn copy<M: Memory>(&self, memory: M) -> Result<Host, AllocError> {
        let text = memory.text(self.text.as_str())?;
        Ok(Host { text })
    }
}
