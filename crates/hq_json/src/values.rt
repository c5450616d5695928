//! The values that members of objects have.

use crate::attempt_replies::Due;
use crate::parts::{AsEntry, Form, Value, put_list};
use crate::writing::{put_count, put_flag, put_text};
use hq_kept::{End, Line, LookupKey, Message, Notice, Pending};
use hq_memory::Memory;
use hq_rules::Refused;
use hq_values::{Address, Serial};
use std::alloc::AllocError;

/// A value with no object in it.
#[derive(Clone, Copy, Drop)]
pub(crate) enum Plain<'a> {
    Count(u64),
    Text(&'a str),
    Flag(bool),
    Null,
    /// A queue ID.
    Id(Serial),
    /// The addresses of recipients.
    Addresses(&'a [Pending]),
    Keys(&'a [LookupKey]),
    /// To whom a message would go.
    Receivers(&'a [Address]),
}

/// A value that may be a list of objects.
#[derive(Clone, Copy, Drop)]
pub(crate) enum Part<'a> {
    One(Plain<'a>),
    /// Messages in short.
    Messages(&'a [Message]),
    /// Messages that may be tried.
    Due(&'a [Message]),
    Pending(&'a [Pending]),
    Refused(&'a [Refused]),
    Lines(&'a [Line]),
    Notices(&'a [Notice]),
    Ends(&'a [End]),
}

/// A recipient as its address.
struct ByAddress;

impl Form<Pending> for ByAddress {
    ghost use Rattle.serde_json.specs.Data.{string};

    ghost told = { λ p. string p.address };

    #[tactic(auto, unfolding(crate::specs::Writing::after))]
    fn put<M: Memory>(memory: M, body: &mut Vec<u8>, one: &Pending) -> Result<(), AllocError> {
        put_text(memory, body, one.address.as_str().as_bytes())
    }
}

/// A key or an address as its text.
struct ByText;

impl Form<LookupKey> for ByText {
    ghost use Rattle.serde_json.specs.Data.{string};

    ghost told = { λ key. string key };

    #[tactic(auto, unfolding(crate::specs::Writing::after))]
    fn put<M: Memory>(memory: M, body: &mut Vec<u8>, one: &LookupKey) -> Result<(), AllocError> {
        put_text(memory, body, one.as_str().as_bytes())
    }
}

impl Form<Address> for ByText {
    ghost use Rattle.serde_json.specs.Data.{string};

    ghost told = { λ address. string address };

    #[tactic(auto, unfolding(crate::specs::Writing::after))]
    fn put<M: Memory>(memory: M, body: &mut Vec<u8>, one: &Address) -> Result<(), AllocError> {
        put_text(memory, body, one.as_str().as_bytes())
    }
}

impl<'a> Value for Plain<'a> {
    ghost use Rattle.hq_json.specs.Writing.{plain_data};

    ghost told = { plain_data };

    #[tactic(auto, unfolding(crate::specs::Writing::after))]
    fn put<M: Memory>(&self, memory: M, body: &mut Vec<u8>) -> Result<(), AllocError> {
        match self {
            Plain::Count(count) => put_count(memory, body, *count),
            Plain::Text(text) => put_text(memory, body, text.as_bytes()),
            Plain::Flag(flag) => put_flag(memory, body, *flag),
            Plain::Null => memory.extend(body, b"null"),
            Plain::Id(serial) => put_text(memory, body, &serial.text()),
            Plain::Addresses(list) => put_list::<Pending, ByAddress, M>(memory, body, list),
            Plain::Keys(keys) => put_list::<LookupKey, ByText, M>(memory, body, keys),
            Plain::Receivers(list) => put_list::<Address, ByText, M>(memory, body, list),
        }
    }
}

impl<'a> Value for Part<'a> {
    ghost use Rattle.hq_json.specs.Writing.{part_data};

    ghost told = { part_data };

    fn put<M: Memory>(&self, memory: M, body: &mut Vec<u8>) -> Result<(), AllocError> {
        match self {
            Part::One(value) => value.put(memory, body),
            Part::Messages(messages) => put_list::<Message, AsEntry, M>(memory, body, messages),
            Part::Due(messages) => put_list::<Message, Due, M>(memory, body, messages),
            Part::Pending(list) => put_list::<Pending, AsEntry, M>(memory, body, list),
            Part::Refused(list) => put_list::<Refused, AsEntry, M>(memory, body, list),
            Part::Lines(lines) => put_list::<Line, AsEntry, M>(memory, body, lines),
            Part::Notices(notices) => put_list::<Notice, AsEntry, M>(memory, body, notices),
            Part::Ends(ends) => put_list::<End, AsEntry, M>(memory, body, ends),
        }
    }
}
