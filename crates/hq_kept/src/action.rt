//! Actions: what a line of an access table does.

ghost use Rattle.std.specs.Prelude.{◌≡◌, string_bytes};
ghost use Rattle.hq_memory.specs.Making.{MadeIn};
ghost use Rattle.hq_values.specs.Readers.{ReadsIn};
ghost use Rattle.hq_kept.specs.Actions as rules;

use hq_memory::Memory;
use hq_values::{Address, Fail, Refusal, Text, TryCopy};
use std::alloc::AllocError;

/// What a line does with the address that it is for.
#[derive(Debug, Drop)]
pub enum Action {
    /// `OK`: the address is taken. Its text has no effect.
    Okay(Text),
    /// `REJECT`: the address is refused, with the text or `Access denied`.
    Reject(Text),
    /// `DEFER`: the address is put off, with the text or `Try again later`.
    Defer(Text),
    /// `DUNNO`: as if there were no line, save that no further key is tried. Its text has no
    /// effect.
    Dunno(Text),
    /// `DISCARD`: the whole message is discarded. Its text has no effect.
    Discard(Text),
    /// `HOLD`: the message is put on hold.
    Hold(Text),
    /// `REDIRECT`: the message goes to this address, and to nobody else.
    Redirect(Address),
}

/// The text without the spaces at its start.
fn skip_spaces(text: &str) -> &str
    ensures { result.now ≡ rules.skip_spaces text.now }
{
    text.trim_start_matches(' ')
}

/// The text without the spaces at its end.
fn drop_spaces(text: &str) -> &str
    ensures { result.now ≡ rules.drop_spaces text.now }
{
    text.trim_end_matches(' ')
}

/// The verb and the argument of a text without spaces at its ends.
fn parts(text: &str) -> (&str, &str)
    ensures verb { result.0.now ≡ rules.verb_of text.now }
    ensures argument { result.1.now ≡ rules.argument_of text.now }
{
    let text = drop_spaces(skip_spaces(text));
    match text.split_once(' ') {
        Some((verb, argument)) => (verb, skip_spaces(argument)),
        None => (text, ""),
    }
}

/// Whether a verb is this one, in whatever case.
fn is_verb(verb: &str, name: &str) -> bool
    ensures { result ≡ rules.is_verb verb.now name.now }
{
    verb.eq_ignore_ascii_case(name)
}

/// Reads the text of an action, or refuses it as 25 `BadAction`.
fn text_argument<M: Memory>(memory: M, argument: &str) -> Result<Text, Fail>
    ensures { ReadsIn M.refused result (rules.argument_in argument.now) }
{
    match Text::parse(memory, argument) {
        Ok(text) => Ok(text),
        Err(Fail::Refused(_)) => Err(Fail::Refused(Refusal::BadAction)),
        Err(Fail::Fault(fault)) => Err(Fail::Fault(fault)),
    }
}

/// Reads the address of an action, or refuses it as 25 `BadAction`.
fn address_argument<M: Memory>(memory: M, argument: &str) -> Result<Address, Fail>
    ensures { ReadsIn M.refused result (rules.verb_address argument.now) }
{
    match Address::parse(memory, argument) {
        Ok(address) => Ok(address),
        Err(Fail::Refused(_)) => Err(Fail::Refused(Refusal::BadAction)),
        Err(Fail::Fault(fault)) => Err(Fail::Fault(fault)),
    }
}

/// The action of a verb and an argument.
fn action_with<M: Memory>(memory: M, verb: &str, argument: &str) -> Result<Action, Fail>
    ensures { ReadsIn M.refused result (rules.action_with verb.now argument.now) }
{
    if is_verb(verb, "OK") {
        Ok(Action::Okay(text_argument(memory, argument)?))
    } else if is_verb(verb, "REJECT") {
        Ok(Action::Reject(text_argument(memory, argument)?))
    } else if is_verb(verb, "DEFER") {
        Ok(Action::Defer(text_argument(memory, argument)?))
    } else if is_verb(verb, "DUNNO") {
        Ok(Action::Dunno(text_argument(memory, argument)?))
    } else if is_verb(verb, "DISCARD") {
        Ok(Action::Discard(text_argument(memory, argument)?))
    } else if is_verb(verb, "HOLD") {
        Ok(Action::Hold(text_argument(memory, argument)?))
    } else if is_verb(verb, "REDIRECT") {
        Ok(Action::Redirect(address_argument(memory, argument)?))
    } else {
        Err(Fail::Refused(Refusal::BadAction))
    }
}

/// A verb, and then a space and the argument where that is not empty.
fn with_argument<M: Memory>(memory: M, verb: &str, argument: &str) -> Result<String, AllocError>
    ensures { MadeIn M.refused result (λ text. string_bytes text
        ≡ rules.with_argument verb.now argument.now) }
{
    if argument.is_empty() {
        memory.text(verb)
    } else {
        memory.show(format_args!("{verb} {argument}"))
    }
}

impl Action {
    /// Reads an action: a verb in any case, and an argument; or refuses it as 25 `BadAction`.
    pub fn parse<M: Memory>(memory: M, text: &str) -> Result<Action, Fail>
        ensures { ReadsIn M.refused result (rules.action_in text.now) }
    {
        let (verb, argument) = parts(text);
        action_with(memory, verb, argument)
    }

    /// The written form: the verb in capitals, and then a space and the argument, where that is
    /// not empty.
    pub fn text<M: Memory>(&self, memory: M) -> Result<String, AllocError>
        ensures { MadeIn M.refused result (λ text. string_bytes text ≡ rules.action_text self.now) }
    {
        match self {
            Action::Okay(text) => with_argument(memory, "OK", text.as_str()),
            Action::Reject(text) => with_argument(memory, "REJECT", text.as_str()),
            Action::Defer(text) => with_argument(memory, "DEFER", text.as_str()),
            Action::Dunno(text) => with_argument(memory, "DUNNO", text.as_str()),
            Action::Discard(text) => with_argument(memory, "DISCARD", text.as_str()),
            Action::Hold(text) => with_argument(memory, "HOLD", text.as_str()),
            Action::Redirect(address) => with_argument(memory, "REDIRECT", address.as_str()),
        }
    }
}

impl TryCopy for Action {
    fn copy<M: Memory>(&self, memory: M) -> Result<Action, AllocError> {
        match self {
            Action::Okay(text) => Ok(Action::Okay(text.copy(memory)?)),
            Action::Reject(text) => Ok(Action::Reject(text.copy(memory)?)),
            Action::Defer(text) => Ok(Action::Defer(text.copy(memory)?)),
            Action::Dunno(text) => Ok(Action::Dunno(text.copy(memory)?)),
            Action::Discard(text) => Ok(Action::Discard(text.copy(memory)?)),
            Action::Hold(text) => Ok(Action::Hold(text.copy(memory)?)),
            Action::Redirect(address) => Ok(Action::Redirect(address.copy(memory)?)),
        }
    }
}
