//! What is told of access tables.

ghost use Rattle.std.specs.Prelude.{◌≡◌, ◌∷◌, [], codes, OnErr};
ghost use Rattle.serde_json.specs.Data.{string};
ghost use Rattle.hq_kept.specs.Patterns.{class_name};
ghost use Rattle.hq_json.specs.Objects.{having, texts};
ghost use Rattle.hq_json.specs.TableReplies as replies;
ghost use Rattle.hq_json.specs.Writing.{after};

use crate::parts::{AsEntry, Form, put_object};
use crate::values::{Part, Plain};
use hq_kept::{Action, Line, LookupKey, Pattern};
use hq_memory::Memory;
use hq_rules::{ImportCounts, LinePut, Refused};
use std::alloc::AllocError;

/// Who is refused, with code and text.
impl Form<Refused> for AsEntry {
    ghost use Rattle.hq_json.specs.TableReplies.{refused_entry};

    ghost told = { refused_entry };

    fn put<M: Memory>(memory: M, body: &mut Vec<u8>, one: &Refused) -> Result<(), AllocError> {
        put_object(
            memory,
            body,
            &[
                ("address", Plain::Text(one.address.as_str())),
                ("code", Plain::Count(u64::from(one.code))),
                ("text", Plain::Text(one.text.as_str())),
            ],
        )
    }
}

fn put_line<'a, M: Memory>(
    memory: M,
    body: &mut Vec<u8>,
    action: &'a str,
    pattern: &'a Pattern,
) -> Result<(), AllocError>
    ensures bytes { body.new.items ≡ after result body.old.items body.new.items
        (having ((codes "action", string action.now)
        ∷ (codes "class", string (class_name pattern.now.0))
        ∷ (codes "pattern", string pattern.now.1) ∷ [])) }
    ensures cause { OnErr result M.refused }
{
    put_object(
        memory,
        body,
        &[
            ("action", Plain::Text(action)),
            ("class", Plain::Text(pattern.class().name())),
            ("pattern", Plain::Text(pattern.as_str())),
        ],
    )
}

/// A line, with its action as it is written.
impl Form<Line> for AsEntry {
    ghost use Rattle.hq_json.specs.TableReplies.{line_entry};

    ghost told = { line_entry };

    #[tactic(auto, unfolding(crate::specs::Writing::after))]
    fn put<M: Memory>(memory: M, body: &mut Vec<u8>, one: &Line) -> Result<(), AllocError> {
        let action = one.action.text(memory)?;
        put_line(memory, body, action.as_str(), &one.pattern)
    }
}

/// A page of lines.
#[tactic(auto, unfolding(crate::specs::TableReplies::lines_listed))]
pub(crate) fn put_lines<M: Memory>(
    memory: M,
    body: &mut Vec<u8>,
    lines: &[Line],
    more: bool,
) -> Result<(), AllocError>
    ensures bytes { body.new.items ≡ after result body.old.items body.new.items
        (replies.lines_listed lines.now more) }
    ensures cause { OnErr result M.refused }
{
    put_object(
        memory,
        body,
        &[
            ("lines", Part::Lines(lines)),
            ("more", Part::One(Plain::Flag(more))),
        ],
    )
}

fn put_name(done: LinePut) -> &'static str
    ensures { result.now ≡ replies.put_name done }
{
    match done {
        LinePut::Added => "added",
        LinePut::Changed => "changed",
        LinePut::Same => "same",
    }
}

/// What putting a line did.
pub(crate) fn put_line_put<M: Memory>(
    memory: M,
    body: &mut Vec<u8>,
    done: LinePut,
) -> Result<(), AllocError>
    ensures bytes { body.new.items ≡ after result body.old.items body.new.items
        (replies.line_put done) }
    ensures cause { OnErr result M.refused }
{
    put_object(memory, body, &[("put", Plain::Text(put_name(done)))])
}

/// That a line is dropped.
pub(crate) fn put_line_dropped<M: Memory>(memory: M, body: &mut Vec<u8>) -> Result<(), AllocError>
    ensures bytes { body.new.items ≡ after result body.old.items body.new.items
        replies.line_dropped }
    ensures cause { OnErr result M.refused }
{
    put_object(memory, body, &[("dropped", Plain::Count(1))])
}

/// The keys of an address, with the action and the pattern of the line that was found.
fn put_match<'a, M: Memory>(
    memory: M,
    body: &mut Vec<u8>,
    action: &'a str,
    keys: &'a [LookupKey],
    pattern: &'a str,
) -> Result<(), AllocError>
    ensures bytes { body.new.items ≡ after result body.old.items body.new.items
        (having ((codes "action", string action.now) ∷ (codes "keys", texts keys.now)
        ∷ (codes "pattern", string pattern.now) ∷ [])) }
    ensures cause { OnErr result M.refused }
{
    put_object(
        memory,
        body,
        &[
            ("action", Plain::Text(action)),
            ("keys", Plain::Keys(keys)),
            ("pattern", Plain::Text(pattern)),
        ],
    )
}

/// The keys of an address, and what was found at the first that has a line.
#[tactic(auto, unfolding(crate::specs::TableReplies::check_json, crate::specs::Writing::after))]
pub(crate) fn put_checked<M: Memory>(
    memory: M,
    body: &mut Vec<u8>,
    keys: &[LookupKey],
    found: &Option<(LookupKey, Action)>,
) -> Result<(), AllocError>
    ensures bytes { body.new.items ≡ after result body.old.items body.new.items
        (replies.check_json keys.now found.now) }
    ensures cause { OnErr result M.refused }
{
    match found {
        None => put_object(
            memory,
            body,
            &[
                ("action", Plain::Null),
                ("keys", Plain::Keys(keys)),
                ("pattern", Plain::Null),
            ],
        ),
        Some((key, action)) => {
            let action = action.text(memory)?;
            put_match(memory, body, action.as_str(), keys, key.as_str())
        }
    }
}

/// What the rows of an import did.
pub(crate) fn put_imported<M: Memory>(
    memory: M,
    body: &mut Vec<u8>,
    counts: ImportCounts,
) -> Result<(), AllocError>
    ensures bytes { body.new.items ≡ after result body.old.items body.new.items
        (replies.import_json counts) }
    ensures cause { OnErr result M.refused }
{
    put_object(
        memory,
        body,
        &[
            ("added", Plain::Count(counts.added)),
            ("changed", Plain::Count(counts.changed)),
            ("same", Plain::Count(counts.same)),
        ],
    )
}
