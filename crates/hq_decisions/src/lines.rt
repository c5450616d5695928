//! What is answered and changed by a call on the lines of the access tables, by what was read.
//! Nothing is read or written here.

ghost use Rattle.std.specs.Prelude.{◌≡◌};
ghost use Rattle.hq_memory.specs.Making.{MadeIn};
ghost use Rattle.hq_rules.specs.AccessLines as rules;

use hq_kept::{Action, Line, Pattern};
use hq_memory::Memory;
use hq_rules::decision::{Decision, PAGE, refuse, tell};
use hq_rules::{Answer, LinePut};
use hq_tables::Change;
use hq_values::{Items, Refusal};
use std::alloc::AllocError;

/// The first hundred of the lines, of which one more than that was asked for.
pub fn line_page<M: Memory>(memory: M, lines: Items<Line>) -> Decision
    ensures { result ≡ rules.line_page lines }
{
    let mut lines = lines.into_vec();
    let more = lines.len() > PAGE;
    lines.truncate(PAGE);
    tell(memory, Answer::LinesListed(Items::from_vec(lines), more))
}

/// Whether two actions are written the same.
pub fn same_action<M: Memory>(memory: M, one: &Action, other: &Action) -> Result<bool, AllocError>
    ensures { MadeIn M.refused result (λ same. same ≡ rules.same_action one.now other.now) }
{
    let one = one.text(memory)?;
    let other = other.text(memory)?;
    Ok(one.as_str() == other.as_str())
}

/// Sets a line.
fn set<M: Memory>(memory: M, done: LinePut, line: Line) -> Result<Decision, AllocError>
    ensures { MadeIn M.refused result (λ decision. decision ≡ rules.set done line) }
{
    let changes = memory.one(Change::PutLine(line))?;
    Ok(Decision {
        answer: Answer::LinePut(done),
        changes: Items::from_vec(changes),
    })
}

/// Puts a line whose pattern has a line already, with the action `known`.
pub fn put_over<M: Memory>(memory: M, known: &Action, line: Line) -> Result<Decision, AllocError>
    ensures { MadeIn M.refused result (λ decision. decision ≡ rules.put_over known.now line) }
{
    if same_action(memory, known, &line.action)? {
        Ok(tell(memory, Answer::LinePut(LinePut::Same)))
    } else {
        set(memory, LinePut::Changed, line)
    }
}

/// Puts a line of a new pattern beside the `count` lines that are there, at most `quota` in all.
pub fn put_new<M: Memory>(
    memory: M,
    quota: u64,
    count: u64,
    line: Line,
) -> Result<Decision, AllocError>
    ensures { MadeIn M.refused result (λ decision. decision ≡ rules.put_new quota count line) }
{
    if count >= quota {
        Ok(refuse(memory, Refusal::QuotaLines))
    } else {
        set(memory, LinePut::Added, line)
    }
}

/// Drops the line of a pattern, of which `known` is the action.
pub fn drop_line<M: Memory>(
    memory: M,
    pattern: Pattern,
    known: Option<Action>,
) -> Result<Decision, AllocError>
    ensures { MadeIn M.refused result (λ decision. decision ≡ rules.drop_line pattern known) }
{
    if known.is_none() {
        return Ok(refuse(memory, Refusal::NoLine));
    }
    let changes = memory.one(Change::DropLine(pattern))?;
    Ok(Decision {
        answer: Answer::LineDropped,
        changes: Items::from_vec(changes),
    })
}
