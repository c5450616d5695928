//! Answers as an administrator reads them.

ghost use Rattle.std.specs.Prelude.{◌≡◌, ◌++◌, string_bytes};
ghost use Rattle.hq_memory.specs.Making.{MadeIn};
ghost use Rattle.hq_admin.specs.Printed as texts;

use crate::history::{more_from, put_history};
use hq_kept::{Counts, Tally};
use hq_memory::Memory;
use hq_rules::{Answer, ImportCounts, Render, SweepCounts, Usage};
use std::alloc::AllocError;

/// Adds what an import set.
#[tactic(auto, unfolding(crate::specs::Printed::import_line))]
fn put_imported<M: Memory>(
    memory: M,
    text: &mut String,
    counts: ImportCounts,
) -> Result<(), AllocError>
    ensures { MadeIn M.refused result (λ _. string_bytes text.new
        ≡ string_bytes text.old ++ texts.import_line counts) }
{
    let ImportCounts {
        added,
        changed,
        same,
    } = counts;
    memory.write(
        text,
        format_args!("added {added}, changed {changed}, same {same}\n"),
    )?;
    Ok(())
}

/// Adds what a sweep did.
#[tactic(auto, unfolding(crate::specs::Printed::sweep_line))]
fn put_swept<M: Memory>(memory: M, text: &mut String, counts: SweepCounts) -> Result<(), AllocError>
    ensures { MadeIn M.refused result (λ _. string_bytes text.new
        ≡ string_bytes text.old ++ texts.sweep_line counts) }
{
    let SweepCounts {
        expired,
        notices,
        warned,
    } = counts;
    memory.write(
        text,
        format_args!("expired {expired}, warned {warned}, notices {notices}\n"),
    )?;
    Ok(())
}

/// Adds how much a customer keeps.
#[tactic(auto, unfolding(crate::specs::Printed::kept_text))]
fn put_kept<M: Memory>(memory: M, text: &mut String, counts: Counts) -> Result<(), AllocError>
    ensures { MadeIn M.refused result (λ _. string_bytes text.new
        ≡ string_bytes text.old ++ texts.kept_text counts) }
{
    let Counts {
        messages,
        bytes,
        lines,
    } = counts;
    memory.write(
        text,
        format_args!("messages {messages}, bytes {bytes}, lines {lines}"),
    )?;
    Ok(())
}

/// Adds how many of its recipients were accepted and are pending.
#[tactic(auto, unfolding(crate::specs::Printed::left_text))]
fn put_left<M: Memory>(
    memory: M,
    text: &mut String,
    accepted: u64,
    pending: u64,
) -> Result<(), AllocError>
    ensures { MadeIn M.refused result (λ _. string_bytes text.new
        ≡ string_bytes text.old ++ texts.left_text accepted pending) }
{
    memory.write(
        text,
        format_args!(", accepted {accepted}, pending {pending}"),
    )?;
    Ok(())
}

/// Adds what became of the others.
#[tactic(auto, unfolding(crate::specs::Printed::gone_text))]
fn put_gone<M: Memory>(memory: M, text: &mut String, tally: Tally) -> Result<(), AllocError>
    ensures { MadeIn M.refused result (λ _. string_bytes text.new
        ≡ string_bytes text.old ++ texts.gone_text tally) }
{
    let Tally {
        delivered,
        failed,
        deleted,
        expired,
        ..
    } = tally;
    memory.write(
        text,
        format_args!(
            ", delivered {delivered}, failed {failed}, deleted {deleted}, expired {expired}"
        ),
    )?;
    Ok(())
}

/// Adds what a customer uses.
fn put_used<M: Memory>(memory: M, text: &mut String, usage: &Usage) -> Result<(), AllocError>
    ensures { MadeIn M.refused result (λ _. string_bytes text.new
        ≡ string_bytes text.old ++ texts.usage_line usage.now) }
{
    put_kept(memory, text, usage.counts)?;
    put_left(memory, text, usage.tally.accepted, usage.pending)?;
    put_gone(memory, text, usage.tally)?;
    memory.append(text, "\n")
}

/// Adds how many messages were changed.
#[tactic(auto, unfolding(crate::specs::Printed::changed_line))]
fn put_changed<M: Memory>(memory: M, text: &mut String, count: u64) -> Result<(), AllocError>
    ensures { MadeIn M.refused result (λ _. string_bytes text.new
        ≡ string_bytes text.old ++ texts.changed_line count) }
{
    memory.write(text, format_args!("changed {count}\n"))?;
    Ok(())
}

/// Adds what is printed of an answer.
pub(crate) fn put_answer<M: Memory>(
    memory: M,
    text: &mut String,
    answer: &Answer,
) -> Result<(), AllocError>
    ensures { MadeIn M.refused result (λ _. string_bytes text.new
        ≡ string_bytes text.old ++ texts.printed answer.now) }
{
    match answer {
        Answer::Refused(refusal) => memory.write(text, format_args!("{refusal}")),
        Answer::Reported(report) => memory.append(text, report.as_str()),
        Answer::Imported(counts) => put_imported(memory, text, *counts),
        Answer::Swept(counts) => put_swept(memory, text, *counts),
        Answer::Used(usage) => put_used(memory, text, usage),
        Answer::Changed(count) => put_changed(memory, text, *count),
        Answer::HistoryListed(ends, more) => {
            let next = more_from(ends.as_slice(), *more);
            put_history(memory, text, ends.as_slice(), next)
        }
        Answer::HistoryFound(ends, next) => put_history(memory, text, ends.as_slice(), *next),
        _ => Ok(()),
    }
}

/// Prints the queue report, how many messages were changed, a history, what an import set, what a
/// sweep did, what a customer uses, and refusals as they are shown: `52 LabelUsed`. Nothing is
/// printed of other answers, for which there is no word.
#[derive(Clone, Copy, Debug)]
pub struct Printed;

impl Render for Printed {
    ghost use Rattle.std.specs.Prelude.{⊤};
    ghost use Rattle.hq_admin.specs.Printed.{printed};

    ghost text = { λ _ answer. printed answer };

    ghost fits = { λ _ _ _. ⊤ };

    ghost takes = { λ _ _. ⊤ };

    fn render<M: Memory>(&self, memory: M, answer: &Answer) -> Result<Vec<u8>, AllocError> {
        let mut text = memory.no_text();
        put_answer(memory, &mut text, answer)?;
        Ok(text.into_bytes())
    }
}
