//! Imports of lines of the access tables: what the rows of a file do to the customer's lines, and
//! what was kept of a file that was taken. Nothing is read or written here.

ghost use Rattle.std.specs.Prelude.{◌≡◌, ◌++◌, ◌∷◌, []};
ghost use Rattle.std.specs.List.{flat_map};
ghost use Rattle.sha2.specs.Sha256.{sha256};
ghost use Rattle.hq_memory.specs.Making.{MadeIn};
ghost use Rattle.hq_tables.specs.declared.change.Change.TheVariants.{PutMark};
ghost use Rattle.hq_rules.specs.Imports as rules;

use crate::lines::same_action;
use hq_kept::{Action, Line, Mark};
use hq_memory::Memory;
use hq_rules::decision::{Decision, refuse, tell};
use hq_rules::{Answer, ImportCounts, LinePut};
use hq_tables::Change;
use hq_values::{Items, Label, Refusal};
use sha2::{Digest, Sha256};
use std::alloc::AllocError;

/// The digest of a file, by SHA-256.
pub fn digest(file: &[u8]) -> [u8; 32]
    ensures { result ≡ sha256 file.now }
{
    Sha256::digest(file)
}

/// What setting an action does, beside the one that its pattern has.
pub fn beside<M: Memory>(
    memory: M,
    action: &Action,
    known: Option<Action>,
) -> Result<LinePut, AllocError>
    ensures { MadeIn M.refused result (λ put. put ≡ rules.beside action.now known) }
{
    let Some(known) = known else {
        return Ok(LinePut::Added);
    };
    if same_action(memory, &known, action)? {
        Ok(LinePut::Same)
    } else {
        Ok(LinePut::Changed)
    }
}

/// Whether a row did this.
fn is_put(put: LinePut, done: LinePut) -> bool
    ensures { result ≡ rules.is_put put done }
{
    match (put, done) {
        (LinePut::Added, LinePut::Added)
        | (LinePut::Changed, LinePut::Changed)
        | (LinePut::Same, LinePut::Same) => true,
        _ => false,
    }
}

/// How many rows did this.
fn how_many(put: LinePut, rows: &[(Line, LinePut)]) -> u64
    ensures { result ≡ rules.rows_that put rows.now }
{
    rows.iter().filter(|row| is_put(put, row.1)).count() as u64
}

/// What the rows did.
fn counts_of(rows: &[(Line, LinePut)]) -> ImportCounts
    ensures { result ≡ rules.counts_of rows.now }
{
    ImportCounts {
        added: how_many(LinePut::Added, rows),
        changed: how_many(LinePut::Changed, rows),
        same: how_many(LinePut::Same, rows),
    }
}

/// The changes of an import: each row that changes a line, and its mark.
fn changes_of<M: Memory>(
    memory: M,
    mark: Mark,
    rows: Vec<(Line, LinePut)>,
) -> Result<Vec<Change>, AllocError>
    ensures { MadeIn M.refused result (λ changes. changes.items
        ≡ flat_map rules.set_by rows.items ++ PutMark mark ∷ []) }
{
    let mut changes = memory.room(rows.len())?;
    for (line, put) in rows {
        match put {
            LinePut::Same => {}
            _ => memory.push(&mut changes, Change::PutLine(line))?,
        }
    }
    memory.push(&mut changes, Change::PutMark(mark))?;
    Ok(changes)
}

/// Takes the rows beside the `count` lines that are there, at most `quota` in all.
pub fn take_rows<M: Memory>(
    memory: M,
    quota: u64,
    count: u64,
    label: Label,
    digest: [u8; 32],
    rows: Items<(Line, LinePut)>,
) -> Result<Decision, AllocError>
    ensures { MadeIn M.refused result
        (λ decision. decision ≡ rules.taken quota count label digest rows) }
{
    let counts = counts_of(rows.as_slice());
    if counts.added > quota.saturating_sub(count) || count > quota {
        return Ok(refuse(memory, Refusal::QuotaLines));
    }
    let mark = Mark {
        label,
        digest,
        added: counts.added,
        changed: counts.changed,
        same: counts.same,
    };
    let changes = changes_of(memory, mark, rows.into_vec())?;
    Ok(Decision {
        answer: Answer::Imported(counts),
        changes: Items::from_vec(changes),
    })
}

/// The answer to a file under a label that was used.
pub fn repeat<M: Memory>(memory: M, digest: [u8; 32], mark: &Mark) -> Decision
    ensures { result ≡ rules.repeated digest mark.now }
{
    if digest != mark.digest {
        return refuse(memory, Refusal::LabelUsed);
    }
    let counts = ImportCounts {
        added: mark.added,
        changed: mark.changed,
        same: mark.same,
    };
    tell(memory, Answer::Imported(counts))
}
