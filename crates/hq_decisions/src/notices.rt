//! Notices that calls make: who gets one, under which number, and which of all are kept; and
//! notices told. Nothing is read or written here.

ghost use Rattle.std.specs.Prelude.{◌≡◌, ◌∷◌, ◌++◌, ◌+◌, ◌≤◌, ◌^◌, OnErr, length, nat_lt};
ghost use Rattle.hq_memory.specs.Making.{MadeIn};
ghost use Rattle.hq_rules.specs.Admission.{spent};
ghost use Rattle.hq_rules.specs.Histories.{kept_history};
ghost use Rattle.hq_rules.specs.Notices as rules;
ghost use Rattle.hq_tables.specs.declared.change.Change.TheVariants.{PutHead};

use hq_kept::{Ended, Entry, Head, Kind, Message, Notice, Told};
use hq_memory::Memory;
use hq_rules::decision::{Decision, PAGE, refuse, tell};
use hq_rules::histories::keep_history;
use hq_rules::{Answer, Draft, Plan};
use hq_tables::Change;
use hq_text::{human_text, status_text};
use hq_values::{Address, Host, Items, Moment, Refusal, Sender, TryCopy, WrittenText};
use std::alloc::AllocError;

/// The number that no notice has: it says that all numbers are spent.
const SPENT: u64 = 1 << 40;

/// Drafts a notice to the sender of a message that tells of these recipients: none to the null
/// sender, and none of nobody. The only error is want of memory, and then nothing is drafted.
pub fn draft_notice<M: Memory>(
    memory: M,
    drafts: &mut Vec<Draft>,
    message: &Message,
    kind: Kind,
    told: Items<Told>,
) -> Result<(), AllocError>
    ensures drafted { MadeIn M.refused result (λ _. drafts.new.items
        ≡ drafts.old.items ++ rules.drafted message.now kind told) }
    ensures kept { OnErr result (drafts.new.items ≡ drafts.old.items) }
{
    if told.is_empty() {
        return Ok(());
    }
    if let Sender::From(to) = &message.sender {
        memory.push(
            drafts,
            Draft {
                message: message.copy(memory)?,
                to: to.copy(memory)?,
                kind,
                told,
            },
        )?;
    }
    Ok(())
}

/// Writes a notice under a number.
fn notice<M: Memory>(
    memory: M,
    host: &Host,
    at: Moment,
    number: u64,
    draft: Draft,
) -> Result<Notice, AllocError>
    ensures { MadeIn M.refused result (λ notice. notice ≡ rules.noticed host.now at number draft) }
{
    let Draft {
        message,
        to,
        kind,
        told,
    } = draft;
    let human = human_text(memory, host, &message, kind, told.as_slice())?;
    let status = status_text(memory, host, &message, kind, told.as_slice())?;
    Ok(Notice {
        number,
        kind,
        serial: message.serial,
        at,
        to,
        human: WrittenText::new(human),
        status: WrittenText::new(status),
    })
}

/// Adds notices, under the numbers from `first` on.
fn add_from<M: Memory>(
    memory: M,
    changes: &mut Vec<Change>,
    host: &Host,
    at: Moment,
    first: u64,
    drafts: Vec<Draft>,
) -> Result<(), AllocError>
    requires { first + length drafts.items ≤ 2 ^ 40 }
    ensures { MadeIn M.refused result (λ _. changes.new.items
        ≡ changes.old.items ++ rules.added_from host.now at first drafts.items) }
{
    let mut number = first;
    for draft in drafts {
        let notice = notice(memory, host, at, number, draft)?;
        memory.push(changes, Change::AddNotice(notice))?;
        number += 1;
    }
    Ok(())
}

/// The changes of a plan with those that number and keep its notices, and with its history.
fn with_numbers<M: Memory>(
    memory: M,
    host: &Host,
    entry: &Entry,
    at: Moment,
    changes: Items<Change>,
    mut head: Head,
    drafts: Items<Draft>,
    ended: &[Ended],
) -> Result<Vec<Change>, AllocError>
    requires { head.next_notice + length drafts ≤ 2 ^ 40 }
    ensures { MadeIn M.refused result (λ all. all.items ≡ changes
        ++ PutHead (rules.with_notices (length drafts) head)
        ∷ (rules.added_from host.now at head.next_notice drafts
        ++ (rules.kept_below entry.now.quota.notices (head.next_notice + length drafts) drafts
        ++ kept_history entry.now at (rules.with_notices (length drafts) head) ended.now))) }
{
    let first = head.next_notice;
    let count = drafts.len() as u64;
    head.next_notice = first + count;
    let oldest = head.next_notice.saturating_sub(entry.quota.notices);
    let mut changes = changes.into_vec();
    memory.push(&mut changes, Change::PutHead(head))?;
    add_from(memory, &mut changes, host, at, first, drafts.into_vec())?;
    if count > 0 {
        memory.push(&mut changes, Change::DropNoticesBelow(oldest))?;
    }
    keep_history(memory, &mut changes, entry, at, &head, ended)?;
    Ok(changes)
}

/// Whether too few numbers are left for so many notices.
fn is_spent(first: u64, count: u64) -> bool
    ensures { result ≡ nat_lt spent (first + count) }
{
    first > SPENT || count > SPENT - first
}

/// Carries a plan out: its notices get the next numbers, and where there are any, the newest are
/// kept, as many as the customer's quota says. The recipients that left the queue go into its
/// history. Where too few numbers are left it is 44 `NoticesSpent`, and nothing is changed.
pub fn carry_out<M: Memory>(
    memory: M,
    host: &Host,
    entry: &Entry,
    at: Moment,
    plan: Plan,
) -> Result<Decision, AllocError>
    ensures { MadeIn M.refused result (λ decision. decision
        ≡ rules.carried_out host.now entry.now at plan) }
{
    if is_spent(plan.head.next_notice, plan.drafts.len() as u64) {
        return Ok(refuse(memory, Refusal::NoticesSpent));
    }
    let Plan {
        answer,
        changes,
        head,
        drafts,
        ended,
    } = plan;
    let gone = ended.as_slice();
    let changes = with_numbers(memory, host, entry, at, changes, head, drafts, gone)?;
    Ok(Decision {
        answer,
        changes: Items::from_vec(changes),
    })
}

/// Shows the notice that was found.
pub fn show_notice<M: Memory>(memory: M, found: Option<Notice>) -> Decision
    ensures { result ≡ rules.show_notice found }
{
    match found {
        None => refuse(memory, Refusal::NoNotice),
        Some(notice) => tell(memory, Answer::NoticeShown(notice)),
    }
}

/// The first hundred of the notices, of which one more than that was asked for.
pub fn notice_page<M: Memory>(memory: M, notices: Items<Notice>) -> Decision
    ensures { result ≡ rules.notice_page notices }
{
    let mut notices = notices.into_vec();
    let more = notices.len() > PAGE;
    notices.truncate(PAGE);
    tell(
        memory,
        Answer::NoticesListed(Items::from_vec(notices), more),
    )
}
