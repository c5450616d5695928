//! The bytes of answers.

ghost use Rattle.std.specs.Prelude.{◌≡◌, IfOk, OnErr};
ghost use Rattle.hq_memory.specs.Making.{MadeIn};
ghost use Rattle.hq_json.specs.ReadBack.{ReadsBack};
ghost use Rattle.hq_json.specs.Replies as replies;
ghost use Rattle.hq_json.specs.Writing.{after, AnswerReads};

use crate::attempt_replies::{put_attempted, put_due, put_repeated_attempt, put_swept};
use crate::history_replies::{put_found, put_history};
use crate::message_replies::{
    put_admissible, put_changed, put_discarded, put_message, put_messages, put_queued,
    put_rejected, put_repeated, put_requeued,
};
use crate::notice_replies::{put_notice, put_notices};
use crate::queue_replies::{put_allowed, put_report, put_used};
use crate::refusals::put_refusal;
use crate::table_replies::{put_checked, put_imported, put_line_dropped, put_line_put, put_lines};
use hq_memory::Memory;
use hq_rules::{Answer, Render};
use hq_values::Refusal;
use std::alloc::AllocError;

/// The room that an answer begins with, in bytes.
const USUAL_SIZE: usize = 128;

fn put_answer<M: Memory>(memory: M, body: &mut Vec<u8>, answer: &Answer) -> Result<(), AllocError>
    ensures bytes { body.new.items ≡ after result body.old.items body.new.items
        (replies.answer_data answer.now) }
    ensures cause { OnErr result M.refused }
    ensures reads { AnswerReads answer.now }
{
    match answer {
        Answer::Refused(refusal) => put_refusal(memory, body, refusal),
        Answer::Queued(message, refused) => put_queued(memory, body, message, refused.as_slice()),
        Answer::Admissible(receivers, refused, state) => put_admissible(
            memory,
            body,
            receivers.as_slice(),
            refused.as_slice(),
            *state,
        ),
        Answer::Repeated(serial) => put_repeated(memory, body, *serial),
        Answer::Requeued(serial) => put_requeued(memory, body, *serial),
        Answer::Listed(messages, more) => put_messages(memory, body, messages.as_slice(), *more),
        Answer::Shown(message) => put_message(memory, body, message),
        Answer::Changed(count) => put_changed(memory, body, *count),
        Answer::Rejected(refused) => put_rejected(memory, body, refused.as_slice()),
        Answer::Discarded(refused) => put_discarded(memory, body, refused.as_slice()),
        Answer::LinesListed(lines, more) => put_lines(memory, body, lines.as_slice(), *more),
        Answer::LinePut(done) => put_line_put(memory, body, *done),
        Answer::LineDropped => put_line_dropped(memory, body),
        Answer::Checked(keys, found) => put_checked(memory, body, keys.as_slice(), found),
        Answer::Imported(counts) => put_imported(memory, body, *counts),
        Answer::Attempted(counts) => put_attempted(memory, body, *counts),
        Answer::AttemptRepeated(attempts) => put_repeated_attempt(memory, body, *attempts),
        Answer::DueListed(messages, more) => put_due(memory, body, messages.as_slice(), *more),
        Answer::Swept(counts) => put_swept(memory, body, *counts),
        Answer::NoticesListed(notices, more) => {
            put_notices(memory, body, notices.as_slice(), *more)
        }
        Answer::NoticeShown(notice) => put_notice(memory, body, notice),
        Answer::HistoryListed(ends, more) => put_history(memory, body, ends.as_slice(), *more),
        Answer::HistoryFound(ends, next) => put_found(memory, body, ends.as_slice(), *next),
        Answer::Used(usage) => put_used(memory, body, *usage),
        Answer::Allowed(most) => put_allowed(memory, body, *most),
        Answer::Reported(report) => put_report(memory, body, report.as_str()),
    }
}

/// The body of an answer. It ends in want of memory only where the memory refused.
#[tactic(auto, using(crate::proofs::ReadBack::reads_back), unfolding(crate::specs::Replies::answer_text, crate::specs::Writing::after))]
pub fn answer_bytes<M: Memory>(memory: M, answer: &Answer) -> Result<Vec<u8>, AllocError>
    ensures text { MadeIn M.refused result (λ bytes. bytes.items
        ≡ replies.answer_text answer.now) }
    ensures back { IfOk result (λ bytes. ReadsBack answer.now bytes.items) }
{
    let mut body = memory.room(USUAL_SIZE)?;
    put_answer(memory, &mut body, answer)?;
    Ok(body)
}

/// Answers as compact JSON on one line, members in the order of their names.
#[derive(Clone, Copy, Debug)]
pub struct Json;

impl Render for Json {
    ghost use Rattle.std.specs.Prelude.{⊤};
    ghost use Rattle.hq_json.specs.ReadBack.{ReadsBack};
    ghost use Rattle.hq_json.specs.Replies.{answer_text};

    ghost text = { λ _ answer. answer_text answer };

    ghost fits = { λ _ answer bytes. ReadsBack answer bytes };

    ghost takes = { λ _ _. ⊤ };

    fn render<M: Memory>(&self, memory: M, answer: &Answer) -> Result<Vec<u8>, AllocError> {
        answer_bytes(memory, answer)
    }
}

/// The body of a refusal that no call was made for. It ends in want of memory only where the
/// memory refused.
pub fn refusal_text<M: Memory>(memory: M, refusal: Refusal) -> Result<Vec<u8>, AllocError>
    ensures text { MadeIn M.refused result (λ bytes. bytes.items
        ≡ replies.answer_text (Answer.Refused refusal)) }
    ensures back { IfOk result (λ bytes. ReadsBack (Answer.Refused refusal) bytes.items) }
{
    answer_bytes(memory, &Answer::Refused(refusal))
}
