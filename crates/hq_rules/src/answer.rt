//! What the desk answers to a call.

ghost use Rattle.std.specs.Prelude.{◌≡◌};
ghost use Rattle.hq_rules.specs.Answers.{answer_number};

use crate::verdict::Refused;
use hq_kept::{Action, Counts, End, Line, LookupKey, Message, Notice, QueueState, Tally};
use hq_values::{Address, Items, Refusal, Serial, WrittenText};

/// What putting a line did.
#[derive(Clone, Copy, Debug, PartialEq, Eq, Drop)]
pub enum LinePut {
    /// There was no line of its pattern.
    Added,
    /// The line of its pattern had another action.
    Changed,
    /// The line of its pattern had this action already, as actions are written.
    Same,
}

/// What the rows of an import did.
#[derive(Clone, Copy, Debug, PartialEq, Eq, Drop)]
pub struct ImportCounts {
    /// How many set a line where there was none.
    pub added: u64,
    /// How many set a line to another action.
    pub changed: u64,
    /// How many found their line with that very action, as actions are written.
    pub same: u64,
}

/// What became of the recipients of a message in an attempt.
#[derive(Clone, Copy, Debug, PartialEq, Eq, Drop)]
pub struct AttemptCounts {
    /// How many are to be tried again.
    pub deferred: u64,
    /// How many were delivered.
    pub delivered: u64,
    /// How many failed for good.
    pub failed: u64,
    /// How many are pending afterwards.
    pub left: u64,
}

/// What a sweep did.
#[derive(Clone, Copy, Debug, PartialEq, Eq, Drop)]
pub struct SweepCounts {
    /// How many messages were given up.
    pub expired: u64,
    /// How many notices were made.
    pub notices: u64,
    /// How many messages became warned.
    pub warned: u64,
}

/// What a customer has on the desk, and what became of its recipients.
#[derive(Clone, Copy, Debug, PartialEq, Eq, Drop)]
pub struct Usage {
    /// How much it keeps.
    pub counts: Counts,
    /// How many recipients are pending.
    pub pending: u64,
    /// What became of the others.
    pub tally: Tally,
}

/// How much a customer may keep.
#[derive(Clone, Copy, Debug, PartialEq, Eq, Drop)]
pub struct Allowance {
    /// Bytes of the queued messages together.
    pub bytes: u64,
    /// After how many seconds a sender is warned; 0 is never.
    pub delay: u64,
    /// Recipients that left the queue, of which its history tells; 0 is none.
    pub history: u64,
    /// Lines of the access tables.
    pub lines: u64,
    /// Queued messages.
    pub messages: u64,
    /// Notices.
    pub notices: u64,
}

/// The answer to a call.
#[derive(Drop)]
pub enum Answer {
    /// The call was refused, and nothing was changed.
    Refused(Refusal),
    /// The message is in the queue, without the recipients that are refused.
    Queued(Message, Items<Refused>),
    /// A submission would be queued: for these recipients, without those that are refused, and in
    /// this state.
    Admissible(Items<Address>, Items<Refused>, QueueState),
    /// A message of that spool name is queued already, under this serial.
    Repeated(Serial),
    /// The access tables refuse the submission: its sender alone, or all its recipients.
    Rejected(Items<Refused>),
    /// The access tables discard the submission; these recipients are refused.
    Discarded(Items<Refused>),
    /// The first messages, in order of serial, and whether more follow.
    Listed(Items<Message>, bool),
    /// The message whole.
    Shown(Message),
    /// The message is queued anew, under this serial.
    Requeued(Serial),
    /// How many messages were changed.
    Changed(u64),
    /// The first lines, in order of class and pattern, and whether more follow.
    LinesListed(Items<Line>, bool),
    /// What putting the line did.
    LinePut(LinePut),
    /// The line is dropped.
    LineDropped,
    /// The keys of the address in the order in which they are tried, and the first of them that
    /// has a line, with its action.
    Checked(Items<LookupKey>, Option<(LookupKey, Action)>),
    /// What the rows of the import did, now or when its label was first used.
    Imported(ImportCounts),
    /// What became of the recipients in the attempt.
    Attempted(AttemptCounts),
    /// The attempt was reported before; so many were reported.
    AttemptRepeated(u32),
    /// The first messages that may be tried, in order of serial, and whether more follow.
    DueListed(Items<Message>, bool),
    /// What the sweep did.
    Swept(SweepCounts),
    /// The first notices, in order of number, and whether more follow.
    NoticesListed(Items<Notice>, bool),
    /// The notice whole.
    NoticeShown(Notice),
    /// The newest ends of the history, the newest first, and whether more follow.
    HistoryListed(Items<End>, bool),
    /// The ends that were found, the newest first, and the number before which the search goes on;
    /// none where all were looked at.
    HistoryFound(Items<End>, Option<u64>),
    /// What the customer has on the desk.
    Used(Usage),
    /// How much the customer may keep.
    Allowed(Allowance),
    /// The queue report.
    Reported(WrittenText),
}

impl Answer {
    /// 0, or the refusal's number.
    pub fn number(&self) -> u16
        ensures { result ≡ answer_number self.now }
    {
        match self {
            Answer::Refused(refusal) => refusal.number(),
            _ => 0,
        }
    }
}
