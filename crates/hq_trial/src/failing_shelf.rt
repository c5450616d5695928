//! The shelf that fails as told.

ghost use Rattle.std.specs.Prelude.{◌≡◌, ◌⊎◌};
ghost use Rattle.hq_trial.specs.Trials.{uncalled};
ghost use Rattle.hq_trial.specs.Shelves.{inner_of, trial_of, greatest_limit_of};

use crate::failure::{Failure, Trial};
use hq_kept::{Action, Class, End, Line, LookupKey, Mark, Message, Notice, Pattern};
use hq_memory::Memory;
use hq_moves::MovesMessages;
use hq_rules::Move;
use hq_tables::{Account, Change, Shelf};
use hq_values::{Fault, Items, Label, Moment, Name, Serial, Spool};

/// A shelf before another: it hands each call on, or fails it as told without handing it on.
///
/// All calls of a shelf are counted, but for `faults`. Its own count of faults has every 91 and 93
/// that it answered, those of the other among them, and none that the other answered before. After
/// one 93 it is closed, and hands no call on. Only the other takes memory.
#[derive(Drop)]
pub struct FailingShelf<S> {
    inner: S,
    trial: Trial,
    greatest_limit: usize,
}

impl<S> FailingShelf<S> {
    /// A shelf before this one, of which nothing was asked yet. Takes no memory.
    pub fn new(inner: S, failure: Failure) -> FailingShelf<S>
        ensures inner { inner_of result ≡ inner }
        ensures trial { trial_of result ≡ uncalled failure }
        ensures limit { greatest_limit_of result ≡ 0 }
    {
        FailingShelf {
            inner,
            trial: Trial::new(failure),
            greatest_limit: 0,
        }
    }

    /// The greatest number of messages that was asked for at once; 0 where none were asked for.
    pub fn greatest_limit(&self) -> usize
        ensures { result ≡ greatest_limit_of self.now }
    {
        self.greatest_limit
    }
}

impl<S: Shelf> Shelf for FailingShelf<S> {
    ghost use Rattle.std.specs.Prelude.{◌≡◌, ◌⊎◌};
    ghost use Rattle.hq_values.specs.declared.failure.Fault.TheVariants.{Disk, Closed};

    ghost sight = { record {
      tables = λ s. S.sight.tables s.inner;
      is_closed = λ s. s.trial.closed;
      fault_count = λ s. s.trial.faults;
      is_clean = λ s. S.sight.is_clean s.inner;
      is_ours = λ s. S.sight.is_ours s.inner;
      may_answer = λ fault. (fault ≡ Disk) ⊎ ((fault ≡ Closed) ⊎ S.sight.may_answer fault);
      may_leave = λ s t. S.sight.may_leave s.inner t;
      leaves_desk = λ s. S.sight.leaves_desk s.inner;
      goes_back = λ s. S.sight.goes_back s.inner;
    } };

    fn account(&mut self, customer: &Name) -> Result<Account, Fault> {
        let answer = match self.trial.count() {
            Some(fault) => Err(fault),
            None => self.inner.account(customer),
        };
        self.trial.answer(answer)
    }

    fn message(&mut self, customer: &Name, serial: Serial) -> Result<Option<Message>, Fault> {
        let answer = match self.trial.count() {
            Some(fault) => Err(fault),
            None => self.inner.message(customer, serial),
        };
        self.trial.answer(answer)
    }

    fn by_spool(&mut self, customer: &Name, spool: &Spool) -> Result<Option<Message>, Fault> {
        let answer = match self.trial.count() {
            Some(fault) => Err(fault),
            None => self.inner.by_spool(customer, spool),
        };
        self.trial.answer(answer)
    }

    fn messages(
        &mut self,
        customer: &Name,
        after: Option<Serial>,
        limit: usize,
    ) -> Result<Items<Message>, Fault> {
        self.greatest_limit = self.greatest_limit.max(limit);
        let answer = match self.trial.count() {
            Some(fault) => Err(fault),
            None => self.inner.messages(customer, after, limit),
        };
        self.trial.answer(answer)
    }

    fn due(
        &mut self,
        customer: &Name,
        at: Moment,
        after: Option<Serial>,
        limit: usize,
    ) -> Result<Items<Message>, Fault> {
        self.greatest_limit = self.greatest_limit.max(limit);
        let answer = match self.trial.count() {
            Some(fault) => Err(fault),
            None => self.inner.due(customer, at, after, limit),
        };
        self.trial.answer(answer)
    }

    fn line(
        &mut self,
        customer: &Name,
        class: Class,
        key: &LookupKey,
    ) -> Result<Option<Action>, Fault> {
        let answer = match self.trial.count() {
            Some(fault) => Err(fault),
            None => self.inner.line(customer, class, key),
        };
        self.trial.answer(answer)
    }

    fn lines(
        &mut self,
        customer: &Name,
        after: Option<&Pattern>,
        limit: usize,
    ) -> Result<Items<Line>, Fault> {
        let answer = match self.trial.count() {
            Some(fault) => Err(fault),
            None => self.inner.lines(customer, after, limit),
        };
        self.trial.answer(answer)
    }

    fn mark(&mut self, customer: &Name, label: &Label) -> Result<Option<Mark>, Fault> {
        let answer = match self.trial.count() {
            Some(fault) => Err(fault),
            None => self.inner.mark(customer, label),
        };
        self.trial.answer(answer)
    }

    fn notice(&mut self, customer: &Name, number: u64) -> Result<Option<Notice>, Fault> {
        let answer = match self.trial.count() {
            Some(fault) => Err(fault),
            None => self.inner.notice(customer, number),
        };
        self.trial.answer(answer)
    }

    fn notices(
        &mut self,
        customer: &Name,
        after: Option<u64>,
        limit: usize,
    ) -> Result<Items<Notice>, Fault> {
        let answer = match self.trial.count() {
            Some(fault) => Err(fault),
            None => self.inner.notices(customer, after, limit),
        };
        self.trial.answer(answer)
    }

    fn ends(
        &mut self,
        customer: &Name,
        before: Option<u64>,
        limit: usize,
    ) -> Result<Items<End>, Fault> {
        let answer = match self.trial.count() {
            Some(fault) => Err(fault),
            None => self.inner.ends(customer, before, limit),
        };
        self.trial.answer(answer)
    }

    fn apply(&mut self, customer: &Name, changes: &[Change]) -> Result<(), Fault> {
        let answer = match self.trial.count() {
            Some(fault) => Err(fault),
            None => self.inner.apply(customer, changes),
        };
        self.trial.answer(answer)
    }

    fn faults(&self) -> u64 {
        self.trial.faults
    }
}

impl<S: MovesMessages> MovesMessages for FailingShelf<S> {
    fn moving<M: Memory>(&mut self, memory: M, customer: &Name, by: Move) -> Result<u64, Fault> {
        let answer = match self.trial.count() {
            Some(fault) => Err(fault),
            None => self.inner.moving(memory, customer, by),
        };
        self.trial.answer(answer)
    }

    fn move_all<M: Memory>(&mut self, memory: M, customer: &Name, by: Move) -> Result<(), Fault> {
        let answer = match self.trial.count() {
            Some(fault) => Err(fault),
            None => self.inner.move_all(memory, customer, by),
        };
        self.trial.answer(answer)
    }

    fn would_move(
        &mut self,
        customer: &Name,
        serial: Serial,
        by: Move,
    ) -> Result<Option<bool>, Fault> {
        let answer = match self.trial.count() {
            Some(fault) => Err(fault),
            None => self.inner.would_move(customer, serial, by),
        };
        self.trial.answer(answer)
    }

    fn move_one<M: Memory>(
        &mut self,
        memory: M,
        customer: &Name,
        serial: Serial,
        by: Move,
    ) -> Result<(), Fault> {
        let answer = match self.trial.count() {
            Some(fault) => Err(fault),
            None => self.inner.move_one(memory, customer, serial, by),
        };
        self.trial.answer(answer)
    }

    fn apply_dropping_all(
        &mut self,
        customer: &Name,
        changes: &[Change],
        dropped: usize,
    ) -> Result<(), Fault> {
        let answer = match self.trial.count() {
            Some(fault) => Err(fault),
            None => self.inner.apply_dropping_all(customer, changes, dropped),
        };
        self.trial.answer(answer)
    }
}
