//! When a shelf fails, and what it remembers of its calls.

ghost use Rattle.std.specs.Prelude.{◌≡◌};
ghost use Rattle.hq_trial.specs.Trials.{fault_planned, call_counted, uncalled, after_answer};

use hq_values::Fault;

/// When a shelf fails. Its calls count from 1.
#[derive(Clone, Copy, Debug, PartialEq, Eq, Drop)]
pub enum Failure {
    /// The call of this number alone answers 91 `Disk`.
    DiskOnce {
        /// The number of the call; 0 is no call's.
        at: u64,
    },
    /// The call of this number and every later one answer 93 `Closed`.
    ClosedFrom {
        /// The number of the first of these calls; 0 and 1 are both the first call of all.
        at: u64,
    },
}

/// What a shelf that fails as told remembers.
#[derive(Drop)]
pub(crate) struct Trial {
    /// When it fails.
    pub(crate) failure: Failure,
    /// How many calls were made; at the greatest `u64` it stays.
    pub(crate) calls: u64,
    /// How many 91 and 93 were answered; at the greatest `u64` it stays.
    pub(crate) faults: u64,
    /// Whether 93 was answered.
    pub(crate) closed: bool,
}

impl Trial {
    /// Nothing was called yet.
    pub(crate) fn new(failure: Failure) -> Trial
        ensures { result ≡ uncalled failure }
    {
        Trial {
            failure,
            calls: 0,
            faults: 0,
            closed: false,
        }
    }

    /// The fault of the call that was counted last, if it is to fail.
    fn fault_planned(&self) -> Option<Fault>
        ensures { result ≡ fault_planned self.now }
    {
        if self.closed {
            return Some(Fault::Closed);
        }
        match self.failure {
            Failure::DiskOnce { at } if at == self.calls => Some(Fault::Disk),
            Failure::ClosedFrom { at } if at <= self.calls => Some(Fault::Closed),
            _ => None,
        }
    }

    /// Counts a call, and tells whether it is to fail.
    pub(crate) fn count(&mut self) -> Option<Fault>
        ensures counted { self.new ≡ call_counted self.old }
        ensures planned { result ≡ fault_planned (call_counted self.old) }
    {
        self.calls = self.calls.saturating_add(1);
        self.fault_planned()
    }

    /// Remembers the fault of an answer, and hands the answer on.
    pub(crate) fn answer<T>(&mut self, answer: Result<T, Fault>) -> Result<T, Fault>
        ensures answer { result ≡ answer }
        ensures after { self.new ≡ after_answer answer self.old }
    {
        match &answer {
            Err(Fault::Disk) => self.faults = self.faults.saturating_add(1),
            Err(Fault::Closed) => {
                self.faults = self.faults.saturating_add(1);
                self.closed = true;
            }
            _ => {}
        }
        answer
    }
}
