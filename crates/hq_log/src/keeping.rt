//! What keeps a log.

ghost use Rattle.std.specs.Prelude.{◌≡◌};
ghost use Rattle.hq_log.specs.Entries as entries;
ghost use Rattle.hq_log.specs.Lines as lines;

use crate::entry::ExchangeEntry;
use hq_requests::{Exchange, Reply};
use hq_values::Moment;

/// An exchange that was replied to.
#[derive(Clone, Copy, Drop)]
pub struct Answered<'e> {
    /// When it was asked; `None` where that could not be read.
    pub at: Option<Moment>,
    /// What was asked; `None` where it could not be read.
    pub asked: Option<&'e Exchange>,
    /// What was replied.
    pub reply: &'e Reply<'e>,
}

/// What keeps a log of exchanges. Nothing of a desk and of a reply depends on it. What it was told
/// is a fact of this value alone: it is obtained by telling it, and by nothing else.
pub trait Log {
    ghost use Rattle.std.specs.Prelude.{List, [], ◌∷◌, ◌++◌};
    ghost use Rattle.hq_log.specs.Entries.{Telling, answered_entry};
    ghost use Rattle.hq_log.specs.Lines.{LogEntry};

    // from one state to another it was told this, in this order, and nothing else
    ghost tells: { Telling Self };

    // nothing was
    ghost none_told: { (log : Self) → tells log [] log };

    // one after another
    ghost told_on: { (old mid new : Self) (told more : List LogEntry) → tells old told mid
        → tells mid more new → tells old (told ++ more) new };

    /// An exchange begins: its time counts from here.
    fn begin(&mut self)
        ensures { tells self.old [] self.new };

    /// One was replied to: it is told.
    fn replied(&mut self, answered: &Answered<'_>)
        ensures { tells self.old (answered_entry answered.now ∷ []) self.new };
}

/// No log: what it is told is lost.
#[derive(Clone, Copy, Debug)]
pub struct NoLog;

impl Log for NoLog {
    ghost use Rattle.std.specs.Prelude.{⊤};

    ghost tells = { λ _ _ _. ⊤ };

    ghost none_told = { λ _. tt };

    ghost told_on = { λ _ _ _ _ _ _ _. tt };

    fn begin(&mut self) {}

    fn replied(&mut self, _answered: &Answered<'_>) {}
}

/// A log that may be there: without one, what it is told is lost.
impl<L: Log> Log for Option<L> {
    ghost use Rattle.hq_log.specs.Entries.{tells_some};
    ghost use Rattle.hq_log.specs.InOrder.{some_none, some_on};

    ghost tells = { tells_some L.tells };

    ghost none_told = { some_none L.tells L.none_told };

    ghost told_on = { some_on L.tells L.told_on };

    fn begin(&mut self) {
        if let Some(log) = self {
            log.begin();
        }
    }

    fn replied(&mut self, answered: &Answered<'_>) {
        if let Some(log) = self {
            log.replied(answered);
        }
    }
}

/// What a line tells of an exchange that took so long.
pub(crate) fn entry_of<'e>(answered: &Answered<'e>, milliseconds: Option<u64>) -> ExchangeEntry<'e>
    ensures entry { lines.entry_seen result ≡ entries.answered_entry answered.now }
    ensures time { result.milliseconds ≡ milliseconds }
{
    let Answered { at, asked, reply } = *answered;
    let (mut method, mut path) = (None, None);
    if let Some(asked) = asked {
        method = Some(asked.method.as_str());
        path = Some(asked.path.as_str());
    }
    ExchangeEntry {
        at,
        method,
        path,
        reply,
        milliseconds,
    }
}
