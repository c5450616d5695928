//! What every desk does, whichever store it stands on.

use crate::call::Call;
use crate::csv_memory::CsvMemory;
use crate::render::{Render, Rendered};
use hq_kept::Entry;
use hq_values::{Fault, Moment};

/// A desk of all customers, for one relay: it does their calls, each on that customer's records
/// alone.
///
/// What is said of tables is said where the store is clean as the call ends, its rows were those of
/// the tables before, and the tables were sound. All else is said whatever the store is.
pub trait Acts {
    ghost use Rattle.std.specs.Prelude.{◌≡◌, IfOk, OnOk};
    ghost use Rattle.hq_tables.specs.Shelves.{KeepsOnErr, OnSound, OnOpenSound, StopLeavesWhole};
    ghost use Rattle.hq_tables.specs.Sound.{Sound};
    ghost use Rattle.hq_rules.specs.Desks.{AnswersAre, DeskSight, or_memory, stepped};
    ghost use Rattle.hq_rules.specs.Desks.{IsRendered, IsSomeAnswer};

    /// What is seen of it.
    ghost sight: { DeskSight Self };

    /// Does a call of a customer at a moment. The answer is rendered before anything is changed,
    /// and nothing takes memory after the changes, so after 90 and 91 the tables are as before;
    /// after 93 every call answers 93, or 90, until the store is opened again. Wherever in it the
    /// process or its machine stops, an opening finds the tables before it or those of the shared
    /// step.
    ///
    /// Where the rendering is for every answer to the call, it ends in 90 only where this memory
    /// refused a request, or where the store may.
    fn act<R: Render, M: CsvMemory>(
        &mut self,
        memory: M,
        at: Moment,
        entry: &Entry,
        call: Call,
        render: &R,
    ) -> Result<Rendered, Fault>
        // The shared step's answer as it is rendered, and its tables, which stay sound; or a fault.
        ensures answer { OnSound sight.store self.old self.new
            (IfOk result (IsRendered (R.text render.now)
            (stepped sight self.old entry.now at call).0)) }
        ensures tables { OnSound sight.store self.old self.new
            (OnOk result (sight.store.tables self.new
            ≡ (stepped sight self.old entry.now at call).1)) }
        ensures sound { OnOpenSound sight.store self.old self.new
            (Sound (sight.store.tables self.new)) }
        ensures stops { OnSound sight.store self.old self.new
            (StopLeavesWhole sight.store self.old self.new
            (stepped sight self.old entry.now at call).1) }
        // Whatever the store is, what is written is some answer's text, and fits.
        ensures shown { IfOk result (IsSomeAnswer (R.text render.now) (R.fits render.now)) }
        ensures kept { KeepsOnErr (or_memory (AnswersAre (R.takes render.now) call → M.refused)
            sight.store) self.old self.new result }
        ensures host { sight.host self.new ≡ sight.host self.old };
}
