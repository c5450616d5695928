//! The desk over any shelf: what a call does. The shelf is asked before memory is wanted, since a
//! closed one answers 93 alone.

ghost use Rattle.std.specs.Prelude.{◌≡◌, IfOk, OnOk};
ghost use Rattle.hq_tables.specs.Shelves.{KeepsOnErr, OnSound, OnOpenSound, StopLeavesWhole};
ghost use Rattle.hq_tables.specs.Sound.{Sound};
ghost use Rattle.hq_rules.specs.Desks.{AnswersAre, or_memory, stepped};
ghost use Rattle.hq_rules.specs.Desks.{IsRendered, IsSomeAnswer};
ghost use Rattle.hq_desk.specs.Desks.{on, shelf_of, host_of};

use crate::dropping::{apply_decision, deletes_all};
use crate::moving::{move_all, move_asked, move_one, one_asked};
use hq_kept::Entry;
use hq_moves::MovesMessages;
use hq_reads::decide;
use hq_rules::{Acts, Call, CsvMemory, Render, Rendered};
use hq_values::{Fault, Host, Moment};

/// The desk of all customers, over a shelf that keeps their tables.
#[derive(Drop)]
pub struct Desk<S> {
    shelf: S,
    host: Host,
}

impl<S: MovesMessages + Drop> Desk<S> {
    /// A desk over a shelf, for a relay of this name. It takes no memory.
    pub fn new(shelf: S, host: Host) -> Desk<S>
        ensures shelf { shelf_of result ≡ shelf }
        ensures host { host_of result ≡ host }
    {
        Desk { shelf, host }
    }

    /// The shelf again. It takes no memory.
    pub fn into_shelf(self) -> S
        ensures { result ≡ shelf_of self }
    {
        self.shelf
    }

    /// The shelf again, and the name of the relay. It takes no memory.
    pub fn into_parts(self) -> (S, Host)
        ensures shelf { result.0 ≡ shelf_of self }
        ensures host { result.1 ≡ host_of self }
    {
        let Desk { shelf, host } = self;
        (shelf, host)
    }

    /// Does a call by the customer's records that the decision needs, each of which is read.
    fn act_by_reading<R: Render, M: CsvMemory>(
        &mut self,
        memory: M,
        at: Moment,
        entry: &Entry,
        call: Call,
        render: &R,
    ) -> Result<Rendered, Fault>
        ensures answer { OnSound (on S.sight).store self.old self.new
            (IfOk result (IsRendered (R.text render.now)
            (stepped (on S.sight) self.old entry.now at call).0)) }
        ensures tables { OnSound (on S.sight).store self.old self.new
            (OnOk result ((on S.sight).store.tables self.new
            ≡ (stepped (on S.sight) self.old entry.now at call).1)) }
        ensures sound { OnOpenSound (on S.sight).store self.old self.new
            (Sound ((on S.sight).store.tables self.new)) }
        ensures stops { OnSound (on S.sight).store self.old self.new
            (StopLeavesWhole (on S.sight).store self.old self.new
            (stepped (on S.sight) self.old entry.now at call).1) }
        ensures shown { IfOk result (IsSomeAnswer (R.text render.now) (R.fits render.now)) }
        ensures kept { KeepsOnErr (or_memory (AnswersAre (R.takes render.now) call → M.refused)
            (on S.sight).store) self.old self.new result }
        ensures host { host_of self.new ≡ host_of self.old }
    {
        let all = deletes_all(&call);
        let decision = decide(&mut self.shelf, &self.host, memory, at, entry, call)?;
        let number = decision.answer.number();
        let bytes = render.render(memory, &decision.answer)?;
        apply_decision(&mut self.shelf, &entry.name, all, &decision)?;
        Ok(Rendered { number, bytes })
    }
}

impl<S: MovesMessages + Drop> Acts for Desk<S> {
    ghost sight = { on S.sight };

    fn act<R: Render, M: CsvMemory>(
        &mut self,
        memory: M,
        at: Moment,
        entry: &Entry,
        call: Call,
        render: &R,
    ) -> Result<Rendered, Fault> {
        if let Some(asked) = one_asked(&call, at) {
            return move_one(&mut self.shelf, memory, entry, &asked, render);
        }
        match move_asked(&call, at) {
            Some(by) => move_all(&mut self.shelf, memory, entry, &by, render),
            None => self.act_by_reading(memory, at, entry, call, render),
        }
    }
}
