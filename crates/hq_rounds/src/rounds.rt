//! Rounds of a shelf.

ghost use Rattle.std.specs.Prelude.{◌≡◌, ◌⊎◌, IfOk, IfErr};
ghost use Rattle.hq_values.specs.declared.failure.Fault.{Fault};
ghost use Rattle.hq_values.specs.declared.failure.Fault.TheVariants.{Closed};
ghost use Rattle.hq_rounds.specs.Rounds.{BeginsRound, EndsRound, StaysOut};

use hq_moves::MovesMessages;

/// A shelf on which a round can be begun: all that is done in it stands in the end, or none of it.
/// One commit makes it stand, in place of one for each call.
pub trait Rounds: MovesMessages + Drop {
    /// The shelf while a round is open. A call that fails closes it: it answers 93, as every call
    /// from then on does, and the round does not stand.
    type Round: MovesMessages + Drop;

    /// Begins a round; or the shelf comes back, as it was or closed. It counts no fault.
    fn begin(self) -> Result<Self::Round, Self>
        ensures begun { IfOk result (BeginsRound Self.sight Self.Round.sight self) }
        ensures kept { IfErr result (StaysOut Self.sight self) };

    /// Ends a round, and tells whether it stands. Where it does not, nothing of it is done, and so
    /// many faults are counted.
    fn settle(round: Self::Round, faults: u64) -> (bool, Self)
        ensures { EndsRound Self.Round.sight Self.sight round faults result.0 result.1 };

    /// In a round the faults are the same, and 93, which ends it.
    ghost same_faults: { (fault : Fault) → Self.Round.sight.may_answer fault
        → (fault ≡ Closed) ⊎ Self.sight.may_answer fault };
}
