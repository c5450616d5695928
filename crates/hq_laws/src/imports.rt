//! An import is kept for good: its label answers the same ever after.

ghost use Rattle.std.specs.Prelude.{◌≡◌, ◌≢◌, ℕ, List};
ghost use Rattle.hq_kept.specs.declared.account.Entry.{Entry};
ghost use Rattle.hq_tables.specs.Tables.{State};
ghost use Rattle.hq_rules.specs.declared.answer.Answer.TheVariants.{Imported};
ghost use Rattle.hq_rules.specs.declared.answer.ImportCounts.{ImportCounts};
ghost use Rattle.hq_rules.specs.declared.call.Call.TheVariants.{Import};
ghost use Rattle.hq_rules.specs.Machine.{step};
ghost use Rattle.hq_laws.specs.Entries.{TimedCall, state_over};

/// An import that was answered with counts is kept for good: after any calls of the customer, the
/// same file under its label is answered with these counts and changes nothing. So it is whatever
/// the customer's row of the directory and the relay's name are then, and were meanwhile.
pub fn imports_are_kept()
    ensures { (host later_host : List ℕ) (entry later_entry : Entry) (s : State) (at : ℕ)
        (label file : List ℕ) (counts : ImportCounts) (calls : List TimedCall) (later : ℕ)
        → (step host entry s at (Import label file)).0 ≡ Imported counts
        → (let after = state_over (step host entry s at (Import label file)).1 calls in
        step later_host later_entry after later (Import label file) ≡ (Imported counts, after)) }
{}
